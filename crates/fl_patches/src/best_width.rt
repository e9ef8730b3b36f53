//! The width of least cost.

ghost use Rattle.std.specs.Prelude.{IfOk, ◌≡◌, ◌+◌, ◌*◌, ◌^◌, ◌<◌, ◌≤◌, ℕ, length, sum};
ghost use Rattle.std.specs.Int.{div_ceil};
ghost use Rattle.fl_patches.specs.Costs.{best_width, choose_width, count_above, exception_bytes};

use fl_types::{FastLanesError, PType};

/// The number of items of a histogram that have more bits than a width. It fits a `usize`, as it
/// does for the histogram of an array.
pub fn count_exceptions(width: u8, histogram: &[usize]) -> usize
    requires { count_above width histogram.now < 2 ^ 64 }
    ensures { result ≡ count_above width histogram.now }
{
    let mut count = 0;
    for i in width as usize + 1..histogram.len() {
        count += histogram[i];
    }
    count
}

/// The bytes of an exception.
fn exception_bytes(ptype: PType) -> u128
    ensures value { result ≡ exception_bytes ptype }
    ensures few { result ≤ 12 }
{
    ptype.bit_width() as u128 / 8 + 4
}

/// The sum of the entries.
fn total(histogram: &[usize]) -> u128
    requires { length histogram.now ≤ 255 }
    ensures value { result ≡ sum histogram.now }
    ensures fits { result ≤ 2 ^ 72 }
{
    let mut all: u128 = 0;
    for entry in histogram {
        all += *entry as u128;
    }
    all
}

/// The bytes of `count` items at a width that leaves `above` of them out, each of which takes `each`.
fn cost(each: u128, count: u128, above: u128, width: usize) -> u128
    requires each { each ≤ 12 }
    requires count { count ≤ 2 ^ 72 }
    requires above { above ≤ 2 ^ 72 }
    requires width { width ≤ 255 }
    ensures { result ≡ div_ceil (width * count) 8 + each * above }
{
    (width as u128 * count).div_ceil(8) + each * above
}

/// The smallest width of least cost, 0 without entries.
pub(crate) fn least_cost(ptype: PType, histogram: &[usize]) -> u8
    requires { length histogram.now ≤ 255 }
    ensures { result ≡ best_width ptype histogram.now }
{
    if histogram.len() == 0 {
        return 0;
    }
    let each = exception_bytes(ptype);
    let count = total(histogram);
    let mut above = count - histogram[0] as u128;
    let mut best = 0;
    let mut least = cost(each, count, above, 0);
    for width in 1..histogram.len() {
        above -= histogram[width] as u128;
        let bytes = cost(each, count, above, width);
        if bytes < least {
            least = bytes;
            best = width as u8;
        }
    }
    best
}

/// The best width by a histogram, as `find_best_bit_width` chooses it, and how many items have more bits than that.
pub fn best_of(ptype: PType, histogram: &[usize]) -> (u8, usize)
    requires entries { length histogram.now ≤ 255 }
    requires few { (width : ℕ) → count_above width histogram.now < 2 ^ 64 }
    ensures width { result.0 ≡ best_width ptype histogram.now }
    ensures exceptions { result.1 ≡ count_above result.0 histogram.now }
{
    let width = least_cost(ptype, histogram);
    (width, count_exceptions(width, histogram))
}

/// The smallest width of least cost for the items of a histogram, below the number of entries, or 0
/// without entries. The cost of width `w` is `w` bits for each item, rounded up to bytes together,
/// and for each item with more bits 5, 6, 8 or 12 bytes, if the type has 8, 16, 32 or 64 bits.
///
/// # Errors
/// `TooManyWidths` if the histogram has more than 255 entries.
pub fn find_best_bit_width(ptype: PType, histogram: &[usize]) -> Result<u8, FastLanesError>
    ensures width { result ≡ choose_width ptype histogram.now }
    ensures within { IfOk result (λ width. 0 < length histogram.now → width < length histogram.now) }
{
    if histogram.len() > 255 {
        return Err(FastLanesError::TooManyWidths);
    }
    Ok(least_cost(ptype, histogram))
}
