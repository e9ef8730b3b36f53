//! The sum of integers.

ghost use Rattle.std.specs.Prelude.{◌≡◌, ◌+ℤ◌, ◌-ℤ◌, ◌≤ℤ◌, ◌<ℤ◌, ◌+◌, ◌*◌, ◌≤◌, length, map, pos, replicate};
ghost use Rattle.std.specs.Int.{int_wrap, w128};
ghost use Rattle.fl_scan.specs.Raised.{raise};
ghost use Rattle.fl_scan.specs.Totals.{total};
ghost use Rattle.fl_scan.specs.TotalLaws.{total_joined, total_stays};

use crate::folds::Fold;
use fl_column::{FastLanesError, NativePType, PType};
use fl_types::laws::integer_is_in_range;

/// The sum of integers, modulo 2 to the power of 128.
#[derive(Drop)]
pub(crate) struct Total {
    /// The sum, as far as 128 bits hold it.
    pub(crate) total: i128,
}

/// How far the least integer of a type is below 0.
fn raise_of(ptype: PType) -> u64
    ensures { result ≡ raise ptype }
{
    match ptype {
        PType::U8 | PType::U16 | PType::U32 | PType::U64 => 0,
        PType::I8 => 128,
        PType::I16 => 32768,
        PType::I32 => 2147483648,
        PType::I64 => 9223372036854775808,
    }
}

/// An integer plus a number.
fn plus(z: i128, raise: u64) -> u64
    requires low { pos 0 ≤ℤ (z +ℤ pos raise) }
    requires high { (z +ℤ pos raise) <ℤ pos 18446744073709551616 }
    ensures { pos result ≡ z +ℤ pos raise }
{
    (z + raise as i128) as u64
}

/// How far an integer is above the least one of its type.
fn raised<T: NativePType>(item: T) -> u64
    ensures { pos result ≡ T.value item +ℤ pos (raise T.PTYPE) }
{
    integer_is_in_range(item);
    plus(item.as_i128(), raise_of(T::PTYPE))
}

/// The sums of the low 32 bits of how far each of a block's integers is above the least one of the type, and of the other
/// bits. Neither wraps, so that they are added in lanes.
fn raised_halves<T: NativePType>(items: &[T]) -> (u64, u64)
    requires { length items.now ≤ 1024 }
    ensures sum { pos (4294967296 * result.1 + result.0) ≡ total (map T.value items.now) +ℤ pos (length items.now * raise T.PTYPE) }
    ensures low { result.0 ≤ 4398046510080 }
    ensures high { result.1 ≤ 4398046510080 }
{
    let (mut low, mut high) = (0u64, 0u64);
    for item in items {
        let item = raised(*item);
        low += item % 4294967296;
        high += item / 4294967296;
    }
    (low, high)
}

/// The number with these halves, less a number of times.
fn joined(low: u64, high: u64, count: usize, raise: u64) -> i128
    requires low { low ≤ 4398046510080 }
    requires high { high ≤ 4398046510080 }
    requires raised { count * raise ≤ 9444732965739290427392 }
    ensures { result ≡ pos (4294967296 * high + low) -ℤ pos (count * raise) }
{
    let sum = 4294967296 * high as u128 + low as u128;
    let raised = count as u128 * raise as u128;
    sum as i128 - raised as i128
}

/// The sum of at most 1024 integers.
fn total_of_block<T: NativePType>(items: &[T]) -> i128
    requires { length items.now ≤ 1024 }
    ensures { result ≡ total (map T.value items.now) }
{
    let (low, high) = raised_halves(items);
    joined(low, high, items.len(), raise_of(T::PTYPE))
}

/// The sum of these integers, modulo 2 to the power of 128.
fn total_of<T: NativePType>(items: &[T]) -> i128
    ensures { int_wrap w128 result ≡ int_wrap w128 (total (map T.value items.now)) }
{
    let mut total = 0i128;
    for k in 0..items.len().div_ceil(1024) {
        let from = 1024 * k;
        let count = (items.len() - from).min(1024);
        total = total.wrapping_add(total_of_block(&items[from..from + count]));
    }
    total
}

/// The sum of an integer this many times, modulo 2 to the power of 128.
fn repeated<T: NativePType>(item: T, times: usize) -> i128
    ensures { int_wrap w128 result ≡ int_wrap w128 (total (replicate times (T.value item))) }
{
    item.as_i128().wrapping_mul(times as i128)
}

impl<T: NativePType> Fold<T> for Total {
    ghost Leads = { λ a xs b. int_wrap w128 b.total ≡ int_wrap w128 (a.total +ℤ total xs) };

    ghost stays = { λ s. total_stays s.total };

    ghost joined = { λ a b c xs ys h k. total_joined a.total b.total c.total xs ys h k };

    fn add(&mut self, item: T) -> Result<(), FastLanesError> {
        self.total = self.total.wrapping_add(item.as_i128());
        Ok(())
    }

    fn add_all(&mut self, items: &[T]) -> Result<(), FastLanesError> {
        self.total = self.total.wrapping_add(total_of(items));
        Ok(())
    }

    fn add_repeated(&mut self, item: T, times: usize) -> Result<(), FastLanesError> {
        self.total = self.total.wrapping_add(repeated(item, times));
        Ok(())
    }

    fn stand_in(_items: &[T], _word: u64) -> Option<T> {
        Some(T::zero())
    }
}
