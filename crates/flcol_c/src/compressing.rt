//! Arrays that are encoded as small as they get.

ghost use Rattle.std.specs.Prelude.{◌≡◌, ◌<◌};
ghost use Rattle.fl_array.specs.Reads.{integer_column};
ghost use Rattle.fl_array.specs.Trees.{column};
ghost use Rattle.flcol_c.specs.Compressing.{IsCompressionBy, IsCompressionOf, IsCompressionWithin, is_bit, limits_of};
ghost use Rattle.flcol_c.specs.Statuses.{Gives, GivesAfter, fault_in, refusal_in};

use crate::fault::Fault;
use crate::plain::simplest_of;
use fl_array::ArrayRef;
use fl_compress::Limits;
use std::alloc::Global;

/// The smallest array of the same column that the limits allow.
///
/// # Errors
/// `NotInteger` of booleans.
#[tactic(auto, using(crate::proofs::CompressLaws::compressed, crate::proofs::StatusLaws::memory_alone))]
fn compress_to(alloc: Global, array: &ArrayRef, limits: &Limits) -> Result<ArrayRef, Fault>
    ensures { Gives (refusal_in (integer_column (column array.now))) (IsCompressionWithin limits.now array.now) result }
{
    let plain = simplest_of(alloc, array)?;
    Ok(fl_compress::compress_within(alloc, &plain, limits)?)
}

/// The smallest array of the same column.
///
/// # Errors
/// `NotInteger` of booleans.
pub(crate) fn compress(alloc: Global, array: &ArrayRef) -> Result<ArrayRef, Fault>
    ensures { Gives (refusal_in (integer_column (column array.now))) (IsCompressionOf array.now) result }
{
    compress_to(alloc, array, &Limits::default())
}

/// Whether the bit of a power of 2 is set.
fn is_bit(power: u8, bits: u8) -> bool
    requires { 0 < power }
    ensures { result ≡ is_bit power bits }
{
    bits / power % 2 == 1
}

/// The limits that bits of encodings and a depth say.
///
/// # Errors
/// `BadEncodings` where a bit stands for no encoding.
fn limits_of(encodings: u8, depth: u8) -> Result<Limits, Fault>
    ensures { result ≡ limits_of encodings depth }
{
    if encodings >= 64 {
        return Err(Fault::BadEncodings);
    }
    Ok(Limits {
        depth,
        constant: is_bit(1, encodings),
        bitpacked: is_bit(2, encodings),
        for_: is_bit(4, encodings),
        delta: is_bit(8, encodings),
        rle: is_bit(16, encodings),
        dict: is_bit(32, encodings),
    })
}

/// The smallest array of the same column that encodings and a depth allow.
///
/// # Errors
/// `BadEncodings` where a bit stands for no encoding, before memory is asked for; `NotInteger` of booleans.
pub(crate) fn compress_within(
    alloc: Global,
    array: &ArrayRef,
    encodings: u8,
    depth: u8,
) -> Result<ArrayRef, Fault>
    ensures { GivesAfter (fault_in (limits_of encodings depth)) (refusal_in (integer_column (column array.now))) (IsCompressionBy encodings depth array.now) result }
{
    let limits = limits_of(encodings, depth)?;
    compress_to(alloc, array, &limits)
}
