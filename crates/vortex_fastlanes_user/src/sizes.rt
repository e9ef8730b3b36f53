//! What callers can prove of how many bytes arrays take.

ghost use Rattle.std.specs.Prelude.{◌≡◌, IfOk, IsTrue, Some};
ghost use Rattle.vortex_fastlanes.specs.Columns.{column_of_primitive};
ghost use Rattle.vortex_fastlanes.specs.SchemeShapes.{shape};
ghost use Rattle.vortex_fastlanes.specs.Statistics.{is_candidate};

use std::alloc::Global;
use vortex_fastlanes::compress::*;
use vortex_fastlanes::encode::*;
use vortex_fastlanes::*;

/// How many bytes an array takes by a scheme of those that `compress` chooses from: what its statistics say before it
/// is encoded, and what it takes then, which is the same.
///
/// # Errors
/// Those of `encode`.
pub fn foreseen_and_taken(
    alloc: Global,
    array: &PrimitiveArray,
    scheme: &Scheme,
) -> Result<(Option<u64>, u64), FastLanesError>
    requires { IsTrue (is_candidate (shape scheme.now)) }
    ensures { IfOk result (λ sizes. sizes.0 ≡ Some sizes.1) }
{
    let statistics = statistics_of(alloc, array)?;
    let encoded = encode(alloc, array, scheme)?;
    Ok((size_of(scheme, &statistics), nbytes(&encoded)))
}

/// Compresses an array and decodes it: its column is back.
///
/// # Errors
/// Only `OutOfMemory`.
pub fn compressed_and_back(
    alloc: Global,
    array: &PrimitiveArray,
) -> Result<PrimitiveArray, FastLanesError>
    ensures { IfOk result (λ a. column_of_primitive a ≡ column_of_primitive array.now) }
{
    let compressed = compress(alloc, array)?;
    compressed.to_primitive(alloc)
}
