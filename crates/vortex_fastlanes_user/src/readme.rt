//! The example of the README.

ghost use Rattle.std.specs.Prelude.{◌≡◌, ◌≤◌, Ok, IfOk, IsTrue, length};
ghost use Rattle.vortex_fastlanes.specs.ArrayQueries.{compare_scalar, is_comparable};
ghost use Rattle.vortex_fastlanes.specs.Columns.{column_of_bools, column_of_primitive};
ghost use Rattle.vortex_fastlanes.specs.Operations.{slice_of};
ghost use Rattle.vortex_fastlanes.specs.Values.{scalar_parts};

use std::alloc::Global;
use vortex_fastlanes::array::*;
use vortex_fastlanes::encode::*;
use vortex_fastlanes::*;

/// The items of `start..end`, and how each compares with a constant, of an array that is encoded as
/// bit-packed differences from its minimum.
pub fn part_and_comparison(
    alloc: Global,
    plain: &PrimitiveArray,
    start: usize,
    end: usize,
    operator: CompareOperator,
    constant: &Scalar,
) -> Result<(PrimitiveArray, BoolArray), FastLanesError>
    requires order { start ≤ end }
    requires range { end ≤ length (column_of_primitive plain.now).items }
    requires comparable { IsTrue (is_comparable (column_of_primitive plain.now) (scalar_parts constant.now)) }
    ensures part { IfOk result (λ r. column_of_primitive r.0 ≡ slice_of start end (column_of_primitive plain.now)) }
    ensures comparison { IfOk result (λ r. Ok (column_of_bools r.1) ≡ compare_scalar operator (scalar_parts constant.now) (slice_of start end (column_of_primitive plain.now))) }
{
    let packed = Child::new(alloc, Scheme::BitPacked(Packing::BestWidth))?;
    let scheme = Scheme::FoR {
        order: ItemOrder::Natural,
        encoded: packed,
    };
    let array = encode(alloc, plain, &scheme)?;

    let part = array.slice(alloc, start..end)?;
    let comparison = part.compare(alloc, operator, constant)?;
    Ok((part.to_primitive(alloc)?, comparison))
}

/// Two and a half blocks of times, one a second.
fn times(alloc: Global) -> Result<PrimitiveArray, FastLanesError> {
    let mut times = Vec::with_capacity(alloc, 2500)?;
    for i in 0..2500u32 {
        times.push(1_700_000_000 + i)?;
    }
    PrimitiveArray::new(times, Validity::NonNullable)
}

/// Whether of four times around the start of the second block exactly those before it are below its first time.
fn is_found(times: &PrimitiveArray, alloc: Global) -> Option<bool> {
    let DType::Primitive(PType::U32, _) = times.dtype() else {
        return None;
    };
    if times.len() < 1026 {
        return None;
    }
    let limit = Scalar::primitive(PValue::U32(1_700_001_024), Nullability::NonNullable);
    match part_and_comparison(alloc, times, 1022, 1026, CompareOperator::Lt, &limit) {
        Ok((part, before)) if part.len() == 4 && before.len() == 4 => Some(
            before.get(0)? && before.get(1)? && !before.get(2)? && !before.get(3)?,
        ),
        _ => None,
    }
}

#[test]
fn part_is_found(rt: HostRuntime) {
    let alloc = rt.alloc();
    let found = match times(alloc) {
        Ok(times) => is_found(&times, alloc),
        Err(_) => None,
    };
    assert!(rt; found == Some(true));
}
