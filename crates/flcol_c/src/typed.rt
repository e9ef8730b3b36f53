//! The calls that stand for each integer type, over any of them.

ghost use Rattle.std.specs.Prelude.{◌≡◌, ◌≢◌, IfSome, None, Some, length, map, pos, slice_index_or};
ghost use Rattle.fl_array.specs.Trees.{Constant, Primitive, column};
ghost use Rattle.fl_column.specs.Queries.{holds, is_between};
ghost use Rattle.fl_scan.specs.Membership.{is_one_of};
ghost use Rattle.flcol_c.specs.Answering.{AreAnswers, compare_fault, operator_of, options_of, test_fault};
ghost use Rattle.fl_bitmaps.specs.Bitmaps.{IsClearFrom, items_in};
ghost use Rattle.flcol_c.specs.Bitmaps.{short_fault};
ghost use Rattle.flcol_c.specs.Held.{IsKept, IsStatusOn};
ghost use Rattle.flcol_c.specs.Operations.{repeated};
ghost use Rattle.flcol_c.specs.Reading.{IsItem, get_fault, nulls_fault, read_fault};
ghost use Rattle.flcol_c.specs.Statuses.{IsStatusAfter, IsStatusOf};
ghost use Rattle.flcol_c.specs.Values.{plain_in};

use crate::fault::{Fault, status_of};
use crate::handle::ArrayHandle;
use crate::kept::keep;
use crate::{answering, making, reading};
use fl_bitpacking::unpack_iter::BitPacked;
use fl_column::{NativePType, PhysicalPType};
use num_traits::WrappingAdd;
use std::alloc::Global;

/// Makes a plain array of these values, of which those are valid whose bits are set.
pub(crate) fn from_values<T: NativePType>(
    alloc: Global,
    values: &[T],
    validity: &[u8],
    out: &mut ArrayHandle,
) -> i32
    ensures status { IsStatusAfter (short_fault validity.now (length values.now)) None result }
    ensures made { result ≡ pos 0 → out.new.tree ≡ Some (Primitive (plain_in T.PTYPE (map T.value values.now) validity.now)) }
    ensures unmade { result ≢ pos 0 → out.new ≡ out.old }
{
    keep(out, alloc, making::from_values(alloc, values, validity))
}

/// Makes a constant array of this many times a value, without nulls, or where `is_null` is not 0 a null.
pub(crate) fn constant<T: NativePType>(
    alloc: Global,
    value: T,
    is_null: u8,
    len: usize,
    out: &mut ArrayHandle,
) -> i32
    ensures status { IsStatusOf None result }
    ensures made { result ≡ pos 0 → out.new.tree ≡ Some (Constant (repeated T.PTYPE (T.value value) is_null len)) }
    ensures unmade { result ≢ pos 0 → out.new ≡ out.old }
{
    keep(out, alloc, making::constant(value, is_null, len))
}

/// Writes the values of an array, and which of them are valid.
pub(crate) fn read<T: BitPacked + PhysicalPType + WrappingAdd>(
    alloc: Global,
    array: &mut ArrayHandle,
    values: &mut [T],
    validity: &mut [u8],
) -> i32
    ensures kept { IsKept array.old array.new }
    ensures status { IsStatusOn (λ t. read_fault T.PTYPE (length values.old) (column t)) (λ t. nulls_fault (length validity.old) (column t)) array.old.tree result }
    ensures read { result ≡ pos 0 → IfSome array.old.tree (λ t. (column t).items ≡ items_in (map T.value values.new) validity.new) }
    ensures clear { result ≡ pos 0 → IsClearFrom (length values.new) validity.new }
    ensures unread { result ≢ pos 0 → (values.new ≡ values.old) × (validity.new ≡ validity.old) }
{
    let Some(source) = array.array() else {
        return Fault::NoArray.status();
    };
    status_of(reading::read(alloc, source, values, validity))
}

/// Writes the item at an index, or 0 for a null, and 1 where it is null, else 0.
#[inline(always)]
pub(crate) fn get<T: PhysicalPType + WrappingAdd>(
    alloc: Global,
    array: &mut ArrayHandle,
    index: usize,
    value: &mut T,
    is_null: &mut u8,
) -> i32
    ensures kept { IsKept array.old array.new }
    ensures status { IsStatusOn (λ t. get_fault T.PTYPE index (column t)) (λ t. None) array.old.tree result }
    ensures got { result ≡ pos 0 → IfSome array.old.tree (λ t. IsItem (slice_index_or (column t).items index None) (T.value value.new) is_null.new) }
    ensures ungot { result ≢ pos 0 → (value.new ≡ value.old) × (is_null.new ≡ is_null.old) }
{
    let Some(source) = array.array() else {
        return Fault::NoArray.status();
    };
    status_of(reading::get_into(alloc, source, index, value, is_null))
}

/// Writes how each item compares with a constant, and which items are valid.
pub(crate) fn compare<T: NativePType>(
    alloc: Global,
    array: &mut ArrayHandle,
    operator: u8,
    constant: T,
    bits: &mut [u8],
    validity: &mut [u8],
) -> i32
    ensures kept { IsKept array.old array.new }
    ensures status { IsStatusOn (λ t. compare_fault T.PTYPE operator (length bits.old) (column t)) (λ t. nulls_fault (length validity.old) (column t)) array.old.tree result }
    ensures compared { result ≡ pos 0 → IfSome array.old.tree (λ t. IfSome (operator_of operator) (λ op. AreAnswers (holds op (T.value constant)) (column t) bits.new validity.new)) }
    ensures clear { result ≡ pos 0 → IfSome array.old.tree (λ t. IsClearFrom (length (column t).items) bits.new × IsClearFrom (length (column t).items) validity.new) }
    ensures unwritten { result ≢ pos 0 → (bits.new ≡ bits.old) × (validity.new ≡ validity.old) }
{
    let Some(source) = array.array() else {
        return Fault::NoArray.status();
    };
    status_of(answering::compare(alloc, source, operator, constant, bits, validity))
}

/// Writes whether each item lies between two bounds, a bound itself left out where its number is not 0, and which
/// items are valid.
pub(crate) fn between<T: NativePType>(
    alloc: Global,
    array: &mut ArrayHandle,
    bounds: (T, T),
    strict: (u8, u8),
    bits: &mut [u8],
    validity: &mut [u8],
) -> i32
    ensures kept { IsKept array.old array.new }
    ensures status { IsStatusOn (λ t. test_fault T.PTYPE (length bits.old) (column t)) (λ t. nulls_fault (length validity.old) (column t)) array.old.tree result }
    ensures tested { result ≡ pos 0 → IfSome array.old.tree (λ t. AreAnswers (is_between (options_of strict.0 strict.1) (T.value bounds.0) (T.value bounds.1)) (column t) bits.new validity.new) }
    ensures clear { result ≡ pos 0 → IfSome array.old.tree (λ t. IsClearFrom (length (column t).items) bits.new × IsClearFrom (length (column t).items) validity.new) }
    ensures unwritten { result ≢ pos 0 → (bits.new ≡ bits.old) × (validity.new ≡ validity.old) }
{
    let Some(source) = array.array() else {
        return Fault::NoArray.status();
    };
    status_of(answering::between(alloc, source, bounds, strict, bits, validity))
}

/// Writes whether each item is one of a list, and which items are valid.
pub(crate) fn is_in<T: NativePType>(
    alloc: Global,
    array: &mut ArrayHandle,
    list: &[T],
    bits: &mut [u8],
    validity: &mut [u8],
) -> i32
    ensures kept { IsKept array.old array.new }
    ensures status { IsStatusOn (λ t. test_fault T.PTYPE (length bits.old) (column t)) (λ t. nulls_fault (length validity.old) (column t)) array.old.tree result }
    ensures tested { result ≡ pos 0 → IfSome array.old.tree (λ t. AreAnswers (is_one_of (map T.value list.now)) (column t) bits.new validity.new) }
    ensures clear { result ≡ pos 0 → IfSome array.old.tree (λ t. IsClearFrom (length (column t).items) bits.new × IsClearFrom (length (column t).items) validity.new) }
    ensures unwritten { result ≢ pos 0 → (bits.new ≡ bits.old) × (validity.new ≡ validity.old) }
{
    let Some(source) = array.array() else {
        return Fault::NoArray.status();
    };
    status_of(answering::is_in(alloc, source, list, bits, validity))
}
