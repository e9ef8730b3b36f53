//! The calls that read items.

ghost use Rattle.std.specs.Prelude.{◌≡◌, ◌≢◌, IfSome, None, length, map, pos, slice_index_or};
ghost use Rattle.fl_types.specs.declared.dtype.PType.TheVariants.{I16, I32, I64, I8, U16, U32, U64, U8};
ghost use Rattle.fl_array.specs.Trees.{column};
ghost use Rattle.fl_bitmaps.specs.Bitmaps.{IsClearFrom, items_in};
ghost use Rattle.flcol_c.specs.Statuses.{status_at};
ghost use Rattle.flcol_c.specs.Held.{IsKept, IsStatusOn, held_fault};
ghost use Rattle.flcol_c.specs.Booleans.{AreBooleans, booleans_fault};
ghost use Rattle.flcol_c.specs.Reading.{IsItem, get_fault, nulls_fault, read_fault};

use crate::fault::{Fault, status_of};
use crate::handle::ArrayHandle;
use crate::{booleans, typed};
use std::alloc::Global;

/// Writes the values of an array of `u8`, and which of them are valid.
#[unsafe(no_mangle)]
pub extern "C" fn flcol_read_u8(
    alloc: Global,
    array: &mut ArrayHandle,
    values: &mut [u8],
    validity: &mut [u8],
) -> i32
    ensures kept { IsKept array.old array.new }
    ensures status { IsStatusOn (λ t. read_fault U8 (length values.old) (column t)) (λ t. nulls_fault (length validity.old) (column t)) array.old.tree result }
    ensures read { result ≡ pos 0 → IfSome array.old.tree (λ t. (column t).items ≡ items_in (map pos values.new) validity.new) }
    ensures clear { result ≡ pos 0 → IsClearFrom (length values.new) validity.new }
    ensures unread { result ≢ pos 0 → (values.new ≡ values.old) × (validity.new ≡ validity.old) }
{
    typed::read(alloc, array, values, validity)
}

/// Writes the item of an array of `u8` at an index, or 0 for a null, and 1 if it is null, else 0.
#[unsafe(no_mangle)]
pub extern "C" fn flcol_get_u8(
    alloc: Global,
    array: &mut ArrayHandle,
    index: usize,
    value: &mut u8,
    is_null: &mut u8,
) -> i32
    ensures kept { IsKept array.old array.new }
    ensures status { IsStatusOn (λ t. get_fault U8 index (column t)) (λ t. None) array.old.tree result }
    ensures got { result ≡ pos 0 → IfSome array.old.tree (λ t. IsItem (slice_index_or (column t).items index None) (pos value.new) is_null.new) }
    ensures ungot { result ≢ pos 0 → (value.new ≡ value.old) × (is_null.new ≡ is_null.old) }
{
    typed::get(alloc, array, index, value, is_null)
}

/// Writes the values of an array of `u16`, and which of them are valid.
#[unsafe(no_mangle)]
pub extern "C" fn flcol_read_u16(
    alloc: Global,
    array: &mut ArrayHandle,
    values: &mut [u16],
    validity: &mut [u8],
) -> i32
    ensures kept { IsKept array.old array.new }
    ensures status { IsStatusOn (λ t. read_fault U16 (length values.old) (column t)) (λ t. nulls_fault (length validity.old) (column t)) array.old.tree result }
    ensures read { result ≡ pos 0 → IfSome array.old.tree (λ t. (column t).items ≡ items_in (map pos values.new) validity.new) }
    ensures clear { result ≡ pos 0 → IsClearFrom (length values.new) validity.new }
    ensures unread { result ≢ pos 0 → (values.new ≡ values.old) × (validity.new ≡ validity.old) }
{
    typed::read(alloc, array, values, validity)
}

/// Writes the item of an array of `u16` at an index, or 0 for a null, and 1 if it is null, else 0.
#[unsafe(no_mangle)]
pub extern "C" fn flcol_get_u16(
    alloc: Global,
    array: &mut ArrayHandle,
    index: usize,
    value: &mut u16,
    is_null: &mut u8,
) -> i32
    ensures kept { IsKept array.old array.new }
    ensures status { IsStatusOn (λ t. get_fault U16 index (column t)) (λ t. None) array.old.tree result }
    ensures got { result ≡ pos 0 → IfSome array.old.tree (λ t. IsItem (slice_index_or (column t).items index None) (pos value.new) is_null.new) }
    ensures ungot { result ≢ pos 0 → (value.new ≡ value.old) × (is_null.new ≡ is_null.old) }
{
    typed::get(alloc, array, index, value, is_null)
}

/// Writes the values of an array of `u32`, and which of them are valid.
#[unsafe(no_mangle)]
pub extern "C" fn flcol_read_u32(
    alloc: Global,
    array: &mut ArrayHandle,
    values: &mut [u32],
    validity: &mut [u8],
) -> i32
    ensures kept { IsKept array.old array.new }
    ensures status { IsStatusOn (λ t. read_fault U32 (length values.old) (column t)) (λ t. nulls_fault (length validity.old) (column t)) array.old.tree result }
    ensures read { result ≡ pos 0 → IfSome array.old.tree (λ t. (column t).items ≡ items_in (map pos values.new) validity.new) }
    ensures clear { result ≡ pos 0 → IsClearFrom (length values.new) validity.new }
    ensures unread { result ≢ pos 0 → (values.new ≡ values.old) × (validity.new ≡ validity.old) }
{
    typed::read(alloc, array, values, validity)
}

/// Writes the item of an array of `u32` at an index, or 0 for a null, and 1 if it is null, else 0.
#[unsafe(no_mangle)]
pub extern "C" fn flcol_get_u32(
    alloc: Global,
    array: &mut ArrayHandle,
    index: usize,
    value: &mut u32,
    is_null: &mut u8,
) -> i32
    ensures kept { IsKept array.old array.new }
    ensures status { IsStatusOn (λ t. get_fault U32 index (column t)) (λ t. None) array.old.tree result }
    ensures got { result ≡ pos 0 → IfSome array.old.tree (λ t. IsItem (slice_index_or (column t).items index None) (pos value.new) is_null.new) }
    ensures ungot { result ≢ pos 0 → (value.new ≡ value.old) × (is_null.new ≡ is_null.old) }
{
    typed::get(alloc, array, index, value, is_null)
}

/// Writes the values of an array of `u64`, and which of them are valid.
#[unsafe(no_mangle)]
pub extern "C" fn flcol_read_u64(
    alloc: Global,
    array: &mut ArrayHandle,
    values: &mut [u64],
    validity: &mut [u8],
) -> i32
    ensures kept { IsKept array.old array.new }
    ensures status { IsStatusOn (λ t. read_fault U64 (length values.old) (column t)) (λ t. nulls_fault (length validity.old) (column t)) array.old.tree result }
    ensures read { result ≡ pos 0 → IfSome array.old.tree (λ t. (column t).items ≡ items_in (map pos values.new) validity.new) }
    ensures clear { result ≡ pos 0 → IsClearFrom (length values.new) validity.new }
    ensures unread { result ≢ pos 0 → (values.new ≡ values.old) × (validity.new ≡ validity.old) }
{
    typed::read(alloc, array, values, validity)
}

/// Writes the item of an array of `u64` at an index, or 0 for a null, and 1 if it is null, else 0.
#[unsafe(no_mangle)]
pub extern "C" fn flcol_get_u64(
    alloc: Global,
    array: &mut ArrayHandle,
    index: usize,
    value: &mut u64,
    is_null: &mut u8,
) -> i32
    ensures kept { IsKept array.old array.new }
    ensures status { IsStatusOn (λ t. get_fault U64 index (column t)) (λ t. None) array.old.tree result }
    ensures got { result ≡ pos 0 → IfSome array.old.tree (λ t. IsItem (slice_index_or (column t).items index None) (pos value.new) is_null.new) }
    ensures ungot { result ≢ pos 0 → (value.new ≡ value.old) × (is_null.new ≡ is_null.old) }
{
    typed::get(alloc, array, index, value, is_null)
}

/// Writes the values of an array of `i8`, and which of them are valid.
#[unsafe(no_mangle)]
pub extern "C" fn flcol_read_i8(
    alloc: Global,
    array: &mut ArrayHandle,
    values: &mut [i8],
    validity: &mut [u8],
) -> i32
    ensures kept { IsKept array.old array.new }
    ensures status { IsStatusOn (λ t. read_fault I8 (length values.old) (column t)) (λ t. nulls_fault (length validity.old) (column t)) array.old.tree result }
    ensures read { result ≡ pos 0 → IfSome array.old.tree (λ t. (column t).items ≡ items_in values.new validity.new) }
    ensures clear { result ≡ pos 0 → IsClearFrom (length values.new) validity.new }
    ensures unread { result ≢ pos 0 → (values.new ≡ values.old) × (validity.new ≡ validity.old) }
{
    typed::read(alloc, array, values, validity)
}

/// Writes the item of an array of `i8` at an index, or 0 for a null, and 1 if it is null, else 0.
#[unsafe(no_mangle)]
pub extern "C" fn flcol_get_i8(
    alloc: Global,
    array: &mut ArrayHandle,
    index: usize,
    value: &mut i8,
    is_null: &mut u8,
) -> i32
    ensures kept { IsKept array.old array.new }
    ensures status { IsStatusOn (λ t. get_fault I8 index (column t)) (λ t. None) array.old.tree result }
    ensures got { result ≡ pos 0 → IfSome array.old.tree (λ t. IsItem (slice_index_or (column t).items index None) value.new is_null.new) }
    ensures ungot { result ≢ pos 0 → (value.new ≡ value.old) × (is_null.new ≡ is_null.old) }
{
    typed::get(alloc, array, index, value, is_null)
}

/// Writes the values of an array of `i16`, and which of them are valid.
#[unsafe(no_mangle)]
pub extern "C" fn flcol_read_i16(
    alloc: Global,
    array: &mut ArrayHandle,
    values: &mut [i16],
    validity: &mut [u8],
) -> i32
    ensures kept { IsKept array.old array.new }
    ensures status { IsStatusOn (λ t. read_fault I16 (length values.old) (column t)) (λ t. nulls_fault (length validity.old) (column t)) array.old.tree result }
    ensures read { result ≡ pos 0 → IfSome array.old.tree (λ t. (column t).items ≡ items_in values.new validity.new) }
    ensures clear { result ≡ pos 0 → IsClearFrom (length values.new) validity.new }
    ensures unread { result ≢ pos 0 → (values.new ≡ values.old) × (validity.new ≡ validity.old) }
{
    typed::read(alloc, array, values, validity)
}

/// Writes the item of an array of `i16` at an index, or 0 for a null, and 1 if it is null, else 0.
#[unsafe(no_mangle)]
pub extern "C" fn flcol_get_i16(
    alloc: Global,
    array: &mut ArrayHandle,
    index: usize,
    value: &mut i16,
    is_null: &mut u8,
) -> i32
    ensures kept { IsKept array.old array.new }
    ensures status { IsStatusOn (λ t. get_fault I16 index (column t)) (λ t. None) array.old.tree result }
    ensures got { result ≡ pos 0 → IfSome array.old.tree (λ t. IsItem (slice_index_or (column t).items index None) value.new is_null.new) }
    ensures ungot { result ≢ pos 0 → (value.new ≡ value.old) × (is_null.new ≡ is_null.old) }
{
    typed::get(alloc, array, index, value, is_null)
}

/// Writes the values of an array of `i32`, and which of them are valid.
#[unsafe(no_mangle)]
pub extern "C" fn flcol_read_i32(
    alloc: Global,
    array: &mut ArrayHandle,
    values: &mut [i32],
    validity: &mut [u8],
) -> i32
    ensures kept { IsKept array.old array.new }
    ensures status { IsStatusOn (λ t. read_fault I32 (length values.old) (column t)) (λ t. nulls_fault (length validity.old) (column t)) array.old.tree result }
    ensures read { result ≡ pos 0 → IfSome array.old.tree (λ t. (column t).items ≡ items_in values.new validity.new) }
    ensures clear { result ≡ pos 0 → IsClearFrom (length values.new) validity.new }
    ensures unread { result ≢ pos 0 → (values.new ≡ values.old) × (validity.new ≡ validity.old) }
{
    typed::read(alloc, array, values, validity)
}

/// Writes the item of an array of `i32` at an index, or 0 for a null, and 1 if it is null, else 0.
#[unsafe(no_mangle)]
pub extern "C" fn flcol_get_i32(
    alloc: Global,
    array: &mut ArrayHandle,
    index: usize,
    value: &mut i32,
    is_null: &mut u8,
) -> i32
    ensures kept { IsKept array.old array.new }
    ensures status { IsStatusOn (λ t. get_fault I32 index (column t)) (λ t. None) array.old.tree result }
    ensures got { result ≡ pos 0 → IfSome array.old.tree (λ t. IsItem (slice_index_or (column t).items index None) value.new is_null.new) }
    ensures ungot { result ≢ pos 0 → (value.new ≡ value.old) × (is_null.new ≡ is_null.old) }
{
    typed::get(alloc, array, index, value, is_null)
}

/// Writes the values of an array of `i64`, and which of them are valid.
#[unsafe(no_mangle)]
pub extern "C" fn flcol_read_i64(
    alloc: Global,
    array: &mut ArrayHandle,
    values: &mut [i64],
    validity: &mut [u8],
) -> i32
    ensures kept { IsKept array.old array.new }
    ensures status { IsStatusOn (λ t. read_fault I64 (length values.old) (column t)) (λ t. nulls_fault (length validity.old) (column t)) array.old.tree result }
    ensures read { result ≡ pos 0 → IfSome array.old.tree (λ t. (column t).items ≡ items_in values.new validity.new) }
    ensures clear { result ≡ pos 0 → IsClearFrom (length values.new) validity.new }
    ensures unread { result ≢ pos 0 → (values.new ≡ values.old) × (validity.new ≡ validity.old) }
{
    typed::read(alloc, array, values, validity)
}

/// Writes the item of an array of `i64` at an index, or 0 for a null, and 1 if it is null, else 0.
#[unsafe(no_mangle)]
pub extern "C" fn flcol_get_i64(
    alloc: Global,
    array: &mut ArrayHandle,
    index: usize,
    value: &mut i64,
    is_null: &mut u8,
) -> i32
    ensures kept { IsKept array.old array.new }
    ensures status { IsStatusOn (λ t. get_fault I64 index (column t)) (λ t. None) array.old.tree result }
    ensures got { result ≡ pos 0 → IfSome array.old.tree (λ t. IsItem (slice_index_or (column t).items index None) value.new is_null.new) }
    ensures ungot { result ≢ pos 0 → (value.new ≡ value.old) × (is_null.new ≡ is_null.old) }
{
    typed::get(alloc, array, index, value, is_null)
}

/// Writes the bits of an array of booleans, and which of them are valid.
#[unsafe(no_mangle)]
pub extern "C" fn flcol_read_bool(
    array: &mut ArrayHandle,
    bits: &mut [u8],
    validity: &mut [u8],
) -> i32
    ensures kept { IsKept array.old array.new }
    ensures status { result ≡ status_at (held_fault (λ t. booleans_fault (length bits.old) (length validity.old) (column t)) array.old.tree) }
    ensures read { result ≡ pos 0 → IfSome array.old.tree (λ t. AreBooleans (column t) bits.new validity.new) }
    ensures clear { result ≡ pos 0 → IfSome array.old.tree (λ t. IsClearFrom (length (column t).items) bits.new × IsClearFrom (length (column t).items) validity.new) }
    ensures unread { result ≢ pos 0 → (bits.new ≡ bits.old) × (validity.new ≡ validity.old) }
{
    let Some(source) = array.array() else {
        return Fault::NoArray.status();
    };
    status_of(booleans::read(source, bits, validity))
}
