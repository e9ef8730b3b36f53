//! The calls that ask a sorted array where a value stands, and those that gather the items that a mask keeps.

ghost use Rattle.std.specs.Prelude.{◌≡◌, ◌≢◌, ◌+◌, ◌*◌, ◌^◌, ◌+ℤ◌, ◌*ℤ◌, IfSome, IsTrue, None, Some, false, length, map, pos, true};
ghost use Rattle.fl_types.specs.declared.dtype.PType.TheVariants.{I16, I32, I64, I8, U16, U32, U64, U8};
ghost use Rattle.fl_array.specs.Trees.{Primitive, column};
ghost use Rattle.fl_column.specs.Bitmaps.{bits_in};
ghost use Rattle.fl_column.specs.Columns.{non_nullable};
ghost use Rattle.fl_column.specs.Queries.{are_sorted, holds};
ghost use Rattle.fl_scan.specs.Bounds.{lower_bound_of};
ghost use Rattle.fl_scan.specs.Indices.{positions_of};
ghost use Rattle.fl_scan.specs.Totals.{count_of, sum_of};
ghost use Rattle.flcol_c.specs.Aggregates.{AreExtremes, type_fault};
ghost use Rattle.flcol_c.specs.Answering.{operator_of};
ghost use Rattle.flcol_c.specs.Held.{IsKept, IsStatusOn};
ghost use Rattle.flcol_c.specs.Selections.{bitmap_fault, kept_by, kept_count_fault, kept_fault, kept_sum_fault};
ghost use Rattle.flcol_c.specs.Statuses.{IsStatusAfter};

use crate::handle::ArrayHandle;
use crate::selections;
use std::alloc::Global;

/// Makes a plain array of `u64`: the positions of the set bits of the first `len`, in order, as indices for a take.
#[unsafe(no_mangle)]
pub extern "C" fn flcol_indices_of(
    alloc: Global,
    bits: &[u8],
    len: usize,
    out: &mut ArrayHandle,
) -> i32
    ensures status { IsStatusAfter (bitmap_fault (length bits.now) len) None result }
    ensures made { result ≡ pos 0 → out.new.tree ≡ Some (Primitive (non_nullable U64 (map pos (positions_of (bits_in bits.now len))))) }
    ensures unmade { result ≢ pos 0 → out.new ≡ out.old }
{
    selections::indices_of(alloc, bits, len, out)
}

/// Writes the sum of the valid items that a mask keeps of an array of integers without a sign: `high * 2^64 + low`.
#[unsafe(no_mangle)]
pub extern "C" fn flcol_sum_under_unsigned(
    alloc: Global,
    array: &mut ArrayHandle,
    mask: &[u8],
    high: &mut u64,
    low: &mut u64,
) -> i32
    ensures kept { IsKept array.old array.new }
    ensures status { IsStatusOn (λ t. kept_sum_fault true (length mask.now) (column t)) (λ t. None) array.old.tree result }
    ensures summed { result ≡ pos 0 → IfSome array.old.tree (λ t. pos (high.new * 2 ^ 64 + low.new) ≡ sum_of (kept_by mask.now (column t))) }
    ensures unsummed { result ≢ pos 0 → (high.new ≡ high.old) × (low.new ≡ low.old) }
{
    selections::sum_under_unsigned(alloc, array, mask, high, low)
}

/// Writes the sum of the valid items that a mask keeps of an array of integers with a sign: `high * 2^64 + low`.
#[unsafe(no_mangle)]
pub extern "C" fn flcol_sum_under_signed(
    alloc: Global,
    array: &mut ArrayHandle,
    mask: &[u8],
    high: &mut i64,
    low: &mut u64,
) -> i32
    ensures kept { IsKept array.old array.new }
    ensures status { IsStatusOn (λ t. kept_sum_fault false (length mask.now) (column t)) (λ t. None) array.old.tree result }
    ensures summed { result ≡ pos 0 → IfSome array.old.tree (λ t. high.new *ℤ pos (2 ^ 64) +ℤ pos low.new ≡ sum_of (kept_by mask.now (column t))) }
    ensures unsummed { result ≢ pos 0 → (high.new ≡ high.old) × (low.new ≡ low.old) }
{
    selections::sum_under_signed(alloc, array, mask, high, low)
}

/// Writes the first position of a sorted array of `u8` whose item is not below a value, or the number of items; a null is
/// below every value. Whether the array is sorted is the caller's to know.
#[unsafe(no_mangle)]
pub extern "C" fn flcol_lower_bound_u8(
    alloc: Global,
    array: &mut ArrayHandle,
    value: u8,
    position: &mut usize,
) -> i32
    requires sorted { IfSome array.old.tree (λ t. IsTrue (are_sorted (column t).items)) }
    ensures kept { IsKept array.old array.new }
    ensures status { IsStatusOn (λ t. type_fault U8 (column t)) (λ t. None) array.old.tree result }
    ensures found { result ≡ pos 0 → IfSome array.old.tree (λ t. position.new ≡ lower_bound_of (pos value) (column t)) }
    ensures unfound { result ≢ pos 0 → position.new ≡ position.old }
{
    selections::lower_bound(alloc, array, value, position)
}

/// Writes how many of the items that a mask keeps of an array of `u8` are valid and compare so with a constant.
#[unsafe(no_mangle)]
pub extern "C" fn flcol_count_under_u8(
    alloc: Global,
    array: &mut ArrayHandle,
    mask: &[u8],
    operator: u8,
    constant: u8,
    count: &mut usize,
) -> i32
    ensures kept { IsKept array.old array.new }
    ensures status { IsStatusOn (λ t. kept_count_fault U8 operator (length mask.now) (column t)) (λ t. None) array.old.tree result }
    ensures counted { result ≡ pos 0 → IfSome array.old.tree (λ t. IfSome (operator_of operator) (λ op. count.new ≡ count_of (holds op (pos constant)) (kept_by mask.now (column t)))) }
    ensures uncounted { result ≢ pos 0 → count.new ≡ count.old }
{
    selections::count_under(alloc, array, mask, operator, constant, count)
}

/// Writes the least and the greatest valid item that a mask keeps of an array of `u8` and 0, or two zeros and 1 if it
/// keeps none.
#[unsafe(no_mangle)]
pub extern "C" fn flcol_min_max_under_u8(
    alloc: Global,
    array: &mut ArrayHandle,
    mask: &[u8],
    least: &mut u8,
    greatest: &mut u8,
    is_none: &mut u8,
) -> i32
    ensures kept { IsKept array.old array.new }
    ensures status { IsStatusOn (λ t. kept_fault U8 (length mask.now) (column t)) (λ t. None) array.old.tree result }
    ensures found { result ≡ pos 0 → IfSome array.old.tree (λ t. AreExtremes (kept_by mask.now (column t)) (pos least.new) (pos greatest.new) is_none.new) }
    ensures unfound { result ≢ pos 0 → (least.new ≡ least.old) × (greatest.new ≡ greatest.old) × (is_none.new ≡ is_none.old) }
{
    selections::min_max_under(alloc, array, mask, least, greatest, is_none)
}

/// Writes the first position of a sorted array of `u16` whose item is not below a value, or the number of items; a null is
/// below every value. Whether the array is sorted is the caller's to know.
#[unsafe(no_mangle)]
pub extern "C" fn flcol_lower_bound_u16(
    alloc: Global,
    array: &mut ArrayHandle,
    value: u16,
    position: &mut usize,
) -> i32
    requires sorted { IfSome array.old.tree (λ t. IsTrue (are_sorted (column t).items)) }
    ensures kept { IsKept array.old array.new }
    ensures status { IsStatusOn (λ t. type_fault U16 (column t)) (λ t. None) array.old.tree result }
    ensures found { result ≡ pos 0 → IfSome array.old.tree (λ t. position.new ≡ lower_bound_of (pos value) (column t)) }
    ensures unfound { result ≢ pos 0 → position.new ≡ position.old }
{
    selections::lower_bound(alloc, array, value, position)
}

/// Writes how many of the items that a mask keeps of an array of `u16` are valid and compare so with a constant.
#[unsafe(no_mangle)]
pub extern "C" fn flcol_count_under_u16(
    alloc: Global,
    array: &mut ArrayHandle,
    mask: &[u8],
    operator: u8,
    constant: u16,
    count: &mut usize,
) -> i32
    ensures kept { IsKept array.old array.new }
    ensures status { IsStatusOn (λ t. kept_count_fault U16 operator (length mask.now) (column t)) (λ t. None) array.old.tree result }
    ensures counted { result ≡ pos 0 → IfSome array.old.tree (λ t. IfSome (operator_of operator) (λ op. count.new ≡ count_of (holds op (pos constant)) (kept_by mask.now (column t)))) }
    ensures uncounted { result ≢ pos 0 → count.new ≡ count.old }
{
    selections::count_under(alloc, array, mask, operator, constant, count)
}

/// Writes the least and the greatest valid item that a mask keeps of an array of `u16` and 0, or two zeros and 1 if it
/// keeps none.
#[unsafe(no_mangle)]
pub extern "C" fn flcol_min_max_under_u16(
    alloc: Global,
    array: &mut ArrayHandle,
    mask: &[u8],
    least: &mut u16,
    greatest: &mut u16,
    is_none: &mut u8,
) -> i32
    ensures kept { IsKept array.old array.new }
    ensures status { IsStatusOn (λ t. kept_fault U16 (length mask.now) (column t)) (λ t. None) array.old.tree result }
    ensures found { result ≡ pos 0 → IfSome array.old.tree (λ t. AreExtremes (kept_by mask.now (column t)) (pos least.new) (pos greatest.new) is_none.new) }
    ensures unfound { result ≢ pos 0 → (least.new ≡ least.old) × (greatest.new ≡ greatest.old) × (is_none.new ≡ is_none.old) }
{
    selections::min_max_under(alloc, array, mask, least, greatest, is_none)
}

/// Writes the first position of a sorted array of `u32` whose item is not below a value, or the number of items; a null is
/// below every value. Whether the array is sorted is the caller's to know.
#[unsafe(no_mangle)]
pub extern "C" fn flcol_lower_bound_u32(
    alloc: Global,
    array: &mut ArrayHandle,
    value: u32,
    position: &mut usize,
) -> i32
    requires sorted { IfSome array.old.tree (λ t. IsTrue (are_sorted (column t).items)) }
    ensures kept { IsKept array.old array.new }
    ensures status { IsStatusOn (λ t. type_fault U32 (column t)) (λ t. None) array.old.tree result }
    ensures found { result ≡ pos 0 → IfSome array.old.tree (λ t. position.new ≡ lower_bound_of (pos value) (column t)) }
    ensures unfound { result ≢ pos 0 → position.new ≡ position.old }
{
    selections::lower_bound(alloc, array, value, position)
}

/// Writes how many of the items that a mask keeps of an array of `u32` are valid and compare so with a constant.
#[unsafe(no_mangle)]
pub extern "C" fn flcol_count_under_u32(
    alloc: Global,
    array: &mut ArrayHandle,
    mask: &[u8],
    operator: u8,
    constant: u32,
    count: &mut usize,
) -> i32
    ensures kept { IsKept array.old array.new }
    ensures status { IsStatusOn (λ t. kept_count_fault U32 operator (length mask.now) (column t)) (λ t. None) array.old.tree result }
    ensures counted { result ≡ pos 0 → IfSome array.old.tree (λ t. IfSome (operator_of operator) (λ op. count.new ≡ count_of (holds op (pos constant)) (kept_by mask.now (column t)))) }
    ensures uncounted { result ≢ pos 0 → count.new ≡ count.old }
{
    selections::count_under(alloc, array, mask, operator, constant, count)
}

/// Writes the least and the greatest valid item that a mask keeps of an array of `u32` and 0, or two zeros and 1 if it
/// keeps none.
#[unsafe(no_mangle)]
pub extern "C" fn flcol_min_max_under_u32(
    alloc: Global,
    array: &mut ArrayHandle,
    mask: &[u8],
    least: &mut u32,
    greatest: &mut u32,
    is_none: &mut u8,
) -> i32
    ensures kept { IsKept array.old array.new }
    ensures status { IsStatusOn (λ t. kept_fault U32 (length mask.now) (column t)) (λ t. None) array.old.tree result }
    ensures found { result ≡ pos 0 → IfSome array.old.tree (λ t. AreExtremes (kept_by mask.now (column t)) (pos least.new) (pos greatest.new) is_none.new) }
    ensures unfound { result ≢ pos 0 → (least.new ≡ least.old) × (greatest.new ≡ greatest.old) × (is_none.new ≡ is_none.old) }
{
    selections::min_max_under(alloc, array, mask, least, greatest, is_none)
}

/// Writes the first position of a sorted array of `u64` whose item is not below a value, or the number of items; a null is
/// below every value. Whether the array is sorted is the caller's to know.
#[unsafe(no_mangle)]
pub extern "C" fn flcol_lower_bound_u64(
    alloc: Global,
    array: &mut ArrayHandle,
    value: u64,
    position: &mut usize,
) -> i32
    requires sorted { IfSome array.old.tree (λ t. IsTrue (are_sorted (column t).items)) }
    ensures kept { IsKept array.old array.new }
    ensures status { IsStatusOn (λ t. type_fault U64 (column t)) (λ t. None) array.old.tree result }
    ensures found { result ≡ pos 0 → IfSome array.old.tree (λ t. position.new ≡ lower_bound_of (pos value) (column t)) }
    ensures unfound { result ≢ pos 0 → position.new ≡ position.old }
{
    selections::lower_bound(alloc, array, value, position)
}

/// Writes how many of the items that a mask keeps of an array of `u64` are valid and compare so with a constant.
#[unsafe(no_mangle)]
pub extern "C" fn flcol_count_under_u64(
    alloc: Global,
    array: &mut ArrayHandle,
    mask: &[u8],
    operator: u8,
    constant: u64,
    count: &mut usize,
) -> i32
    ensures kept { IsKept array.old array.new }
    ensures status { IsStatusOn (λ t. kept_count_fault U64 operator (length mask.now) (column t)) (λ t. None) array.old.tree result }
    ensures counted { result ≡ pos 0 → IfSome array.old.tree (λ t. IfSome (operator_of operator) (λ op. count.new ≡ count_of (holds op (pos constant)) (kept_by mask.now (column t)))) }
    ensures uncounted { result ≢ pos 0 → count.new ≡ count.old }
{
    selections::count_under(alloc, array, mask, operator, constant, count)
}

/// Writes the least and the greatest valid item that a mask keeps of an array of `u64` and 0, or two zeros and 1 if it
/// keeps none.
#[unsafe(no_mangle)]
pub extern "C" fn flcol_min_max_under_u64(
    alloc: Global,
    array: &mut ArrayHandle,
    mask: &[u8],
    least: &mut u64,
    greatest: &mut u64,
    is_none: &mut u8,
) -> i32
    ensures kept { IsKept array.old array.new }
    ensures status { IsStatusOn (λ t. kept_fault U64 (length mask.now) (column t)) (λ t. None) array.old.tree result }
    ensures found { result ≡ pos 0 → IfSome array.old.tree (λ t. AreExtremes (kept_by mask.now (column t)) (pos least.new) (pos greatest.new) is_none.new) }
    ensures unfound { result ≢ pos 0 → (least.new ≡ least.old) × (greatest.new ≡ greatest.old) × (is_none.new ≡ is_none.old) }
{
    selections::min_max_under(alloc, array, mask, least, greatest, is_none)
}

/// Writes the first position of a sorted array of `i8` whose item is not below a value, or the number of items; a null is
/// below every value. Whether the array is sorted is the caller's to know.
#[unsafe(no_mangle)]
pub extern "C" fn flcol_lower_bound_i8(
    alloc: Global,
    array: &mut ArrayHandle,
    value: i8,
    position: &mut usize,
) -> i32
    requires sorted { IfSome array.old.tree (λ t. IsTrue (are_sorted (column t).items)) }
    ensures kept { IsKept array.old array.new }
    ensures status { IsStatusOn (λ t. type_fault I8 (column t)) (λ t. None) array.old.tree result }
    ensures found { result ≡ pos 0 → IfSome array.old.tree (λ t. position.new ≡ lower_bound_of value (column t)) }
    ensures unfound { result ≢ pos 0 → position.new ≡ position.old }
{
    selections::lower_bound(alloc, array, value, position)
}

/// Writes how many of the items that a mask keeps of an array of `i8` are valid and compare so with a constant.
#[unsafe(no_mangle)]
pub extern "C" fn flcol_count_under_i8(
    alloc: Global,
    array: &mut ArrayHandle,
    mask: &[u8],
    operator: u8,
    constant: i8,
    count: &mut usize,
) -> i32
    ensures kept { IsKept array.old array.new }
    ensures status { IsStatusOn (λ t. kept_count_fault I8 operator (length mask.now) (column t)) (λ t. None) array.old.tree result }
    ensures counted { result ≡ pos 0 → IfSome array.old.tree (λ t. IfSome (operator_of operator) (λ op. count.new ≡ count_of (holds op constant) (kept_by mask.now (column t)))) }
    ensures uncounted { result ≢ pos 0 → count.new ≡ count.old }
{
    selections::count_under(alloc, array, mask, operator, constant, count)
}

/// Writes the least and the greatest valid item that a mask keeps of an array of `i8` and 0, or two zeros and 1 if it
/// keeps none.
#[unsafe(no_mangle)]
pub extern "C" fn flcol_min_max_under_i8(
    alloc: Global,
    array: &mut ArrayHandle,
    mask: &[u8],
    least: &mut i8,
    greatest: &mut i8,
    is_none: &mut u8,
) -> i32
    ensures kept { IsKept array.old array.new }
    ensures status { IsStatusOn (λ t. kept_fault I8 (length mask.now) (column t)) (λ t. None) array.old.tree result }
    ensures found { result ≡ pos 0 → IfSome array.old.tree (λ t. AreExtremes (kept_by mask.now (column t)) least.new greatest.new is_none.new) }
    ensures unfound { result ≢ pos 0 → (least.new ≡ least.old) × (greatest.new ≡ greatest.old) × (is_none.new ≡ is_none.old) }
{
    selections::min_max_under(alloc, array, mask, least, greatest, is_none)
}

/// Writes the first position of a sorted array of `i16` whose item is not below a value, or the number of items; a null is
/// below every value. Whether the array is sorted is the caller's to know.
#[unsafe(no_mangle)]
pub extern "C" fn flcol_lower_bound_i16(
    alloc: Global,
    array: &mut ArrayHandle,
    value: i16,
    position: &mut usize,
) -> i32
    requires sorted { IfSome array.old.tree (λ t. IsTrue (are_sorted (column t).items)) }
    ensures kept { IsKept array.old array.new }
    ensures status { IsStatusOn (λ t. type_fault I16 (column t)) (λ t. None) array.old.tree result }
    ensures found { result ≡ pos 0 → IfSome array.old.tree (λ t. position.new ≡ lower_bound_of value (column t)) }
    ensures unfound { result ≢ pos 0 → position.new ≡ position.old }
{
    selections::lower_bound(alloc, array, value, position)
}

/// Writes how many of the items that a mask keeps of an array of `i16` are valid and compare so with a constant.
#[unsafe(no_mangle)]
pub extern "C" fn flcol_count_under_i16(
    alloc: Global,
    array: &mut ArrayHandle,
    mask: &[u8],
    operator: u8,
    constant: i16,
    count: &mut usize,
) -> i32
    ensures kept { IsKept array.old array.new }
    ensures status { IsStatusOn (λ t. kept_count_fault I16 operator (length mask.now) (column t)) (λ t. None) array.old.tree result }
    ensures counted { result ≡ pos 0 → IfSome array.old.tree (λ t. IfSome (operator_of operator) (λ op. count.new ≡ count_of (holds op constant) (kept_by mask.now (column t)))) }
    ensures uncounted { result ≢ pos 0 → count.new ≡ count.old }
{
    selections::count_under(alloc, array, mask, operator, constant, count)
}

/// Writes the least and the greatest valid item that a mask keeps of an array of `i16` and 0, or two zeros and 1 if it
/// keeps none.
#[unsafe(no_mangle)]
pub extern "C" fn flcol_min_max_under_i16(
    alloc: Global,
    array: &mut ArrayHandle,
    mask: &[u8],
    least: &mut i16,
    greatest: &mut i16,
    is_none: &mut u8,
) -> i32
    ensures kept { IsKept array.old array.new }
    ensures status { IsStatusOn (λ t. kept_fault I16 (length mask.now) (column t)) (λ t. None) array.old.tree result }
    ensures found { result ≡ pos 0 → IfSome array.old.tree (λ t. AreExtremes (kept_by mask.now (column t)) least.new greatest.new is_none.new) }
    ensures unfound { result ≢ pos 0 → (least.new ≡ least.old) × (greatest.new ≡ greatest.old) × (is_none.new ≡ is_none.old) }
{
    selections::min_max_under(alloc, array, mask, least, greatest, is_none)
}

/// Writes the first position of a sorted array of `i32` whose item is not below a value, or the number of items; a null is
/// below every value. Whether the array is sorted is the caller's to know.
#[unsafe(no_mangle)]
pub extern "C" fn flcol_lower_bound_i32(
    alloc: Global,
    array: &mut ArrayHandle,
    value: i32,
    position: &mut usize,
) -> i32
    requires sorted { IfSome array.old.tree (λ t. IsTrue (are_sorted (column t).items)) }
    ensures kept { IsKept array.old array.new }
    ensures status { IsStatusOn (λ t. type_fault I32 (column t)) (λ t. None) array.old.tree result }
    ensures found { result ≡ pos 0 → IfSome array.old.tree (λ t. position.new ≡ lower_bound_of value (column t)) }
    ensures unfound { result ≢ pos 0 → position.new ≡ position.old }
{
    selections::lower_bound(alloc, array, value, position)
}

/// Writes how many of the items that a mask keeps of an array of `i32` are valid and compare so with a constant.
#[unsafe(no_mangle)]
pub extern "C" fn flcol_count_under_i32(
    alloc: Global,
    array: &mut ArrayHandle,
    mask: &[u8],
    operator: u8,
    constant: i32,
    count: &mut usize,
) -> i32
    ensures kept { IsKept array.old array.new }
    ensures status { IsStatusOn (λ t. kept_count_fault I32 operator (length mask.now) (column t)) (λ t. None) array.old.tree result }
    ensures counted { result ≡ pos 0 → IfSome array.old.tree (λ t. IfSome (operator_of operator) (λ op. count.new ≡ count_of (holds op constant) (kept_by mask.now (column t)))) }
    ensures uncounted { result ≢ pos 0 → count.new ≡ count.old }
{
    selections::count_under(alloc, array, mask, operator, constant, count)
}

/// Writes the least and the greatest valid item that a mask keeps of an array of `i32` and 0, or two zeros and 1 if it
/// keeps none.
#[unsafe(no_mangle)]
pub extern "C" fn flcol_min_max_under_i32(
    alloc: Global,
    array: &mut ArrayHandle,
    mask: &[u8],
    least: &mut i32,
    greatest: &mut i32,
    is_none: &mut u8,
) -> i32
    ensures kept { IsKept array.old array.new }
    ensures status { IsStatusOn (λ t. kept_fault I32 (length mask.now) (column t)) (λ t. None) array.old.tree result }
    ensures found { result ≡ pos 0 → IfSome array.old.tree (λ t. AreExtremes (kept_by mask.now (column t)) least.new greatest.new is_none.new) }
    ensures unfound { result ≢ pos 0 → (least.new ≡ least.old) × (greatest.new ≡ greatest.old) × (is_none.new ≡ is_none.old) }
{
    selections::min_max_under(alloc, array, mask, least, greatest, is_none)
}

/// Writes the first position of a sorted array of `i64` whose item is not below a value, or the number of items; a null is
/// below every value. Whether the array is sorted is the caller's to know.
#[unsafe(no_mangle)]
pub extern "C" fn flcol_lower_bound_i64(
    alloc: Global,
    array: &mut ArrayHandle,
    value: i64,
    position: &mut usize,
) -> i32
    requires sorted { IfSome array.old.tree (λ t. IsTrue (are_sorted (column t).items)) }
    ensures kept { IsKept array.old array.new }
    ensures status { IsStatusOn (λ t. type_fault I64 (column t)) (λ t. None) array.old.tree result }
    ensures found { result ≡ pos 0 → IfSome array.old.tree (λ t. position.new ≡ lower_bound_of value (column t)) }
    ensures unfound { result ≢ pos 0 → position.new ≡ position.old }
{
    selections::lower_bound(alloc, array, value, position)
}

/// Writes how many of the items that a mask keeps of an array of `i64` are valid and compare so with a constant.
#[unsafe(no_mangle)]
pub extern "C" fn flcol_count_under_i64(
    alloc: Global,
    array: &mut ArrayHandle,
    mask: &[u8],
    operator: u8,
    constant: i64,
    count: &mut usize,
) -> i32
    ensures kept { IsKept array.old array.new }
    ensures status { IsStatusOn (λ t. kept_count_fault I64 operator (length mask.now) (column t)) (λ t. None) array.old.tree result }
    ensures counted { result ≡ pos 0 → IfSome array.old.tree (λ t. IfSome (operator_of operator) (λ op. count.new ≡ count_of (holds op constant) (kept_by mask.now (column t)))) }
    ensures uncounted { result ≢ pos 0 → count.new ≡ count.old }
{
    selections::count_under(alloc, array, mask, operator, constant, count)
}

/// Writes the least and the greatest valid item that a mask keeps of an array of `i64` and 0, or two zeros and 1 if it
/// keeps none.
#[unsafe(no_mangle)]
pub extern "C" fn flcol_min_max_under_i64(
    alloc: Global,
    array: &mut ArrayHandle,
    mask: &[u8],
    least: &mut i64,
    greatest: &mut i64,
    is_none: &mut u8,
) -> i32
    ensures kept { IsKept array.old array.new }
    ensures status { IsStatusOn (λ t. kept_fault I64 (length mask.now) (column t)) (λ t. None) array.old.tree result }
    ensures found { result ≡ pos 0 → IfSome array.old.tree (λ t. AreExtremes (kept_by mask.now (column t)) least.new greatest.new is_none.new) }
    ensures unfound { result ≢ pos 0 → (least.new ≡ least.old) × (greatest.new ≡ greatest.old) × (is_none.new ≡ is_none.old) }
{
    selections::min_max_under(alloc, array, mask, least, greatest, is_none)
}
