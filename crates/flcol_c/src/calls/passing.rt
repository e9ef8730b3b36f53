//! The calls that test the items that a mask keeps, and answer a mask.

ghost use Rattle.std.specs.Prelude.{◌≡◌, ◌≢◌, IfSome, None, length, pos};
ghost use Rattle.fl_types.specs.declared.dtype.PType.TheVariants.{I16, I32, I64, I8, U16, U32, U64, U8};
ghost use Rattle.fl_array.specs.Trees.{column};
ghost use Rattle.fl_bitmaps.specs.Bitmaps.{IsClearFrom};
ghost use Rattle.fl_column.specs.Queries.{holds, is_between};
ghost use Rattle.flcol_c.specs.Answering.{operator_of, options_of};
ghost use Rattle.flcol_c.specs.Held.{IsKept, IsStatusOn};
ghost use Rattle.flcol_c.specs.Selections.{AreThosePassed, kept_compare_fault, kept_test_fault};

use crate::handle::ArrayHandle;
use crate::passing;
use std::alloc::Global;

/// Writes which of the items that a mask keeps of an array of `u8` are valid and compare so with a constant.
#[unsafe(no_mangle)]
pub extern "C" fn flcol_compare_under_u8(
    alloc: Global,
    array: &mut ArrayHandle,
    mask: &[u8],
    operator: u8,
    constant: u8,
    bits: &mut [u8],
) -> i32
    ensures kept { IsKept array.old array.new }
    ensures status { IsStatusOn (λ t. kept_compare_fault U8 operator (length mask.now) (length bits.old) (column t)) (λ t. None) array.old.tree result }
    ensures passed { result ≡ pos 0 → IfSome array.old.tree (λ t. IfSome (operator_of operator) (λ op. AreThosePassed (holds op (pos constant)) mask.now (column t) bits.new)) }
    ensures clear { result ≡ pos 0 → IfSome array.old.tree (λ t. IsClearFrom (length (column t).items) bits.new) }
    ensures unwritten { result ≢ pos 0 → bits.new ≡ bits.old }
{
    passing::compare_under(alloc, array, mask, operator, constant, bits)
}

/// Writes which of the items that a mask keeps of an array of `u8` are valid and lie between two bounds, without a bound
/// itself if its `strict` is not 0.
#[unsafe(no_mangle)]
pub extern "C" fn flcol_between_under_u8(
    alloc: Global,
    array: &mut ArrayHandle,
    mask: &[u8],
    lower: u8,
    upper: u8,
    lower_strict: u8,
    upper_strict: u8,
    bits: &mut [u8],
) -> i32
    ensures kept { IsKept array.old array.new }
    ensures status { IsStatusOn (λ t. kept_test_fault U8 (length mask.now) (length bits.old) (column t)) (λ t. None) array.old.tree result }
    ensures passed { result ≡ pos 0 → IfSome array.old.tree (λ t. AreThosePassed (is_between (options_of lower_strict upper_strict) (pos lower) (pos upper)) mask.now (column t) bits.new) }
    ensures clear { result ≡ pos 0 → IfSome array.old.tree (λ t. IsClearFrom (length (column t).items) bits.new) }
    ensures unwritten { result ≢ pos 0 → bits.new ≡ bits.old }
{
    let (bounds, strict) = ((lower, upper), (lower_strict, upper_strict));
    passing::between_under(alloc, array, mask, bounds, strict, bits)
}

/// Writes which of the items that a mask keeps of an array of `u16` are valid and compare so with a constant.
#[unsafe(no_mangle)]
pub extern "C" fn flcol_compare_under_u16(
    alloc: Global,
    array: &mut ArrayHandle,
    mask: &[u8],
    operator: u8,
    constant: u16,
    bits: &mut [u8],
) -> i32
    ensures kept { IsKept array.old array.new }
    ensures status { IsStatusOn (λ t. kept_compare_fault U16 operator (length mask.now) (length bits.old) (column t)) (λ t. None) array.old.tree result }
    ensures passed { result ≡ pos 0 → IfSome array.old.tree (λ t. IfSome (operator_of operator) (λ op. AreThosePassed (holds op (pos constant)) mask.now (column t) bits.new)) }
    ensures clear { result ≡ pos 0 → IfSome array.old.tree (λ t. IsClearFrom (length (column t).items) bits.new) }
    ensures unwritten { result ≢ pos 0 → bits.new ≡ bits.old }
{
    passing::compare_under(alloc, array, mask, operator, constant, bits)
}

/// Writes which of the items that a mask keeps of an array of `u16` are valid and lie between two bounds, without a bound
/// itself if its `strict` is not 0.
#[unsafe(no_mangle)]
pub extern "C" fn flcol_between_under_u16(
    alloc: Global,
    array: &mut ArrayHandle,
    mask: &[u8],
    lower: u16,
    upper: u16,
    lower_strict: u8,
    upper_strict: u8,
    bits: &mut [u8],
) -> i32
    ensures kept { IsKept array.old array.new }
    ensures status { IsStatusOn (λ t. kept_test_fault U16 (length mask.now) (length bits.old) (column t)) (λ t. None) array.old.tree result }
    ensures passed { result ≡ pos 0 → IfSome array.old.tree (λ t. AreThosePassed (is_between (options_of lower_strict upper_strict) (pos lower) (pos upper)) mask.now (column t) bits.new) }
    ensures clear { result ≡ pos 0 → IfSome array.old.tree (λ t. IsClearFrom (length (column t).items) bits.new) }
    ensures unwritten { result ≢ pos 0 → bits.new ≡ bits.old }
{
    let (bounds, strict) = ((lower, upper), (lower_strict, upper_strict));
    passing::between_under(alloc, array, mask, bounds, strict, bits)
}

/// Writes which of the items that a mask keeps of an array of `u32` are valid and compare so with a constant.
#[unsafe(no_mangle)]
pub extern "C" fn flcol_compare_under_u32(
    alloc: Global,
    array: &mut ArrayHandle,
    mask: &[u8],
    operator: u8,
    constant: u32,
    bits: &mut [u8],
) -> i32
    ensures kept { IsKept array.old array.new }
    ensures status { IsStatusOn (λ t. kept_compare_fault U32 operator (length mask.now) (length bits.old) (column t)) (λ t. None) array.old.tree result }
    ensures passed { result ≡ pos 0 → IfSome array.old.tree (λ t. IfSome (operator_of operator) (λ op. AreThosePassed (holds op (pos constant)) mask.now (column t) bits.new)) }
    ensures clear { result ≡ pos 0 → IfSome array.old.tree (λ t. IsClearFrom (length (column t).items) bits.new) }
    ensures unwritten { result ≢ pos 0 → bits.new ≡ bits.old }
{
    passing::compare_under(alloc, array, mask, operator, constant, bits)
}

/// Writes which of the items that a mask keeps of an array of `u32` are valid and lie between two bounds, without a bound
/// itself if its `strict` is not 0.
#[unsafe(no_mangle)]
pub extern "C" fn flcol_between_under_u32(
    alloc: Global,
    array: &mut ArrayHandle,
    mask: &[u8],
    lower: u32,
    upper: u32,
    lower_strict: u8,
    upper_strict: u8,
    bits: &mut [u8],
) -> i32
    ensures kept { IsKept array.old array.new }
    ensures status { IsStatusOn (λ t. kept_test_fault U32 (length mask.now) (length bits.old) (column t)) (λ t. None) array.old.tree result }
    ensures passed { result ≡ pos 0 → IfSome array.old.tree (λ t. AreThosePassed (is_between (options_of lower_strict upper_strict) (pos lower) (pos upper)) mask.now (column t) bits.new) }
    ensures clear { result ≡ pos 0 → IfSome array.old.tree (λ t. IsClearFrom (length (column t).items) bits.new) }
    ensures unwritten { result ≢ pos 0 → bits.new ≡ bits.old }
{
    let (bounds, strict) = ((lower, upper), (lower_strict, upper_strict));
    passing::between_under(alloc, array, mask, bounds, strict, bits)
}

/// Writes which of the items that a mask keeps of an array of `u64` are valid and compare so with a constant.
#[unsafe(no_mangle)]
pub extern "C" fn flcol_compare_under_u64(
    alloc: Global,
    array: &mut ArrayHandle,
    mask: &[u8],
    operator: u8,
    constant: u64,
    bits: &mut [u8],
) -> i32
    ensures kept { IsKept array.old array.new }
    ensures status { IsStatusOn (λ t. kept_compare_fault U64 operator (length mask.now) (length bits.old) (column t)) (λ t. None) array.old.tree result }
    ensures passed { result ≡ pos 0 → IfSome array.old.tree (λ t. IfSome (operator_of operator) (λ op. AreThosePassed (holds op (pos constant)) mask.now (column t) bits.new)) }
    ensures clear { result ≡ pos 0 → IfSome array.old.tree (λ t. IsClearFrom (length (column t).items) bits.new) }
    ensures unwritten { result ≢ pos 0 → bits.new ≡ bits.old }
{
    passing::compare_under(alloc, array, mask, operator, constant, bits)
}

/// Writes which of the items that a mask keeps of an array of `u64` are valid and lie between two bounds, without a bound
/// itself if its `strict` is not 0.
#[unsafe(no_mangle)]
pub extern "C" fn flcol_between_under_u64(
    alloc: Global,
    array: &mut ArrayHandle,
    mask: &[u8],
    lower: u64,
    upper: u64,
    lower_strict: u8,
    upper_strict: u8,
    bits: &mut [u8],
) -> i32
    ensures kept { IsKept array.old array.new }
    ensures status { IsStatusOn (λ t. kept_test_fault U64 (length mask.now) (length bits.old) (column t)) (λ t. None) array.old.tree result }
    ensures passed { result ≡ pos 0 → IfSome array.old.tree (λ t. AreThosePassed (is_between (options_of lower_strict upper_strict) (pos lower) (pos upper)) mask.now (column t) bits.new) }
    ensures clear { result ≡ pos 0 → IfSome array.old.tree (λ t. IsClearFrom (length (column t).items) bits.new) }
    ensures unwritten { result ≢ pos 0 → bits.new ≡ bits.old }
{
    let (bounds, strict) = ((lower, upper), (lower_strict, upper_strict));
    passing::between_under(alloc, array, mask, bounds, strict, bits)
}

/// Writes which of the items that a mask keeps of an array of `i8` are valid and compare so with a constant.
#[unsafe(no_mangle)]
pub extern "C" fn flcol_compare_under_i8(
    alloc: Global,
    array: &mut ArrayHandle,
    mask: &[u8],
    operator: u8,
    constant: i8,
    bits: &mut [u8],
) -> i32
    ensures kept { IsKept array.old array.new }
    ensures status { IsStatusOn (λ t. kept_compare_fault I8 operator (length mask.now) (length bits.old) (column t)) (λ t. None) array.old.tree result }
    ensures passed { result ≡ pos 0 → IfSome array.old.tree (λ t. IfSome (operator_of operator) (λ op. AreThosePassed (holds op constant) mask.now (column t) bits.new)) }
    ensures clear { result ≡ pos 0 → IfSome array.old.tree (λ t. IsClearFrom (length (column t).items) bits.new) }
    ensures unwritten { result ≢ pos 0 → bits.new ≡ bits.old }
{
    passing::compare_under(alloc, array, mask, operator, constant, bits)
}

/// Writes which of the items that a mask keeps of an array of `i8` are valid and lie between two bounds, without a bound
/// itself if its `strict` is not 0.
#[unsafe(no_mangle)]
pub extern "C" fn flcol_between_under_i8(
    alloc: Global,
    array: &mut ArrayHandle,
    mask: &[u8],
    lower: i8,
    upper: i8,
    lower_strict: u8,
    upper_strict: u8,
    bits: &mut [u8],
) -> i32
    ensures kept { IsKept array.old array.new }
    ensures status { IsStatusOn (λ t. kept_test_fault I8 (length mask.now) (length bits.old) (column t)) (λ t. None) array.old.tree result }
    ensures passed { result ≡ pos 0 → IfSome array.old.tree (λ t. AreThosePassed (is_between (options_of lower_strict upper_strict) lower upper) mask.now (column t) bits.new) }
    ensures clear { result ≡ pos 0 → IfSome array.old.tree (λ t. IsClearFrom (length (column t).items) bits.new) }
    ensures unwritten { result ≢ pos 0 → bits.new ≡ bits.old }
{
    let (bounds, strict) = ((lower, upper), (lower_strict, upper_strict));
    passing::between_under(alloc, array, mask, bounds, strict, bits)
}

/// Writes which of the items that a mask keeps of an array of `i16` are valid and compare so with a constant.
#[unsafe(no_mangle)]
pub extern "C" fn flcol_compare_under_i16(
    alloc: Global,
    array: &mut ArrayHandle,
    mask: &[u8],
    operator: u8,
    constant: i16,
    bits: &mut [u8],
) -> i32
    ensures kept { IsKept array.old array.new }
    ensures status { IsStatusOn (λ t. kept_compare_fault I16 operator (length mask.now) (length bits.old) (column t)) (λ t. None) array.old.tree result }
    ensures passed { result ≡ pos 0 → IfSome array.old.tree (λ t. IfSome (operator_of operator) (λ op. AreThosePassed (holds op constant) mask.now (column t) bits.new)) }
    ensures clear { result ≡ pos 0 → IfSome array.old.tree (λ t. IsClearFrom (length (column t).items) bits.new) }
    ensures unwritten { result ≢ pos 0 → bits.new ≡ bits.old }
{
    passing::compare_under(alloc, array, mask, operator, constant, bits)
}

/// Writes which of the items that a mask keeps of an array of `i16` are valid and lie between two bounds, without a bound
/// itself if its `strict` is not 0.
#[unsafe(no_mangle)]
pub extern "C" fn flcol_between_under_i16(
    alloc: Global,
    array: &mut ArrayHandle,
    mask: &[u8],
    lower: i16,
    upper: i16,
    lower_strict: u8,
    upper_strict: u8,
    bits: &mut [u8],
) -> i32
    ensures kept { IsKept array.old array.new }
    ensures status { IsStatusOn (λ t. kept_test_fault I16 (length mask.now) (length bits.old) (column t)) (λ t. None) array.old.tree result }
    ensures passed { result ≡ pos 0 → IfSome array.old.tree (λ t. AreThosePassed (is_between (options_of lower_strict upper_strict) lower upper) mask.now (column t) bits.new) }
    ensures clear { result ≡ pos 0 → IfSome array.old.tree (λ t. IsClearFrom (length (column t).items) bits.new) }
    ensures unwritten { result ≢ pos 0 → bits.new ≡ bits.old }
{
    let (bounds, strict) = ((lower, upper), (lower_strict, upper_strict));
    passing::between_under(alloc, array, mask, bounds, strict, bits)
}

/// Writes which of the items that a mask keeps of an array of `i32` are valid and compare so with a constant.
#[unsafe(no_mangle)]
pub extern "C" fn flcol_compare_under_i32(
    alloc: Global,
    array: &mut ArrayHandle,
    mask: &[u8],
    operator: u8,
    constant: i32,
    bits: &mut [u8],
) -> i32
    ensures kept { IsKept array.old array.new }
    ensures status { IsStatusOn (λ t. kept_compare_fault I32 operator (length mask.now) (length bits.old) (column t)) (λ t. None) array.old.tree result }
    ensures passed { result ≡ pos 0 → IfSome array.old.tree (λ t. IfSome (operator_of operator) (λ op. AreThosePassed (holds op constant) mask.now (column t) bits.new)) }
    ensures clear { result ≡ pos 0 → IfSome array.old.tree (λ t. IsClearFrom (length (column t).items) bits.new) }
    ensures unwritten { result ≢ pos 0 → bits.new ≡ bits.old }
{
    passing::compare_under(alloc, array, mask, operator, constant, bits)
}

/// Writes which of the items that a mask keeps of an array of `i32` are valid and lie between two bounds, without a bound
/// itself if its `strict` is not 0.
#[unsafe(no_mangle)]
pub extern "C" fn flcol_between_under_i32(
    alloc: Global,
    array: &mut ArrayHandle,
    mask: &[u8],
    lower: i32,
    upper: i32,
    lower_strict: u8,
    upper_strict: u8,
    bits: &mut [u8],
) -> i32
    ensures kept { IsKept array.old array.new }
    ensures status { IsStatusOn (λ t. kept_test_fault I32 (length mask.now) (length bits.old) (column t)) (λ t. None) array.old.tree result }
    ensures passed { result ≡ pos 0 → IfSome array.old.tree (λ t. AreThosePassed (is_between (options_of lower_strict upper_strict) lower upper) mask.now (column t) bits.new) }
    ensures clear { result ≡ pos 0 → IfSome array.old.tree (λ t. IsClearFrom (length (column t).items) bits.new) }
    ensures unwritten { result ≢ pos 0 → bits.new ≡ bits.old }
{
    let (bounds, strict) = ((lower, upper), (lower_strict, upper_strict));
    passing::between_under(alloc, array, mask, bounds, strict, bits)
}

/// Writes which of the items that a mask keeps of an array of `i64` are valid and compare so with a constant.
#[unsafe(no_mangle)]
pub extern "C" fn flcol_compare_under_i64(
    alloc: Global,
    array: &mut ArrayHandle,
    mask: &[u8],
    operator: u8,
    constant: i64,
    bits: &mut [u8],
) -> i32
    ensures kept { IsKept array.old array.new }
    ensures status { IsStatusOn (λ t. kept_compare_fault I64 operator (length mask.now) (length bits.old) (column t)) (λ t. None) array.old.tree result }
    ensures passed { result ≡ pos 0 → IfSome array.old.tree (λ t. IfSome (operator_of operator) (λ op. AreThosePassed (holds op constant) mask.now (column t) bits.new)) }
    ensures clear { result ≡ pos 0 → IfSome array.old.tree (λ t. IsClearFrom (length (column t).items) bits.new) }
    ensures unwritten { result ≢ pos 0 → bits.new ≡ bits.old }
{
    passing::compare_under(alloc, array, mask, operator, constant, bits)
}

/// Writes which of the items that a mask keeps of an array of `i64` are valid and lie between two bounds, without a bound
/// itself if its `strict` is not 0.
#[unsafe(no_mangle)]
pub extern "C" fn flcol_between_under_i64(
    alloc: Global,
    array: &mut ArrayHandle,
    mask: &[u8],
    lower: i64,
    upper: i64,
    lower_strict: u8,
    upper_strict: u8,
    bits: &mut [u8],
) -> i32
    ensures kept { IsKept array.old array.new }
    ensures status { IsStatusOn (λ t. kept_test_fault I64 (length mask.now) (length bits.old) (column t)) (λ t. None) array.old.tree result }
    ensures passed { result ≡ pos 0 → IfSome array.old.tree (λ t. AreThosePassed (is_between (options_of lower_strict upper_strict) lower upper) mask.now (column t) bits.new) }
    ensures clear { result ≡ pos 0 → IfSome array.old.tree (λ t. IsClearFrom (length (column t).items) bits.new) }
    ensures unwritten { result ≢ pos 0 → bits.new ≡ bits.old }
{
    let (bounds, strict) = ((lower, upper), (lower_strict, upper_strict));
    passing::between_under(alloc, array, mask, bounds, strict, bits)
}
