//! The calls that test items.

ghost use Rattle.std.specs.Prelude.{◌≡◌, ◌≢◌, IfSome, length, map, pos};
ghost use Rattle.fl_types.specs.declared.dtype.PType.TheVariants.{I16, I32, I64, I8, U16, U32, U64, U8};
ghost use Rattle.fl_array.specs.Trees.{column};
ghost use Rattle.fl_column.specs.Queries.{holds, is_between};
ghost use Rattle.fl_scan.specs.Membership.{is_one_of};
ghost use Rattle.flcol_c.specs.Answering.{AreAnswers, compare_fault, operator_of, options_of, test_fault};
ghost use Rattle.fl_bitmaps.specs.Bitmaps.{IsClearFrom};
ghost use Rattle.flcol_c.specs.Held.{IsKept, IsStatusOn};
ghost use Rattle.flcol_c.specs.Reading.{nulls_fault};

use crate::handle::ArrayHandle;
use crate::typed;
use std::alloc::Global;

/// Writes how each item of an array of `u8` compares with a constant, and which items are valid.
#[unsafe(no_mangle)]
pub extern "C" fn flcol_compare_u8(
    alloc: Global,
    array: &mut ArrayHandle,
    operator: u8,
    constant: u8,
    bits: &mut [u8],
    validity: &mut [u8],
) -> i32
    ensures kept { IsKept array.old array.new }
    ensures status { IsStatusOn (λ t. compare_fault U8 operator (length bits.old) (column t)) (λ t. nulls_fault (length validity.old) (column t)) array.old.tree result }
    ensures compared { result ≡ pos 0 → IfSome array.old.tree (λ t. IfSome (operator_of operator) (λ op. AreAnswers (holds op (pos constant)) (column t) bits.new validity.new)) }
    ensures clear { result ≡ pos 0 → IfSome array.old.tree (λ t. IsClearFrom (length (column t).items) bits.new × IsClearFrom (length (column t).items) validity.new) }
    ensures unwritten { result ≢ pos 0 → (bits.new ≡ bits.old) × (validity.new ≡ validity.old) }
{
    typed::compare(alloc, array, operator, constant, bits, validity)
}

/// Writes whether each item of an array of `u8` lies between two bounds, without a bound itself if its `strict` is
/// not 0, and which items are valid.
#[unsafe(no_mangle)]
pub extern "C" fn flcol_between_u8(
    alloc: Global,
    array: &mut ArrayHandle,
    lower: u8,
    upper: u8,
    lower_strict: u8,
    upper_strict: u8,
    bits: &mut [u8],
    validity: &mut [u8],
) -> i32
    ensures kept { IsKept array.old array.new }
    ensures status { IsStatusOn (λ t. test_fault U8 (length bits.old) (column t)) (λ t. nulls_fault (length validity.old) (column t)) array.old.tree result }
    ensures tested { result ≡ pos 0 → IfSome array.old.tree (λ t. AreAnswers (is_between (options_of lower_strict upper_strict) (pos lower) (pos upper)) (column t) bits.new validity.new) }
    ensures clear { result ≡ pos 0 → IfSome array.old.tree (λ t. IsClearFrom (length (column t).items) bits.new × IsClearFrom (length (column t).items) validity.new) }
    ensures unwritten { result ≢ pos 0 → (bits.new ≡ bits.old) × (validity.new ≡ validity.old) }
{
    let (bounds, strict) = ((lower, upper), (lower_strict, upper_strict));
    typed::between(alloc, array, bounds, strict, bits, validity)
}

/// Writes whether each item of an array of `u8` is one of a list, and which items are valid.
#[unsafe(no_mangle)]
pub extern "C" fn flcol_is_in_u8(
    alloc: Global,
    array: &mut ArrayHandle,
    list: &[u8],
    bits: &mut [u8],
    validity: &mut [u8],
) -> i32
    ensures kept { IsKept array.old array.new }
    ensures status { IsStatusOn (λ t. test_fault U8 (length bits.old) (column t)) (λ t. nulls_fault (length validity.old) (column t)) array.old.tree result }
    ensures tested { result ≡ pos 0 → IfSome array.old.tree (λ t. AreAnswers (is_one_of (map pos list.now)) (column t) bits.new validity.new) }
    ensures clear { result ≡ pos 0 → IfSome array.old.tree (λ t. IsClearFrom (length (column t).items) bits.new × IsClearFrom (length (column t).items) validity.new) }
    ensures unwritten { result ≢ pos 0 → (bits.new ≡ bits.old) × (validity.new ≡ validity.old) }
{
    typed::is_in(alloc, array, list, bits, validity)
}

/// Writes how each item of an array of `u16` compares with a constant, and which items are valid.
#[unsafe(no_mangle)]
pub extern "C" fn flcol_compare_u16(
    alloc: Global,
    array: &mut ArrayHandle,
    operator: u8,
    constant: u16,
    bits: &mut [u8],
    validity: &mut [u8],
) -> i32
    ensures kept { IsKept array.old array.new }
    ensures status { IsStatusOn (λ t. compare_fault U16 operator (length bits.old) (column t)) (λ t. nulls_fault (length validity.old) (column t)) array.old.tree result }
    ensures compared { result ≡ pos 0 → IfSome array.old.tree (λ t. IfSome (operator_of operator) (λ op. AreAnswers (holds op (pos constant)) (column t) bits.new validity.new)) }
    ensures clear { result ≡ pos 0 → IfSome array.old.tree (λ t. IsClearFrom (length (column t).items) bits.new × IsClearFrom (length (column t).items) validity.new) }
    ensures unwritten { result ≢ pos 0 → (bits.new ≡ bits.old) × (validity.new ≡ validity.old) }
{
    typed::compare(alloc, array, operator, constant, bits, validity)
}

/// Writes whether each item of an array of `u16` lies between two bounds, without a bound itself if its `strict` is
/// not 0, and which items are valid.
#[unsafe(no_mangle)]
pub extern "C" fn flcol_between_u16(
    alloc: Global,
    array: &mut ArrayHandle,
    lower: u16,
    upper: u16,
    lower_strict: u8,
    upper_strict: u8,
    bits: &mut [u8],
    validity: &mut [u8],
) -> i32
    ensures kept { IsKept array.old array.new }
    ensures status { IsStatusOn (λ t. test_fault U16 (length bits.old) (column t)) (λ t. nulls_fault (length validity.old) (column t)) array.old.tree result }
    ensures tested { result ≡ pos 0 → IfSome array.old.tree (λ t. AreAnswers (is_between (options_of lower_strict upper_strict) (pos lower) (pos upper)) (column t) bits.new validity.new) }
    ensures clear { result ≡ pos 0 → IfSome array.old.tree (λ t. IsClearFrom (length (column t).items) bits.new × IsClearFrom (length (column t).items) validity.new) }
    ensures unwritten { result ≢ pos 0 → (bits.new ≡ bits.old) × (validity.new ≡ validity.old) }
{
    let (bounds, strict) = ((lower, upper), (lower_strict, upper_strict));
    typed::between(alloc, array, bounds, strict, bits, validity)
}

/// Writes whether each item of an array of `u16` is one of a list, and which items are valid.
#[unsafe(no_mangle)]
pub extern "C" fn flcol_is_in_u16(
    alloc: Global,
    array: &mut ArrayHandle,
    list: &[u16],
    bits: &mut [u8],
    validity: &mut [u8],
) -> i32
    ensures kept { IsKept array.old array.new }
    ensures status { IsStatusOn (λ t. test_fault U16 (length bits.old) (column t)) (λ t. nulls_fault (length validity.old) (column t)) array.old.tree result }
    ensures tested { result ≡ pos 0 → IfSome array.old.tree (λ t. AreAnswers (is_one_of (map pos list.now)) (column t) bits.new validity.new) }
    ensures clear { result ≡ pos 0 → IfSome array.old.tree (λ t. IsClearFrom (length (column t).items) bits.new × IsClearFrom (length (column t).items) validity.new) }
    ensures unwritten { result ≢ pos 0 → (bits.new ≡ bits.old) × (validity.new ≡ validity.old) }
{
    typed::is_in(alloc, array, list, bits, validity)
}

/// Writes how each item of an array of `u32` compares with a constant, and which items are valid.
#[unsafe(no_mangle)]
pub extern "C" fn flcol_compare_u32(
    alloc: Global,
    array: &mut ArrayHandle,
    operator: u8,
    constant: u32,
    bits: &mut [u8],
    validity: &mut [u8],
) -> i32
    ensures kept { IsKept array.old array.new }
    ensures status { IsStatusOn (λ t. compare_fault U32 operator (length bits.old) (column t)) (λ t. nulls_fault (length validity.old) (column t)) array.old.tree result }
    ensures compared { result ≡ pos 0 → IfSome array.old.tree (λ t. IfSome (operator_of operator) (λ op. AreAnswers (holds op (pos constant)) (column t) bits.new validity.new)) }
    ensures clear { result ≡ pos 0 → IfSome array.old.tree (λ t. IsClearFrom (length (column t).items) bits.new × IsClearFrom (length (column t).items) validity.new) }
    ensures unwritten { result ≢ pos 0 → (bits.new ≡ bits.old) × (validity.new ≡ validity.old) }
{
    typed::compare(alloc, array, operator, constant, bits, validity)
}

/// Writes whether each item of an array of `u32` lies between two bounds, without a bound itself if its `strict` is
/// not 0, and which items are valid.
#[unsafe(no_mangle)]
pub extern "C" fn flcol_between_u32(
    alloc: Global,
    array: &mut ArrayHandle,
    lower: u32,
    upper: u32,
    lower_strict: u8,
    upper_strict: u8,
    bits: &mut [u8],
    validity: &mut [u8],
) -> i32
    ensures kept { IsKept array.old array.new }
    ensures status { IsStatusOn (λ t. test_fault U32 (length bits.old) (column t)) (λ t. nulls_fault (length validity.old) (column t)) array.old.tree result }
    ensures tested { result ≡ pos 0 → IfSome array.old.tree (λ t. AreAnswers (is_between (options_of lower_strict upper_strict) (pos lower) (pos upper)) (column t) bits.new validity.new) }
    ensures clear { result ≡ pos 0 → IfSome array.old.tree (λ t. IsClearFrom (length (column t).items) bits.new × IsClearFrom (length (column t).items) validity.new) }
    ensures unwritten { result ≢ pos 0 → (bits.new ≡ bits.old) × (validity.new ≡ validity.old) }
{
    let (bounds, strict) = ((lower, upper), (lower_strict, upper_strict));
    typed::between(alloc, array, bounds, strict, bits, validity)
}

/// Writes whether each item of an array of `u32` is one of a list, and which items are valid.
#[unsafe(no_mangle)]
pub extern "C" fn flcol_is_in_u32(
    alloc: Global,
    array: &mut ArrayHandle,
    list: &[u32],
    bits: &mut [u8],
    validity: &mut [u8],
) -> i32
    ensures kept { IsKept array.old array.new }
    ensures status { IsStatusOn (λ t. test_fault U32 (length bits.old) (column t)) (λ t. nulls_fault (length validity.old) (column t)) array.old.tree result }
    ensures tested { result ≡ pos 0 → IfSome array.old.tree (λ t. AreAnswers (is_one_of (map pos list.now)) (column t) bits.new validity.new) }
    ensures clear { result ≡ pos 0 → IfSome array.old.tree (λ t. IsClearFrom (length (column t).items) bits.new × IsClearFrom (length (column t).items) validity.new) }
    ensures unwritten { result ≢ pos 0 → (bits.new ≡ bits.old) × (validity.new ≡ validity.old) }
{
    typed::is_in(alloc, array, list, bits, validity)
}

/// Writes how each item of an array of `u64` compares with a constant, and which items are valid.
#[unsafe(no_mangle)]
pub extern "C" fn flcol_compare_u64(
    alloc: Global,
    array: &mut ArrayHandle,
    operator: u8,
    constant: u64,
    bits: &mut [u8],
    validity: &mut [u8],
) -> i32
    ensures kept { IsKept array.old array.new }
    ensures status { IsStatusOn (λ t. compare_fault U64 operator (length bits.old) (column t)) (λ t. nulls_fault (length validity.old) (column t)) array.old.tree result }
    ensures compared { result ≡ pos 0 → IfSome array.old.tree (λ t. IfSome (operator_of operator) (λ op. AreAnswers (holds op (pos constant)) (column t) bits.new validity.new)) }
    ensures clear { result ≡ pos 0 → IfSome array.old.tree (λ t. IsClearFrom (length (column t).items) bits.new × IsClearFrom (length (column t).items) validity.new) }
    ensures unwritten { result ≢ pos 0 → (bits.new ≡ bits.old) × (validity.new ≡ validity.old) }
{
    typed::compare(alloc, array, operator, constant, bits, validity)
}

/// Writes whether each item of an array of `u64` lies between two bounds, without a bound itself if its `strict` is
/// not 0, and which items are valid.
#[unsafe(no_mangle)]
pub extern "C" fn flcol_between_u64(
    alloc: Global,
    array: &mut ArrayHandle,
    lower: u64,
    upper: u64,
    lower_strict: u8,
    upper_strict: u8,
    bits: &mut [u8],
    validity: &mut [u8],
) -> i32
    ensures kept { IsKept array.old array.new }
    ensures status { IsStatusOn (λ t. test_fault U64 (length bits.old) (column t)) (λ t. nulls_fault (length validity.old) (column t)) array.old.tree result }
    ensures tested { result ≡ pos 0 → IfSome array.old.tree (λ t. AreAnswers (is_between (options_of lower_strict upper_strict) (pos lower) (pos upper)) (column t) bits.new validity.new) }
    ensures clear { result ≡ pos 0 → IfSome array.old.tree (λ t. IsClearFrom (length (column t).items) bits.new × IsClearFrom (length (column t).items) validity.new) }
    ensures unwritten { result ≢ pos 0 → (bits.new ≡ bits.old) × (validity.new ≡ validity.old) }
{
    let (bounds, strict) = ((lower, upper), (lower_strict, upper_strict));
    typed::between(alloc, array, bounds, strict, bits, validity)
}

/// Writes whether each item of an array of `u64` is one of a list, and which items are valid.
#[unsafe(no_mangle)]
pub extern "C" fn flcol_is_in_u64(
    alloc: Global,
    array: &mut ArrayHandle,
    list: &[u64],
    bits: &mut [u8],
    validity: &mut [u8],
) -> i32
    ensures kept { IsKept array.old array.new }
    ensures status { IsStatusOn (λ t. test_fault U64 (length bits.old) (column t)) (λ t. nulls_fault (length validity.old) (column t)) array.old.tree result }
    ensures tested { result ≡ pos 0 → IfSome array.old.tree (λ t. AreAnswers (is_one_of (map pos list.now)) (column t) bits.new validity.new) }
    ensures clear { result ≡ pos 0 → IfSome array.old.tree (λ t. IsClearFrom (length (column t).items) bits.new × IsClearFrom (length (column t).items) validity.new) }
    ensures unwritten { result ≢ pos 0 → (bits.new ≡ bits.old) × (validity.new ≡ validity.old) }
{
    typed::is_in(alloc, array, list, bits, validity)
}

/// Writes how each item of an array of `i8` compares with a constant, and which items are valid.
#[unsafe(no_mangle)]
pub extern "C" fn flcol_compare_i8(
    alloc: Global,
    array: &mut ArrayHandle,
    operator: u8,
    constant: i8,
    bits: &mut [u8],
    validity: &mut [u8],
) -> i32
    ensures kept { IsKept array.old array.new }
    ensures status { IsStatusOn (λ t. compare_fault I8 operator (length bits.old) (column t)) (λ t. nulls_fault (length validity.old) (column t)) array.old.tree result }
    ensures compared { result ≡ pos 0 → IfSome array.old.tree (λ t. IfSome (operator_of operator) (λ op. AreAnswers (holds op constant) (column t) bits.new validity.new)) }
    ensures clear { result ≡ pos 0 → IfSome array.old.tree (λ t. IsClearFrom (length (column t).items) bits.new × IsClearFrom (length (column t).items) validity.new) }
    ensures unwritten { result ≢ pos 0 → (bits.new ≡ bits.old) × (validity.new ≡ validity.old) }
{
    typed::compare(alloc, array, operator, constant, bits, validity)
}

/// Writes whether each item of an array of `i8` lies between two bounds, without a bound itself if its `strict` is
/// not 0, and which items are valid.
#[unsafe(no_mangle)]
pub extern "C" fn flcol_between_i8(
    alloc: Global,
    array: &mut ArrayHandle,
    lower: i8,
    upper: i8,
    lower_strict: u8,
    upper_strict: u8,
    bits: &mut [u8],
    validity: &mut [u8],
) -> i32
    ensures kept { IsKept array.old array.new }
    ensures status { IsStatusOn (λ t. test_fault I8 (length bits.old) (column t)) (λ t. nulls_fault (length validity.old) (column t)) array.old.tree result }
    ensures tested { result ≡ pos 0 → IfSome array.old.tree (λ t. AreAnswers (is_between (options_of lower_strict upper_strict) lower upper) (column t) bits.new validity.new) }
    ensures clear { result ≡ pos 0 → IfSome array.old.tree (λ t. IsClearFrom (length (column t).items) bits.new × IsClearFrom (length (column t).items) validity.new) }
    ensures unwritten { result ≢ pos 0 → (bits.new ≡ bits.old) × (validity.new ≡ validity.old) }
{
    let (bounds, strict) = ((lower, upper), (lower_strict, upper_strict));
    typed::between(alloc, array, bounds, strict, bits, validity)
}

/// Writes whether each item of an array of `i8` is one of a list, and which items are valid.
#[unsafe(no_mangle)]
pub extern "C" fn flcol_is_in_i8(
    alloc: Global,
    array: &mut ArrayHandle,
    list: &[i8],
    bits: &mut [u8],
    validity: &mut [u8],
) -> i32
    ensures kept { IsKept array.old array.new }
    ensures status { IsStatusOn (λ t. test_fault I8 (length bits.old) (column t)) (λ t. nulls_fault (length validity.old) (column t)) array.old.tree result }
    ensures tested { result ≡ pos 0 → IfSome array.old.tree (λ t. AreAnswers (is_one_of list.now) (column t) bits.new validity.new) }
    ensures clear { result ≡ pos 0 → IfSome array.old.tree (λ t. IsClearFrom (length (column t).items) bits.new × IsClearFrom (length (column t).items) validity.new) }
    ensures unwritten { result ≢ pos 0 → (bits.new ≡ bits.old) × (validity.new ≡ validity.old) }
{
    typed::is_in(alloc, array, list, bits, validity)
}

/// Writes how each item of an array of `i16` compares with a constant, and which items are valid.
#[unsafe(no_mangle)]
pub extern "C" fn flcol_compare_i16(
    alloc: Global,
    array: &mut ArrayHandle,
    operator: u8,
    constant: i16,
    bits: &mut [u8],
    validity: &mut [u8],
) -> i32
    ensures kept { IsKept array.old array.new }
    ensures status { IsStatusOn (λ t. compare_fault I16 operator (length bits.old) (column t)) (λ t. nulls_fault (length validity.old) (column t)) array.old.tree result }
    ensures compared { result ≡ pos 0 → IfSome array.old.tree (λ t. IfSome (operator_of operator) (λ op. AreAnswers (holds op constant) (column t) bits.new validity.new)) }
    ensures clear { result ≡ pos 0 → IfSome array.old.tree (λ t. IsClearFrom (length (column t).items) bits.new × IsClearFrom (length (column t).items) validity.new) }
    ensures unwritten { result ≢ pos 0 → (bits.new ≡ bits.old) × (validity.new ≡ validity.old) }
{
    typed::compare(alloc, array, operator, constant, bits, validity)
}

/// Writes whether each item of an array of `i16` lies between two bounds, without a bound itself if its `strict` is
/// not 0, and which items are valid.
#[unsafe(no_mangle)]
pub extern "C" fn flcol_between_i16(
    alloc: Global,
    array: &mut ArrayHandle,
    lower: i16,
    upper: i16,
    lower_strict: u8,
    upper_strict: u8,
    bits: &mut [u8],
    validity: &mut [u8],
) -> i32
    ensures kept { IsKept array.old array.new }
    ensures status { IsStatusOn (λ t. test_fault I16 (length bits.old) (column t)) (λ t. nulls_fault (length validity.old) (column t)) array.old.tree result }
    ensures tested { result ≡ pos 0 → IfSome array.old.tree (λ t. AreAnswers (is_between (options_of lower_strict upper_strict) lower upper) (column t) bits.new validity.new) }
    ensures clear { result ≡ pos 0 → IfSome array.old.tree (λ t. IsClearFrom (length (column t).items) bits.new × IsClearFrom (length (column t).items) validity.new) }
    ensures unwritten { result ≢ pos 0 → (bits.new ≡ bits.old) × (validity.new ≡ validity.old) }
{
    let (bounds, strict) = ((lower, upper), (lower_strict, upper_strict));
    typed::between(alloc, array, bounds, strict, bits, validity)
}

/// Writes whether each item of an array of `i16` is one of a list, and which items are valid.
#[unsafe(no_mangle)]
pub extern "C" fn flcol_is_in_i16(
    alloc: Global,
    array: &mut ArrayHandle,
    list: &[i16],
    bits: &mut [u8],
    validity: &mut [u8],
) -> i32
    ensures kept { IsKept array.old array.new }
    ensures status { IsStatusOn (λ t. test_fault I16 (length bits.old) (column t)) (λ t. nulls_fault (length validity.old) (column t)) array.old.tree result }
    ensures tested { result ≡ pos 0 → IfSome array.old.tree (λ t. AreAnswers (is_one_of list.now) (column t) bits.new validity.new) }
    ensures clear { result ≡ pos 0 → IfSome array.old.tree (λ t. IsClearFrom (length (column t).items) bits.new × IsClearFrom (length (column t).items) validity.new) }
    ensures unwritten { result ≢ pos 0 → (bits.new ≡ bits.old) × (validity.new ≡ validity.old) }
{
    typed::is_in(alloc, array, list, bits, validity)
}

/// Writes how each item of an array of `i32` compares with a constant, and which items are valid.
#[unsafe(no_mangle)]
pub extern "C" fn flcol_compare_i32(
    alloc: Global,
    array: &mut ArrayHandle,
    operator: u8,
    constant: i32,
    bits: &mut [u8],
    validity: &mut [u8],
) -> i32
    ensures kept { IsKept array.old array.new }
    ensures status { IsStatusOn (λ t. compare_fault I32 operator (length bits.old) (column t)) (λ t. nulls_fault (length validity.old) (column t)) array.old.tree result }
    ensures compared { result ≡ pos 0 → IfSome array.old.tree (λ t. IfSome (operator_of operator) (λ op. AreAnswers (holds op constant) (column t) bits.new validity.new)) }
    ensures clear { result ≡ pos 0 → IfSome array.old.tree (λ t. IsClearFrom (length (column t).items) bits.new × IsClearFrom (length (column t).items) validity.new) }
    ensures unwritten { result ≢ pos 0 → (bits.new ≡ bits.old) × (validity.new ≡ validity.old) }
{
    typed::compare(alloc, array, operator, constant, bits, validity)
}

/// Writes whether each item of an array of `i32` lies between two bounds, without a bound itself if its `strict` is
/// not 0, and which items are valid.
#[unsafe(no_mangle)]
pub extern "C" fn flcol_between_i32(
    alloc: Global,
    array: &mut ArrayHandle,
    lower: i32,
    upper: i32,
    lower_strict: u8,
    upper_strict: u8,
    bits: &mut [u8],
    validity: &mut [u8],
) -> i32
    ensures kept { IsKept array.old array.new }
    ensures status { IsStatusOn (λ t. test_fault I32 (length bits.old) (column t)) (λ t. nulls_fault (length validity.old) (column t)) array.old.tree result }
    ensures tested { result ≡ pos 0 → IfSome array.old.tree (λ t. AreAnswers (is_between (options_of lower_strict upper_strict) lower upper) (column t) bits.new validity.new) }
    ensures clear { result ≡ pos 0 → IfSome array.old.tree (λ t. IsClearFrom (length (column t).items) bits.new × IsClearFrom (length (column t).items) validity.new) }
    ensures unwritten { result ≢ pos 0 → (bits.new ≡ bits.old) × (validity.new ≡ validity.old) }
{
    let (bounds, strict) = ((lower, upper), (lower_strict, upper_strict));
    typed::between(alloc, array, bounds, strict, bits, validity)
}

/// Writes whether each item of an array of `i32` is one of a list, and which items are valid.
#[unsafe(no_mangle)]
pub extern "C" fn flcol_is_in_i32(
    alloc: Global,
    array: &mut ArrayHandle,
    list: &[i32],
    bits: &mut [u8],
    validity: &mut [u8],
) -> i32
    ensures kept { IsKept array.old array.new }
    ensures status { IsStatusOn (λ t. test_fault I32 (length bits.old) (column t)) (λ t. nulls_fault (length validity.old) (column t)) array.old.tree result }
    ensures tested { result ≡ pos 0 → IfSome array.old.tree (λ t. AreAnswers (is_one_of list.now) (column t) bits.new validity.new) }
    ensures clear { result ≡ pos 0 → IfSome array.old.tree (λ t. IsClearFrom (length (column t).items) bits.new × IsClearFrom (length (column t).items) validity.new) }
    ensures unwritten { result ≢ pos 0 → (bits.new ≡ bits.old) × (validity.new ≡ validity.old) }
{
    typed::is_in(alloc, array, list, bits, validity)
}

/// Writes how each item of an array of `i64` compares with a constant, and which items are valid.
#[unsafe(no_mangle)]
pub extern "C" fn flcol_compare_i64(
    alloc: Global,
    array: &mut ArrayHandle,
    operator: u8,
    constant: i64,
    bits: &mut [u8],
    validity: &mut [u8],
) -> i32
    ensures kept { IsKept array.old array.new }
    ensures status { IsStatusOn (λ t. compare_fault I64 operator (length bits.old) (column t)) (λ t. nulls_fault (length validity.old) (column t)) array.old.tree result }
    ensures compared { result ≡ pos 0 → IfSome array.old.tree (λ t. IfSome (operator_of operator) (λ op. AreAnswers (holds op constant) (column t) bits.new validity.new)) }
    ensures clear { result ≡ pos 0 → IfSome array.old.tree (λ t. IsClearFrom (length (column t).items) bits.new × IsClearFrom (length (column t).items) validity.new) }
    ensures unwritten { result ≢ pos 0 → (bits.new ≡ bits.old) × (validity.new ≡ validity.old) }
{
    typed::compare(alloc, array, operator, constant, bits, validity)
}

/// Writes whether each item of an array of `i64` lies between two bounds, without a bound itself if its `strict` is
/// not 0, and which items are valid.
#[unsafe(no_mangle)]
pub extern "C" fn flcol_between_i64(
    alloc: Global,
    array: &mut ArrayHandle,
    lower: i64,
    upper: i64,
    lower_strict: u8,
    upper_strict: u8,
    bits: &mut [u8],
    validity: &mut [u8],
) -> i32
    ensures kept { IsKept array.old array.new }
    ensures status { IsStatusOn (λ t. test_fault I64 (length bits.old) (column t)) (λ t. nulls_fault (length validity.old) (column t)) array.old.tree result }
    ensures tested { result ≡ pos 0 → IfSome array.old.tree (λ t. AreAnswers (is_between (options_of lower_strict upper_strict) lower upper) (column t) bits.new validity.new) }
    ensures clear { result ≡ pos 0 → IfSome array.old.tree (λ t. IsClearFrom (length (column t).items) bits.new × IsClearFrom (length (column t).items) validity.new) }
    ensures unwritten { result ≢ pos 0 → (bits.new ≡ bits.old) × (validity.new ≡ validity.old) }
{
    let (bounds, strict) = ((lower, upper), (lower_strict, upper_strict));
    typed::between(alloc, array, bounds, strict, bits, validity)
}

/// Writes whether each item of an array of `i64` is one of a list, and which items are valid.
#[unsafe(no_mangle)]
pub extern "C" fn flcol_is_in_i64(
    alloc: Global,
    array: &mut ArrayHandle,
    list: &[i64],
    bits: &mut [u8],
    validity: &mut [u8],
) -> i32
    ensures kept { IsKept array.old array.new }
    ensures status { IsStatusOn (λ t. test_fault I64 (length bits.old) (column t)) (λ t. nulls_fault (length validity.old) (column t)) array.old.tree result }
    ensures tested { result ≡ pos 0 → IfSome array.old.tree (λ t. AreAnswers (is_one_of list.now) (column t) bits.new validity.new) }
    ensures clear { result ≡ pos 0 → IfSome array.old.tree (λ t. IsClearFrom (length (column t).items) bits.new × IsClearFrom (length (column t).items) validity.new) }
    ensures unwritten { result ≢ pos 0 → (bits.new ≡ bits.old) × (validity.new ≡ validity.old) }
{
    typed::is_in(alloc, array, list, bits, validity)
}
