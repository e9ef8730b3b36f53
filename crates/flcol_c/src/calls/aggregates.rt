//! The calls that gather items: how many meet a test, the least and the greatest, the sum, and those that meet a test.

ghost use Rattle.std.specs.Prelude.{◌≡◌, ◌≢◌, ◌+◌, ◌*◌, ◌^◌, ◌+ℤ◌, ◌*ℤ◌, IfSome, None, false, pos, true};
ghost use Rattle.fl_types.specs.declared.dtype.PType.TheVariants.{I16, I32, I64, I8, U16, U32, U64, U8};
ghost use Rattle.fl_array.specs.Trees.{column};
ghost use Rattle.fl_column.specs.Queries.{holds, is_between};
ghost use Rattle.fl_scan.specs.Totals.{count_of, sum_of};
ghost use Rattle.flcol_c.specs.Aggregates.{AreExtremes, AreThosePassing, count_fault, sum_fault, type_fault};
ghost use Rattle.flcol_c.specs.Answering.{operator_of, options_of};
ghost use Rattle.flcol_c.specs.Held.{HoldsFrom, IsKept, IsStatusOn};

use crate::aggregates;
use crate::handle::ArrayHandle;
use std::alloc::Global;

/// Writes how many items of an array of `u8` are valid and compare so with a constant.
#[unsafe(no_mangle)]
pub extern "C" fn flcol_count_u8(
    alloc: Global,
    array: &mut ArrayHandle,
    operator: u8,
    constant: u8,
    count: &mut usize,
) -> i32
    ensures kept { IsKept array.old array.new }
    ensures status { IsStatusOn (λ t. count_fault U8 operator (column t)) (λ t. None) array.old.tree result }
    ensures counted { result ≡ pos 0 → IfSome array.old.tree (λ t. IfSome (operator_of operator) (λ op. count.new ≡ count_of (holds op (pos constant)) (column t))) }
    ensures uncounted { result ≢ pos 0 → count.new ≡ count.old }
{
    aggregates::count(alloc, array, operator, constant, count)
}

/// Writes how many items of an array of `u8` are valid and lie between two bounds, without a bound itself if its `strict` is
/// not 0.
#[unsafe(no_mangle)]
pub extern "C" fn flcol_count_between_u8(
    alloc: Global,
    array: &mut ArrayHandle,
    lower: u8,
    upper: u8,
    lower_strict: u8,
    upper_strict: u8,
    count: &mut usize,
) -> i32
    ensures kept { IsKept array.old array.new }
    ensures status { IsStatusOn (λ t. type_fault U8 (column t)) (λ t. None) array.old.tree result }
    ensures counted { result ≡ pos 0 → IfSome array.old.tree (λ t. count.new ≡ count_of (is_between (options_of lower_strict upper_strict) (pos lower) (pos upper)) (column t)) }
    ensures uncounted { result ≢ pos 0 → count.new ≡ count.old }
{
    let (bounds, strict) = ((lower, upper), (lower_strict, upper_strict));
    aggregates::count_between(alloc, array, bounds, strict, count)
}

/// Writes the least and the greatest valid item of an array of `u8` and 0, or two zeros and 1 if no item is valid.
#[unsafe(no_mangle)]
pub extern "C" fn flcol_min_max_u8(
    alloc: Global,
    array: &mut ArrayHandle,
    least: &mut u8,
    greatest: &mut u8,
    is_none: &mut u8,
) -> i32
    ensures kept { IsKept array.old array.new }
    ensures status { IsStatusOn (λ t. type_fault U8 (column t)) (λ t. None) array.old.tree result }
    ensures found { result ≡ pos 0 → IfSome array.old.tree (λ t. AreExtremes (column t) (pos least.new) (pos greatest.new) is_none.new) }
    ensures unfound { result ≢ pos 0 → (least.new ≡ least.old) × (greatest.new ≡ greatest.old) × (is_none.new ≡ is_none.old) }
{
    aggregates::min_max(alloc, array, least, greatest, is_none)
}

/// Makes a plain array of the valid items of an array of `u8` that compare so with a constant, in their order.
#[unsafe(no_mangle)]
pub extern "C" fn flcol_filter_by_u8(
    alloc: Global,
    array: &mut ArrayHandle,
    operator: u8,
    constant: u8,
    out: &mut ArrayHandle,
) -> i32
    ensures kept { IsKept array.old array.new }
    ensures status { IsStatusOn (λ t. count_fault U8 operator (column t)) (λ t. None) array.old.tree result }
    ensures made { result ≡ pos 0 → IfSome (operator_of operator) (λ op. HoldsFrom (AreThosePassing (holds op (pos constant))) array.old.tree out.new.tree) }
    ensures unmade { result ≢ pos 0 → out.new ≡ out.old }
{
    aggregates::filter_by(alloc, array, operator, constant, out)
}

/// Makes a plain array of the valid items of an array of `u8` that lie between two bounds, in their order, without a bound
/// itself if its `strict` is not 0.
#[unsafe(no_mangle)]
pub extern "C" fn flcol_filter_between_u8(
    alloc: Global,
    array: &mut ArrayHandle,
    lower: u8,
    upper: u8,
    lower_strict: u8,
    upper_strict: u8,
    out: &mut ArrayHandle,
) -> i32
    ensures kept { IsKept array.old array.new }
    ensures status { IsStatusOn (λ t. type_fault U8 (column t)) (λ t. None) array.old.tree result }
    ensures made { result ≡ pos 0 → HoldsFrom (AreThosePassing (is_between (options_of lower_strict upper_strict) (pos lower) (pos upper))) array.old.tree out.new.tree }
    ensures unmade { result ≢ pos 0 → out.new ≡ out.old }
{
    let (bounds, strict) = ((lower, upper), (lower_strict, upper_strict));
    aggregates::filter_between(alloc, array, bounds, strict, out)
}

/// Writes how many items of an array of `u16` are valid and compare so with a constant.
#[unsafe(no_mangle)]
pub extern "C" fn flcol_count_u16(
    alloc: Global,
    array: &mut ArrayHandle,
    operator: u8,
    constant: u16,
    count: &mut usize,
) -> i32
    ensures kept { IsKept array.old array.new }
    ensures status { IsStatusOn (λ t. count_fault U16 operator (column t)) (λ t. None) array.old.tree result }
    ensures counted { result ≡ pos 0 → IfSome array.old.tree (λ t. IfSome (operator_of operator) (λ op. count.new ≡ count_of (holds op (pos constant)) (column t))) }
    ensures uncounted { result ≢ pos 0 → count.new ≡ count.old }
{
    aggregates::count(alloc, array, operator, constant, count)
}

/// Writes how many items of an array of `u16` are valid and lie between two bounds, without a bound itself if its `strict` is
/// not 0.
#[unsafe(no_mangle)]
pub extern "C" fn flcol_count_between_u16(
    alloc: Global,
    array: &mut ArrayHandle,
    lower: u16,
    upper: u16,
    lower_strict: u8,
    upper_strict: u8,
    count: &mut usize,
) -> i32
    ensures kept { IsKept array.old array.new }
    ensures status { IsStatusOn (λ t. type_fault U16 (column t)) (λ t. None) array.old.tree result }
    ensures counted { result ≡ pos 0 → IfSome array.old.tree (λ t. count.new ≡ count_of (is_between (options_of lower_strict upper_strict) (pos lower) (pos upper)) (column t)) }
    ensures uncounted { result ≢ pos 0 → count.new ≡ count.old }
{
    let (bounds, strict) = ((lower, upper), (lower_strict, upper_strict));
    aggregates::count_between(alloc, array, bounds, strict, count)
}

/// Writes the least and the greatest valid item of an array of `u16` and 0, or two zeros and 1 if no item is valid.
#[unsafe(no_mangle)]
pub extern "C" fn flcol_min_max_u16(
    alloc: Global,
    array: &mut ArrayHandle,
    least: &mut u16,
    greatest: &mut u16,
    is_none: &mut u8,
) -> i32
    ensures kept { IsKept array.old array.new }
    ensures status { IsStatusOn (λ t. type_fault U16 (column t)) (λ t. None) array.old.tree result }
    ensures found { result ≡ pos 0 → IfSome array.old.tree (λ t. AreExtremes (column t) (pos least.new) (pos greatest.new) is_none.new) }
    ensures unfound { result ≢ pos 0 → (least.new ≡ least.old) × (greatest.new ≡ greatest.old) × (is_none.new ≡ is_none.old) }
{
    aggregates::min_max(alloc, array, least, greatest, is_none)
}

/// Makes a plain array of the valid items of an array of `u16` that compare so with a constant, in their order.
#[unsafe(no_mangle)]
pub extern "C" fn flcol_filter_by_u16(
    alloc: Global,
    array: &mut ArrayHandle,
    operator: u8,
    constant: u16,
    out: &mut ArrayHandle,
) -> i32
    ensures kept { IsKept array.old array.new }
    ensures status { IsStatusOn (λ t. count_fault U16 operator (column t)) (λ t. None) array.old.tree result }
    ensures made { result ≡ pos 0 → IfSome (operator_of operator) (λ op. HoldsFrom (AreThosePassing (holds op (pos constant))) array.old.tree out.new.tree) }
    ensures unmade { result ≢ pos 0 → out.new ≡ out.old }
{
    aggregates::filter_by(alloc, array, operator, constant, out)
}

/// Makes a plain array of the valid items of an array of `u16` that lie between two bounds, in their order, without a bound
/// itself if its `strict` is not 0.
#[unsafe(no_mangle)]
pub extern "C" fn flcol_filter_between_u16(
    alloc: Global,
    array: &mut ArrayHandle,
    lower: u16,
    upper: u16,
    lower_strict: u8,
    upper_strict: u8,
    out: &mut ArrayHandle,
) -> i32
    ensures kept { IsKept array.old array.new }
    ensures status { IsStatusOn (λ t. type_fault U16 (column t)) (λ t. None) array.old.tree result }
    ensures made { result ≡ pos 0 → HoldsFrom (AreThosePassing (is_between (options_of lower_strict upper_strict) (pos lower) (pos upper))) array.old.tree out.new.tree }
    ensures unmade { result ≢ pos 0 → out.new ≡ out.old }
{
    let (bounds, strict) = ((lower, upper), (lower_strict, upper_strict));
    aggregates::filter_between(alloc, array, bounds, strict, out)
}

/// Writes how many items of an array of `u32` are valid and compare so with a constant.
#[unsafe(no_mangle)]
pub extern "C" fn flcol_count_u32(
    alloc: Global,
    array: &mut ArrayHandle,
    operator: u8,
    constant: u32,
    count: &mut usize,
) -> i32
    ensures kept { IsKept array.old array.new }
    ensures status { IsStatusOn (λ t. count_fault U32 operator (column t)) (λ t. None) array.old.tree result }
    ensures counted { result ≡ pos 0 → IfSome array.old.tree (λ t. IfSome (operator_of operator) (λ op. count.new ≡ count_of (holds op (pos constant)) (column t))) }
    ensures uncounted { result ≢ pos 0 → count.new ≡ count.old }
{
    aggregates::count(alloc, array, operator, constant, count)
}

/// Writes how many items of an array of `u32` are valid and lie between two bounds, without a bound itself if its `strict` is
/// not 0.
#[unsafe(no_mangle)]
pub extern "C" fn flcol_count_between_u32(
    alloc: Global,
    array: &mut ArrayHandle,
    lower: u32,
    upper: u32,
    lower_strict: u8,
    upper_strict: u8,
    count: &mut usize,
) -> i32
    ensures kept { IsKept array.old array.new }
    ensures status { IsStatusOn (λ t. type_fault U32 (column t)) (λ t. None) array.old.tree result }
    ensures counted { result ≡ pos 0 → IfSome array.old.tree (λ t. count.new ≡ count_of (is_between (options_of lower_strict upper_strict) (pos lower) (pos upper)) (column t)) }
    ensures uncounted { result ≢ pos 0 → count.new ≡ count.old }
{
    let (bounds, strict) = ((lower, upper), (lower_strict, upper_strict));
    aggregates::count_between(alloc, array, bounds, strict, count)
}

/// Writes the least and the greatest valid item of an array of `u32` and 0, or two zeros and 1 if no item is valid.
#[unsafe(no_mangle)]
pub extern "C" fn flcol_min_max_u32(
    alloc: Global,
    array: &mut ArrayHandle,
    least: &mut u32,
    greatest: &mut u32,
    is_none: &mut u8,
) -> i32
    ensures kept { IsKept array.old array.new }
    ensures status { IsStatusOn (λ t. type_fault U32 (column t)) (λ t. None) array.old.tree result }
    ensures found { result ≡ pos 0 → IfSome array.old.tree (λ t. AreExtremes (column t) (pos least.new) (pos greatest.new) is_none.new) }
    ensures unfound { result ≢ pos 0 → (least.new ≡ least.old) × (greatest.new ≡ greatest.old) × (is_none.new ≡ is_none.old) }
{
    aggregates::min_max(alloc, array, least, greatest, is_none)
}

/// Makes a plain array of the valid items of an array of `u32` that compare so with a constant, in their order.
#[unsafe(no_mangle)]
pub extern "C" fn flcol_filter_by_u32(
    alloc: Global,
    array: &mut ArrayHandle,
    operator: u8,
    constant: u32,
    out: &mut ArrayHandle,
) -> i32
    ensures kept { IsKept array.old array.new }
    ensures status { IsStatusOn (λ t. count_fault U32 operator (column t)) (λ t. None) array.old.tree result }
    ensures made { result ≡ pos 0 → IfSome (operator_of operator) (λ op. HoldsFrom (AreThosePassing (holds op (pos constant))) array.old.tree out.new.tree) }
    ensures unmade { result ≢ pos 0 → out.new ≡ out.old }
{
    aggregates::filter_by(alloc, array, operator, constant, out)
}

/// Makes a plain array of the valid items of an array of `u32` that lie between two bounds, in their order, without a bound
/// itself if its `strict` is not 0.
#[unsafe(no_mangle)]
pub extern "C" fn flcol_filter_between_u32(
    alloc: Global,
    array: &mut ArrayHandle,
    lower: u32,
    upper: u32,
    lower_strict: u8,
    upper_strict: u8,
    out: &mut ArrayHandle,
) -> i32
    ensures kept { IsKept array.old array.new }
    ensures status { IsStatusOn (λ t. type_fault U32 (column t)) (λ t. None) array.old.tree result }
    ensures made { result ≡ pos 0 → HoldsFrom (AreThosePassing (is_between (options_of lower_strict upper_strict) (pos lower) (pos upper))) array.old.tree out.new.tree }
    ensures unmade { result ≢ pos 0 → out.new ≡ out.old }
{
    let (bounds, strict) = ((lower, upper), (lower_strict, upper_strict));
    aggregates::filter_between(alloc, array, bounds, strict, out)
}

/// Writes how many items of an array of `u64` are valid and compare so with a constant.
#[unsafe(no_mangle)]
pub extern "C" fn flcol_count_u64(
    alloc: Global,
    array: &mut ArrayHandle,
    operator: u8,
    constant: u64,
    count: &mut usize,
) -> i32
    ensures kept { IsKept array.old array.new }
    ensures status { IsStatusOn (λ t. count_fault U64 operator (column t)) (λ t. None) array.old.tree result }
    ensures counted { result ≡ pos 0 → IfSome array.old.tree (λ t. IfSome (operator_of operator) (λ op. count.new ≡ count_of (holds op (pos constant)) (column t))) }
    ensures uncounted { result ≢ pos 0 → count.new ≡ count.old }
{
    aggregates::count(alloc, array, operator, constant, count)
}

/// Writes how many items of an array of `u64` are valid and lie between two bounds, without a bound itself if its `strict` is
/// not 0.
#[unsafe(no_mangle)]
pub extern "C" fn flcol_count_between_u64(
    alloc: Global,
    array: &mut ArrayHandle,
    lower: u64,
    upper: u64,
    lower_strict: u8,
    upper_strict: u8,
    count: &mut usize,
) -> i32
    ensures kept { IsKept array.old array.new }
    ensures status { IsStatusOn (λ t. type_fault U64 (column t)) (λ t. None) array.old.tree result }
    ensures counted { result ≡ pos 0 → IfSome array.old.tree (λ t. count.new ≡ count_of (is_between (options_of lower_strict upper_strict) (pos lower) (pos upper)) (column t)) }
    ensures uncounted { result ≢ pos 0 → count.new ≡ count.old }
{
    let (bounds, strict) = ((lower, upper), (lower_strict, upper_strict));
    aggregates::count_between(alloc, array, bounds, strict, count)
}

/// Writes the least and the greatest valid item of an array of `u64` and 0, or two zeros and 1 if no item is valid.
#[unsafe(no_mangle)]
pub extern "C" fn flcol_min_max_u64(
    alloc: Global,
    array: &mut ArrayHandle,
    least: &mut u64,
    greatest: &mut u64,
    is_none: &mut u8,
) -> i32
    ensures kept { IsKept array.old array.new }
    ensures status { IsStatusOn (λ t. type_fault U64 (column t)) (λ t. None) array.old.tree result }
    ensures found { result ≡ pos 0 → IfSome array.old.tree (λ t. AreExtremes (column t) (pos least.new) (pos greatest.new) is_none.new) }
    ensures unfound { result ≢ pos 0 → (least.new ≡ least.old) × (greatest.new ≡ greatest.old) × (is_none.new ≡ is_none.old) }
{
    aggregates::min_max(alloc, array, least, greatest, is_none)
}

/// Makes a plain array of the valid items of an array of `u64` that compare so with a constant, in their order.
#[unsafe(no_mangle)]
pub extern "C" fn flcol_filter_by_u64(
    alloc: Global,
    array: &mut ArrayHandle,
    operator: u8,
    constant: u64,
    out: &mut ArrayHandle,
) -> i32
    ensures kept { IsKept array.old array.new }
    ensures status { IsStatusOn (λ t. count_fault U64 operator (column t)) (λ t. None) array.old.tree result }
    ensures made { result ≡ pos 0 → IfSome (operator_of operator) (λ op. HoldsFrom (AreThosePassing (holds op (pos constant))) array.old.tree out.new.tree) }
    ensures unmade { result ≢ pos 0 → out.new ≡ out.old }
{
    aggregates::filter_by(alloc, array, operator, constant, out)
}

/// Makes a plain array of the valid items of an array of `u64` that lie between two bounds, in their order, without a bound
/// itself if its `strict` is not 0.
#[unsafe(no_mangle)]
pub extern "C" fn flcol_filter_between_u64(
    alloc: Global,
    array: &mut ArrayHandle,
    lower: u64,
    upper: u64,
    lower_strict: u8,
    upper_strict: u8,
    out: &mut ArrayHandle,
) -> i32
    ensures kept { IsKept array.old array.new }
    ensures status { IsStatusOn (λ t. type_fault U64 (column t)) (λ t. None) array.old.tree result }
    ensures made { result ≡ pos 0 → HoldsFrom (AreThosePassing (is_between (options_of lower_strict upper_strict) (pos lower) (pos upper))) array.old.tree out.new.tree }
    ensures unmade { result ≢ pos 0 → out.new ≡ out.old }
{
    let (bounds, strict) = ((lower, upper), (lower_strict, upper_strict));
    aggregates::filter_between(alloc, array, bounds, strict, out)
}

/// Writes how many items of an array of `i8` are valid and compare so with a constant.
#[unsafe(no_mangle)]
pub extern "C" fn flcol_count_i8(
    alloc: Global,
    array: &mut ArrayHandle,
    operator: u8,
    constant: i8,
    count: &mut usize,
) -> i32
    ensures kept { IsKept array.old array.new }
    ensures status { IsStatusOn (λ t. count_fault I8 operator (column t)) (λ t. None) array.old.tree result }
    ensures counted { result ≡ pos 0 → IfSome array.old.tree (λ t. IfSome (operator_of operator) (λ op. count.new ≡ count_of (holds op constant) (column t))) }
    ensures uncounted { result ≢ pos 0 → count.new ≡ count.old }
{
    aggregates::count(alloc, array, operator, constant, count)
}

/// Writes how many items of an array of `i8` are valid and lie between two bounds, without a bound itself if its `strict` is
/// not 0.
#[unsafe(no_mangle)]
pub extern "C" fn flcol_count_between_i8(
    alloc: Global,
    array: &mut ArrayHandle,
    lower: i8,
    upper: i8,
    lower_strict: u8,
    upper_strict: u8,
    count: &mut usize,
) -> i32
    ensures kept { IsKept array.old array.new }
    ensures status { IsStatusOn (λ t. type_fault I8 (column t)) (λ t. None) array.old.tree result }
    ensures counted { result ≡ pos 0 → IfSome array.old.tree (λ t. count.new ≡ count_of (is_between (options_of lower_strict upper_strict) lower upper) (column t)) }
    ensures uncounted { result ≢ pos 0 → count.new ≡ count.old }
{
    let (bounds, strict) = ((lower, upper), (lower_strict, upper_strict));
    aggregates::count_between(alloc, array, bounds, strict, count)
}

/// Writes the least and the greatest valid item of an array of `i8` and 0, or two zeros and 1 if no item is valid.
#[unsafe(no_mangle)]
pub extern "C" fn flcol_min_max_i8(
    alloc: Global,
    array: &mut ArrayHandle,
    least: &mut i8,
    greatest: &mut i8,
    is_none: &mut u8,
) -> i32
    ensures kept { IsKept array.old array.new }
    ensures status { IsStatusOn (λ t. type_fault I8 (column t)) (λ t. None) array.old.tree result }
    ensures found { result ≡ pos 0 → IfSome array.old.tree (λ t. AreExtremes (column t) (least.new) (greatest.new) is_none.new) }
    ensures unfound { result ≢ pos 0 → (least.new ≡ least.old) × (greatest.new ≡ greatest.old) × (is_none.new ≡ is_none.old) }
{
    aggregates::min_max(alloc, array, least, greatest, is_none)
}

/// Makes a plain array of the valid items of an array of `i8` that compare so with a constant, in their order.
#[unsafe(no_mangle)]
pub extern "C" fn flcol_filter_by_i8(
    alloc: Global,
    array: &mut ArrayHandle,
    operator: u8,
    constant: i8,
    out: &mut ArrayHandle,
) -> i32
    ensures kept { IsKept array.old array.new }
    ensures status { IsStatusOn (λ t. count_fault I8 operator (column t)) (λ t. None) array.old.tree result }
    ensures made { result ≡ pos 0 → IfSome (operator_of operator) (λ op. HoldsFrom (AreThosePassing (holds op constant)) array.old.tree out.new.tree) }
    ensures unmade { result ≢ pos 0 → out.new ≡ out.old }
{
    aggregates::filter_by(alloc, array, operator, constant, out)
}

/// Makes a plain array of the valid items of an array of `i8` that lie between two bounds, in their order, without a bound
/// itself if its `strict` is not 0.
#[unsafe(no_mangle)]
pub extern "C" fn flcol_filter_between_i8(
    alloc: Global,
    array: &mut ArrayHandle,
    lower: i8,
    upper: i8,
    lower_strict: u8,
    upper_strict: u8,
    out: &mut ArrayHandle,
) -> i32
    ensures kept { IsKept array.old array.new }
    ensures status { IsStatusOn (λ t. type_fault I8 (column t)) (λ t. None) array.old.tree result }
    ensures made { result ≡ pos 0 → HoldsFrom (AreThosePassing (is_between (options_of lower_strict upper_strict) lower upper)) array.old.tree out.new.tree }
    ensures unmade { result ≢ pos 0 → out.new ≡ out.old }
{
    let (bounds, strict) = ((lower, upper), (lower_strict, upper_strict));
    aggregates::filter_between(alloc, array, bounds, strict, out)
}

/// Writes how many items of an array of `i16` are valid and compare so with a constant.
#[unsafe(no_mangle)]
pub extern "C" fn flcol_count_i16(
    alloc: Global,
    array: &mut ArrayHandle,
    operator: u8,
    constant: i16,
    count: &mut usize,
) -> i32
    ensures kept { IsKept array.old array.new }
    ensures status { IsStatusOn (λ t. count_fault I16 operator (column t)) (λ t. None) array.old.tree result }
    ensures counted { result ≡ pos 0 → IfSome array.old.tree (λ t. IfSome (operator_of operator) (λ op. count.new ≡ count_of (holds op constant) (column t))) }
    ensures uncounted { result ≢ pos 0 → count.new ≡ count.old }
{
    aggregates::count(alloc, array, operator, constant, count)
}

/// Writes how many items of an array of `i16` are valid and lie between two bounds, without a bound itself if its `strict` is
/// not 0.
#[unsafe(no_mangle)]
pub extern "C" fn flcol_count_between_i16(
    alloc: Global,
    array: &mut ArrayHandle,
    lower: i16,
    upper: i16,
    lower_strict: u8,
    upper_strict: u8,
    count: &mut usize,
) -> i32
    ensures kept { IsKept array.old array.new }
    ensures status { IsStatusOn (λ t. type_fault I16 (column t)) (λ t. None) array.old.tree result }
    ensures counted { result ≡ pos 0 → IfSome array.old.tree (λ t. count.new ≡ count_of (is_between (options_of lower_strict upper_strict) lower upper) (column t)) }
    ensures uncounted { result ≢ pos 0 → count.new ≡ count.old }
{
    let (bounds, strict) = ((lower, upper), (lower_strict, upper_strict));
    aggregates::count_between(alloc, array, bounds, strict, count)
}

/// Writes the least and the greatest valid item of an array of `i16` and 0, or two zeros and 1 if no item is valid.
#[unsafe(no_mangle)]
pub extern "C" fn flcol_min_max_i16(
    alloc: Global,
    array: &mut ArrayHandle,
    least: &mut i16,
    greatest: &mut i16,
    is_none: &mut u8,
) -> i32
    ensures kept { IsKept array.old array.new }
    ensures status { IsStatusOn (λ t. type_fault I16 (column t)) (λ t. None) array.old.tree result }
    ensures found { result ≡ pos 0 → IfSome array.old.tree (λ t. AreExtremes (column t) (least.new) (greatest.new) is_none.new) }
    ensures unfound { result ≢ pos 0 → (least.new ≡ least.old) × (greatest.new ≡ greatest.old) × (is_none.new ≡ is_none.old) }
{
    aggregates::min_max(alloc, array, least, greatest, is_none)
}

/// Makes a plain array of the valid items of an array of `i16` that compare so with a constant, in their order.
#[unsafe(no_mangle)]
pub extern "C" fn flcol_filter_by_i16(
    alloc: Global,
    array: &mut ArrayHandle,
    operator: u8,
    constant: i16,
    out: &mut ArrayHandle,
) -> i32
    ensures kept { IsKept array.old array.new }
    ensures status { IsStatusOn (λ t. count_fault I16 operator (column t)) (λ t. None) array.old.tree result }
    ensures made { result ≡ pos 0 → IfSome (operator_of operator) (λ op. HoldsFrom (AreThosePassing (holds op constant)) array.old.tree out.new.tree) }
    ensures unmade { result ≢ pos 0 → out.new ≡ out.old }
{
    aggregates::filter_by(alloc, array, operator, constant, out)
}

/// Makes a plain array of the valid items of an array of `i16` that lie between two bounds, in their order, without a bound
/// itself if its `strict` is not 0.
#[unsafe(no_mangle)]
pub extern "C" fn flcol_filter_between_i16(
    alloc: Global,
    array: &mut ArrayHandle,
    lower: i16,
    upper: i16,
    lower_strict: u8,
    upper_strict: u8,
    out: &mut ArrayHandle,
) -> i32
    ensures kept { IsKept array.old array.new }
    ensures status { IsStatusOn (λ t. type_fault I16 (column t)) (λ t. None) array.old.tree result }
    ensures made { result ≡ pos 0 → HoldsFrom (AreThosePassing (is_between (options_of lower_strict upper_strict) lower upper)) array.old.tree out.new.tree }
    ensures unmade { result ≢ pos 0 → out.new ≡ out.old }
{
    let (bounds, strict) = ((lower, upper), (lower_strict, upper_strict));
    aggregates::filter_between(alloc, array, bounds, strict, out)
}

/// Writes how many items of an array of `i32` are valid and compare so with a constant.
#[unsafe(no_mangle)]
pub extern "C" fn flcol_count_i32(
    alloc: Global,
    array: &mut ArrayHandle,
    operator: u8,
    constant: i32,
    count: &mut usize,
) -> i32
    ensures kept { IsKept array.old array.new }
    ensures status { IsStatusOn (λ t. count_fault I32 operator (column t)) (λ t. None) array.old.tree result }
    ensures counted { result ≡ pos 0 → IfSome array.old.tree (λ t. IfSome (operator_of operator) (λ op. count.new ≡ count_of (holds op constant) (column t))) }
    ensures uncounted { result ≢ pos 0 → count.new ≡ count.old }
{
    aggregates::count(alloc, array, operator, constant, count)
}

/// Writes how many items of an array of `i32` are valid and lie between two bounds, without a bound itself if its `strict` is
/// not 0.
#[unsafe(no_mangle)]
pub extern "C" fn flcol_count_between_i32(
    alloc: Global,
    array: &mut ArrayHandle,
    lower: i32,
    upper: i32,
    lower_strict: u8,
    upper_strict: u8,
    count: &mut usize,
) -> i32
    ensures kept { IsKept array.old array.new }
    ensures status { IsStatusOn (λ t. type_fault I32 (column t)) (λ t. None) array.old.tree result }
    ensures counted { result ≡ pos 0 → IfSome array.old.tree (λ t. count.new ≡ count_of (is_between (options_of lower_strict upper_strict) lower upper) (column t)) }
    ensures uncounted { result ≢ pos 0 → count.new ≡ count.old }
{
    let (bounds, strict) = ((lower, upper), (lower_strict, upper_strict));
    aggregates::count_between(alloc, array, bounds, strict, count)
}

/// Writes the least and the greatest valid item of an array of `i32` and 0, or two zeros and 1 if no item is valid.
#[unsafe(no_mangle)]
pub extern "C" fn flcol_min_max_i32(
    alloc: Global,
    array: &mut ArrayHandle,
    least: &mut i32,
    greatest: &mut i32,
    is_none: &mut u8,
) -> i32
    ensures kept { IsKept array.old array.new }
    ensures status { IsStatusOn (λ t. type_fault I32 (column t)) (λ t. None) array.old.tree result }
    ensures found { result ≡ pos 0 → IfSome array.old.tree (λ t. AreExtremes (column t) (least.new) (greatest.new) is_none.new) }
    ensures unfound { result ≢ pos 0 → (least.new ≡ least.old) × (greatest.new ≡ greatest.old) × (is_none.new ≡ is_none.old) }
{
    aggregates::min_max(alloc, array, least, greatest, is_none)
}

/// Makes a plain array of the valid items of an array of `i32` that compare so with a constant, in their order.
#[unsafe(no_mangle)]
pub extern "C" fn flcol_filter_by_i32(
    alloc: Global,
    array: &mut ArrayHandle,
    operator: u8,
    constant: i32,
    out: &mut ArrayHandle,
) -> i32
    ensures kept { IsKept array.old array.new }
    ensures status { IsStatusOn (λ t. count_fault I32 operator (column t)) (λ t. None) array.old.tree result }
    ensures made { result ≡ pos 0 → IfSome (operator_of operator) (λ op. HoldsFrom (AreThosePassing (holds op constant)) array.old.tree out.new.tree) }
    ensures unmade { result ≢ pos 0 → out.new ≡ out.old }
{
    aggregates::filter_by(alloc, array, operator, constant, out)
}

/// Makes a plain array of the valid items of an array of `i32` that lie between two bounds, in their order, without a bound
/// itself if its `strict` is not 0.
#[unsafe(no_mangle)]
pub extern "C" fn flcol_filter_between_i32(
    alloc: Global,
    array: &mut ArrayHandle,
    lower: i32,
    upper: i32,
    lower_strict: u8,
    upper_strict: u8,
    out: &mut ArrayHandle,
) -> i32
    ensures kept { IsKept array.old array.new }
    ensures status { IsStatusOn (λ t. type_fault I32 (column t)) (λ t. None) array.old.tree result }
    ensures made { result ≡ pos 0 → HoldsFrom (AreThosePassing (is_between (options_of lower_strict upper_strict) lower upper)) array.old.tree out.new.tree }
    ensures unmade { result ≢ pos 0 → out.new ≡ out.old }
{
    let (bounds, strict) = ((lower, upper), (lower_strict, upper_strict));
    aggregates::filter_between(alloc, array, bounds, strict, out)
}

/// Writes how many items of an array of `i64` are valid and compare so with a constant.
#[unsafe(no_mangle)]
pub extern "C" fn flcol_count_i64(
    alloc: Global,
    array: &mut ArrayHandle,
    operator: u8,
    constant: i64,
    count: &mut usize,
) -> i32
    ensures kept { IsKept array.old array.new }
    ensures status { IsStatusOn (λ t. count_fault I64 operator (column t)) (λ t. None) array.old.tree result }
    ensures counted { result ≡ pos 0 → IfSome array.old.tree (λ t. IfSome (operator_of operator) (λ op. count.new ≡ count_of (holds op constant) (column t))) }
    ensures uncounted { result ≢ pos 0 → count.new ≡ count.old }
{
    aggregates::count(alloc, array, operator, constant, count)
}

/// Writes how many items of an array of `i64` are valid and lie between two bounds, without a bound itself if its `strict` is
/// not 0.
#[unsafe(no_mangle)]
pub extern "C" fn flcol_count_between_i64(
    alloc: Global,
    array: &mut ArrayHandle,
    lower: i64,
    upper: i64,
    lower_strict: u8,
    upper_strict: u8,
    count: &mut usize,
) -> i32
    ensures kept { IsKept array.old array.new }
    ensures status { IsStatusOn (λ t. type_fault I64 (column t)) (λ t. None) array.old.tree result }
    ensures counted { result ≡ pos 0 → IfSome array.old.tree (λ t. count.new ≡ count_of (is_between (options_of lower_strict upper_strict) lower upper) (column t)) }
    ensures uncounted { result ≢ pos 0 → count.new ≡ count.old }
{
    let (bounds, strict) = ((lower, upper), (lower_strict, upper_strict));
    aggregates::count_between(alloc, array, bounds, strict, count)
}

/// Writes the least and the greatest valid item of an array of `i64` and 0, or two zeros and 1 if no item is valid.
#[unsafe(no_mangle)]
pub extern "C" fn flcol_min_max_i64(
    alloc: Global,
    array: &mut ArrayHandle,
    least: &mut i64,
    greatest: &mut i64,
    is_none: &mut u8,
) -> i32
    ensures kept { IsKept array.old array.new }
    ensures status { IsStatusOn (λ t. type_fault I64 (column t)) (λ t. None) array.old.tree result }
    ensures found { result ≡ pos 0 → IfSome array.old.tree (λ t. AreExtremes (column t) (least.new) (greatest.new) is_none.new) }
    ensures unfound { result ≢ pos 0 → (least.new ≡ least.old) × (greatest.new ≡ greatest.old) × (is_none.new ≡ is_none.old) }
{
    aggregates::min_max(alloc, array, least, greatest, is_none)
}

/// Makes a plain array of the valid items of an array of `i64` that compare so with a constant, in their order.
#[unsafe(no_mangle)]
pub extern "C" fn flcol_filter_by_i64(
    alloc: Global,
    array: &mut ArrayHandle,
    operator: u8,
    constant: i64,
    out: &mut ArrayHandle,
) -> i32
    ensures kept { IsKept array.old array.new }
    ensures status { IsStatusOn (λ t. count_fault I64 operator (column t)) (λ t. None) array.old.tree result }
    ensures made { result ≡ pos 0 → IfSome (operator_of operator) (λ op. HoldsFrom (AreThosePassing (holds op constant)) array.old.tree out.new.tree) }
    ensures unmade { result ≢ pos 0 → out.new ≡ out.old }
{
    aggregates::filter_by(alloc, array, operator, constant, out)
}

/// Makes a plain array of the valid items of an array of `i64` that lie between two bounds, in their order, without a bound
/// itself if its `strict` is not 0.
#[unsafe(no_mangle)]
pub extern "C" fn flcol_filter_between_i64(
    alloc: Global,
    array: &mut ArrayHandle,
    lower: i64,
    upper: i64,
    lower_strict: u8,
    upper_strict: u8,
    out: &mut ArrayHandle,
) -> i32
    ensures kept { IsKept array.old array.new }
    ensures status { IsStatusOn (λ t. type_fault I64 (column t)) (λ t. None) array.old.tree result }
    ensures made { result ≡ pos 0 → HoldsFrom (AreThosePassing (is_between (options_of lower_strict upper_strict) lower upper)) array.old.tree out.new.tree }
    ensures unmade { result ≢ pos 0 → out.new ≡ out.old }
{
    let (bounds, strict) = ((lower, upper), (lower_strict, upper_strict));
    aggregates::filter_between(alloc, array, bounds, strict, out)
}

/// Writes the sum of the valid items of an array of integers without a sign: `high * 2^64 + low`.
#[unsafe(no_mangle)]
pub extern "C" fn flcol_sum_unsigned(
    alloc: Global,
    array: &mut ArrayHandle,
    high: &mut u64,
    low: &mut u64,
) -> i32
    ensures kept { IsKept array.old array.new }
    ensures status { IsStatusOn (λ t. sum_fault true (column t)) (λ t. None) array.old.tree result }
    ensures summed { result ≡ pos 0 → IfSome array.old.tree (λ t. pos (high.new * 2 ^ 64 + low.new) ≡ sum_of (column t)) }
    ensures unsummed { result ≢ pos 0 → (high.new ≡ high.old) × (low.new ≡ low.old) }
{
    aggregates::sum_unsigned(alloc, array, high, low)
}

/// Writes the sum of the valid items of an array of integers with a sign: `high * 2^64 + low`.
#[unsafe(no_mangle)]
pub extern "C" fn flcol_sum_signed(
    alloc: Global,
    array: &mut ArrayHandle,
    high: &mut i64,
    low: &mut u64,
) -> i32
    ensures kept { IsKept array.old array.new }
    ensures status { IsStatusOn (λ t. sum_fault false (column t)) (λ t. None) array.old.tree result }
    ensures summed { result ≡ pos 0 → IfSome array.old.tree (λ t. high.new *ℤ pos (2 ^ 64) +ℤ pos low.new ≡ sum_of (column t)) }
    ensures unsummed { result ≢ pos 0 → (high.new ≡ high.old) × (low.new ≡ low.old) }
{
    aggregates::sum_signed(alloc, array, high, low)
}
