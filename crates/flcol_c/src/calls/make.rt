//! The calls that make an array of values.

ghost use Rattle.std.specs.Prelude.{◌≡◌, ◌≢◌, None, Some, length, map, pos};
ghost use Rattle.fl_types.specs.declared.dtype.PType.TheVariants.{I16, I32, I64, I8, U16, U32, U64, U8};
ghost use Rattle.fl_array.specs.Trees.{Bool, Constant, Primitive};
ghost use Rattle.flcol_c.specs.Booleans.{bits_fault, booleans_in};
ghost use Rattle.flcol_c.specs.Operations.{repeated};
ghost use Rattle.flcol_c.specs.Bitmaps.{short_fault};
ghost use Rattle.flcol_c.specs.Statuses.{IsStatusAfter, IsStatusOf};
ghost use Rattle.flcol_c.specs.Values.{plain_in};

use crate::handle::ArrayHandle;
use crate::kept::keep;
use crate::{booleans, typed};
use std::alloc::Global;

/// Makes a plain array of these values. The valid ones are those whose bits are set; without a bitmap all are, and the type is
/// not nullable.
#[unsafe(no_mangle)]
pub extern "C" fn flcol_from_u8(
    alloc: Global,
    values: &[u8],
    validity: &[u8],
    out: &mut ArrayHandle,
) -> i32
    ensures status { IsStatusAfter (short_fault validity.now (length values.now)) None result }
    ensures made { result ≡ pos 0 → out.new.tree ≡ Some (Primitive (plain_in U8 (map pos values.now) validity.now)) }
    ensures unmade { result ≢ pos 0 → out.new ≡ out.old }
{
    typed::from_values(alloc, values, validity, out)
}

/// Makes a plain array of these values. The valid ones are those whose bits are set; without a bitmap all are, and the type is
/// not nullable.
#[unsafe(no_mangle)]
pub extern "C" fn flcol_from_u16(
    alloc: Global,
    values: &[u16],
    validity: &[u8],
    out: &mut ArrayHandle,
) -> i32
    ensures status { IsStatusAfter (short_fault validity.now (length values.now)) None result }
    ensures made { result ≡ pos 0 → out.new.tree ≡ Some (Primitive (plain_in U16 (map pos values.now) validity.now)) }
    ensures unmade { result ≢ pos 0 → out.new ≡ out.old }
{
    typed::from_values(alloc, values, validity, out)
}

/// Makes a plain array of these values. The valid ones are those whose bits are set; without a bitmap all are, and the type is
/// not nullable.
#[unsafe(no_mangle)]
pub extern "C" fn flcol_from_u32(
    alloc: Global,
    values: &[u32],
    validity: &[u8],
    out: &mut ArrayHandle,
) -> i32
    ensures status { IsStatusAfter (short_fault validity.now (length values.now)) None result }
    ensures made { result ≡ pos 0 → out.new.tree ≡ Some (Primitive (plain_in U32 (map pos values.now) validity.now)) }
    ensures unmade { result ≢ pos 0 → out.new ≡ out.old }
{
    typed::from_values(alloc, values, validity, out)
}

/// Makes a plain array of these values. The valid ones are those whose bits are set; without a bitmap all are, and the type is
/// not nullable.
#[unsafe(no_mangle)]
pub extern "C" fn flcol_from_u64(
    alloc: Global,
    values: &[u64],
    validity: &[u8],
    out: &mut ArrayHandle,
) -> i32
    ensures status { IsStatusAfter (short_fault validity.now (length values.now)) None result }
    ensures made { result ≡ pos 0 → out.new.tree ≡ Some (Primitive (plain_in U64 (map pos values.now) validity.now)) }
    ensures unmade { result ≢ pos 0 → out.new ≡ out.old }
{
    typed::from_values(alloc, values, validity, out)
}

/// Makes a plain array of these values. The valid ones are those whose bits are set; without a bitmap all are, and the type is
/// not nullable.
#[unsafe(no_mangle)]
pub extern "C" fn flcol_from_i8(
    alloc: Global,
    values: &[i8],
    validity: &[u8],
    out: &mut ArrayHandle,
) -> i32
    ensures status { IsStatusAfter (short_fault validity.now (length values.now)) None result }
    ensures made { result ≡ pos 0 → out.new.tree ≡ Some (Primitive (plain_in I8 values.now validity.now)) }
    ensures unmade { result ≢ pos 0 → out.new ≡ out.old }
{
    typed::from_values(alloc, values, validity, out)
}

/// Makes a plain array of these values. The valid ones are those whose bits are set; without a bitmap all are, and the type is
/// not nullable.
#[unsafe(no_mangle)]
pub extern "C" fn flcol_from_i16(
    alloc: Global,
    values: &[i16],
    validity: &[u8],
    out: &mut ArrayHandle,
) -> i32
    ensures status { IsStatusAfter (short_fault validity.now (length values.now)) None result }
    ensures made { result ≡ pos 0 → out.new.tree ≡ Some (Primitive (plain_in I16 values.now validity.now)) }
    ensures unmade { result ≢ pos 0 → out.new ≡ out.old }
{
    typed::from_values(alloc, values, validity, out)
}

/// Makes a plain array of these values. The valid ones are those whose bits are set; without a bitmap all are, and the type is
/// not nullable.
#[unsafe(no_mangle)]
pub extern "C" fn flcol_from_i32(
    alloc: Global,
    values: &[i32],
    validity: &[u8],
    out: &mut ArrayHandle,
) -> i32
    ensures status { IsStatusAfter (short_fault validity.now (length values.now)) None result }
    ensures made { result ≡ pos 0 → out.new.tree ≡ Some (Primitive (plain_in I32 values.now validity.now)) }
    ensures unmade { result ≢ pos 0 → out.new ≡ out.old }
{
    typed::from_values(alloc, values, validity, out)
}

/// Makes a plain array of these values. The valid ones are those whose bits are set; without a bitmap all are, and the type is
/// not nullable.
#[unsafe(no_mangle)]
pub extern "C" fn flcol_from_i64(
    alloc: Global,
    values: &[i64],
    validity: &[u8],
    out: &mut ArrayHandle,
) -> i32
    ensures status { IsStatusAfter (short_fault validity.now (length values.now)) None result }
    ensures made { result ≡ pos 0 → out.new.tree ≡ Some (Primitive (plain_in I64 values.now validity.now)) }
    ensures unmade { result ≢ pos 0 → out.new ≡ out.old }
{
    typed::from_values(alloc, values, validity, out)
}

/// Makes a constant array of `len` copies of a value, not nullable, or of a null if `is_null` is not 0.
#[unsafe(no_mangle)]
pub extern "C" fn flcol_constant_u8(
    alloc: Global,
    value: u8,
    is_null: u8,
    len: usize,
    out: &mut ArrayHandle,
) -> i32
    ensures status { IsStatusOf None result }
    ensures made { result ≡ pos 0 → out.new.tree ≡ Some (Constant (repeated U8 (pos value) is_null len)) }
    ensures unmade { result ≢ pos 0 → out.new ≡ out.old }
{
    typed::constant(alloc, value, is_null, len, out)
}

/// Makes a constant array of `len` copies of a value, not nullable, or of a null if `is_null` is not 0.
#[unsafe(no_mangle)]
pub extern "C" fn flcol_constant_u16(
    alloc: Global,
    value: u16,
    is_null: u8,
    len: usize,
    out: &mut ArrayHandle,
) -> i32
    ensures status { IsStatusOf None result }
    ensures made { result ≡ pos 0 → out.new.tree ≡ Some (Constant (repeated U16 (pos value) is_null len)) }
    ensures unmade { result ≢ pos 0 → out.new ≡ out.old }
{
    typed::constant(alloc, value, is_null, len, out)
}

/// Makes a constant array of `len` copies of a value, not nullable, or of a null if `is_null` is not 0.
#[unsafe(no_mangle)]
pub extern "C" fn flcol_constant_u32(
    alloc: Global,
    value: u32,
    is_null: u8,
    len: usize,
    out: &mut ArrayHandle,
) -> i32
    ensures status { IsStatusOf None result }
    ensures made { result ≡ pos 0 → out.new.tree ≡ Some (Constant (repeated U32 (pos value) is_null len)) }
    ensures unmade { result ≢ pos 0 → out.new ≡ out.old }
{
    typed::constant(alloc, value, is_null, len, out)
}

/// Makes a constant array of `len` copies of a value, not nullable, or of a null if `is_null` is not 0.
#[unsafe(no_mangle)]
pub extern "C" fn flcol_constant_u64(
    alloc: Global,
    value: u64,
    is_null: u8,
    len: usize,
    out: &mut ArrayHandle,
) -> i32
    ensures status { IsStatusOf None result }
    ensures made { result ≡ pos 0 → out.new.tree ≡ Some (Constant (repeated U64 (pos value) is_null len)) }
    ensures unmade { result ≢ pos 0 → out.new ≡ out.old }
{
    typed::constant(alloc, value, is_null, len, out)
}

/// Makes a constant array of `len` copies of a value, not nullable, or of a null if `is_null` is not 0.
#[unsafe(no_mangle)]
pub extern "C" fn flcol_constant_i8(
    alloc: Global,
    value: i8,
    is_null: u8,
    len: usize,
    out: &mut ArrayHandle,
) -> i32
    ensures status { IsStatusOf None result }
    ensures made { result ≡ pos 0 → out.new.tree ≡ Some (Constant (repeated I8 value is_null len)) }
    ensures unmade { result ≢ pos 0 → out.new ≡ out.old }
{
    typed::constant(alloc, value, is_null, len, out)
}

/// Makes a constant array of `len` copies of a value, not nullable, or of a null if `is_null` is not 0.
#[unsafe(no_mangle)]
pub extern "C" fn flcol_constant_i16(
    alloc: Global,
    value: i16,
    is_null: u8,
    len: usize,
    out: &mut ArrayHandle,
) -> i32
    ensures status { IsStatusOf None result }
    ensures made { result ≡ pos 0 → out.new.tree ≡ Some (Constant (repeated I16 value is_null len)) }
    ensures unmade { result ≢ pos 0 → out.new ≡ out.old }
{
    typed::constant(alloc, value, is_null, len, out)
}

/// Makes a constant array of `len` copies of a value, not nullable, or of a null if `is_null` is not 0.
#[unsafe(no_mangle)]
pub extern "C" fn flcol_constant_i32(
    alloc: Global,
    value: i32,
    is_null: u8,
    len: usize,
    out: &mut ArrayHandle,
) -> i32
    ensures status { IsStatusOf None result }
    ensures made { result ≡ pos 0 → out.new.tree ≡ Some (Constant (repeated I32 value is_null len)) }
    ensures unmade { result ≢ pos 0 → out.new ≡ out.old }
{
    typed::constant(alloc, value, is_null, len, out)
}

/// Makes a constant array of `len` copies of a value, not nullable, or of a null if `is_null` is not 0.
#[unsafe(no_mangle)]
pub extern "C" fn flcol_constant_i64(
    alloc: Global,
    value: i64,
    is_null: u8,
    len: usize,
    out: &mut ArrayHandle,
) -> i32
    ensures status { IsStatusOf None result }
    ensures made { result ≡ pos 0 → out.new.tree ≡ Some (Constant (repeated I64 value is_null len)) }
    ensures unmade { result ≢ pos 0 → out.new ≡ out.old }
{
    typed::constant(alloc, value, is_null, len, out)
}

/// Makes a plain array of the first `len` booleans of a bitmap. The valid ones are those whose bits are set; without a bitmap of
/// these all are, and the type is not nullable.
#[unsafe(no_mangle)]
pub extern "C" fn flcol_from_bool(
    alloc: Global,
    bits: &[u8],
    len: usize,
    validity: &[u8],
    out: &mut ArrayHandle,
) -> i32
    ensures status { IsStatusAfter (bits_fault bits.now len validity.now) None result }
    ensures made { result ≡ pos 0 → out.new.tree ≡ Some (Bool (booleans_in bits.now len validity.now)) }
    ensures unmade { result ≢ pos 0 → out.new ≡ out.old }
{
    keep(out, alloc, booleans::from_bits(alloc, bits, len, validity))
}
