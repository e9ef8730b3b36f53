//! The calls that look at an array, and the one that frees it.

ghost use Rattle.std.specs.Prelude.{◌≡◌, ◌≢◌, ◌==◌, ◌-◌, ◌^◌, IfSome, None, length, min, not, pos};
ghost use Rattle.fastlanes.specs.Layout.{bit_value};
ghost use Rattle.fl_array.specs.Trees.{column};
ghost use Rattle.fl_column.specs.Queries.{are_constant, is_constant_column, is_sorted_column};
ghost use Rattle.fl_serde.specs.ByteCounts.{tree_bytes};
ghost use Rattle.flcol_container.specs.Container.{dtype_byte};
ghost use Rattle.flcol_c.specs.Held.{IsKept, IsStatusOn, held_fault};
ghost use Rattle.flcol_c.specs.Looks.{are_in_order};
ghost use Rattle.flcol_c.specs.Reading.{nulls_in};
ghost use Rattle.flcol_c.specs.Schemes.{scheme_fault, text_fault, text_of};
ghost use Rattle.flcol_c.specs.Statuses.{refusal_in, status_at};

use crate::fault::{DONE, Fault, status_of};
use crate::handle::ArrayHandle;
use crate::kept::take;
use crate::{looks, schemes};
use fl_serde::nbytes;
use std::alloc::Global;

/// The version of the calls.
#[unsafe(no_mangle)]
pub extern "C" fn flcol_abi_version() -> u32
    ensures { result ≡ 2 }
{
    2
}

/// Writes how many items there are.
#[unsafe(no_mangle)]
pub extern "C" fn flcol_len(array: &mut ArrayHandle, len: &mut usize) -> i32
    ensures kept { IsKept array.old array.new }
    ensures status { result ≡ status_at (held_fault (λ t. None) array.old.tree) }
    ensures found { result ≡ pos 0 → IfSome array.old.tree (λ t. len.new ≡ length (column t).items) }
    ensures unfound { result ≢ pos 0 → len.new ≡ len.old }
{
    let Some(source) = array.array() else {
        return Fault::NoArray.status();
    };
    *len = source.len();
    DONE
}

/// Writes the byte of the type: the number of an integer type, or 8 for booleans, plus 16 if items may be null.
#[unsafe(no_mangle)]
pub extern "C" fn flcol_dtype(array: &mut ArrayHandle, dtype: &mut u8) -> i32
    ensures kept { IsKept array.old array.new }
    ensures status { result ≡ status_at (held_fault (λ t. None) array.old.tree) }
    ensures found { result ≡ pos 0 → IfSome array.old.tree (λ t. dtype.new ≡ dtype_byte (column t).dtype) }
    ensures unfound { result ≢ pos 0 → dtype.new ≡ dtype.old }
{
    let Some(source) = array.array() else {
        return Fault::NoArray.status();
    };
    *dtype = looks::dtype_byte(source.dtype());
    DONE
}

/// Writes how many bytes all buffers of the array take when it is written, `u64::MAX` if there are more.
#[unsafe(no_mangle)]
pub extern "C" fn flcol_nbytes(array: &mut ArrayHandle, bytes: &mut u64) -> i32
    ensures kept { IsKept array.old array.new }
    ensures status { result ≡ status_at (held_fault (λ t. None) array.old.tree) }
    ensures found { result ≡ pos 0 → IfSome array.old.tree (λ t. bytes.new ≡ min (tree_bytes t) (2 ^ 64 - 1)) }
    ensures unfound { result ≢ pos 0 → bytes.new ≡ bytes.old }
{
    let Some(source) = array.array() else {
        return Fault::NoArray.status();
    };
    *bytes = nbytes(source);
    DONE
}

/// Writes how many items are null.
#[unsafe(no_mangle)]
pub extern "C" fn flcol_null_count(alloc: Global, array: &mut ArrayHandle, count: &mut usize) -> i32
    ensures kept { IsKept array.old array.new }
    ensures status { IsStatusOn (λ t. None) (λ t. None) array.old.tree result }
    ensures found { result ≡ pos 0 → IfSome array.old.tree (λ t. count.new ≡ nulls_in (column t)) }
    ensures unfound { result ≢ pos 0 → count.new ≡ count.old }
{
    let Some(source) = array.array() else {
        return Fault::NoArray.status();
    };
    match looks::nulls(alloc, source) {
        Ok(nulls) => {
            *count = nulls;
            DONE
        }
        Err(fault) => fault.status(),
    }
}

/// Writes 1 if all items are equal, a null to a null, else 0.
#[unsafe(no_mangle)]
pub extern "C" fn flcol_is_constant(alloc: Global, array: &mut ArrayHandle, answer: &mut u8) -> i32
    ensures kept { IsKept array.old array.new }
    ensures status { IsStatusOn (λ t. None) (λ t. refusal_in (is_constant_column (column t))) array.old.tree result }
    ensures found { result ≡ pos 0 → IfSome array.old.tree (λ t. answer.new ≡ bit_value (are_constant (column t).items)) }
    ensures unfound { result ≢ pos 0 → answer.new ≡ answer.old }
{
    let Some(source) = array.array() else {
        return Fault::NoArray.status();
    };
    match looks::is_constant(alloc, source) {
        Ok(constant) => {
            *answer = u8::from(constant);
            DONE
        }
        Err(fault) => fault.status(),
    }
}

/// Writes 1 if no item is above the next or, if `strict` is not 0, each is below the next, else 0. A null is
/// below every integer.
#[unsafe(no_mangle)]
pub extern "C" fn flcol_is_sorted(
    alloc: Global,
    array: &mut ArrayHandle,
    strict: u8,
    answer: &mut u8,
) -> i32
    ensures kept { IsKept array.old array.new }
    ensures status { IsStatusOn (λ t. None) (λ t. refusal_in (is_sorted_column (not (strict == 0)) (column t))) array.old.tree result }
    ensures found { result ≡ pos 0 → IfSome array.old.tree (λ t. answer.new ≡ bit_value (are_in_order (not (strict == 0)) (column t).items)) }
    ensures unfound { result ≢ pos 0 → answer.new ≡ answer.old }
{
    let Some(source) = array.array() else {
        return Fault::NoArray.status();
    };
    match looks::is_sorted(alloc, source, strict != 0) {
        Ok(sorted) => {
            *answer = u8::from(sorted);
            DONE
        }
        Err(fault) => fault.status(),
    }
}

/// Writes how many bytes the text of the array's scheme has.
#[unsafe(no_mangle)]
pub extern "C" fn flcol_scheme_len(alloc: Global, array: &mut ArrayHandle, len: &mut usize) -> i32
    ensures kept { IsKept array.old array.new }
    ensures status { IsStatusOn (λ t. None) scheme_fault array.old.tree result }
    ensures found { result ≡ pos 0 → IfSome array.old.tree (λ t. len.new ≡ length (text_of t)) }
    ensures unfound { result ≢ pos 0 → len.new ≡ len.old }
{
    let Some(source) = array.array() else {
        return Fault::NoArray.status();
    };
    match schemes::text_of(alloc, source) {
        Ok(text) => {
            *len = text.len();
            DONE
        }
        Err(fault) => fault.status(),
    }
}

/// Writes the text of the array's scheme to exactly its bytes.
#[unsafe(no_mangle)]
pub extern "C" fn flcol_scheme(alloc: Global, array: &mut ArrayHandle, text: &mut [u8]) -> i32
    ensures kept { IsKept array.old array.new }
    ensures status { IsStatusOn (λ t. None) (text_fault (length text.old)) array.old.tree result }
    ensures written { result ≡ pos 0 → IfSome array.old.tree (λ t. text.new ≡ text_of t) }
    ensures unwritten { result ≢ pos 0 → text.new ≡ text.old }
{
    let Some(source) = array.array() else {
        return Fault::NoArray.status();
    };
    status_of(schemes::write_text(alloc, source, text))
}

/// Frees the array, if there is one.
#[unsafe(no_mangle)]
pub extern "C" fn flcol_free(alloc: Global, array: &mut ArrayHandle)
    ensures { array.new.tree ≡ None }
{
    let _ = take(array, alloc);
}
