//! Arrays that are taken out of a handle and put into one. No function here names a raw pointer.

ghost use Rattle.std.specs.Prelude.{◌≡◌, ◌≢◌, IsOkAnd, MatchResult, None, Some, pos};
ghost use Rattle.flcol_c.specs.Statuses.{status_of};
ghost use Rattle.flcol_c.specs.Taken.{IsBoxOf};

use crate::fault::{DONE, Fault};
use crate::handle::ArrayHandle;
use crate::unboxed::{rebox, unbox};
use fl_array::ArrayRef;
use fl_types::FastLanesError;
use std::alloc::Global;
use std::mem::replace;

/// Takes the array out, if there is one.
pub(crate) fn take(handle: &mut ArrayHandle, alloc: Global) -> Option<Box<ArrayRef>>
    ensures none { handle.new.tree ≡ None }
    ensures array { IsBoxOf result handle.old.tree }
{
    match replace(handle, ArrayHandle::none()).into_unboxed(alloc) {
        Some(array) => Some(rebox(array)),
        None => None,
    }
}

/// Puts an array in, and frees the one that was there, if any.
fn put(handle: &mut ArrayHandle, alloc: Global, array: Box<ArrayRef>)
    ensures { handle.new.tree ≡ Some array.value }
{
    let before = replace(handle, ArrayHandle::of(unbox(array)));
    if let Some(array) = before.into_unboxed(alloc) {
        let _ = rebox(array);
    }
}

/// Puts an array that was made in, and frees the one that was there, if any. The status says what was made.
pub(crate) fn keep(handle: &mut ArrayHandle, alloc: Global, made: Result<ArrayRef, Fault>) -> i32
    ensures status { MatchResult made (λ _. result ≢ pos 1 → result ≡ pos 0) (λ fault. result ≡ status_of fault) }
    ensures kept { result ≡ pos 0 → IsOkAnd made (λ t. handle.new.tree ≡ Some t) }
    ensures unkept { result ≢ pos 0 → handle.new ≡ handle.old }
{
    let array = match made {
        Ok(array) => array,
        Err(fault) => return fault.status(),
    };
    match Box::new(alloc, array) {
        Ok(array) => {
            put(handle, alloc, array);
            DONE
        }
        Err(_) => Fault::Refused(FastLanesError::OutOfMemory).status(),
    }
}
