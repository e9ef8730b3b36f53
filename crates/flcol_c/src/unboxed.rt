//! A box that is taken apart into its pointer and its allocator.

ghost use Rattle.std.specs.Prelude.{◌≡◌};
ghost use Rattle.std.specs.Box.Ownership.{box_owns};

use std::alloc::Allocator;
use std::marker::Model;

/// What a box held, at the pointer, and the allocator that has it back.
pub struct Unboxed<T, A: Allocator> {
    pub(crate) pointer: *mut T,
    pub(crate) alloc: A,
    pub ghost value: { T },
}

impl<T, A: Allocator> Model for Unboxed<T, A> {
    ghost also_owns = { λ u. box_owns (A.dealloc_token u.alloc) T.row u.pointer u.value };
}

/// Takes a box apart.
pub fn unbox<T: Drop, A: Allocator>(whole: Box<T, A>) -> Unboxed<T, A>
    ensures { result.value ≡ whole.value }
{
    let (pointer, alloc) = Box::into_raw_with_allocator(whole);
    Unboxed { pointer, alloc }
}

/// Puts a box together again.
pub fn rebox<T, A: Allocator>(parts: Unboxed<T, A>) -> Box<T, A>
    ensures { result.value ≡ parts.value }
{
    let Unboxed { pointer, alloc } = parts;
    unsafe { Box::from_raw(alloc, pointer) }
}
