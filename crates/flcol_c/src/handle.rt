//! The word by which C holds an array on the heap.

ghost use Rattle.std.specs.Prelude.{◌≡◌, Option, None, Some};
ghost use Rattle.std.specs.Coded.{coded_option};
ghost use Rattle.fl_array.specs.Trees.{Tree};
ghost use Rattle.fl_array.specs.Codes.{coded_tree};

use crate::unboxed::Unboxed;
use fl_array::ArrayRef;
use std::alloc::Global;
use std::marker::{Model, Send};

/// What a word points to, as C sees it.
#[repr(C)]
pub struct Opaque {
    private: [u8; 0],
}

/// An array on the heap, or none where the word is null: `flcol_array` of the header. C makes one as a null word
/// and passes its address. Contracts see the array's tree.
///
/// A read takes a `&mut ArrayHandle`, since no export takes a shared borrow of a struct that owns what lies after
/// a pointer. It is not `Drop`, so that no array is let go without being freed.
#[repr(C)]
pub struct ArrayHandle {
    pub word: *mut Opaque,
    pub ghost tree: { Option Tree } by { coded_option coded_tree },
}

impl Model for ArrayHandle {
    ghost use Rattle.flcol_c.specs.Owned.{handle_owns};

    ghost also_owns = { λ h. handle_owns h.word h.tree };
}

impl ArrayHandle {
    ghost use Rattle.std.specs.Borrow.{sem};
    ghost use Rattle.std.specs.Prelude.{IsSome, is_none};
    ghost use Rattle.flcol_c.specs.Lending.{IsLent, LendsArray, LendsArrayIf};
    ghost use Rattle.flcol_c.specs.Taken.{AreParts};

    /// No array.
    pub fn none() -> ArrayHandle
        ensures { result.tree ≡ None }
    {
        ArrayHandle {
            word: std::ptr::null_mut(),
        }
    }

    /// The array that a box held.
    pub fn of(array: Unboxed<ArrayRef, Global>) -> ArrayHandle
        ensures { result.tree ≡ Some array.value }
    {
        let Unboxed { pointer, alloc: _ } = array;
        ArrayHandle {
            word: pointer as *mut Opaque,
        }
    }

    /// The array, to be put into a box again, if there is one.
    pub fn into_unboxed(self, alloc: Global) -> Option<Unboxed<ArrayRef, Global>>
        ensures { AreParts result self.tree }
    {
        let ArrayHandle { word } = self;
        if word.is_null() {
            None
        } else {
            Some(Unboxed {
                pointer: word as *mut ArrayRef,
                alloc,
            })
        }
    }

    /// Whether there is no array.
    pub fn is_none(&mut self) -> bool
        ensures { (self.new ≡ self.old) × (result ≡ is_none self.old.tree) }
    {
        self.word.is_null()
    }

    /// The array, which is there.
    pub fn lend(&mut self) -> &mut ArrayRef
        requires { IsSome self.old.tree }
        ensures* follows { sem 𝓛 (LendsArray self.entry result) }
        ensures value { Some result.now ≡ self.old.tree }
    {
        unsafe { &mut *(self.word as *mut ArrayRef) }
    }

    /// The array, if there is one.
    pub fn array(&mut self) -> Option<&mut ArrayRef>
        ensures* follows { sem 𝓛 (LendsArrayIf self.entry result) }
        ensures value { IsLent result self.old.tree }
    {
        if self.is_none() {
            return None;
        }
        Some(self.lend())
    }
}

// It may go to another thread, as its array may.
unsafe impl Send for ArrayHandle {}
