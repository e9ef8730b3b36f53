//! The items of an array, block by block.

ghost use Rattle.std.specs.Prelude.{◌≡◌, pos, refl};

use crate::sources::BlockSource;
use crate::widths::prove_few;
use fastlanes::FL_CHUNK_SIZE;
use fl_column::laws::stored_integers_are_in_range;
use fl_column::patterns::write_patterns;
use fl_column::{PhysicalPType, PrimitiveArray, chunk_of};
use fl_types::{NativePType, Validity};

/// The items of an array.
#[derive(Clone, Copy)]
pub(crate) struct Items<'a> {
    pub(crate) array: &'a PrimitiveArray,
}

impl<T: PhysicalPType> BlockSource<T> for Items<'_> {
    ghost typed = { λ s. s.array.now.ptype ≡ T.PTYPE };

    ghost parts = { λ s. s.array.now };

    ghost carried = { λ s block. pos 0 };

    ghost carried_law = { λ s. refl };

    fn len(&self) -> usize {
        prove_few(self.array);
        let _validity = self.array.validity();
        self.array.len()
    }

    fn write_block(&self, block: usize, _last: T, room: &mut [T::Physical; FL_CHUNK_SIZE]) -> T {
        stored_integers_are_in_range(self.array);
        write_patterns(chunk_of(self.array.as_slice::<T>(), block), room);
        T::zero()
    }

    fn is_null(&self, i: usize) -> bool {
        !self.array.validity().is_valid(i, self.array.len())
    }

    fn has_nulls(&self) -> bool {
        match self.array.validity() {
            Validity::NonNullable | Validity::AllValid => false,
            _ => true,
        }
    }
}
