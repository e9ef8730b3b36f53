//! The widths of a column's blocks.

ghost use Rattle.std.specs.Prelude.{◌≡◌};
ghost use Rattle.fl_patches.specs.Widths.{Names, block_width};

use fastlanes::FL_CHUNK_SIZE;
use fl_column::PrimitiveArray;

/// The widths of a column's blocks of 1024 items.
#[derive(Clone, Copy)]
pub enum Widths<'a> {
    /// All blocks have this one.
    Global(usize),
    /// Block `j` is between the boundaries `j` and `j + 1`, in bytes, and takes 128 for each bit.
    Boundaries(&'a PrimitiveArray),
    /// Each block has its own.
    PerBlock(&'a [u8]),
}

impl Widths<'_> {
    /// The width of block `j`.
    pub fn of_block(self, j: usize) -> usize
        requires { Names self j }
        ensures { result ≡ block_width self.entry j }
    {
        match self {
            Widths::Global(width) => width,
            Widths::Boundaries(boundaries) => {
                // For the proof: there are fewer than 2 ^ 64 boundaries.
                let _len = boundaries.len();
                let (start, end) = (boundaries.number_at(j), boundaries.number_at(j + 1));
                end.saturating_sub(start) / (FL_CHUNK_SIZE / 8)
            }
            Widths::PerBlock(widths) => widths[j] as usize,
        }
    }
}
