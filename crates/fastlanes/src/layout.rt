//! The positions in a block of 1024 items: where the item at a row of a lane is.
//!
//! The order of the rows is that of FastLanes (Afroozeh and Boncz, "The FastLanes Compression
//! Layout", VLDB 2023).
ghost use Rattle.std.specs.Prelude.{◌≡◌, ◌<◌, ◌⊎◌};
ghost use Rattle.fastlanes.specs.Layout.{place, row_of, segment};

/// The number of items in a block.
pub const FL_CHUNK_SIZE: usize = 1024;

/// The order in which the groups of eight rows stand in a block.
static ORDER: [usize; 8] = [0, 4, 2, 6, 1, 5, 3, 7];

/// The position in a block, from 0 to 1023, of the item at row `r` of lane `l`.
///
/// A type of T bits has T rows and 1024/T lanes, so `r` is below 64 and `l` below 128.
#[tactic(auto, unfolding(crate::specs::Layout::place))]
pub fn pos(r: usize, l: usize) -> usize
    requires row { r < 64 }
    requires lane { l < 128 }
    ensures { result ≡ place r l }
{
    l + 128 * (r % 8) + 16 * ORDER[r / 8]
}

/// The row of position `index` of a block with so many lanes.
#[tactic(auto, unfolding(crate::specs::Layout::row_of))]
pub(crate) fn row(index: usize, lanes: usize) -> usize
    requires index { index < 1024 }
    requires lanes { lanes ≡ 16 ⊎ lanes ≡ 32 ⊎ lanes ≡ 64 ⊎ lanes ≡ 128 }
    ensures { result ≡ row_of lanes index }
{
    index / 128 + 8 * ORDER[index % 128 / lanes * (lanes / 16)]
}

/// The first of the consecutive positions that lane `l` of a delta block holds.
#[tactic(auto, unfolding(crate::specs::Layout::segment))]
pub fn seg(l: usize) -> usize
    requires { l < 128 }
    ensures { result ≡ segment l }
{
    64 * (l % 16) + 8 * ORDER[l / 16]
}
