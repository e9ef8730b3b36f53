//! Whether items are all equal.

ghost use Rattle.std.specs.Prelude.{◌≡◌, ◌*◌, ◌<◌, None, length, map, option_map, slice_index_or};
ghost use Rattle.std.specs.List.{list_all};
ghost use Rattle.fl_types.specs.Validities.{items_of};
ghost use Rattle.fl_column.specs.Queries.{are_constant, same_item};
ghost use Rattle.fl_codec.specs.Chunks.{chunk};
ghost use Rattle.fl_codec.specs.Parts.{items_of_primitive};
ghost use Rattle.fl_statistics.specs.Differences.{less_references, read_words, slot_of};

use crate::items::Items;
use crate::sources::{BlockSource, References, write_differences};
use fastlanes::{FL_CHUNK_SIZE, FastLanes};
use fl_column::{PhysicalPType, PrimitiveArray, chunk_count};
use fl_types::{NativePType, is_equal};
use num_traits::WrappingSub;

/// Whether two items are equal; a null equals a null.
fn is_same_item<T: NativePType>(x: Option<T>, y: Option<T>) -> bool
    ensures { result ≡ same_item (option_map T.value x) (option_map T.value y) }
{
    match (x, y) {
        (None, None) => true,
        (Some(x), Some(y)) => is_equal(x, y),
        _ => false,
    }
}

/// The item at a position of a block minus its reference, by the word that is written for it.
fn item_in<T: PhysicalPType, S: BlockSource<T>>(
    source: &S,
    references: &References<T>,
    block: usize,
    q: usize,
    words: &[T::Physical],
) -> Option<T>
    requires typed { S.typed source.now }
    requires position { q < length words.now }
    requires written { read_words T.Physical.pattern T.PTYPE words.now ≡ map slot_of (chunk block (less_references T.PTYPE (T.value references.now.one) (map T.value references.now.list.now) (items_of_primitive (S.parts source.now)))) }
    ensures { option_map T.value result ≡ slice_index_or (chunk block (less_references T.PTYPE (T.value references.now.one) (map T.value references.now.list.now) (items_of_primitive (S.parts source.now)))) q None }
{
    let _len = source.len();
    if source.is_null(FL_CHUNK_SIZE * block + q) {
        None
    } else {
        Some(T::from_physical(words[q]))
    }
}

/// Whether the items of a block are all equal to another one.
fn are_same<T: PhysicalPType, S: BlockSource<T>>(
    source: &S,
    references: &References<T>,
    block: usize,
    words: &[T::Physical],
    first: Option<T>,
) -> bool
    requires typed { S.typed source.now }
    requires written { read_words T.Physical.pattern T.PTYPE words.now ≡ map slot_of (chunk block (less_references T.PTYPE (T.value references.now.one) (map T.value references.now.list.now) (items_of_primitive (S.parts source.now)))) }
    ensures { result ≡ list_all (same_item (option_map T.value first)) (chunk block (less_references T.PTYPE (T.value references.now.one) (map T.value references.now.list.now) (items_of_primitive (S.parts source.now)))) }
{
    for q in 0..words.len() {
        if !is_same_item(first, item_in(source, references, block, q, words)) {
            return false;
        }
    }
    true
}

/// The first item of all, by the first block; after it, the one that was the first.
fn first_of<T: PhysicalPType, S: BlockSource<T>>(
    source: &S,
    references: &References<T>,
    block: usize,
    words: &[T::Physical],
    first: Option<T>,
) -> Option<T>
    requires typed { S.typed source.now }
    requires begun { 1024 * block < length (S.parts source.now).slots }
    requires written { read_words T.Physical.pattern T.PTYPE words.now ≡ map slot_of (chunk block (less_references T.PTYPE (T.value references.now.one) (map T.value references.now.list.now) (items_of_primitive (S.parts source.now)))) }
    requires first { 0 < block → option_map T.value first ≡ slice_index_or (less_references T.PTYPE (T.value references.now.one) (map T.value references.now.list.now) (items_of_primitive (S.parts source.now))) 0 None }
    ensures { option_map T.value result ≡ slice_index_or (less_references T.PTYPE (T.value references.now.one) (map T.value references.now.list.now) (items_of_primitive (S.parts source.now))) 0 None }
{
    let _len = source.len();
    if block == 0 {
        item_in(source, references, block, 0, words)
    } else {
        first
    }
}

/// Whether the items of a source minus the references of their blocks are all equal; a null equals a null. They are made up to
/// the first that differs.
pub(crate) fn is_constant<T: PhysicalPType + WrappingSub, S: BlockSource<T>>(
    source: &S,
    references: &References<T>,
) -> bool
    requires typed { S.typed source.now }
    ensures { result ≡ are_constant (less_references T.PTYPE (T.value references.now.one) (map T.value references.now.list.now) (items_of_primitive (S.parts source.now))) }
{
    let mut room = [T::Physical::zero(); FL_CHUNK_SIZE];
    let (mut last, mut first) = (T::zero(), None);
    for block in 0..chunk_count(source.len()) {
        let (count, next) = write_differences(source, references, block, last, &mut room);
        let words = &room[..count];
        first = first_of(source, references, block, words, first);
        if !are_same(source, references, block, words, first) {
            return false;
        }
        last = next;
    }
    true
}

/// Whether an array's items minus the references of their blocks are all equal; a null equals a null. A block for
/// which the list has no reference takes `one`. The differences are taken modulo 2 to the type's bits.
///
/// The references have the array's type.
pub fn is_constant_less<T: PhysicalPType + WrappingSub>(
    array: &PrimitiveArray,
    one: T,
    references: &[T],
) -> bool
    requires { array.now.ptype ≡ T.PTYPE }
    ensures { result ≡ are_constant (less_references array.now.ptype (T.value one) (map T.value references.now) (items_of array.now.validity array.now.slots)) }
{
    let references = References {
        one,
        list: references,
    };
    is_constant::<T, Items>(&Items { array }, &references)
}
