//! What a file says of the items of a chunk.

ghost use Rattle.std.specs.Prelude.{◌≡◌, ◌<◌, ◌^◌, Some, length, map};
ghost use Rattle.fl_column.specs.Columns.{column_of_primitive};
ghost use Rattle.fl_column.specs.Queries.{are_sorted};
ghost use Rattle.fl_file.specs.FootLaws.{StatisticsFit};
ghost use Rattle.fl_file.specs.Statistics.{extremes_among, null_count_of, statistics_of_column, total, valid_items};

use crate::summary::{Summary, rise, summary_of, summary_of_valid};
use fl_column::laws::stored_integers_are_in_range;
use fl_column::{NativePType, PType, PrimitiveArray, Validity};
use fl_types::match_each_integer_ptype;

/// The least and the greatest valid item of a chunk.
#[derive(Clone, Copy, Debug, PartialEq, Eq)]
pub struct Extremes {
    /// The least valid item.
    pub least: i128,
    /// The greatest valid item.
    pub greatest: i128,
}

/// What a file says of the items of a chunk. Items are integers of one of the eight types, and an `i128` holds those of all.
#[derive(Clone, Copy, Debug, PartialEq, Eq)]
pub struct ChunkStatistics {
    /// The number of items, nulls included.
    pub len: u64,
    /// The number of nulls.
    pub null_count: u64,
    /// The least and the greatest valid item; `None` where no item is valid.
    pub extremes: Option<Extremes>,
    /// Whether no item is above the next, where a null is below every integer.
    pub is_sorted: bool,
    /// The exact sum of the valid items.
    pub sum: i128,
}

impl ChunkStatistics {
    /// What is known of the items of a plain array, each exactly.
    pub fn of(array: &PrimitiveArray) -> ChunkStatistics
        ensures exact { result ≡ statistics_of_column (column_of_primitive array.now) }
        ensures fit { StatisticsFit array.now.ptype result }
    {
        prove_few(array);
        stored_integers_are_in_range(array);
        let Summary { extremes, sum } = summary(array);
        ChunkStatistics {
            len: array.len() as u64,
            null_count: null_count(array) as u64,
            extremes,
            is_sorted: is_sorted(array),
            sum,
        }
    }
}

/// The integers of an array are in memory, so there are fewer than 2 to the 63.
fn prove_few(array: &PrimitiveArray)
    ensures { length array.now.slots < 2 ^ 63 }
{
    let _len = match array.ptype() {
        PType::U8 => array.as_slice::<u8>().len(),
        PType::U16 => array.as_slice::<u16>().len(),
        PType::U32 => array.as_slice::<u32>().len(),
        PType::U64 => array.as_slice::<u64>().len(),
        PType::I8 => array.as_slice::<i8>().len(),
        PType::I16 => array.as_slice::<i16>().len(),
        PType::I32 => array.as_slice::<i32>().len(),
        PType::I64 => array.as_slice::<i64>().len(),
    };
}

/// How many items are null.
fn null_count(array: &PrimitiveArray) -> usize
    ensures { result ≡ null_count_of (column_of_primitive array.now) }
{
    match array.validity() {
        Validity::NonNullable | Validity::AllValid => 0,
        Validity::AllInvalid => array.len(),
        Validity::Array(bits) => array.len() - bits.count_true(),
    }
}

/// Whether no item is above the next. Where none is null, the integers are compared as they lie.
fn is_sorted(array: &PrimitiveArray) -> bool
    ensures { result ≡ are_sorted (column_of_primitive array.now).items }
{
    match array.validity() {
        Validity::NonNullable | Validity::AllValid => slots_rise(array),
        Validity::AllInvalid | Validity::Array(_) => array.is_sorted(false),
    }
}

/// Whether no stored integer is above the next.
fn slots_rise(array: &PrimitiveArray) -> bool
    ensures { result ≡ are_sorted (map (λ z. Some z) array.now.slots) }
{
    match_each_integer_ptype!(array.ptype(), rise_typed(array))
}

/// The same at a type.
fn rise_typed<T: NativePType>(array: &PrimitiveArray) -> bool
    requires { array.now.ptype ≡ T.PTYPE }
    ensures { result ≡ are_sorted (map (λ z. Some z) array.now.slots) }
{
    rise(array.as_slice::<T>())
}

/// The extremes and the sum of the valid items.
fn summary(array: &PrimitiveArray) -> Summary
    requires { length array.now.slots < 2 ^ 63 }
    ensures extremes { result.extremes ≡ extremes_among (valid_items (column_of_primitive array.now)) }
    ensures sum { result.sum ≡ total (valid_items (column_of_primitive array.now)) }
{
    match_each_integer_ptype!(array.ptype(), summary_typed(array))
}

/// The same at a type.
fn summary_typed<T: NativePType>(array: &PrimitiveArray) -> Summary
    requires typed { array.now.ptype ≡ T.PTYPE }
    requires few { length array.now.slots < 2 ^ 63 }
    ensures extremes { result.extremes ≡ extremes_among (valid_items (column_of_primitive array.now)) }
    ensures sum { result.sum ≡ total (valid_items (column_of_primitive array.now)) }
{
    match array.validity() {
        Validity::NonNullable | Validity::AllValid => summary_of(array.as_slice::<T>()),
        Validity::AllInvalid => Summary {
            extremes: None,
            sum: 0,
        },
        Validity::Array(bits) => summary_of_valid(array.as_slice::<T>(), bits),
    }
}
