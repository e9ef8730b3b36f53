//! Columns in another integer type, block by block: it ends at the first block with an item that the type doesn't have.

ghost use Rattle.std.specs.Prelude.{◌≡◌, ◌&&◌, ◌+◌, ◌++◌, [], IfOk, IsTrue, None, Ok, OnOk, Some, false, is_none, is_some, length, map, not, option_map, true, if◌then◌else◌, ◌||◌};
ghost use Rattle.std.specs.List.{list_all, list_any};
ghost use Rattle.fl_types.specs.Bits.{between};
ghost use Rattle.fl_types.specs.Integers.{fits};
ghost use Rattle.fl_types.specs.Refusals.{Answers};
ghost use Rattle.fl_types.specs.Types.{can_be_null, has_ptype};
ghost use Rattle.fl_types.specs.Validities.{covers};
ghost use Rattle.fl_column.specs.Casts.{cast_slot};
ghost use Rattle.fl_column.specs.Columns.{column_of_primitive, option_all};
ghost use Rattle.fl_column.specs.Operations.{cast_column, cast_items};
ghost use Rattle.fl_column.specs.Selections.{any_null};
ghost use Rattle.fl_bitpacking.specs.Blocks.{value_at};
ghost use Rattle.fl_array.specs.Reads.{IsValidityOf};
ghost use Rattle.fl_array.specs.Trees.{column};
ghost use Rattle.fl_ops.specs.BlockReads.{AreCast, AreRead, validity_in};

use crate::by_blocks::item_of;
use fastlanes::FL_CHUNK_SIZE;
use fl_array::{ArrayRef, Reader};
use fl_bitpacking::unpack_iter::BitPacked;
use fl_column::{
    DType, FastLanesError, NativePType, Nullability, PType, PhysicalPType, PrimitiveArray, Validity,
};
use fl_types::match_each_integer_ptype;
use num_traits::WrappingAdd;
use std::alloc::{AllocError, Global};

/// Whether any of this many items is null.
fn has_null(validity: &Validity, len: usize) -> bool
    ensures { result ≡ any_null validity.now len }
{
    match validity {
        Validity::NonNullable => false,
        Validity::AllValid => false,
        Validity::AllInvalid => len > 0,
        Validity::Array(bits) => bits.count_true() < len,
    }
}

/// Whether an item is null where none may be.
fn has_null_against(array: &ArrayRef, validity: &Validity, nullability: Nullability) -> bool
    requires { IsValidityOf validity.now (column array.now) }
    ensures { result ≡ (not (can_be_null nullability) && list_any is_none (column array.now).items) }
{
    match nullability {
        Nullability::NonNullable => has_null(validity, array.len()),
        Nullability::Nullable => false,
    }
}

/// The validity of the same items where nulls may stand or, since there are none, may not.
fn validity_in(validity: Validity, nullability: Nullability) -> Validity
    ensures { result ≡ validity_in nullability validity }
{
    match nullability {
        Nullability::NonNullable => Validity::NonNullable,
        Nullability::Nullable => match validity {
            Validity::NonNullable => Validity::AllValid,
            other => other,
        },
    }
}

/// The value of this type, or `None` where the type doesn't have it.
fn cast_value<T: NativePType>(value: i128) -> Option<T>
    ensures { option_map T.value result ≡ (if fits T.PTYPE value then Some value else None) }
{
    T::from_i128(value)
}

/// Whether the type has an item, as it has a null.
fn has_item<S: NativePType, T: NativePType>(item: Option<S>) -> bool
    ensures { result ≡ option_all (fits T.PTYPE) (option_map S.value item) }
{
    match item {
        Some(value) => cast_value::<T>(value.as_i128()).is_some(),
        None => true,
    }
}

/// Whether the type has each of these items, which were read from `start` on.
fn has_part<S: NativePType, T: NativePType>(
    reader: &Reader,
    validity: &Validity,
    start: usize,
    items: &[S],
) -> bool
    requires { AreRead validity.now start (length items.now) (value_at S.value items.now) reader.now.column }
    ensures { result ≡ list_all (option_all (fits T.PTYPE)) (between start (start + length items.now) reader.now.column.items) }
{
    for i in 0..items.len() {
        if !has_item::<S, T>(item_of(reader, validity, start, items, i)) {
            return false;
        }
    }
    true
}

/// Appends integers in another type, 0 where the type doesn't have one, and returns whether it has all.
fn push_cast<S: NativePType, T: NativePType>(
    cast: &mut Vec<T>,
    items: &[S],
) -> Result<bool, AllocError>
    ensures slots { OnOk result (map T.value cast.new.items ≡ map T.value cast.old.items ++ map (cast_slot T.PTYPE) (map S.value items.now)) }
    ensures fit { IfOk result (λ fit. fit ≡ list_all (fits T.PTYPE) (map S.value items.now)) }
{
    cast.reserve(items.len())?;
    let mut fit = true;
    for item in items {
        let value = cast_value::<T>(item.as_i128());
        fit &= value.is_some();
        cast.push_reserved(value.unwrap_or(T::zero()));
    }
    Ok(fit)
}

/// Appends items, which were read from `start` on, in another type, and returns whether it has all.
fn push_part<S: NativePType, T: NativePType>(
    reader: &Reader,
    validity: &Validity,
    start: usize,
    items: &[S],
    cast: &mut Vec<T>,
) -> Result<bool, AllocError>
    requires read { AreRead validity.now start (length items.now) (value_at S.value items.now) reader.now.column }
    requires begun { AreCast T.PTYPE (map T.value cast.old.items) start reader.now.column }
    ensures cast { IfOk result (λ fit. fit ≡ true → AreCast T.PTYPE (map T.value cast.new.items) (start + length items.now) reader.now.column) }
    ensures refused { IfOk result (λ fit. fit ≡ false → list_all (option_all (fits T.PTYPE)) reader.now.column.items ≡ false) }
{
    let fit = push_cast::<S, T>(cast, items)?;
    if fit {
        return Ok(true);
    }
    Ok(has_part::<S, T>(reader, validity, start, items))
}

/// Fills an empty list with the items in another type, and returns whether it has all. It ends at the first block in
/// which it doesn't.
fn push_all<S: BitPacked + PhysicalPType + WrappingAdd, T: NativePType>(
    reader: &Reader,
    validity: &Validity,
    cast: &mut Vec<T>,
) -> Result<bool, AllocError>
    requires typed { IsTrue (has_ptype S.PTYPE reader.now.column.dtype) }
    requires validity { IsValidityOf validity.now reader.now.column }
    requires empty { cast.old.items ≡ [] }
    ensures cast { IfOk result (λ fit. fit ≡ true → AreCast T.PTYPE (map T.value cast.new.items) (length reader.now.column.items) reader.now.column) }
    ensures refused { IfOk result (λ fit. fit ≡ false → list_all (option_all (fits T.PTYPE)) reader.now.column.items ≡ false) }
{
    let mut scratch = [S::zero(); FL_CHUNK_SIZE];
    for j in 0..reader.blocks() {
        let (from, to) = reader.places(j);
        let items = &mut scratch[..to - from];
        reader.read(from, items);
        let fit = push_part::<S, T>(reader, validity, from, items, cast)?;
        if !fit {
            return Ok(false);
        }
    }
    Ok(true)
}

fn cast_typed<S: BitPacked + PhysicalPType + WrappingAdd, T: NativePType>(
    alloc: Global,
    reader: &Reader,
    validity: Validity,
    nullability: Nullability,
) -> Result<PrimitiveArray, FastLanesError>
    requires typed { IsTrue (has_ptype S.PTYPE reader.now.column.dtype) }
    requires validity { IsValidityOf validity reader.now.column }
    requires nulls { IsTrue (can_be_null nullability || list_all is_some reader.now.column.items) }
    ensures { Answers column_of_primitive result (cast_items T.PTYPE nullability reader.now.column.items) }
{
    let mut cast = Vec::with_capacity(alloc, reader.len())?;
    let fit = push_all::<S, T>(reader, &validity, &mut cast)?;
    if !fit {
        return Err(FastLanesError::CastOutOfRange);
    }
    let validity = validity_in(validity, nullability);
    Ok(PrimitiveArray::new_unchecked(cast, validity))
}

/// The same, to an integer type.
fn cast_from<S: BitPacked + PhysicalPType + WrappingAdd>(
    alloc: Global,
    reader: &Reader,
    validity: Validity,
    ptype: PType,
    nullability: Nullability,
) -> Result<PrimitiveArray, FastLanesError>
    requires typed { IsTrue (has_ptype S.PTYPE reader.now.column.dtype) }
    requires validity { IsValidityOf validity reader.now.column }
    requires nulls { IsTrue (can_be_null nullability || list_all is_some reader.now.column.items) }
    ensures { Answers column_of_primitive result (cast_items ptype nullability reader.now.column.items) }
{
    match_each_integer_ptype!(ptype, cast_typed::<S>(alloc, reader, validity, nullability))
}

/// The same, by a column's integer type.
fn cast_read(
    alloc: Global,
    reader: &Reader,
    validity: Validity,
    source: PType,
    ptype: PType,
    nullability: Nullability,
) -> Result<PrimitiveArray, FastLanesError>
    requires typed { IsTrue (has_ptype source reader.now.column.dtype) }
    requires validity { IsValidityOf validity reader.now.column }
    requires nulls { IsTrue (can_be_null nullability || list_all is_some reader.now.column.items) }
    ensures { Answers column_of_primitive result (cast_items ptype nullability reader.now.column.items) }
{
    match_each_integer_ptype!(
        source,
        cast_from(alloc, reader, validity, ptype, nullability)
    )
}

/// The same integers in another type. Nothing is decoded where a null refuses the cast.
pub(crate) fn cast(
    alloc: Global,
    array: &ArrayRef,
    target: DType,
) -> Result<PrimitiveArray, FastLanesError>
    ensures { Answers column_of_primitive result (cast_column target (column array.now)) }
{
    let DType::Primitive(ptype, nullability) = target else {
        return Err(FastLanesError::NotInteger);
    };
    let DType::Primitive(source, _) = array.dtype() else {
        return Err(FastLanesError::NotInteger);
    };
    let validity = array.validity(alloc)?;
    if has_null_against(array, &validity, nullability) {
        return Err(FastLanesError::CastNull);
    }
    let reader = Reader::try_new(alloc, array)?;
    cast_read(alloc, &reader, validity, source, ptype, nullability)
}
