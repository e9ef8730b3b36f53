//! Plain arrays of integers.

ghost use Rattle.std.specs.Prelude.{◌≡◌, ◌≤◌, ◌<◌, ℤ, [], map, length, IfOk, IfSome, IsTrue, Ok, Some, None, option_map, slice_index_or};
ghost use Rattle.fl_types.specs.Bits.{between};
ghost use Rattle.fl_types.specs.Buffers.{integers_of, ptype_of};
ghost use Rattle.fl_types.specs.Values.{scalar_parts, integer_of, ptype_of_value};
ghost use Rattle.fl_column.specs.Columns.{column_of_primitive, new_primitive, non_nullable, primitive_of_options, slice_primitive, without_nulls};
ghost use Rattle.fl_types.specs.Validities.{covers, nullability_of};
ghost use Rattle.fl_column.specs.Operations.{slice_of};
ghost use Rattle.fl_column.specs.Queries.{scalar_in};
ghost use Rattle.fl_types.specs.Refusals.{Answers};

use fl_types::{
    BitList, DType, FastLanesError, NativePType, Nullability, PType, PValue, PrimitiveBuffer,
    Scalar, Validity, match_each_integer_ptype,
};
use std::alloc::{AllocError, Global};
use std::marker::Model;

/// A plain array of integers: a stored integer for each item, also under a null, and which of them
/// are valid. Contracts see its type, its integers and its validity.
#[derive(Debug)]
pub struct PrimitiveArray {
    slots: PrimitiveBuffer,
    validity: Validity,
}

// Written out, so that letting one go is one call in each function that owns one.
impl Drop for PrimitiveArray {
    fn drop(self) {
        let PrimitiveArray {
            slots: _,
            validity: _,
        } = self;
    }
}

impl Model for PrimitiveArray {
    ghost use Rattle.std.specs.Prelude.{IsTrue, length};
    ghost use Rattle.fl_types.specs.Buffers.{integers_of, ptype_of};
    ghost use Rattle.fl_column.specs.Columns.{PrimitiveParts};
    ghost use Rattle.fl_types.specs.Validities.{covers};

    ghost Value = { PrimitiveParts };

    ghost view = { λ a. record { ptype = ptype_of a.slots; slots = integers_of a.slots; validity = a.validity } };

    ghost invariant = { λ a. IsTrue (covers a.validity (length (integers_of a.slots))) };
}

fn empty_typed<T: NativePType>(alloc: Global, nullability: Nullability) -> PrimitiveArray
    ensures { result ≡ without_nulls T.PTYPE nullability [] }
{
    PrimitiveArray::without_nulls::<T>(Vec::new(alloc), nullability)
}

impl PrimitiveArray {
    /// An array of these parts.
    ///
    /// # Errors
    /// `ValidityLength` if the validity does not have one bit for each integer.
    pub fn new<T: NativePType>(
        items: Vec<T>,
        validity: Validity,
    ) -> Result<PrimitiveArray, FastLanesError>
        ensures { result ≡ new_primitive T.PTYPE (map T.value items.items) validity }
    {
        let slots = T::into_buffer(items);
        if validity.covers(slots.len()) {
            Ok(PrimitiveArray { slots, validity })
        } else {
            Err(FastLanesError::ValidityLength)
        }
    }

    /// An array of these parts, whose validity has a bit for each integer.
    pub fn new_unchecked<T: NativePType>(items: Vec<T>, validity: Validity) -> PrimitiveArray
        requires { IsTrue (covers validity (length items.items)) }
        ensures { result ≡ record { ptype = T.PTYPE; slots = map T.value items.items; validity = validity } }
    {
        PrimitiveArray {
            slots: T::into_buffer(items),
            validity,
        }
    }

    /// An empty array of a type. It allocates nothing.
    pub fn empty(alloc: Global, ptype: PType, nullability: Nullability) -> PrimitiveArray
        ensures { result ≡ without_nulls ptype nullability [] }
    {
        match_each_integer_ptype!(ptype, empty_typed(alloc, nullability))
    }

    /// An array of these integers, none of which is null, with this nullability.
    pub fn without_nulls<T: NativePType>(items: Vec<T>, nullability: Nullability) -> PrimitiveArray
        ensures { result ≡ without_nulls T.PTYPE nullability (map T.value items.items) }
    {
        PrimitiveArray::new_unchecked(items, Validity::from(nullability))
    }

    /// An array of these integers, none of which may be null.
    pub fn non_nullable<T: NativePType>(items: Vec<T>) -> PrimitiveArray
        ensures { result ≡ non_nullable T.PTYPE (map T.value items.items) }
    {
        PrimitiveArray::new_unchecked(items, Validity::NonNullable)
    }

    /// A nullable array of these items; the integer under a null is 0.
    pub fn from_options<T: NativePType>(
        alloc: Global,
        options: &[Option<T>],
    ) -> Result<PrimitiveArray, FastLanesError>
        ensures plain { Answers (λ a. a) result (Ok (primitive_of_options T.PTYPE (map (option_map T.value) options.now))) }
    {
        let mut slots = Vec::with_capacity(alloc, options.len())?;
        let mut bits = BitList::new(alloc);
        for option in options {
            slots.push(option.unwrap_or(T::zero()))?;
            bits.push(option.is_some())?;
        }
        PrimitiveArray::new(slots, Validity::Array(bits))
    }

    /// An array of these parts.
    pub(crate) fn from_buffer(slots: PrimitiveBuffer, validity: Validity) -> PrimitiveArray
        requires { IsTrue (covers validity (length (integers_of slots))) }
        ensures { result ≡ record { ptype = ptype_of slots; slots = integers_of slots; validity = validity } }
    {
        PrimitiveArray { slots, validity }
    }

    /// The slots and the validity.
    pub(crate) fn into_parts(self) -> (PrimitiveBuffer, Validity)
        ensures typed { ptype_of result.0 ≡ self.ptype }
        ensures slots { integers_of result.0 ≡ self.slots }
        ensures validity { result.1 ≡ self.validity }
        ensures covers { IsTrue (covers self.validity (length self.slots)) }
    {
        let PrimitiveArray { slots, validity } = self;
        (slots, validity)
    }

    /// The number of items.
    #[tactic(auto, using(crate::proofs::ItemLaws::lengths))]
    pub fn len(&self) -> usize
        ensures slots { result ≡ length self.now.slots }
        ensures items { result ≡ length (column_of_primitive self.now).items }
    {
        self.slots.len()
    }

    /// The integer type.
    pub fn ptype(&self) -> PType
        ensures { result ≡ self.now.ptype }
    {
        self.slots.ptype()
    }

    /// The type of the column.
    pub fn dtype(&self) -> DType
        ensures { result ≡ (column_of_primitive self.now).dtype }
    {
        DType::Primitive(self.slots.ptype(), self.validity.nullability())
    }

    /// Which items are valid.
    pub fn validity(&self) -> &Validity
        ensures value { result.now ≡ self.now.validity }
        ensures covers { IsTrue (covers self.now.validity (length self.now.slots)) }
    {
        // For the proof: the validity covers the slots.
        let _ = &self.slots;
        &self.validity
    }

    /// Whether items may be null.
    pub fn nullability(&self) -> Nullability
        ensures { result ≡ nullability_of self.now.validity }
    {
        self.validity.nullability()
    }

    /// The typed slots.
    pub(crate) fn slots(&self) -> &PrimitiveBuffer
        ensures typed { ptype_of result.now ≡ self.now.ptype }
        ensures slots { integers_of result.now ≡ self.now.slots }
    {
        &self.slots
    }

    /// The stored integers, also those under a null.
    pub fn as_slice<T: NativePType>(&self) -> &[T]
        requires { self.now.ptype ≡ T.PTYPE }
        ensures { map T.value result.now ≡ self.now.slots }
    {
        T::as_slice(&self.slots)
    }

    /// The item at an index, or `None` for a null.
    pub fn get(&self, i: usize) -> Option<PValue>
        requires { i < length self.now.slots }
        ensures item { option_map integer_of result ≡ slice_index_or (column_of_primitive self.now).items i None }
        ensures typed { IfSome result (λ v. ptype_of_value v ≡ self.now.ptype) }
    {
        if self.validity.is_valid(i, self.slots.len()) {
            Some(value_at(&self.slots, i))
        } else {
            None
        }
    }

    /// The item at an index, with the array's type.
    pub fn scalar_at(&self, i: usize) -> Scalar
        requires { i < length (column_of_primitive self.now).items }
        ensures { scalar_parts result ≡ scalar_in (column_of_primitive self.now) i }
    {
        let len = self.len();
        prove!(i < len);
        match self.get(i) {
            None => Scalar::null(self.dtype()),
            Some(value) => Scalar::primitive(value, self.validity.nullability()),
        }
    }

    /// The items of `start..end`.
    #[tactic(auto, using(crate::proofs::ItemLaws::slices))]
    pub fn slice(
        &self,
        alloc: Global,
        start: usize,
        end: usize,
    ) -> Result<PrimitiveArray, FastLanesError>
        requires order { start ≤ end }
        requires range { end ≤ length (column_of_primitive self.now).items }
        ensures plain { Answers (λ a. a) result (Ok (slice_primitive start end self.now)) }
        ensures column { Answers column_of_primitive result (Ok (slice_of start end (column_of_primitive self.now))) }
    {
        let len = self.slots.len();
        let validity = self.validity.slice(alloc, start, end, len)?;
        let slots = slice_slots(&self.slots, alloc, start, end)?;
        Ok(PrimitiveArray { slots, validity })
    }

    /// A copy.
    pub fn try_clone(&self, alloc: Global) -> Result<PrimitiveArray, FastLanesError>
        ensures { Answers (λ a. a) result (Ok self.now) }
    {
        let validity = self.validity.try_clone(alloc)?;
        let len = self.slots.len();
        let slots = slice_slots(&self.slots, alloc, 0, len)?;
        Ok(PrimitiveArray { slots, validity })
    }
}

/// The slots from `start` to below `end`.
fn slice_slots(
    slots: &PrimitiveBuffer,
    alloc: Global,
    start: usize,
    end: usize,
) -> Result<PrimitiveBuffer, AllocError>
    requires order { start ≤ end }
    requires range { end ≤ length (integers_of slots.now) }
    ensures typed { IfOk result (λ s. ptype_of s ≡ ptype_of slots.now) }
    ensures slots { IfOk result (λ s. integers_of s ≡ between start end (integers_of slots.now)) }
{
    match_each_integer_ptype!(slots.ptype(), slice_typed(slots, alloc, start, end))
}

#[tactic(auto, using(fl_types::proofs::Maps::maps))]
fn slice_typed<T: NativePType>(
    slots: &PrimitiveBuffer,
    alloc: Global,
    start: usize,
    end: usize,
) -> Result<PrimitiveBuffer, AllocError>
    requires same { ptype_of slots.now ≡ T.PTYPE }
    requires order { start ≤ end }
    requires range { end ≤ length (integers_of slots.now) }
    ensures typed { IfOk result (λ s. ptype_of s ≡ ptype_of slots.now) }
    ensures slots { IfOk result (λ s. integers_of s ≡ between start end (integers_of slots.now)) }
{
    let items = T::as_slice(slots);
    Ok(T::into_buffer(Vec::from_slice(alloc, &items[start..end])?))
}

/// The slot at an index.
fn value_at(slots: &PrimitiveBuffer, i: usize) -> PValue
    requires { i < length (integers_of slots.now) }
    ensures value { integer_of result ≡ slice_index_or (integers_of slots.now) i (integer_of result) }
    ensures typed { ptype_of_value result ≡ ptype_of slots.now }
{
    match_each_integer_ptype!(slots.ptype(), value_typed(slots, i))
}

fn value_typed<T: NativePType>(slots: &PrimitiveBuffer, i: usize) -> PValue
    requires same { ptype_of slots.now ≡ T.PTYPE }
    requires range { i < length (integers_of slots.now) }
    ensures value { integer_of result ≡ slice_index_or (integers_of slots.now) i (integer_of result) }
    ensures typed { ptype_of_value result ≡ ptype_of slots.now }
{
    let items = T::as_slice(slots);
    items[i].into_pvalue()
}
