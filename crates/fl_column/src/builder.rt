//! Items that are gathered one by one into a plain array.

ghost use Rattle.std.specs.Prelude.{◌≡◌, ◌||◌, ◌++◌, ◌∷◌, [], IsTrue, Ok, OnErr, OnOk, IfOk, IfErr, option_map, is_some, false, replicate, true};
ghost use Rattle.std.specs.List.{list_all};
ghost use Rattle.fl_column.specs.Builders.{grown, is_growing};
ghost use Rattle.fl_column.specs.Columns.{column_of_primitive};
ghost use Rattle.fl_types.specs.Refusals.{Answers};
ghost use Rattle.fl_types.specs.Types.{can_be_null};
ghost use Rattle.fl_types.specs.declared.error.FastLanesError.TheVariants.{OutOfMemory};
ghost use Rattle.fl_types.specs.declared.dtype.DType.TheVariants.{Primitive};

use crate::primitive::PrimitiveArray;
use fl_types::{BitList, FastLanesError, NativePType, Nullability, Validity};
use std::alloc::Global;
use std::marker::Model;

/// Items that are gathered one by one: a value for each, and from the first null on a validity bit for
/// each. Contracts see the list of the items.
#[derive(Drop)]
pub struct PrimitiveBuilder<T: NativePType> {
    slots: Vec<T>,
    validity: Validity,
}

impl<T: NativePType> Model for PrimitiveBuilder<T> {
    ghost use Rattle.std.specs.Prelude.{IsTrue, List, Option, ℤ, length, map};
    ghost use Rattle.fl_column.specs.Builders.{is_growing};
    ghost use Rattle.fl_types.specs.Validities.{items_of};

    ghost Value = { List (Option ℤ) };

    ghost view = { λ b. items_of b.validity (map T.value b.slots.items) };

    ghost invariant = { λ b. IsTrue (is_growing b.validity (length b.slots.items)) };
}

/// This many bits that are set, and behind them one that is not.
fn first_null(alloc: Global, len: usize) -> Result<BitList, FastLanesError>
    ensures { Answers (λ b. b) result (Ok (replicate len true ++ false ∷ [])) }
{
    let mut bits = BitList::from_fn(alloc, len, |_i| true)?;
    bits.push(false)?;
    Ok(bits)
}

/// Adds an item to the validity of `len` items. With the first null each item gets a bit.
fn push_validity(
    validity: &mut Validity,
    alloc: Global,
    len: usize,
    is_valid: bool,
) -> Result<(), FastLanesError>
    requires { IsTrue (is_growing validity.old len) }
    ensures validity { OnOk result (validity.new ≡ grown validity.old len is_valid) }
    ensures err { OnErr result (validity.new ≡ validity.old) }
    ensures memory { IfErr result (λ e. e ≡ OutOfMemory) }
{
    match validity {
        Validity::Array(bits) => bits.push(is_valid),
        _ if is_valid => Ok(()),
        _ => {
            *validity = Validity::Array(first_null(alloc, len)?);
            Ok(())
        }
    }
}

impl<T: NativePType> PrimitiveBuilder<T> {
    /// No items yet, with room for this many.
    pub fn with_capacity(alloc: Global, len: usize) -> Result<PrimitiveBuilder<T>, FastLanesError>
        ensures items { IfOk result (λ b. b ≡ []) }
        ensures memory { IfErr result (λ e. e ≡ OutOfMemory) }
    {
        let slots = Vec::with_capacity(alloc, len)?;
        Ok(PrimitiveBuilder {
            slots,
            validity: Validity::AllValid,
        })
    }

    /// Appends an item.
    #[tactic(auto, using(crate::proofs::BuilderLaws::item_more))]
    pub fn push(&mut self, alloc: Global, item: Option<T>) -> Result<(), FastLanesError>
        ensures items { OnOk result (self.new ≡ self.old ++ option_map T.value item ∷ []) }
        ensures err { OnErr result (self.new ≡ self.old) }
        ensures memory { IfErr result (λ e. e ≡ OutOfMemory) }
    {
        self.slots.reserve(1)?;
        let len = self.slots.as_slice().len();
        push_validity(&mut self.validity, alloc, len, item.is_some())?;
        self.slots.push_reserved(item.unwrap_or(T::zero()));
        Ok(())
    }

    /// The array of the items, none of which may be null if it is non-nullable.
    #[tactic(auto, using(crate::proofs::BuilderLaws::no_nulls_gathered))]
    pub fn finish(self, nullability: Nullability) -> PrimitiveArray
        requires { IsTrue (can_be_null nullability || list_all is_some self) }
        ensures { column_of_primitive result ≡ record { dtype = Primitive T.PTYPE nullability; items = self } }
    {
        let PrimitiveBuilder { slots, validity } = self;
        match nullability {
            Nullability::NonNullable => PrimitiveArray::non_nullable(slots),
            Nullability::Nullable => PrimitiveArray::new_unchecked(slots, validity),
        }
    }
}
