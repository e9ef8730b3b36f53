//! Stored integers as bytes, each with its low byte first.

ghost use Rattle.std.specs.Prelude.{◌≡◌, ◌+◌, ◌*◌, ◌/◌, ◌<◌, ◌≤◌, ◌++◌, IfErr, IfOk, OnOk, Ok, flat_map, length, map};
ghost use Rattle.std.specs.Int.{to_le_bytes};
ghost use Rattle.fl_types.specs.declared.error.FastLanesError.TheVariants.{OutOfMemory};
ghost use Rattle.fl_types.specs.Bits.{tabulate};
ghost use Rattle.fl_types.specs.Integers.{bits_of_type};
ghost use Rattle.fl_types.specs.Refusals.{Answers};
ghost use Rattle.fl_column.specs.Columns.{new_primitive};
ghost use Rattle.fl_serde.specs.Leaves.{bytes_of_slot, bytes_of_slots, slot_at, slots_of_bytes, slots_size};

use bytes::Bytes;
use fastlanes::FastLanes;
use fl_column::{FastLanesError, NativePType, PType, PhysicalPType, PrimitiveArray, Validity};
use fl_types::match_each_integer_ptype;
use std::alloc::{AllocError, Global};

/// Adds the bytes of a value.
#[tactic(auto, using(crate::proofs::LeafLaws::low_bytes))]
fn push_bytes<T: PhysicalPType>(item: T, bytes: &mut Vec<u8>) -> Result<(), AllocError>
    ensures { OnOk result (bytes.new.items ≡ bytes.old.items ++ bytes_of_slot T.PTYPE (T.value item)) }
{
    let pattern = item.pattern().to_le_bytes();
    let all = &pattern[..];
    bytes.extend_from_slice(&all[..T::Physical::T / 8])
}

/// The bytes of these integers.
fn bytes_of_items<T: PhysicalPType>(alloc: Global, items: &[T]) -> Result<Vec<u8>, AllocError>
    ensures { IfOk result (λ v. v.items ≡ bytes_of_slots T.PTYPE (map T.value items.now)) }
{
    let mut bytes = Vec::new(alloc);
    bytes.reserve(std::mem::size_of_val(items))?;
    for item in items {
        push_bytes(*item, &mut bytes)?;
    }
    Ok(bytes)
}

fn bytes_of_typed<T: PhysicalPType>(
    alloc: Global,
    array: &PrimitiveArray,
) -> Result<Vec<u8>, AllocError>
    requires { array.now.ptype ≡ T.PTYPE }
    ensures { IfOk result (λ v. v.items ≡ bytes_of_slots array.now.ptype array.now.slots) }
{
    bytes_of_items::<T>(alloc, array.as_slice())
}

/// The bytes of an array's stored integers.
pub fn bytes_of_slots(alloc: Global, array: &PrimitiveArray) -> Result<Bytes, FastLanesError>
    ensures { Answers (λ b. b) result (Ok (bytes_of_slots array.now.ptype array.now.slots)) }
{
    let bytes = match_each_integer_ptype!(array.ptype(), bytes_of_typed(alloc, array))?;
    Ok(Bytes::from_vec(bytes)?)
}

/// Integers that bytes store.
fn items_of_bytes<T: PhysicalPType>(
    alloc: Global,
    bytes: &[u8],
    len: usize,
) -> Result<Vec<T>, AllocError>
    requires { length bytes.now ≡ slots_size T.PTYPE len }
    ensures { IfOk result (λ v. map T.value v.items ≡ slots_of_bytes T.PTYPE bytes.now len) }
{
    let mut items = Vec::with_capacity(alloc, len)?;
    for i in 0..len {
        let word = T::Physical::word(bytes, i);
        items.push(T::from_physical(word))?;
    }
    Ok(items)
}

fn array_of_typed<T: PhysicalPType>(
    alloc: Global,
    bytes: &[u8],
    len: usize,
    validity: Validity,
) -> Result<PrimitiveArray, FastLanesError>
    requires { length bytes.now ≡ slots_size T.PTYPE len }
    ensures { Answers (λ a. a) result (new_primitive T.PTYPE (slots_of_bytes T.PTYPE bytes.now len) validity) }
{
    let items = items_of_bytes::<T>(alloc, bytes, len)?;
    PrimitiveArray::new(items, validity)
}

/// The array of the integers that bytes store.
///
/// # Errors
/// `ValidityLength` if the validity does not have one bit for each integer.
pub fn array_of_bytes(
    alloc: Global,
    ptype: PType,
    bytes: &[u8],
    len: usize,
    validity: Validity,
) -> Result<PrimitiveArray, FastLanesError>
    requires { length bytes.now ≡ slots_size ptype len }
    ensures { Answers (λ a. a) result (new_primitive ptype (slots_of_bytes ptype bytes.now len) validity) }
{
    match_each_integer_ptype!(ptype, array_of_typed(alloc, bytes, len, validity))
}
