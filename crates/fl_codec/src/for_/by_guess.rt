//! Frames of reference in one pass. The minimum of the first items is a guess at that of all. It is subtracted chunk by
//! chunk, and the minimum of each chunk, which is then in the cache, tells whether it holds.

ghost use Rattle.std.specs.Prelude.{◌≡◌, IfOk, IfSome, IsTrue, Some, length, map, option_map, true};
ghost use Rattle.std.specs.List.{list_all};
ghost use Rattle.fl_types.specs.Integers.{fits};
ghost use Rattle.fl_types.specs.Validities.{covers, items_of};
ghost use Rattle.fl_codec.specs.FoRColumns.{least_by, minus_reference, reading};

use crate::chunks::{chunk_count, chunk_end};
use crate::for_::without_nulls::{lesser, minus};
use crate::for_::{ItemOrder, least_between, least_turned_between, origin_of, push_chunk, turned};
use fastlanes::FL_CHUNK_SIZE;
use fl_types::{NativePType, Validity, is_equal};
use num_traits::WrappingSub;
use std::alloc::{AllocError, Global};

/// How many items the guess is made from at most.
const SAMPLE: usize = 64 * FL_CHUNK_SIZE;

/// The minimum of the first valid items by an order: of an eighth of the items, so that a wrong guess costs little.
pub(crate) fn guess_least<T: NativePType + WrappingSub>(
    items: &[T],
    validity: &Validity,
    order: ItemOrder,
) -> Option<T>
    requires covers { IsTrue (covers validity.now (length items.now)) }
    requires fit { IsTrue (list_all (fits T.PTYPE) (map T.value items.now)) }
{
    let count = (items.len() / 8).min(SAMPLE);
    if count < FL_CHUNK_SIZE {
        return None;
    }
    least_between(items, validity, 0, count, order)
}

/// Whether a minimum is below a guess at it.
fn is_below<T: NativePType>(least: Option<T>, guess: T) -> bool {
    match least {
        Some(least) => least < guess,
        None => false,
    }
}

/// Whether a minimum is the one that is guessed.
fn is_guessed<T: NativePType>(least: Option<T>, guess: T) -> bool
    ensures { result ≡ true → option_map T.value least ≡ Some (T.value guess) }
{
    match least {
        Some(least) => is_equal(least, guess),
        None => false,
    }
}

/// The slots of the items minus their minimum by an order, if that is what is guessed; else `None`.
pub(crate) fn differences<T: NativePType + WrappingSub>(
    alloc: Global,
    items: &[T],
    validity: &Validity,
    order: ItemOrder,
    guess: T,
) -> Result<Option<Vec<T>>, AllocError>
    requires covers { IsTrue (covers validity.now (length items.now)) }
    requires fit { IsTrue (list_all (fits T.PTYPE) (map T.value items.now)) }
    ensures least { IfOk result (λ o. IfSome o (λ v. least_by (reading order T.PTYPE) (items_of validity.now (map T.value items.now)) ≡ Some (T.value guess))) }
    ensures slots { IfOk result (λ o. IfSome o (λ v. map T.value v.items ≡ map (minus_reference T.PTYPE (T.value guess)) (items_of validity.now (map T.value items.now)))) }
{
    let origin = origin_of(order);
    let turned_guess = minus(guess, origin);
    let len = items.len();
    let mut slots = Vec::with_capacity(alloc, len)?;
    let mut least = None;
    for k in 0..chunk_count(len) {
        let end = chunk_end(k, len);
        let here = least_turned_between(items, validity, FL_CHUNK_SIZE * k, end, origin);
        least = lesser(least, here);
        if is_below(least, turned_guess) {
            return Ok(None);
        }
        push_chunk(items, validity, k, guess, &mut slots)?;
    }
    if is_guessed(turned(least, origin), guess) {
        Ok(Some(slots))
    } else {
        Ok(None)
    }
}
