//! Packed bytes as words of a type.

ghost use Rattle.std.specs.Prelude.{◌≡◌, ◌*◌, ◌/◌, ◌<◌, IfOk, Ok, length, map};
ghost use Rattle.fl_types.specs.Refusals.{Answers};
ghost use Rattle.fl_bitpacking.specs.Words.{word_as, words_as};

use fastlanes::FastLanes;
use fl_column::PhysicalPType;
use fl_types::FastLanesError;
use std::alloc::{AllocError, Global};

/// A word of these bytes as an integer of the type.
fn word_of<T: PhysicalPType>(bytes: &[u8], m: usize) -> T
    requires { m < length bytes.now / (T.Physical.T / 8) }
    ensures { T.value result ≡ word_as T.PTYPE bytes.now m }
{
    T::from_physical(T::Physical::word(bytes, m))
}

fn read_words<T: PhysicalPType>(
    alloc: Global,
    bytes: &[u8],
    count: usize,
) -> Result<Vec<T>, AllocError>
    requires { count ≡ length bytes.now / (T.Physical.T / 8) }
    ensures { IfOk result (λ v. map T.value v.items ≡ words_as T.PTYPE bytes.now) }
{
    let mut words = Vec::with_capacity(alloc, count)?;
    for m in 0..count {
        words.push(word_of::<T>(bytes, m))?;
    }
    Ok(words)
}

/// The whole words of packed bytes, the low byte of each first, as integers of the type. Bytes after the
/// last whole word are dropped.
pub fn packed_words<T: PhysicalPType>(alloc: Global, bytes: &[u8]) -> Result<Vec<T>, FastLanesError>
    ensures { Answers (λ v. map T.value v.items) result (Ok (words_as T.PTYPE bytes.now)) }
{
    let count = bytes.len() / (T::Physical::T / 8);
    let words = read_words(alloc, bytes, count)?;
    Ok(words)
}
