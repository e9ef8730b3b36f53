//! Booleans as bytes, eight to a byte.

ghost use Rattle.std.specs.Prelude.{◌≡◌, ◌<◌, ℕ, Ok, length, slice_index};
ghost use Rattle.fl_types.specs.Refusals.{Answers};
ghost use Rattle.fl_serde.specs.Leaves.{bits_of_bytes, bits_size, bytes_of_bits};

use bytes::Bytes;
use fl_column::bitmaps::{bitmap_len, bits_of, write_bits};
use fl_column::{BitList, FastLanesError};
use std::alloc::Global;

/// A byte is below 256.
fn prove_bytes(bytes: &[u8])
    ensures { (k : ℕ) → slice_index bytes.now k < 256 }
{
    let _bytes = bytes;
}

/// The bytes of booleans, in a list of their own.
fn bitmap_of(alloc: Global, bits: &BitList) -> Result<Vec<u8>, FastLanesError>
    ensures { Answers (λ v. v.items) result (Ok (bytes_of_bits bits.now)) }
{
    let mut bytes = Vec::new(alloc);
    bytes.resize(bitmap_len(bits.len()), 0u8)?;
    write_bits(&mut bytes, bits);
    prove_bytes(&bytes);
    Ok(bytes)
}

/// The bytes of booleans.
pub fn bytes_of_bits(alloc: Global, bits: &BitList) -> Result<Bytes, FastLanesError>
    ensures { Answers (λ b. b) result (Ok (bytes_of_bits bits.now)) }
{
    let bytes = bitmap_of(alloc, bits)?;
    Ok(Bytes::from_vec(bytes)?)
}

/// The booleans that bytes store.
pub fn bits_of_bytes(alloc: Global, bytes: &[u8], len: usize) -> Result<BitList, FastLanesError>
    requires { length bytes.now ≡ bits_size len }
    ensures { Answers (λ b. b) result (Ok (bits_of_bytes bytes.now len)) }
{
    bits_of(alloc, bytes, len)
}
