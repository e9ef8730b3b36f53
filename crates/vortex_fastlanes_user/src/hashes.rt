//! What arrays keep can be a key: equal data have one hash.

ghost use Rattle.std.specs.Prelude.{◌≡◌, IsTrue, fold};
ghost use Rattle.std.specs.Hash.DefaultHasher as sip;

use std::hash::{DefaultHasher, Hash, Hasher};
use vortex_fastlanes::*;

/// The hash of a value by std's hasher.
fn hash_of<T: Hash>(value: &T) -> u64
    ensures { result ≡ sip.finish (fold sip.write sip.initial (T.hash_input value.now)) }
{
    let mut state = DefaultHasher::new();
    value.hash(&mut state);
    state.finish()
}

/// Whether two values differ or have one hash, which is always so.
fn are_alike<T: Hash>(a: &T, b: &T) -> bool
    ensures { IsTrue result }
{
    *a != *b || hash_of(a) == hash_of(b)
}

/// Equal data of bit-packed arrays have one hash, and so have those of FoR, delta and run-length encoded ones.
pub fn equal_data_hash_alike(
    packed: (&BitPackedData, &BitPackedData),
    references: (&FoRData, &FoRData),
    deltas: (&DeltaData, &DeltaData),
    runs: (&RLEData, &RLEData),
) -> bool
    ensures { IsTrue result }
{
    are_alike(packed.0, packed.1)
        && are_alike(references.0, references.1)
        && are_alike(deltas.0, deltas.1)
        && are_alike(runs.0, runs.1)
}
