//! Encoded arrays: what their data are printed as, when they are equal, and what they are hashed to.

ghost use Rattle.std.specs.Prelude.{◌≡◌, ◌↔◌, IsTrue};

use std::alloc::Global;
use std::collections::HashMap;
use vortex_fastlanes::array::*;
use vortex_fastlanes::bitpack_compress::bitpack_encode;
use vortex_fastlanes::*;

/// A column of these items, none of them null.
fn column(alloc: Global, items: &[i32]) -> Result<PrimitiveArray, FastLanesError> {
    PrimitiveArray::new(Vec::from_slice(alloc, items)?, Validity::NonNullable)
}

/// What the data of a FoR array of one item -5 are printed as.
fn for_text(alloc: Global) -> Result<String, FastLanesError> {
    let array = FoR::encode(alloc, &column(alloc, &[-5])?)?;
    let data = FoRArrayExt::data(&array);
    Ok(format!(in alloc; "{data}")?)
}

/// What the data of a bit-packed array of width 3 are printed as.
fn packed_text(alloc: Global) -> Result<String, FastLanesError> {
    let array = bitpack_encode(alloc, &column(alloc, &[5])?, 3, None)?;
    let data = BitPackedArrayExt::data(&array)?;
    Ok(format!(in alloc; "{data}")?)
}

/// Whether a text was made, and is this one.
fn is_text(made: Result<String, FastLanesError>, wanted: &str) -> bool {
    match made {
        Ok(text) => text.as_str() == wanted,
        Err(_) => false,
    }
}

#[test]
fn data_are_printed(rt: HostRuntime) {
    let alloc = rt.alloc();
    assert!(rt; is_text(packed_text(alloc), "bit_width: 3, offset: 0"));
    assert!(rt; is_text(for_text(alloc), "global_reference: -5i32, offset: 0"));
}

/// Whether two delta arrays keep the same: `==` is true exactly there.
fn are_equal_deltas(a: &DeltaData, b: &DeltaData) -> bool
    ensures { IsTrue result ↔ (a.now ≡ b.now) }
{
    a == b
}

/// The same of run-length encoded arrays.
fn are_equal_runs(a: &RLEData, b: &RLEData) -> bool
    ensures { IsTrue result ↔ (a.now ≡ b.now) }
{
    a == b
}

/// The same of FoR arrays.
fn are_equal_references(a: &FoRData, b: &FoRData) -> bool
    ensures { IsTrue result ↔ (a.now ≡ b.now) }
{
    a == b
}

/// The same of bit-packed arrays.
fn are_equal_blocks(a: &BitPackedData, b: &BitPackedData) -> bool
    ensures { IsTrue result ↔ (a.now ≡ b.now) }
{
    a == b
}

/// How many keys two equal data and a third one are.
fn keys(alloc: Global) -> Result<usize, FastLanesError> {
    let mut offsets: HashMap<DeltaData, u8> = HashMap::new(alloc);
    for offset in [7, 8, 7] {
        offsets.insert(DeltaData::try_new(offset)?, 0)?;
    }
    Ok(offsets.len())
}

/// The same of run-length encoded arrays.
fn run_keys(alloc: Global) -> Result<usize, FastLanesError> {
    let mut offsets: HashMap<RLEData, u8> = HashMap::new(alloc);
    for offset in [7, 8, 7] {
        offsets.insert(RLEData::try_new(offset)?, 0)?;
    }
    Ok(offsets.len())
}

/// The same of FoR arrays, by their references.
fn for_keys(alloc: Global) -> Result<usize, FastLanesError> {
    let mut references: HashMap<FoRData, u8> = HashMap::new(alloc);
    for reference in [7, 8, 7] {
        let array = FoR::encode(alloc, &column(alloc, &[reference])?)?;
        references.insert(FoRArrayExt::data(&array), 0)?;
    }
    Ok(references.len())
}

/// The same of bit-packed arrays, by their widths.
fn packed_keys(alloc: Global) -> Result<usize, FastLanesError> {
    let mut widths: HashMap<BitPackedData, u8> = HashMap::new(alloc);
    for width in [7, 8, 7] {
        let array = bitpack_encode(alloc, &column(alloc, &[5])?, width, None)?;
        widths.insert(BitPackedArrayExt::data(&array)?, 0)?;
    }
    Ok(widths.len())
}

/// Whether data at these offsets are equal, of a delta array and of a run-length encoded one.
fn equal_at(a: usize, b: usize) -> Result<(bool, bool), FastLanesError> {
    let deltas = are_equal_deltas(&DeltaData::try_new(a)?, &DeltaData::try_new(b)?);
    let runs = are_equal_runs(&RLEData::try_new(a)?, &RLEData::try_new(b)?);
    Ok((deltas, runs))
}

/// Whether the data of two arrays of one item are equal, of FoR arrays and of bit-packed ones of width 7.
fn equal_of(alloc: Global, a: i32, b: i32) -> Result<(bool, bool), FastLanesError> {
    let (a, b) = (column(alloc, &[a])?, column(alloc, &[b])?);
    let (less, other) = (FoR::encode(alloc, &a)?, FoR::encode(alloc, &b)?);
    let references = are_equal_references(&FoRArrayExt::data(&less), &FoRArrayExt::data(&other));
    let (packed, second) = (
        bitpack_encode(alloc, &a, 7, None)?,
        bitpack_encode(alloc, &b, 7, None)?,
    );
    let blocks = are_equal_blocks(
        &BitPackedArrayExt::data(&packed)?,
        &BitPackedArrayExt::data(&second)?,
    );
    Ok((references, blocks))
}

#[test]
fn data_are_equal_by_their_fields(rt: HostRuntime) {
    let alloc = rt.alloc();
    assert!(rt; equal_at(7, 7) == Ok((true, true)));
    assert!(rt; equal_at(7, 8) == Ok((false, false)));
    assert!(rt; equal_of(alloc, 5, 5) == Ok((true, true)));
    assert!(rt; equal_of(alloc, 5, 6) == Ok((false, false)));
}

#[test]
fn equal_data_are_one_key(rt: HostRuntime) {
    let alloc = rt.alloc();
    assert!(rt; keys(alloc) == Ok(2));
    assert!(rt; run_keys(alloc) == Ok(2));
    assert!(rt; for_keys(alloc) == Ok(2));
    assert!(rt; packed_keys(alloc) == Ok(2));
}
