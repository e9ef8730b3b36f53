//! A column that is packed step by step, and read back.

use std::alloc::Global;
use vortex_fastlanes::bitpack_compress::*;
use vortex_fastlanes::unpack_iter::*;
use vortex_fastlanes::*;

/// Packs numbers at their best width, with patches for those that have more bits, and reads them back.
fn packed_and_back(alloc: Global, numbers: Vec<u32>) -> Result<Vec<u32>, FastLanesError> {
    let array = PrimitiveArray::new(numbers, Validity::NonNullable)?;
    let histogram = bit_width_histogram(alloc, &array)?;
    let width = find_best_bit_width(PType::U32, &histogram)?;
    let packed = bitpack_unchecked(alloc, &array, width)?;
    let patches = gather_patches(alloc, &array, width, 0)?;

    let (by, width, len) = (BitPackingStrategy, width as usize, array.len());
    let mut block = [0; FL_CHUNK_SIZE];
    let mut chunks = UnpackedChunks::try_new_with_strategy(by, &packed, width, 0, len, &mut block)?;
    let mut back = vec![in alloc; 0u32; len]?;
    chunks.decode_into(&mut back);
    if let Some(patches) = patches {
        for i in 0..back.len() {
            if let Some(PValue::U32(value)) = patches.get_patched(i) {
                back[i] = value;
            }
        }
    }
    Ok(back)
}

/// Two blocks and a half of numbers below 16, with a larger one here and there.
fn numbers(alloc: Global) -> Result<Vec<u32>, FastLanesError> {
    let mut numbers = Vec::with_capacity(alloc, 2500)?;
    for i in 0..2500u32 {
        numbers.push(if i % 500 == 7 { 1_000_000 + i } else { i % 16 })?;
    }
    Ok(numbers)
}

#[test]
fn numbers_come_back(rt: HostRuntime) {
    let alloc = rt.alloc();
    let held = match (numbers(alloc), numbers(alloc)) {
        (Ok(wanted), Ok(packed)) => packed_and_back(alloc, packed) == Ok(wanted),
        _ => false,
    };
    assert!(rt; held);
}
