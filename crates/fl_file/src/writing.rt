//! Writing the foot of a file.

ghost use Rattle.std.specs.Prelude.{◌≡◌, ◌++◌, ◌∷◌, [], IfOk, OnOk, flat_map};
ghost use Rattle.std.specs.Int.{to_le_bytes, w64};
ghost use Rattle.fl_types.specs.Integers.{code_of};
ghost use Rattle.fl_file.specs.Foot.{bit_word, body_bytes, end_bytes, entry_bytes, foot_bytes, foot_parts, greatest_of, integer_bytes, least_of, type_word, word_bytes};

use crate::checksum::crc32c;
use crate::foot::{ChunkEntry, Foot};
use crate::statistics::Extremes;
use fl_column::{Nullability, PType};
use std::alloc::{AllocError, Global};

/// The bytes of a foot, which stand at the end of the file.
///
/// # Errors
/// Where a growth of memory is refused.
pub fn write_foot(alloc: Global, foot: &Foot) -> Result<Vec<u8>, AllocError>
    ensures { IfOk result (λ v. v.items ≡ foot_bytes (foot_parts foot.now)) }
{
    let mut out = Vec::new(alloc);
    push_body(&mut out, foot)?;
    push_end(&mut out)?;
    Ok(out)
}

/// Adds what stands behind a body, which is all that is there.
fn push_end(out: &mut Vec<u8>) -> Result<(), AllocError>
    ensures { OnOk result (out.new.items ≡ out.old.items ++ end_bytes out.old.items) }
{
    let checksum = u64::from(crc32c(out));
    let len = out.len() as u64 + 8;
    push_words(out, &[checksum, len])?;
    out.extend_from_slice(b"FLC2")?;
    Ok(())
}

/// Adds what the checksum of a foot covers.
fn push_body(out: &mut Vec<u8>, foot: &Foot) -> Result<(), AllocError>
    ensures { OnOk result (out.new.items ≡ out.old.items ++ body_bytes (foot_parts foot.now)) }
{
    push_words(out, &[type_word(foot.ptype, foot.nullability)])?;
    push_entries(out, &foot.chunks)
}

/// Adds the entries of chunks.
#[tactic(auto, using(crate::proofs::FootSteps::next_part))]
fn push_entries(out: &mut Vec<u8>, entries: &[ChunkEntry]) -> Result<(), AllocError>
    ensures { OnOk result (out.new.items ≡ out.old.items ++ flat_map entry_bytes entries.now) }
{
    for entry in entries {
        push_entry(out, entry)?;
    }
    Ok(())
}

/// Adds the entry of a chunk.
fn push_entry(out: &mut Vec<u8>, entry: &ChunkEntry) -> Result<(), AllocError>
    ensures { OnOk result (out.new.items ≡ out.old.items ++ entry_bytes entry.now) }
{
    let statistics = &entry.statistics;
    push_words(
        out,
        &[
            entry.offset,
            entry.size,
            u64::from(entry.checksum),
            statistics.len,
            statistics.null_count,
            bit_word(statistics.is_sorted),
        ],
    )?;
    push_integer(out, least_of(statistics.extremes))?;
    push_integer(out, greatest_of(statistics.extremes))?;
    push_integer(out, statistics.sum)
}

/// The least item; 0 where no item is valid.
fn least_of(extremes: Option<Extremes>) -> i128
    ensures { result ≡ least_of extremes }
{
    match extremes {
        Some(extremes) => extremes.least,
        None => 0,
    }
}

/// The greatest item; 0 where no item is valid.
fn greatest_of(extremes: Option<Extremes>) -> i128
    ensures { result ≡ greatest_of extremes }
{
    match extremes {
        Some(extremes) => extremes.greatest,
        None => 0,
    }
}

/// Adds an integer.
fn push_integer(out: &mut Vec<u8>, integer: i128) -> Result<(), AllocError>
    ensures { OnOk result (out.new.items ≡ out.old.items ++ integer_bytes integer) }
{
    let bits = integer.cast_unsigned();
    push_words(out, &[(bits % (1 << 64)) as u64, (bits >> 64) as u64])
}

/// Adds words.
fn push_words(out: &mut Vec<u8>, words: &[u64]) -> Result<(), AllocError>
    ensures { OnOk result (out.new.items ≡ out.old.items ++ word_bytes words.now) }
{
    for word in words {
        push_word(out, *word)?;
    }
    Ok(())
}

/// Adds a word.
fn push_word(out: &mut Vec<u8>, word: u64) -> Result<(), AllocError>
    ensures { OnOk result (out.new.items ≡ out.old.items ++ to_le_bytes w64 word) }
{
    out.extend_from_slice(&word.to_le_bytes())?;
    Ok(())
}

/// The word of a truth value.
fn bit_word(bit: bool) -> u64
    ensures { result ≡ bit_word bit }
{
    if bit { 1 } else { 0 }
}

/// The word of a type.
fn type_word(ptype: PType, nullability: Nullability) -> u64
    ensures { result ≡ type_word ptype nullability }
{
    let number = type_number(ptype);
    match nullability {
        Nullability::NonNullable => number,
        Nullability::Nullable => number + 16,
    }
}

/// The number of a type.
fn type_number(ptype: PType) -> u64
    ensures { result ≡ code_of ptype }
{
    match ptype {
        PType::U8 => 0,
        PType::U16 => 1,
        PType::U32 => 2,
        PType::U64 => 3,
        PType::I8 => 4,
        PType::I16 => 5,
        PType::I32 => 6,
        PType::I64 => 7,
    }
}
