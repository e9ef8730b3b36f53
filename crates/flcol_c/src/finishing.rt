//! What is added to files of chunks for C: bytes behind zeros, and feet.

ghost use Rattle.std.specs.Prelude.{◌≡◌, ◌+◌, ◌<◌, ◌≤◌, ◌++◌, IfOk, Ok, OnErr, drop, length};
ghost use Rattle.fl_file.specs.Files.{padded, padded_foot};
ghost use Rattle.fl_file.specs.Foot.{foot_bytes, foot_parts};
ghost use Rattle.flcol_c.specs.Feet.{IsPutOver, added_fault, finish_fault, foot_said};
ghost use Rattle.flcol_c.specs.Statuses.{Gives, fault_in};

use crate::fault::Fault;
use crate::records::{ChunkRecord, entries_said};
use fl_file::reading::{lie_between, type_of_word};
use fl_file::writer::gap_behind;
use fl_file::{Foot, write_foot};
use fl_types::FastLanesError;
use std::alloc::Global;

/// That so many bytes behind fewer than 64 zeros can be added to a file of `place` bytes.
///
/// # Errors
/// `FileTooLong` where the file would have 2^63 bytes; `WrongLength` where there is no room for them.
fn check_room(place: u64, gap: usize, len: usize, room: usize) -> Result<(), Fault>
    requires { gap < 64 }
    ensures { fault_in result ≡ added_fault place room (gap + len) }
{
    if place >= 1 << 63 || len >= 1 << 63 {
        return Err(Fault::FileTooLong);
    }
    if (gap + len) as u64 >= (1 << 63) - place {
        return Err(Fault::FileTooLong);
    }
    if room < gap + len {
        return Err(Fault::WrongLength);
    }
    Ok(())
}

/// Writes so many zeros and bytes behind them over the first bytes.
fn put_padded(room: &mut [u8], gap: usize, bytes: &[u8])
    requires { gap + length bytes.now ≤ length room.old }
    ensures { room.new ≡ padded gap bytes.now ++ drop (gap + length bytes.now) room.old }
{
    room[..gap].fill(0);
    room[gap..gap + bytes.len()].copy_from_slice(bytes);
}

/// Writes bytes behind fewer than 64 zeros over the first bytes, to be added to a file of `place` bytes, and gives how many
/// these are.
///
/// # Errors
/// `FileTooLong` where the file would have 2^63 bytes; `WrongLength` where there is no room for them.
pub(crate) fn add_padded(
    place: u64,
    gap: usize,
    bytes: &[u8],
    room: &mut [u8],
) -> Result<usize, Fault>
    requires { gap < 64 }
    ensures fault { fault_in result ≡ added_fault place (length room.old) (length (padded gap bytes.now)) }
    ensures put { IfOk result (λ len. IsPutOver room.old room.new len (padded gap bytes.now)) }
    ensures unwritten { OnErr result (room.new ≡ room.old) }
{
    check_room(place, gap, bytes.len(), room.len())?;
    put_padded(room, gap, bytes);
    Ok(gap + bytes.len())
}

/// The foot that the number of a type and records say of a file of `place` bytes.
///
/// # Errors
/// `UnknownType`; `BadField` where a field is out of its range; `BadPlace` where the chunks do not lie in these bytes.
fn foot_said(alloc: Global, dtype: u8, records: &[ChunkRecord], place: u64) -> Result<Foot, Fault>
    ensures { Gives (fault_in (foot_said dtype records.now place)) (λ foot. foot_said dtype records.now place ≡ Ok (foot_parts foot)) result }
{
    let Some((ptype, nullability)) = type_of_word(u64::from(dtype)) else {
        return Err(Fault::Refused(FastLanesError::UnknownType));
    };
    let chunks = entries_said(alloc, ptype, records)?;
    if lie_between(4, place, &chunks) {
        Ok(Foot {
            ptype,
            nullability,
            chunks,
        })
    } else {
        Err(Fault::BadPlace)
    }
}

/// Writes the end of a file of `place` bytes, zeros and a foot, over the first bytes, and gives how many these are.
///
/// # Errors
/// `UnknownType`; `BadField` where a field is out of its range; `BadPlace` where the chunks do not lie in these bytes;
/// `FileTooLong` where the file would have 2^63 bytes; `WrongLength` where there is no room for them.
pub(crate) fn finish(
    alloc: Global,
    dtype: u8,
    records: &[ChunkRecord],
    place: u64,
    room: &mut [u8],
) -> Result<usize, Fault>
    ensures fault { Gives (finish_fault place (length room.old) (foot_said dtype records.now place)) (λ len. IfOk (foot_said dtype records.now place) (λ foot. IsPutOver room.old room.new len (padded_foot place (foot_bytes foot)))) result }
    ensures unwritten { OnErr result (room.new ≡ room.old) }
{
    let foot = foot_said(alloc, dtype, records, place)?;
    let bytes = write_foot(alloc, &foot)?;
    let gap = gap_behind(place % 64 + (bytes.len() % 64) as u64);
    add_padded(place, gap, &bytes, room)
}
