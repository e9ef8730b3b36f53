//! Writing a file of chunks.

ghost use Rattle.std.specs.Prelude.{◌≡◌, ◌↔◌, ◌⊎◌, ◌+◌, ◌<◌, ◌≤◌, ◌^◌, ℕ, List, [], true, Err, None, Some, IfErr, IfOk, IfSome, IsErrOf, OnErr, OnOk, length, nat_lt, replicate, if◌then◌else◌};
ghost use Rattle.fl_file.specs.declared.error.FileError.TheVariants as errors;
ghost use Rattle.fl_file.specs.Ends.{GrowsBy, GrowsByFront};
ghost use Rattle.fl_file.specs.Foot.{foot_parts};
ghost use Rattle.fl_file.specs.FootLaws.{StatisticsFit};
ghost use Rattle.fl_file.specs.Files.{FileSoFar, HasFailed, HasWritten, IsLeftBy, SinkCanFail, continued, finished, padded, padding_len, started, type_of_writer, with_chunk};

use crate::checksum::crc32c;
use crate::ends::{Append, WriteFault};
use crate::error::FileError;
use crate::foot::{ChunkEntry, Foot};
use crate::statistics::ChunkStatistics;
use crate::writing::write_foot;
use fl_column::{Nullability, PType};
use std::alloc::Global;

/// What stands between chunks.
const ZEROS: [u8; 64] = [0; 64];

/// Writes a file of chunks to the end of a sink, which holds nothing before it: chunk by chunk, and then its foot.
#[derive(Drop)]
pub struct Writer<S> {
    sink: S,
    ptype: PType,
    nullability: Nullability,
    chunks: Vec<ChunkEntry>,
    place: u64,
    is_broken: bool,
}

impl<S: Append + Drop> Writer<S> {
    /// Begins a file of items of a type.
    ///
    /// # Errors
    /// `WriteFault` where the sink fails.
    pub fn try_new(
        alloc: Global,
        mut sink: S,
        ptype: PType,
        nullability: Nullability,
    ) -> Result<Writer<S>, FileError>
        requires empty { IfSome (S.written sink) (λ bytes. bytes ≡ []) }
        ensures written { IfOk result (λ w. HasWritten S.written w (started ptype nullability)) }
        ensures ptype { IfOk result (λ w. type_of_writer w ≡ ptype) }
        ensures fault { IfErr result (λ e. (e ≡ errors.WriteFault) × (S.can_fail sink ≡ true)) }
    {
        sink.write_all(b"FLC2")?;
        Ok(Writer {
            sink,
            ptype,
            nullability,
            chunks: Vec::new(alloc),
            place: 4,
            is_broken: false,
        })
    }

    /// Goes on with a file of so many bytes, at the end of a sink that holds it: with its foot, or with one that was recovered. Its
    /// bytes stay; further chunks and a new foot are written behind them.
    pub fn resume(sink: S, foot: Foot, len: u64) -> Writer<S>
        ensures written { (bytes : List ℕ) → length bytes ≡ len → IfSome (S.written sink) (λ written. written ≡ bytes) → HasWritten S.written result (continued (foot_parts foot) bytes) }
        ensures ptype { type_of_writer result ≡ foot.ptype }
    {
        let Foot {
            ptype,
            nullability,
            chunks,
        } = foot;
        Writer {
            sink,
            ptype,
            nullability,
            chunks,
            place: len,
            is_broken: false,
        }
    }

    /// The type of the items.
    pub fn ptype(&self) -> PType
        ensures { result ≡ type_of_writer self.now }
    {
        self.ptype
    }

    /// Whether items may be null.
    pub fn nullability(&self) -> Nullability
        ensures { (s : FileSoFar) → HasWritten S.written self.now s → result ≡ s.nullability }
    {
        self.nullability
    }

    /// Adds a chunk, the bytes of a container, at the next multiple of 64 bytes.
    ///
    /// # Errors
    /// `WriteFault` where the sink fails or has failed: then the sink holds some beginning of what was to be added, and no more is
    /// written. Else nothing was changed: `TooLong` where the file would have 2^63 bytes, `OutOfMemory` where a growth of memory is
    /// refused.
    pub fn append(&mut self, chunk: &[u8], statistics: ChunkStatistics) -> Result<(), FileError>
        requires fit { StatisticsFit (type_of_writer self.old) statistics }
        ensures written { (s : FileSoFar) → HasWritten S.written self.old s → OnOk result (HasWritten S.written self.new (with_chunk s (chunk.now, statistics))) }
        ensures left { (s : FileSoFar) → HasWritten S.written self.old s → IfErr result (λ e. IsLeftBy e S.written self.new s (padded (padding_len (length s.bytes)) chunk.now)) }
        ensures too_long { (s : FileSoFar) → HasWritten S.written self.old s → IsErrOf result errors.TooLong ↔ (2 ^ 63 ≤ length (with_chunk s (chunk.now, statistics)).bytes) }
        ensures fault { (s : FileSoFar) → HasWritten S.written self.old s → IsErrOf result errors.WriteFault → SinkCanFail S.can_fail self.old }
        ensures refused { IfErr result (λ e. (e ≡ errors.OutOfMemory) ⊎ (e ≡ errors.TooLong) ⊎ (e ≡ errors.WriteFault)) }
        ensures failed { HasFailed self.old → result ≡ Err errors.WriteFault }
        ensures ptype { type_of_writer self.new ≡ type_of_writer self.old }
    {
        if self.is_broken {
            return Err(FileError::WriteFault);
        }
        let Some(offset) = offset_behind(self.place, chunk.len()) else {
            return Err(FileError::TooLong);
        };
        self.chunks.push(ChunkEntry {
            offset,
            size: chunk.len() as u64,
            checksum: crc32c(chunk),
            statistics,
        })?;
        self.is_broken = true;
        write_padded(&mut self.sink, (offset - self.place) as usize, chunk)?;
        self.place = offset + chunk.len() as u64;
        self.is_broken = false;
        Ok(())
    }

    /// Writes the foot, and gives the sink back, which holds the whole file.
    ///
    /// # Errors
    /// `WriteFault` where the sink fails or has failed, `OutOfMemory` where a growth of memory is refused. The sink then has some
    /// beginning of the foot.
    pub fn finish(self, alloc: Global) -> Result<S, FileError>
        ensures written { (s : FileSoFar) → HasWritten S.written self s → IfOk result (λ sink. IfSome (S.written sink) (λ bytes. bytes ≡ finished s)) }
        ensures refused { IfErr result (λ e. (e ≡ errors.OutOfMemory) ⊎ (e ≡ errors.WriteFault)) }
        ensures fault { (s : FileSoFar) → HasWritten S.written self s → IsErrOf result errors.WriteFault → SinkCanFail S.can_fail self }
        ensures failed { HasFailed self → result ≡ Err errors.WriteFault }
    {
        let Writer {
            mut sink,
            ptype,
            nullability,
            chunks,
            place,
            is_broken,
        } = self;
        if is_broken {
            return Err(FileError::WriteFault);
        }
        let foot = write_foot(
            alloc,
            &Foot {
                ptype,
                nullability,
                chunks,
            },
        )?;
        let bytes = foot.as_slice();
        let gap = gap_behind(place % 64 + (bytes.len() % 64) as u64);
        write_padded(&mut sink, gap, bytes)?;
        Ok(sink)
    }
}

/// How many bytes a place is short of a multiple of 64.
pub fn gap_behind(place: u64) -> usize
    ensures gap { result ≡ padding_len place }
    ensures few { result < 64 }
{
    ((64 - place % 64) % 64) as usize
}

/// Where a chunk begins behind a place; `None` where it would not end below 2^63.
pub fn offset_behind(place: u64, size: usize) -> Option<u64>
    ensures { result ≡ (if nat_lt (place + padding_len place + size) (2 ^ 63) then Some (place + padding_len place) else None) }
{
    if place >= 1 << 63 || size >= 1 << 63 {
        return None;
    }
    let offset = place + gap_behind(place) as u64;
    if offset + (size as u64) < 1 << 63 {
        Some(offset)
    } else {
        None
    }
}

/// Fewer than 64 zeros.
#[tactic(auto, using(crate::proofs::EndLaws::zeros_are))]
fn zeros(len: usize) -> &'static [u8]
    requires { len < 64 }
    ensures { result.now ≡ replicate len 0 }
{
    &ZEROS[..len]
}

/// Writes fewer than 64 zeros, and bytes behind them.
fn write_padded<S: Append>(sink: &mut S, count: usize, bytes: &[u8]) -> Result<(), WriteFault>
    requires { count < 64 }
    ensures ok { OnOk result (GrowsBy (S.written sink.old) (S.written sink.new) (padded count bytes.now)) }
    ensures err { OnErr result (GrowsByFront (S.written sink.old) (S.written sink.new) (padded count bytes.now)) }
    ensures fault { OnErr result (S.can_fail sink.old ≡ true) }
{
    sink.write_all(zeros(count))?;
    sink.write_all(bytes)
}
