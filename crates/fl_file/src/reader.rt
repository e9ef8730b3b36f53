//! Reading a file of chunks.

ghost use Rattle.std.specs.Prelude.{◌≡◌, ◌+◌, ◌*◌, ◌<◌, ◌≤◌, ◌^◌, ◌∷◌, [], ℕ, Bool, List, Result, Ok, Some, IfOk, OnErr, OnOk, length, slice_get, take, drop, vec_len};
ghost use Rattle.fl_file.specs.declared.foot.ChunkEntry.{ChunkEntry};
ghost use Rattle.fl_file.specs.declared.error.FileError.{FileError};
ghost use Rattle.fl_file.specs.Foot.{FootParts, foot_parts};
ghost use Rattle.fl_file.specs.FileReading.{GivesFrom, IsFoundFrom, IsReaderOf, RefusesFrom, begun, chunk_of, foot_before, foot_of_file, foot_of_reader, last_foot, last_foot_of_file, place_of, reads_of_source, source_can_fail};
ghost use Rattle.fl_file.specs.Ends.{LogGrowsBy, LogGrowsByFront};

use crate::checksum::crc32c;
use crate::ends::ReadAt;
use crate::error::FileError;
use crate::foot::{ChunkEntry, Foot};
use crate::reading::{foot_with_len, len_at_end};
use fl_column::{Nullability, PType};
use std::alloc::{AllocError, Global};

/// Reads a file of chunks: its foot when it is opened, and then each chunk by itself.
#[derive(Drop)]
pub struct Reader<R> {
    source: R,
    foot: Foot,
}

impl<R: ReadAt + Drop> Reader<R> {
    /// Opens a file. Of its bytes the first 4, the last 28 and then those of the foot are read.
    ///
    /// # Errors
    /// `TooShort` where the file has fewer than 28 bytes, `BadMark` where it does not begin with `FLC2`, and then those of `read_foot`.
    /// `ReadFault` where a read fails, and `OutOfMemory` where a growth of memory is refused, at any time.
    pub fn open(alloc: Global, mut source: R) -> Result<Reader<R>, FileError>
        ensures foot { (bytes : List ℕ) → R.contents source ≡ Some bytes → GivesFrom (R.can_fail source) foot_of_reader result (foot_of_file bytes) }
        ensures reader { (bytes : List ℕ) → R.contents source ≡ Some bytes → IfOk result (λ r. IsReaderOf R.contents r bytes) }
    {
        let len = begun(&mut source)?;
        let foot = foot_before(alloc, &mut source, len)?;
        Ok(Reader { source, foot })
    }

    /// Opens a file whose end is lost, as after a write that failed: by the foot of its longest beginning that has one and ends at a
    /// multiple of 64 bytes. Each multiple is looked at, from the last one down.
    ///
    /// # Errors
    /// `TooShort` where the file has fewer than 28 bytes, `BadMark` where it does not begin with `FLC2`, or no such beginning has a
    /// foot. `ReadFault` where a read fails, and `OutOfMemory` where a growth of memory is refused, at any time.
    pub fn recover(alloc: Global, mut source: R) -> Result<Reader<R>, FileError>
        ensures foot { (bytes : List ℕ) → R.contents source ≡ Some bytes → GivesFrom (R.can_fail source) foot_of_reader result (last_foot_of_file bytes) }
        ensures reader { (bytes : List ℕ) → R.contents source ≡ Some bytes → IfOk result (λ r. IsReaderOf R.contents r bytes) }
    {
        let len = begun(&mut source)?;
        let foot = last_foot(alloc, &mut source, len / 64)?;
        Ok(Reader { source, foot })
    }

    /// The foot, with which a `Writer` goes on.
    pub fn into_foot(self) -> Foot
        ensures { foot_parts result ≡ foot_of_reader self }
    {
        let Reader { source: _, foot } = self;
        foot
    }

    /// The type of the items.
    pub fn ptype(&self) -> PType
        ensures { result ≡ (foot_of_reader self.now).ptype }
    {
        self.foot.ptype
    }

    /// Whether items may be null.
    pub fn nullability(&self) -> Nullability
        ensures { result ≡ (foot_of_reader self.now).nullability }
    {
        self.foot.nullability
    }

    /// What the foot says of each chunk.
    pub fn chunks(&self) -> &[ChunkEntry]
        ensures { result.now ≡ (foot_of_reader self.now).chunks }
    {
        &self.foot.chunks
    }

    /// The bytes of chunk `k`, and no others are read.
    ///
    /// # Errors
    /// `BadChunk` where they are not those that its checksum is of. `ReadFault` where a read fails, `OutOfMemory` where a growth of
    /// memory is refused.
    pub fn chunk(&mut self, alloc: Global, k: usize) -> Result<Vec<u8>, FileError>
        requires range { k < length (foot_of_reader self.old).chunks }
        ensures chunk { (bytes : List ℕ) (e : ChunkEntry) → IsReaderOf R.contents self.old bytes → slice_get (foot_of_reader self.old).chunks k ≡ Some e → GivesFrom (source_can_fail R.can_fail self.old) (λ v. v.items) result (chunk_of bytes e) }
        ensures reader { (bytes : List ℕ) → IsReaderOf R.contents self.old bytes → IsReaderOf R.contents self.new bytes }
        ensures same { (bytes : List ℕ) → IsReaderOf R.contents self.new bytes → IsReaderOf R.contents self.old bytes }
        ensures foot { foot_of_reader self.new ≡ foot_of_reader self.old }
        ensures can_fail { source_can_fail R.can_fail self.new ≡ source_can_fail R.can_fail self.old }
        ensures read { (e : ChunkEntry) → slice_get (foot_of_reader self.old).chunks k ≡ Some e → OnOk result (LogGrowsBy (reads_of_source R.reads self.old) (reads_of_source R.reads self.new) (place_of e ∷ [])) }
        ensures unread { (e : ChunkEntry) → slice_get (foot_of_reader self.old).chunks k ≡ Some e → OnErr result (LogGrowsByFront (reads_of_source R.reads self.old) (reads_of_source R.reads self.new) (place_of e ∷ [])) }
    {
        let entry = self.foot.chunks[k];
        let chunk = bytes_at(alloc, &mut self.source, entry.offset, entry.size as usize)?;
        if crc32c(&chunk) == entry.checksum {
            Ok(chunk)
        } else {
            Err(FileError::BadChunk)
        }
    }
}

/// The number of bytes of a file that begins as one of chunks.
fn begun<R: ReadAt>(source: &mut R) -> Result<u64, FileError>
    ensures begun { (bytes : List ℕ) → R.contents source.old ≡ Some bytes → GivesFrom (R.can_fail source.old) (λ n. n) result (begun bytes) }
    ensures range { IfOk result (λ n. 28 ≤ n) }
    ensures contents { R.contents source.new ≡ R.contents source.old }
    ensures can_fail { R.can_fail source.new ≡ R.can_fail source.old }
{
    let len = source.len()?;
    if len < 28 {
        return Err(FileError::TooShort);
    }
    let mut mark = [0u8; 4];
    source.read_at(0, &mut mark)?;
    if mark.as_slice() == b"FLC2".as_slice() {
        Ok(len)
    } else {
        Err(FileError::BadMark)
    }
}

/// The foot at the end of the first bytes of a file.
fn foot_before<R: ReadAt>(alloc: Global, source: &mut R, end: u64) -> Result<Foot, FileError>
    requires { 28 ≤ end }
    ensures foot { (bytes : List ℕ) → R.contents source.old ≡ Some bytes → end ≤ length bytes → GivesFrom (R.can_fail source.old) foot_parts result (foot_before bytes end) }
    ensures contents { R.contents source.new ≡ R.contents source.old }
    ensures can_fail { R.can_fail source.new ≡ R.can_fail source.old }
{
    let mut last = [0u8; 28];
    source.read_at(end - 28, &mut last)?;
    let size = len_at_end(&last, end as usize)?;
    let bytes = bytes_at(alloc, source, end - 12 - size as u64, size + 12)?;
    foot_with_len(alloc, &bytes, end, size)
}

/// The foot of the longest beginning that has one and whose end is at most the `count`-th multiple of 64.
fn last_foot<R: ReadAt>(alloc: Global, source: &mut R, count: u64) -> Result<Foot, FileError>
    requires { 64 * count < 2 ^ 64 }
    ensures foot { (bytes : List ℕ) → R.contents source.old ≡ Some bytes → 64 * count ≤ length bytes → GivesFrom (R.can_fail source.old) foot_parts result (last_foot bytes count) }
    ensures contents { R.contents source.new ≡ R.contents source.old }
    ensures can_fail { R.can_fail source.new ≡ R.can_fail source.old }
{
    for i in 0..count {
        match found_before(alloc, source, 64 * (count - i))? {
            Some(foot) => return Ok(foot),
            None => {}
        }
    }
    Err(FileError::BadMark)
}

/// The foot at the end of the first bytes of a file, if there is one.
fn found_before<R: ReadAt>(
    alloc: Global,
    source: &mut R,
    end: u64,
) -> Result<Option<Foot>, FileError>
    requires { 28 ≤ end }
    ensures foot { (bytes : List ℕ) → R.contents source.old ≡ Some bytes → end ≤ length bytes → IsFoundFrom (R.can_fail source.old) foot_parts result (foot_before bytes end) }
    ensures contents { R.contents source.new ≡ R.contents source.old }
    ensures can_fail { R.can_fail source.new ≡ R.can_fail source.old }
{
    match foot_before(alloc, source, end) {
        Ok(foot) => Ok(Some(foot)),
        Err(error) => unless_refused(error),
    }
}

/// Nothing, where an error says that there is no foot.
fn unless_refused(error: FileError) -> Result<Option<Foot>, FileError>
    ensures { (fails : Bool) (read : Result FootParts FileError) → RefusesFrom fails error read → IsFoundFrom fails foot_parts result read }
{
    match error {
        FileError::OutOfMemory | FileError::ReadFault => Err(error),
        _ => Ok(None),
    }
}

/// So many zeros.
fn zeros(alloc: Global, len: usize) -> Result<Vec<u8>, AllocError>
    ensures { IfOk result (λ v. vec_len v ≡ len) }
{
    vec![in alloc; 0u8; len]
}

/// So many bytes of a file, from a place on.
fn bytes_at<R: ReadAt>(
    alloc: Global,
    source: &mut R,
    offset: u64,
    len: usize,
) -> Result<Vec<u8>, FileError>
    ensures read { (bytes : List ℕ) → R.contents source.old ≡ Some bytes → offset + len ≤ length bytes → GivesFrom (R.can_fail source.old) (λ v. v.items) result (Ok (take len (drop offset bytes))) }
    ensures len { IfOk result (λ v. length v.items ≡ len) }
    ensures contents { R.contents source.new ≡ R.contents source.old }
    ensures can_fail { R.can_fail source.new ≡ R.can_fail source.old }
    ensures reads { OnOk result (LogGrowsBy (R.reads source.old) (R.reads source.new) ((offset, len) ∷ [])) }
    ensures unread { OnErr result (LogGrowsByFront (R.reads source.old) (R.reads source.new) ((offset, len) ∷ [])) }
{
    let mut room = zeros(alloc, len)?;
    source.read_at(offset, &mut room)?;
    Ok(room)
}
