//! Where the bytes of a file come from and go to.

ghost use Rattle.std.specs.Prelude.{◌≡◌, ◌+◌, ◌<◌, ◌≤◌, ◌∷◌, [], ℕ, Bool, false, true, List, Option, None, Some, IfOk, IfSome, OnErr, OnOk, length};
ghost use Rattle.fl_file.specs.Ends.{GrowsBy, GrowsByFront, LogGrowsBy, Place, StandsAt};

/// A read failed, or the bytes end before it does.
#[derive(Clone, Copy, Debug, PartialEq, Eq)]
pub struct ReadFault;

/// A write failed.
#[derive(Clone, Copy, Debug, PartialEq, Eq)]
pub struct WriteFault;

/// Bytes that are read at any place, as those of a file.
pub trait ReadAt {
    /// The bytes, where they are known.
    ghost contents: { Self → Option (List ℕ) };

    /// Whether a call may answer a fault although the bytes are there.
    ghost can_fail: { Self → Bool };

    /// The reads so far, where they are logged.
    ghost reads: { Self → Option (List Place) };

    /// The number of bytes.
    fn len(&self) -> Result<u64, ReadFault>
        ensures len { IfOk result (λ n. IfSome (contents self.now) (λ bytes. length bytes ≡ n)) }
        ensures fault { OnErr result (can_fail self.now ≡ true) };

    /// Fills a buffer with the bytes from a place on.
    fn read_at(&mut self, offset: u64, room: &mut [u8]) -> Result<(), ReadFault>
        ensures read { OnOk result (IfSome (contents self.old) (λ bytes. StandsAt room.new offset bytes)) }
        ensures fault { OnErr result (IfSome (contents self.old) (λ bytes. offset + length room.old ≤ length bytes → can_fail self.old ≡ true)) }
        ensures contents { contents self.new ≡ contents self.old }
        ensures can_fail { can_fail self.new ≡ can_fail self.old }
        ensures reads { LogGrowsBy (reads self.old) (reads self.new) ((offset, length room.old) ∷ []) };
}

/// What takes bytes at its end, as a file that is written.
pub trait Append {
    /// The bytes that it holds, where they are known.
    ghost written: { Self → Option (List ℕ) };

    /// Whether a call may answer a fault.
    ghost can_fail: { Self → Bool };

    /// Adds bytes. After a fault it may hold any beginning of them.
    fn write_all(&mut self, bytes: &[u8]) -> Result<(), WriteFault>
        ensures ok { OnOk result (GrowsBy (written self.old) (written self.new) bytes.now) }
        ensures err { OnErr result (GrowsByFront (written self.old) (written self.new) bytes.now) }
        ensures fault { OnErr result (can_fail self.old ≡ true) }
        ensures can_fail { can_fail self.new ≡ can_fail self.old };
}

/// Fills a buffer with the bytes of a slice from a place on.
fn read_slice(bytes: &[u8], offset: u64, room: &mut [u8]) -> Result<(), ReadFault>
    ensures read { OnOk result (StandsAt room.new offset bytes.now) }
    ensures fault { OnErr result (length bytes.now < offset + length room.old) }
{
    let offset = offset as usize;
    if offset > bytes.len() || room.len() > bytes.len() - offset {
        return Err(ReadFault);
    }
    room.copy_from_slice(&bytes[offset..offset + room.len()]);
    Ok(())
}

/// Bytes in memory. A read fails only beyond their end.
impl ReadAt for &[u8] {
    ghost contents = { λ s. Some s.now };

    ghost can_fail = { λ s. false };

    ghost reads = { λ s. None };

    fn len(&self) -> Result<u64, ReadFault> {
        Ok((**self).len() as u64)
    }

    fn read_at(&mut self, offset: u64, room: &mut [u8]) -> Result<(), ReadFault> {
        read_slice(self, offset, room)
    }
}

/// Bytes in memory. A read fails only beyond their end.
impl ReadAt for Vec<u8> {
    ghost contents = { λ s. Some s.items };

    ghost can_fail = { λ s. false };

    ghost reads = { λ s. None };

    fn len(&self) -> Result<u64, ReadFault> {
        Ok(self.as_slice().len() as u64)
    }

    fn read_at(&mut self, offset: u64, room: &mut [u8]) -> Result<(), ReadFault> {
        read_slice(self, offset, room)
    }
}

/// Bytes in memory. A write fails where a growth of memory is refused.
impl Append for Vec<u8> {
    ghost written = { λ s. Some s.items };

    ghost can_fail = { λ s. true };

    fn write_all(&mut self, bytes: &[u8]) -> Result<(), WriteFault> {
        match self.extend_from_slice(bytes) {
            Ok(()) => Ok(()),
            Err(_) => Err(WriteFault),
        }
    }
}
