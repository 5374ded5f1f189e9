// A file's bytes in memory.
ghost use Rattle.std.specs.Prelude.{◌≡◌, ◌+◌, ◌≤◌, ◌++◌, length, take, drop};

use disk_model::NoMemory;
use std::alloc::Global;
use std::marker::Model;

/// The bytes of a file, seen as their list.
#[derive(Drop)]
pub struct Bytes {
    bytes: Vec<u8>,
}

impl Model for Bytes {
    ghost use Rattle.std.specs.Prelude.{List, ℕ};

    ghost Value = { List ℕ };

    ghost view = { λ b. b.bytes.items };
}

impl Bytes {
    ghost use Rattle.std.specs.Prelude.{◌≡◌, ◌+◌, ◌-◌, ◌^◌, ◌<◌, ◌≤◌, [], ◌++◌, length, take, replicate, IfOk, OnOk, OnErr};
    ghost use Rattle.disk_model.specs.Bytes.{AreBytes, put, resized, read_from};

    pub fn new(alloc: Global) -> Bytes
        ensures { result ≡ [] }
    {
        Bytes {
            bytes: Vec::new(alloc),
        }
    }

    pub fn from_slice(alloc: Global, bytes: &[u8]) -> Result<Bytes, NoMemory>
        ensures same { IfOk result (λ made. made ≡ bytes.now) }
        ensures bytes { IfOk result AreBytes }
    {
        Ok(Bytes {
            bytes: Vec::from_slice(alloc, bytes)?,
        })
    }

    pub fn of(bytes: Vec<u8>) -> Bytes
        ensures same { result ≡ bytes.items }
        ensures bytes { AreBytes result }
    {
        Bytes { bytes }
    }

    /// Others like these.
    pub fn copy(&self, alloc: Global) -> Result<Bytes, NoMemory>
        ensures { IfOk result (λ made. made ≡ self.now) }
    {
        Bytes::from_slice(alloc, self.bytes.as_slice())
    }

    pub fn as_slice(&self) -> &[u8]
        ensures { result.now ≡ self.now }
    {
        self.bytes.as_slice()
    }

    pub fn len(&self) -> u64
        ensures { result ≡ length self.now }
    {
        self.bytes.len() as u64
    }

    /// How many bytes a read from a place on gives, where there is room for so many.
    pub fn count(&self, at: u64, room: usize) -> u64
        ensures { result ≡ length (read_from self.now at room) }
    {
        let len = self.bytes.len() as u64;
        len.saturating_sub(at).min(room as u64)
    }

    /// Fills a front, as many bytes as there are from a place on.
    pub fn read(&self, at: u64, out: &mut [u8]) -> usize
        ensures bound { result ≤ length out.new }
        ensures found { take result out.new ≡ read_from self.now at (length out.old) }
    {
        let bytes = self.bytes.as_slice();
        let start = bytes.len().min(at as usize);
        let (_, rest) = bytes.split_at(start);
        let count = rest.len().min(out.len());
        out[..count].copy_from_slice(&rest[..count]);
        count
    }
    /// Puts bytes at a place, after zeros where there were fewer. Memory may refuse the room.
    pub fn put(&mut self, at: u64, bytes: &[u8]) -> Result<(), NoMemory>
        requires { at + length bytes.now < 2 ^ 64 }
        ensures ok { OnOk result (self.new ≡ put self.old at bytes.now) }
        ensures err { OnErr result (self.new ≡ self.old) }
        ensures full { OnErr result (length self.old < at + length bytes.now) }
    {
        let start = at as usize;
        self.reach(start + bytes.len())?;
        write_over(self.bytes.as_mut_slice(), start, bytes);
        Ok(())
    }

    // Adds zeros up to a length. Memory may refuse the room.
    fn reach(&mut self, len: usize) -> Result<(), NoMemory>
        ensures ok { OnOk result (self.new ≡ self.old ++ replicate (len - length self.old) 0) }
        ensures err { OnErr result (self.new ≡ self.old) }
        ensures full { OnErr result (length self.old < len) }
    {
        if self.bytes.len() < len {
            self.bytes.resize(len, 0)?;
        }
        Ok(())
    }

    /// Cuts, or extends with zeros. Memory may refuse the room.
    pub fn set_len(&mut self, len: u64) -> Result<(), NoMemory>
        ensures ok { OnOk result (self.new ≡ resized self.old len) }
        ensures err { OnErr result (self.new ≡ self.old) }
        ensures full { OnErr result (length self.old < len) }
    {
        let size = len as usize;
        if size <= self.bytes.len() {
            self.bytes.truncate(size);
            return Ok(());
        }
        self.bytes.resize(size, 0)?;
        Ok(())
    }

    /// Memory may refuse the room.
    pub fn append(&mut self, bytes: &[u8]) -> Result<(), NoMemory>
        ensures ok { OnOk result (self.new ≡ self.old ++ bytes.now) }
        ensures err { OnErr result (self.new ≡ self.old) }
        ensures full { OnErr result (0 < length bytes.now) }
    {
        self.bytes.extend_from_slice(bytes)?;
        Ok(())
    }
}

// Writes bytes over those from a place on.
fn write_over(out: &mut [u8], start: usize, bytes: &[u8])
    requires { start + length bytes.now ≤ length out.old }
    ensures { out.new ≡ take start out.old ++ (bytes.now ++ drop (start + length bytes.now) out.old) }
{
    out[start..start + bytes.len()].copy_from_slice(bytes);
}
