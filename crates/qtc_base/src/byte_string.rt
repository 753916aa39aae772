ghost use Rattle.std.specs.Prelude.{◌≡◌, List, ℕ, [], ◌++◌, IfOk, OnOk, OnErr, ◌↔◌, IsTrue, length, take};

use crate::NoMemory;
use std::alloc::Global;
use std::marker::Model;

/// An owned byte string, as a text, a name or a value. Contracts see the list of its bytes.
#[derive(Drop)]
pub struct Bytes {
    bytes: Vec<u8>,
}

impl Model for Bytes {
    ghost use Rattle.std.specs.Prelude.{List, ℕ};

    ghost Value = { List ℕ };

    ghost view = { λ s. s.bytes.items };
}

impl Bytes {
    /// The empty byte string, which takes no memory yet.
    pub fn new(alloc: Global) -> Bytes
        ensures { result ≡ [] }
    {
        Bytes {
            bytes: Vec::new(alloc),
        }
    }

    /// The empty byte string, with room for `capacity` bytes. Err is want of memory.
    pub fn with_capacity(alloc: Global, capacity: usize) -> Result<Bytes, NoMemory>
        ensures { IfOk result (λ bytes. bytes ≡ []) }
    {
        let bytes = Vec::with_capacity(alloc, capacity)?;
        Ok(Bytes { bytes })
    }

    /// The byte string of a vector's bytes, which stay where they are.
    pub fn from_vec(bytes: Vec<u8>) -> Bytes
        ensures { result ≡ bytes.items }
    {
        Bytes { bytes }
    }

    /// The vector of the bytes, which stay where they are.
    pub fn into_vec(self) -> Vec<u8>
        ensures { result.items ≡ self }
    {
        self.bytes
    }

    /// A copy of `s`. Err is want of memory.
    pub fn from_slice(alloc: Global, s: &[u8]) -> Result<Bytes, NoMemory>
        ensures { IfOk result (λ bytes. bytes ≡ s.now) }
    {
        let bytes = Vec::from_slice(alloc, s)?;
        Ok(Bytes { bytes })
    }

    /// Appends a copy of `s`. Err is want of memory.
    pub fn append(&mut self, s: &[u8]) -> Result<(), NoMemory>
        ensures ok { OnOk result (self.new ≡ self.old ++ s.now) }
        ensures err { OnErr result (self.new ≡ self.old) }
    {
        self.bytes.extend_from_slice(s)?;
        Ok(())
    }

    pub fn as_slice(&self) -> &[u8]
        ensures { result.now ≡ self.now }
    {
        self.bytes.as_slice()
    }

    /// Keeps the first `len` bytes, or all where there are fewer.
    pub fn truncate(&mut self, len: usize)
        ensures { self.new ≡ take len self.old }
    {
        self.bytes.truncate(len);
    }

    /// The number of bytes.
    pub fn len(&self) -> usize
        ensures { result ≡ length self.now }
    {
        self.bytes.len()
    }

    pub fn is_empty(&self) -> bool
        ensures { IsTrue result ↔ (self.now ≡ []) }
    {
        self.bytes.is_empty()
    }

    /// A copy on the allocator that these bytes keep. Err is want of memory.
    pub fn duplicate(&self) -> Result<Bytes, NoMemory>
        ensures { IfOk result (λ bytes. bytes ≡ self.now) }
    {
        let alloc = *self.bytes.allocator();
        let bytes = Vec::from_slice(alloc, self.bytes.as_slice())?;
        Ok(Bytes { bytes })
    }
}

#[cfg(test)]
mod tests {
    use super::*;
    use std::test::Fail;

    #[test]
    fn bytes_are_appended_and_cut(rt: HostRuntime) -> Result<(), Fail> {
        let mut text = Bytes::with_capacity(rt.alloc(), 4)?;
        assert!(rt; text.is_empty());
        text.append(b"abc")?;
        text.append(b"de")?;
        assert_eq!(rt; text.len(), 5);
        text.truncate(4);
        let text = Bytes::from_vec(text.into_vec());
        assert_eq!(rt; text.as_slice(), b"abcd".as_slice());
        Ok(())
    }
}
