ghost use Rattle.std.specs.Prelude.{◌≡◌, Ok, IfOk};

use crate::{Bytes, NoMemory};

/// What can be stored as a result and handed out more than once.
pub trait Value: Sized + Send {
    /// A value equal to this one. Err is want of memory.
    fn copy(&self) -> Result<Self, NoMemory>
        ensures { IfOk result (λ copy. copy ≡ self.now) };
}

impl Value for u32 {
    fn copy(&self) -> Result<u32, NoMemory>
        ensures { result ≡ Ok self.now }
    {
        Ok(*self)
    }
}

impl Value for u64 {
    fn copy(&self) -> Result<u64, NoMemory>
        ensures { result ≡ Ok self.now }
    {
        Ok(*self)
    }
}

impl Value for Bytes {
    fn copy(&self) -> Result<Bytes, NoMemory> {
        self.duplicate()
    }
}

#[cfg(test)]
mod tests {
    use super::*;
    use std::test::Fail;

    fn copy_of<V: Value>(value: &V) -> Result<V, NoMemory> {
        value.copy()
    }

    #[test]
    fn copies_are_equal(rt: HostRuntime) -> Result<(), Fail> {
        assert_eq!(rt; copy_of(&7u32)?, 7);
        assert_eq!(rt; copy_of(&8u64)?, 8);
        let text = Bytes::from_slice(rt.alloc(), b"text")?;
        assert_eq!(rt; copy_of(&text)?.as_slice(), b"text".as_slice());
        Ok(())
    }
}
