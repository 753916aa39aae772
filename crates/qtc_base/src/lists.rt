ghost use Rattle.std.specs.Prelude.{◌≡◌, [], ◌∷◌, ◌++◌, ◌↔◌, IsTrue, OnOk, OnErr, IfErr, length};

use std::alloc::Global;
use std::marker::Model;

/// A growing list. Contracts see the list of its values.
#[derive(Drop)]
pub struct List<V> {
    values: Vec<V>,
}

impl<V> Model for List<V> {
    ghost use Rattle.std.specs.Prelude.{List as PlainList};

    ghost Value = { PlainList V };

    ghost view = { λ s. s.values.items };
}

impl<V> List<V> {
    /// The empty list, which takes no memory yet.
    pub fn new(alloc: Global) -> List<V>
        ensures { result ≡ [] }
    {
        List {
            values: Vec::new(alloc),
        }
    }

    /// Appends a value. Err is want of memory, and hands the value back.
    pub fn push(&mut self, v: V) -> Result<(), V>
        ensures ok { OnOk result (self.new ≡ self.old ++ v ∷ []) }
        ensures err { OnErr result (self.new ≡ self.old) }
        ensures value_returned { IfErr result (λ back. back ≡ v) }
    {
        match self.values.push(v) {
            Ok(()) => Ok(()),
            Err(refused) => Err(refused.value),
        }
    }

    pub fn as_slice(&self) -> &[V]
        ensures { result.now ≡ self.now }
    {
        self.values.as_slice()
    }

    /// The number of values.
    pub fn len(&self) -> usize
        ensures { result ≡ length self.now }
    {
        self.values.len()
    }

    pub fn is_empty(&self) -> bool
        ensures { IsTrue result ↔ (self.now ≡ []) }
    {
        self.values.is_empty()
    }

    /// The list of a vector's values, which stay where they are.
    pub fn from_vec(values: Vec<V>) -> List<V>
        ensures { result ≡ values.items }
    {
        List { values }
    }

    /// The vector of the list's values, which stay where they are.
    pub fn into_vec(self) -> Vec<V>
        ensures { result.items ≡ self }
    {
        self.values
    }
}

#[cfg(test)]
mod tests {
    use super::*;
    use std::test::Fail;

    #[test]
    fn values_are_pushed(rt: HostRuntime) -> Result<(), Fail> {
        let mut list = List::new(rt.alloc());
        assert_eq!(rt; list.push(7), Ok(()));
        assert_eq!(rt; list.push(8), Ok(()));
        assert_eq!(rt; list.as_slice(), [7, 8].as_slice());
        Ok(())
    }
}
