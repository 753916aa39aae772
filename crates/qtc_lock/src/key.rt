//! What a value under a lock is known by.
ghost use Rattle.std.specs.Prelude.{◌≡◌, Bool, true, false};
ghost use Rattle.std.specs.Borrow.{ftrue};

use std::marker::{Brand, Model, PhantomData};

/// A value that a lock may keep.
pub trait Keyed: Sized + Send {
    /// What a key is made of. No key is ever made: contracts alone see one.
    type Key;

    /// That the value is one for the key.
    ghost fits: { Self.Key → Self → Type 0 };
}

/// Names the key of a lock, at the call that makes the lock.
pub trait Names<K> {
    ghost key: { K };

    /// That the maker picked the key. `Brand` says it only of a type with one key: `KeyLock::new` requires it, so a
    /// maker that picks none gets no lock.
    ghost named: { Bool };
}

/// For a lock of whose value nothing is known but its type. It has one key, so there is none to pick.
impl Names<()> for Brand {
    ghost key = { tt };

    ghost named = { true };
}

/// For a lock that is known by one number.
impl Names<u64> for Brand {
    ghost key = { 0 };

    ghost named = { false };
}

/// A key in the proofs alone, as a table is told it. It has no bytes.
pub struct GhostKey<K> {
    marker: PhantomData<K>,
    pub ghost key: { K },
}

impl<K> Model for GhostKey<K> {
    ghost also_owns = { λ _. ftrue };
}

impl<K> GhostKey<K> {
    pub(crate) fn named() -> GhostKey<K>
        ghost key: { K }
        ensures { result.key ≡ key }
    {
        GhostKey {
            marker: PhantomData,
        }
    }
}

impl<K> Drop for GhostKey<K> {
    fn drop(self) {
        let Self { marker: _ } = self;
    }
}
