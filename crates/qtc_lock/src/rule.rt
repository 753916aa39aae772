//! The rule of a lock's table, and what the steps on it tell.
ghost use Rattle.std.specs.Prelude.{Bool};
ghost use Rattle.std.specs.Borrow.{ftrue};

use crate::key::{GhostKey, Keyed};
use atomic_table::{Play, TableRule};
use std::marker::{Model, PhantomData};

/// What a seat at the table knows. No value of it is made.
pub struct View<K> {
    marker: PhantomData<K>,
    pub ghost key: { K },
    pub ghost holding: { Bool },
}

impl<K> Model for View<K> {
    ghost also_owns = { λ _. ftrue };
}

pub struct LockRule<S> {
    marker: PhantomData<S>,
}

impl<S: Keyed> TableRule<Option<S>, View<S::Key>, GhostKey<S::Key>> for LockRule<S> {
    ghost use Rattle.qtc_lock.specs.Rule.{IsKept, idle};

    ghost holds = { λ about. IsKept S.fits about.key };

    ghost first = { λ about. idle about.key };
}

/// Swaps 1 in, and takes the value where the word was 0.
pub struct Try;

impl<S: Keyed> Play<Option<S>, View<S::Key>> for Try {
    ghost use Rattle.qtc_lock.specs.Rule.{Tries};

    ghost then = { λ _. Tries S.fits };
}

/// Stores 0, with a value back in its place.
pub struct Put;

impl<S, K> Play<Option<S>, View<K>> for Put {
    ghost use Rattle.qtc_lock.specs.Rule.{Puts};

    ghost then = { λ _. Puts };
}
