//! What a caller of a shared future has in hands.
ghost use Rattle.std.specs.Prelude.{◌≡◌};

use crate::rule::View;
use atomic_table::Seat;
use std::marker::Model;

/// A caller's right to call a shared future, with what the caller knows of it. It belongs to the future that made it.
#[derive(Drop)]
pub struct Pass<V> {
    pub(crate) seat: Seat<(), View<V>>,
    pub(crate) number: u32,
}

impl<V> Model for Pass<V> {
    ghost use Rattle.qtc_shared.specs.Passes.{PassState};

    ghost Value = { PassState V };

    ghost use Rattle.qtc_shared.specs.Inside.{pass_state, IsPass};

    ghost view = { pass_state };

    ghost invariant = { IsPass };
}

/// What is left of a pass that was given back: which pass it was, and what it knew at last. Nobody calls the future by it
/// any more.
#[derive(Drop)]
pub struct EndedPass<V> {
    pass: Pass<V>,
}

impl<V> Model for EndedPass<V> {
    ghost use Rattle.qtc_shared.specs.Passes.{PassState};

    ghost Value = { PassState V };

    ghost view = { λ a. a.pass };
}

impl<V> EndedPass<V> {
    pub(crate) fn of(pass: Pass<V>) -> EndedPass<V>
        ensures { result ≡ pass }
    {
        EndedPass { pass }
    }

    /// Which pass of its future it was.
    pub fn number(&self) -> u32
        ensures { result ≡ self.now.number }
    {
        self.pass.number()
    }
}

impl<V> Pass<V> {
    /// Which pass of its future it is, from 0 on.
    pub fn number(&self) -> u32
        ensures { result ≡ self.now.number }
    {
        self.number
    }
}
