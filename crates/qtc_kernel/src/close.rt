//! How an engine is taken apart.
ghost use Rattle.std.specs.Prelude.{◌≡◌, IsTrue};
ghost use Rattle.qtc_shared.specs.Journals.{flags_at};
ghost use Rattle.qtc_shared.specs.Parts.{future_at};
ghost use Rattle.qtc_shared.specs.Passes.{Meets};

use crate::Engine;
use qtc_base::Bytes;
use qtc_future::FutureCore;
use qtc_ops::{Fold, ItemFn};
use qtc_outside::Gate;
use qtc_shared::{Pass, known_is_kept};
use std::sync::Wait;

impl<'a, F: ItemFn, R: Fold, G: Gate> Engine<'a, F, R, G> {
    /// Ends the engine, and gives the core of its future. Where the pass knows that the future is finished, the core's
    /// calls are those that it knows.
    pub fn close<W: Wait>(self, rt: &W, pass: Pass<Bytes>) -> FutureCore<Bytes>
        requires { pass.of ≡ self.future }
        ensures core { result ≡ future_at self.entry.future.terms result.calls }
        ensures met { Meets pass result.calls }
        ensures whole { IsTrue (flags_at pass.known).finished → result.calls ≡ pass.known }
    {
        known_is_kept::<Bytes>();
        let Engine {
            alloc: _,
            kind: _,
            items: _,
            job: _,
            gate: _,
            workers: _,
            sizes: _,
            ordered: _,
            fold: _,
            counter: _,
            future,
            board: _,
            active: _,
        } = self;
        future.close(rt, pass)
    }
}
