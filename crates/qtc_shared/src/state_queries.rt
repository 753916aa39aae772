//! Looks at the flags of a shared future: one load each, without the lock.
ghost use Rattle.std.specs.Prelude.{◌≡◌};
ghost use Rattle.qtc_events.specs.Flags.{flags_in};
ghost use Rattle.qtc_shared.specs.Passes.{IsLook, Sees};

use crate::{Pass, SharedFuture};
use qtc_base::Value;
use qtc_events::Flags;

impl<V: Value> SharedFuture<V> {
    /// The flags, by one load.
    pub fn state(&self, pass: &mut Pass<V>) -> Flags
        requires { pass.old.of ≡ self.now }
        ensures { IsLook pass.old pass.new (flags_in result.bits) }
    {
        self.locked.word.look(&mut pass.seat)
    }

    /// Whether Canceled stands, by one load.
    pub fn is_canceled(&self, pass: &mut Pass<V>) -> bool
        requires { pass.old.of ≡ self.now }
        ensures { Sees pass.old pass.new (λ flags. result ≡ flags.canceled) }
    {
        self.state(pass).is_canceled()
    }

    /// Whether Finished stands, by one load.
    pub fn is_finished(&self, pass: &mut Pass<V>) -> bool
        requires { pass.old.of ≡ self.now }
        ensures { Sees pass.old pass.new (λ flags. result ≡ flags.finished) }
    {
        self.state(pass).is_finished()
    }
}
