ghost use Rattle.std.specs.Prelude.{◌≡◌};
ghost use Rattle.qtc_events.specs.Flags.{flags_in};
ghost use Rattle.qtc_events.specs.Calls.{after};
ghost use Rattle.qtc_events.specs.Journal.{flags_after_all};

use crate::{Call, Entry, Flags, Reached};

/// The flags after an effective call and the threshold that it reached.
pub fn flags_after(flags: Flags, call: &Call, reached: Reached) -> Flags
    ensures { flags_in result.bits ≡ after (flags_in flags.bits) call.now reached }
{
    let after = call.flags_after(flags);
    match reached {
        Reached::Nothing => after,
        Reached::Suspend => Call::Suspend.flags_after(after),
        Reached::Cancel => Call::Cancel.flags_after(after),
    }
}

/// The flags that a journal of effective calls leaves, from a new future's on.
pub fn flags_of(journal: &[Entry]) -> Flags
    ensures { flags_in result.bits ≡ flags_after_all journal.now }
{
    let mut flags = Flags::new();
    for entry in journal {
        flags = flags_after(flags, &entry.call, entry.reached);
    }
    flags
}
