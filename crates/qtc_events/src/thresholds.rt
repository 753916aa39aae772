ghost use Rattle.std.specs.Prelude.{◌≡◌};
ghost use Rattle.qtc_events.specs.Flags.{flags_in};
ghost use Rattle.qtc_events.specs.Calls.{add_accounted, reached_of};
ghost use Rattle.qtc_events.specs.Journal.{accounted};

use crate::{Call, Entry, Flags, Reached};

/// The numbers of accounted results at which a future cancels or suspends itself; 0 means none.
#[derive(Clone, Copy, Debug, PartialEq, Eq)]
pub struct Thresholds {
    pub cancel_after: u32,
    pub suspend_after: u32,
}

impl Thresholds {
    /// What a call reaches that takes the accounted results from `before` to `after`, where `flags` stand.
    pub fn reached(self, flags: Flags, before: u32, after: u32) -> Reached
        ensures { result ≡ reached_of self.cancel_after self.suspend_after (flags_in flags.bits) before after }
    {
        if before < self.cancel_after && self.cancel_after <= after {
            return Reached::Cancel;
        }
        let meets = before < self.suspend_after && self.suspend_after <= after;
        if meets && Call::Suspend.has_effect(flags) {
            return Reached::Suspend;
        }
        Reached::Nothing
    }
}

/// The accounted results after an effective call. The number stands still at its type's end.
pub fn accounted_after(accounted: u32, call: &Call) -> u32
    ensures { result ≡ add_accounted accounted call.now }
{
    match call {
        Call::Report { total, .. } | Call::Account { total } => accounted.saturating_add(*total),
        _ => accounted,
    }
}

/// The results that a journal of effective calls accounts for.
pub fn accounted_of(journal: &[Entry]) -> u32
    ensures { result ≡ accounted journal.now }
{
    let mut sum = 0;
    for entry in journal {
        sum = accounted_after(sum, &entry.call);
    }
    sum
}
