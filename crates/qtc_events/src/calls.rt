ghost use Rattle.std.specs.Prelude.{◌≡◌};
ghost use Rattle.qtc_events.specs.Calls.{ready};

use crate::{Event, Flags};

/// A call on a future, as its journal keeps it.
#[derive(Clone, Copy, Debug, PartialEq, Eq)]
pub enum Call {
    Start,
    /// A batch of results that covers the indexes from `begin` to `begin + total`, of which `kept` have a value.
    Report { begin: u32, kept: u32, total: u32 },
    /// `total` indexes are done without a result of their own, as in a reduction.
    Account { total: u32 },
    Suspend,
    Resume,
    ReportSuspended,
    Cancel,
    /// The item at `index` can't be worked on.
    Fail { index: u32 },
    Finish,
}

impl Call {
    ghost use Rattle.std.specs.Prelude.{◌<◌, ◌^◌};
    ghost use Rattle.qtc_events.specs.Flags.{flags_in};
    ghost use Rattle.qtc_events.specs.Calls.{row, has_effect, after_call, range_end};

    /// Whether the call has an effect where `flags` stand. A report has one only where the store takes its
    /// batch too.
    pub fn has_effect(&self, flags: Flags) -> bool
        ensures { result ≡ has_effect (flags_in flags.bits) self.now }
    {
        let ended = flags.is_canceled() || flags.is_finished();
        let held = flags.is_suspending() || flags.is_suspended();
        match self {
            Call::Start => !ended && !flags.is_started(),
            Call::Report { total, .. } => !ended && *total > 0,
            Call::Account { .. } | Call::Cancel | Call::Fail { .. } => !ended,
            Call::Suspend => !ended && !held,
            Call::Resume => !ended && held,
            Call::ReportSuspended => !ended && flags.is_suspending() && !flags.is_suspended(),
            Call::Finish => !flags.is_finished(),
        }
    }

    /// The event that the call itself posts where it has an effect.
    pub(crate) fn event(&self, filter: bool, old_count: u32, new_count: u32) -> Option<Event>
        requires { range_end self.now < 2 ^ 32 }
        ensures { result ≡ (row self.now).posts filter old_count new_count }
    {
        match self {
            Call::Start => Some(Event::Started),
            Call::Report { .. } if filter => ready(old_count, new_count),
            Call::Report { begin, total, .. } => ready(*begin, *begin + *total),
            Call::Account { .. } => None,
            Call::Suspend => Some(Event::Suspending),
            Call::Resume => Some(Event::Resumed),
            Call::ReportSuspended => Some(Event::Suspended),
            Call::Cancel | Call::Fail { .. } => Some(Event::Canceled),
            Call::Finish => Some(Event::Finished),
        }
    }

    /// The flags after the call's own change, where it has an effect.
    pub(crate) fn flags_after(&self, flags: Flags) -> Flags
        ensures { flags_in result.bits ≡ after_call (flags_in flags.bits) self.now }
    {
        let held = Flags::SUSPENDING | Flags::SUSPENDED;
        match self {
            Call::Start => flags.changed(Flags::PENDING, Flags::STARTED | Flags::RUNNING),
            Call::Report { .. } | Call::Account { .. } => flags,
            Call::Suspend => flags.changed(0, Flags::SUSPENDING),
            Call::Resume => flags.changed(held, 0),
            Call::ReportSuspended => flags.changed(Flags::SUSPENDING, Flags::SUSPENDED),
            Call::Cancel | Call::Fail { .. } => flags.changed(held, Flags::CANCELED),
            Call::Finish => flags.changed(Flags::RUNNING | Flags::PENDING | held, Flags::FINISHED),
        }
    }
}

/// The event of newly ready results, where there are any.
fn ready(begin: u32, end: u32) -> Option<Event>
    ensures { result ≡ ready begin end }
{
    if begin < end {
        Some(Event::Ready(begin, end))
    } else {
        None
    }
}
