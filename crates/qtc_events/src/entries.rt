use crate::{Call, Event, Flags};

/// What a report or an account sets off by the number of results that are accounted for.
#[derive(Clone, Copy, Debug, PartialEq, Eq)]
pub enum Reached {
    Nothing,
    /// The call acts as a suspend too.
    Suspend,
    /// The call acts as a cancel too.
    Cancel,
}

impl Reached {
    ghost use Rattle.std.specs.Prelude.{◌≡◌};
    ghost use Rattle.qtc_events.specs.Calls.{acts_as, posts_of_acting};

    /// The event that is posted after the call's own.
    fn event(self) -> Option<Event>
        ensures { result ≡ posts_of_acting (acts_as self) }
    {
        match self {
            Reached::Nothing => None,
            Reached::Suspend => Some(Event::Suspending),
            Reached::Cancel => Some(Event::Canceled),
        }
    }
}

/// One call of a journal: who made it, and which threshold it reached.
#[derive(Clone, Copy, Debug, PartialEq, Eq)]
pub struct Entry {
    pub caller: u32,
    pub call: Call,
    pub reached: Reached,
}

impl Entry {
    ghost use Rattle.std.specs.Prelude.{◌≡◌, ◌<◌, ◌^◌, ◌++◌, option_to_list};
    ghost use Rattle.qtc_events.specs.Calls.{range_end};
    ghost use Rattle.qtc_events.specs.Journal.{posts_of_entry};

    /// What an effective entry posts: the call's own event, and then the threshold's. A report posts Ready
    /// for the indexes that it covers, or in filter mode for the positions from `old_count`, the number of
    /// visible results before it, to `new_count`, the number after it.
    pub fn posts(
        &self,
        filter: bool,
        old_count: u32,
        new_count: u32,
    ) -> (Option<Event>, Option<Event>)
        requires { range_end self.now.call < 2 ^ 32 }
        ensures { option_to_list result.0 ++ option_to_list result.1
            ≡ posts_of_entry filter self.now old_count new_count }
    {
        (
            self.call.event(filter, old_count, new_count),
            self.reached.event(),
        )
    }
}
