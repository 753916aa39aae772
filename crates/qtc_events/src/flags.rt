ghost use Rattle.std.specs.Prelude.{◌≡◌, ◌<◌};
ghost use Rattle.qtc_events.specs.Flags.{new_flags, flags_in, changed};

/// The state of a future as one word of flags.
///
/// The bits are Running 1, Started 2, Finished 4, Canceled 8, Suspending 16, Suspended 32, Throttled 64,
/// which no call sets, and Pending 128. The states are those of Qt's QFutureInterface.
#[derive(Clone, Copy, Debug, PartialEq, Eq)]
pub struct Flags {
    pub bits: u32,
    ghost known: { bits < 256 },
}

impl Flags {
    pub const RUNNING: u32 = 1;

    pub const STARTED: u32 = 2;

    pub const FINISHED: u32 = 4;

    pub const CANCELED: u32 = 8;

    pub const SUSPENDING: u32 = 16;

    pub const SUSPENDED: u32 = 32;

    pub const THROTTLED: u32 = 64;

    pub const PENDING: u32 = 128;

    /// What a new future has: Pending alone.
    pub fn new() -> Flags
        ensures { flags_in result.bits ≡ new_flags }
    {
        Flags {
            bits: Flags::PENDING,
        }
    }

    pub fn is_running(self) -> bool
        ensures { result ≡ (flags_in self.bits).running }
    {
        self.bits & Flags::RUNNING != 0
    }

    pub fn is_started(self) -> bool
        ensures { result ≡ (flags_in self.bits).started }
    {
        self.bits & Flags::STARTED != 0
    }

    pub fn is_finished(self) -> bool
        ensures { result ≡ (flags_in self.bits).finished }
    {
        self.bits & Flags::FINISHED != 0
    }

    pub fn is_canceled(self) -> bool
        ensures { result ≡ (flags_in self.bits).canceled }
    {
        self.bits & Flags::CANCELED != 0
    }

    pub fn is_suspending(self) -> bool
        ensures { result ≡ (flags_in self.bits).suspending }
    {
        self.bits & Flags::SUSPENDING != 0
    }

    pub fn is_suspended(self) -> bool
        ensures { result ≡ (flags_in self.bits).suspended }
    {
        self.bits & Flags::SUSPENDED != 0
    }

    pub fn is_pending(self) -> bool
        ensures { result ≡ (flags_in self.bits).pending }
    {
        self.bits & Flags::PENDING != 0
    }

    /// The flags with the bits of `clears` cleared, and then those of `sets` set.
    pub(crate) fn changed(self, clears: u32, sets: u32) -> Flags
        requires { sets < 256 }
        ensures { flags_in result.bits ≡ changed (flags_in self.bits) (flags_in clears) (flags_in sets) }
    {
        Flags {
            bits: self.bits & !clears | sets,
        }
    }
}
