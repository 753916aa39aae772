/// Why a task was not queued; the work comes back.
#[derive(Debug, Drop, PartialEq, Eq)]
pub enum StartFault<K> {
    /// A task with this id waits or runs.
    SameId(K),
    Memory(K),
}

/// Why a task may not be tried.
#[derive(Clone, Copy, Debug, PartialEq, Eq)]
pub enum TryFault {
    /// A task with this id waits or runs.
    SameId,
    Memory,
}

/// Why no thread was reserved.
#[derive(Clone, Copy, Debug, PartialEq, Eq)]
pub enum ReserveFault {
    /// 65,536 are.
    TooMany,
    Memory,
}

/// Why no thread was released.
#[derive(Clone, Copy, Debug, PartialEq, Eq)]
pub enum ReleaseFault {
    NotReserved,
    Memory,
}
