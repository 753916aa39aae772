use crate::Reply;
use qtc_base::{Bytes, List};

/// A call on a future, as a list of calls has it. Each is the method of `FutureCore` of the same name.
#[derive(Drop)]
pub enum Request<V> {
    Start,
    ReportBatch {
        begin: u32,
        values: List<V>,
        total: u32,
    },
    AddResult {
        index: Option<u32>,
        value: V,
    },
    Account {
        total: u32,
    },
    SetSuspended {
        on: bool,
    },
    ReportSuspended,
    Cancel,
    Fail {
        index: u32,
        item: Bytes,
    },
    Finish,
}

/// A call and who makes it.
#[derive(Drop)]
pub struct Asked<V> {
    pub caller: u32,
    pub request: Request<V>,
}

/// What a call is answered.
#[derive(Clone, Copy, Debug, PartialEq, Eq)]
pub enum Answer {
    /// Whether the call had an effect.
    Effect(bool),
    Reply(Reply),
}
