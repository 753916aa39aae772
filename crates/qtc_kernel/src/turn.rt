use qtc_base::Range;

/// What became of one turn of a worker. (After the states of Qt's ThreadEngine; own.)
#[derive(Clone, Copy, Debug, PartialEq, Eq)]
pub enum Turn {
    /// The indexes of this range were worked on and reported.
    Did(Range),
    /// No index was left to claim.
    Exhausted,
    /// Canceled or Finished stands.
    SawCanceled,
    /// The item at this index is bad: the future failed with it.
    Failed(u32),
    /// Memory was wanted: the future was canceled.
    Memory,
}
