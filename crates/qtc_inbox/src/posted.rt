//! What became of a piece that was posted.

/// The piece was queued, as there was room; or so many pieces were reported, of which it was the last.
#[derive(Clone, Copy, Drop)]
pub enum Posted {
    Queued,
    Drained(u32),
}
