//! What one poster has at an inbox.
ghost use Rattle.std.specs.Prelude.{◌≡◌};
ghost use Rattle.std.specs.Borrow.{sem};
ghost use Rattle.qtc_inbox.specs.Lending.{lends_pass};

use crate::Place;
use qtc_shared::Pass;
use std::marker::Model;

/// A poster's pass at an inbox: its pass of the future, and its place at the queue until `Inbox::end` took that in.
///
/// Contracts see both: what the place `has`, with all that was queued from it, and what the pass knows.
#[derive(Drop)]
pub struct InboxPass<V> {
    pub(crate) place: Option<Place<V>>,
    pub(crate) pass: Pass<V>,
}

impl<V> Model for InboxPass<V> {
    ghost use Rattle.qtc_inbox.specs.Inboxes.{InboxPassState};

    ghost Value = { InboxPassState V };

    ghost use Rattle.qtc_inbox.specs.Inside.{inbox_pass_state};

    ghost view = { inbox_pass_state };
}

impl<V> InboxPass<V> {
    /// Its pass of the future, to look and to call the future by.
    pub fn pass(&mut self) -> &mut Pass<V>
        ensures value { result.now ≡ self.old.pass }
        ensures* writes_back { sem 𝓛 (lends_pass V.row self.entry result) }
    {
        &mut self.pass
    }
}
