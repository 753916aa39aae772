//! What one caller has at a line.

use crate::entry::Entry;
use crate::rule::View;
use crossbeam_queue::Pass;
use std::marker::Model;

/// A caller's place at a line, to put and take entries with. It has no bytes.
///
/// Contracts see of which line it is, for what that was made, how many parts the place has of the right to know the whole,
/// and what it put and took, each with its number.
#[derive(Drop)]
pub struct Place<V> {
    pub(crate) pass: Pass<Entry<V>, View<V>>,
}

impl<V> Model for Place<V> {
    ghost use Rattle.qtc_inbox.specs.Line.{PlaceState};

    ghost Value = { PlaceState V };

    ghost use Rattle.qtc_inbox.specs.Inside.{place_state, IsPlace};

    ghost view = { place_state };

    ghost invariant = { IsPlace };
}
