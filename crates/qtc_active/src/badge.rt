//! What one worker enters and leaves with.

use crate::rule::View;
use atomic_table as table;
use std::marker::Model;

/// The badge of one worker: it enters, leaves and looks with it. It has no bytes.
///
/// Contracts see which count it is of, whether its worker is in, and the numbers that its own loads gave, in order.
#[derive(Drop)]
pub struct Badge {
    pub(crate) seat: table::Seat<(), View>,
}

impl Model for Badge {
    ghost use Rattle.qtc_active.specs.Count.{BadgeState};

    ghost Value = { BadgeState };

    ghost use Rattle.qtc_active.specs.Inside.{badge_state, IsBadge};

    ghost view = { badge_state };

    ghost invariant = { IsBadge };
}
