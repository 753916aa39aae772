//! What the definitions of this crate say in their subjects' own words.
ghost use Rattle.qtc_claim.specs.Laws.{CallsComeTogether};

/// The calls of many workers are brought together list by list, with no case for how the workers ran: where their
/// claims meet nowhere no index was called twice, and where these tile 0 to n each was called once.
pub fn calls_come_together()
    ensures { CallsComeTogether }
{}
