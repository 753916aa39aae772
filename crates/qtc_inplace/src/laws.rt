//! Laws of the definitions.
ghost use Rattle.qtc_inplace.specs.Laws.{MapsNeverDrop};

/// No map of a job file drops an item, so each may be used in place.
pub fn maps_never_drop()
    ensures { MapsNeverDrop }
{}
