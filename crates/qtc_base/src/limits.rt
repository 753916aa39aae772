ghost use Rattle.std.specs.Prelude.{◌≡◌};
ghost use Rattle.qtc_base.specs.Limits.{most_bytes, most_items};

/// The most items that one list holds.
pub const MOST_ITEMS: usize = 8_388_608;

/// The most bytes that the items of one list have together.
pub const MOST_BYTES: usize = 536_870_912;

/// The limits are those of the definitions.
pub fn limits_are_as_told()
    ensures { (MOST_ITEMS ≡ most_items) × (MOST_BYTES ≡ most_bytes) }
{}
