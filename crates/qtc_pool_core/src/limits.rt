ghost use Rattle.std.specs.Prelude.{◌≡◌};
ghost use Rattle.qtc_base.specs.Limits.{most_reserved, most_threads};

/// How many threads a pool may have.
pub const MOST_THREADS: u32 = 1024;

/// How many threads may be reserved.
pub const MOST_RESERVED: u32 = 65_536;

/// The limits are those of the definitions.
pub fn limits_are_as_told()
    ensures { (MOST_THREADS ≡ most_threads) × (MOST_RESERVED ≡ most_reserved) }
{}
