ghost use Rattle.std.specs.Prelude.{◌≡◌};
ghost use Rattle.qtc_base.specs.Limits.{most_job_file, most_text, most_texts};

/// The most bytes of a job file.
pub const MOST_JOB_FILE: u64 = 1_048_576;

/// The most bytes of one text.
pub const MOST_TEXT: u64 = 67_108_864;

/// The most bytes of all texts of a run.
pub const MOST_TEXTS: u64 = 268_435_456;

/// The limits are those of the definitions.
pub fn limits_are_as_told()
    ensures { (MOST_JOB_FILE ≡ most_job_file) × (MOST_TEXT ≡ most_text) × (MOST_TEXTS ≡ most_texts) }
{}
