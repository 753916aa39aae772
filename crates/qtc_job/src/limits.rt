ghost use Rattle.std.specs.Prelude.{◌≡◌};
ghost use Rattle.qtc_base.specs.Limits.{default_block, default_workers, least_priority, most_block, most_blocks, most_chain, most_digits, most_field, most_items, most_job_file, most_jobs, most_line, most_name, most_priority, most_sources, most_text, most_workers};

/// The most bytes of a job file.
pub const MOST_JOB_FILE: usize = 1_048_576;

/// The most bytes of a line of a job file, without its LF.
pub const MOST_LINE: usize = 4096;

/// The most bytes of a text, of a piece of one, and of a length that items are compared with.
pub const MOST_TEXT: u32 = 67_108_864;

/// The most jobs of a file.
pub const MOST_JOBS: usize = 64;

/// The most bytes of a job's name.
pub const MOST_NAME: usize = 64;

/// The most texts or jobs that an input names.
pub const MOST_SOURCES: usize = 64;

/// The most lines of a chain.
pub const MOST_CHAIN: usize = 8;

/// The most sizes of blocks of a job.
pub const MOST_BLOCKS: usize = 16;

/// The greatest size of a block.
pub const MOST_BLOCK: u32 = 65_536;

/// The size of the blocks of a job that names none.
pub const DEFAULT_BLOCK: u32 = 16;

/// The most workers.
pub const MOST_WORKERS: u32 = 32;

/// The workers of a file that names no number of them.
pub const DEFAULT_WORKERS: u32 = 4;

/// The greatest number of a field.
pub const MOST_FIELD: u32 = 1000;

/// The greatest count of items or values.
pub const MOST_ITEMS: u32 = 8_388_608;

/// The most digits of a number.
pub const MOST_DIGITS: u32 = 10;

/// The greatest priority.
pub const MOST_PRIORITY: u128 = 2_147_483_647;

/// The least priority, without its sign.
pub const LEAST_PRIORITY: u128 = 2_147_483_648;

/// The limits and what holds where a file says nothing are those of the definitions.
pub fn limits_are_as_told()
    ensures texts { (MOST_JOB_FILE ≡ most_job_file) × (MOST_LINE ≡ most_line) × (MOST_TEXT ≡ most_text) }
    ensures lists { (MOST_JOBS ≡ most_jobs) × (MOST_SOURCES ≡ most_sources) × (MOST_CHAIN ≡ most_chain) }
    ensures blocks { (MOST_BLOCKS ≡ most_blocks) × (MOST_BLOCK ≡ most_block) × (DEFAULT_BLOCK ≡ default_block) }
    ensures workers { (MOST_WORKERS ≡ most_workers) × (DEFAULT_WORKERS ≡ default_workers) }
    ensures words { (MOST_NAME ≡ most_name) × (MOST_DIGITS ≡ most_digits) × (MOST_FIELD ≡ most_field) }
    ensures numbers { (MOST_ITEMS ≡ most_items) × (MOST_PRIORITY ≡ most_priority) × (LEAST_PRIORITY ≡ least_priority) }
{}
