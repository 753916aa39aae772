//! What the definitions of this crate come to.
ghost use Rattle.qtc_job_file.specs.Laws.{LawfulFilesAreBounded};

/// A lawful file has few jobs and workers, and each job an input that is sized and blocks that a worker can take.
pub fn lawful_files_are_bounded()
    ensures { LawfulFilesAreBounded }
{}
