//! What the machine of a pool comes to, each the contract of a function that does nothing.
ghost use Rattle.qtc_pool_core.specs.Laws.{HeadsAreFirst, LimitsHold, RunsAreLawful, TasksAreAccounted, TasksRunOnce};

/// The head of a queue is its first task of greatest priority.
pub fn heads_are_first()
    ensures { HeadsAreFirst }
{}

/// After any run of entries no id waits or runs twice, and at most 1,024 run.
pub fn runs_are_lawful()
    ensures { RunsAreLawful }
{}

/// After any run of entries the limit is 1 to 1,024, and at most 65,536 threads are reserved.
pub fn limits_hold()
    ensures { LimitsHold }
{}

/// A task that begins to run does not run yet, and does so only where a thread is free for it or none runs.
pub fn tasks_run_once()
    ensures { TasksRunOnce }
{}

/// Each task that was started was taken out of the queue once or waits, and each that began to run ended once or runs.
pub fn tasks_are_accounted()
    ensures { TasksAreAccounted }
{}
