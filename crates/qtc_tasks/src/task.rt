//! What is asked of a task.

use qtc_base::Bytes;

/// Why a task gives no value.
#[derive(Drop)]
pub enum TaskFault {
    /// The task has failed, with this text.
    Bad(Bytes),
    /// Memory was wanted.
    Memory,
}

/// What gives values one after the other, and may fail after the last. (After the function that Qt's
/// QtConcurrent::run is handed with a QPromise; own.)
pub trait Task<V>: Send + Sized {
    ghost use Rattle.qtc_tasks.specs.Tasks.{TaskState, Gives};

    // the values still to come, and the failure after them
    ghost state: { Self → TaskState V };

    /// The next value, or None after the last. After the last value it may be `Bad` instead. For want of memory the task
    /// stays as it is.
    fn next(&mut self) -> Result<Option<V>, TaskFault>
        ensures { Gives (state self.old) (state self.new) result };
}
