ghost use Rattle.std.specs.Prelude.{◌≡◌, IsTrue, IfOk, OnOk, IfErr, length};
ghost use Rattle.qtc_base.specs.Items.{PassesLimit};
ghost use Rattle.qtc_run.specs.Runnable.{are_runnable};
ghost use Rattle.qtc_run.specs.Sources.{items_of_all};
ghost use Rattle.qtc_run.specs.Sums.{CanCount, RefusesRun};

use crate::sizes::{Size, size_of};
use crate::{Loaded, RunFault};
use qtc_base::{MOST_BYTES, MOST_ITEMS};
use qtc_job_file::Job;
use std::alloc::Global;

/// The size of the items of each job, before one of them is made: whether all of them together stay within the limits.
/// The items of a text that two jobs read count twice.
pub fn sizes_of(alloc: Global, jobs: &[Job], loaded: &Loaded) -> Result<Vec<Size>, RunFault>
    requires countable { CanCount loaded.now jobs.now }
    requires runnable { IsTrue (are_runnable jobs.now) }
    ensures each { IfOk result (λ sizes. length sizes.items ≡ length jobs.now) }
    ensures fits { OnOk result (¬ PassesLimit (items_of_all loaded.now jobs.now)) }
    ensures refuses { IfErr result (RefusesRun loaded.now jobs.now) }
{
    let mut sizes = Vec::new(alloc);
    let mut items = 0;
    let mut bytes = 0;
    for (place, job) in jobs.iter().enumerate() {
        let size = size_of(&job.input, loaded);
        items += size.items;
        bytes += size.bytes;
        if items > MOST_ITEMS as u64 || bytes > MOST_BYTES as u64 {
            let job = place as u32;
            return Err(RunFault::TooLarge { job, items, bytes });
        }
        if sizes.push(size).is_err() {
            return Err(RunFault::Memory);
        }
    }
    Ok(sizes)
}
