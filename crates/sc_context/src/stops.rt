//! Why a context ran no further.
#![tactic(auto)]

ghost use Rattle.std.specs.Prelude.{◌≡◌};
ghost use Rattle.sc_base.specs.declared.refusals.OrMemory.TheVariants.{OutOfMemory};
ghost use Rattle.sc_context.specs.Records.{AreKept, histories_of};

use crate::context::Context;
use crate::records::Records;
use sc_base::OrMemory;
use sc_core::Abort;
use sc_files::Files;
use sc_value::Name;
use sc_work::Naming;

/// Why the job of an action came to no end, or didn't begin.
#[derive(Drop)]
pub enum JobFault {
    /// It was aborted; where it saves, its staging area was removed, and its directory stands.
    Aborted(Abort),
    /// The directory that it was to make, or the staging area in that, is there already. Nothing in
    /// this has changed.
    Exists(Name),
    /// It saves, and a call on the files failed where it was opened, began again, or was committed
    /// or aborted.
    Device(Name),
}

/// Why a context ran no further, how its jobs went, and the files.
#[derive(Drop)]
pub struct Stopped<F: Files> {
    /// Why the last job came to no end or the next one didn't begin, or want of memory.
    pub why: OrMemory<JobFault>,
    /// How the jobs went: all but the last are done.
    pub records: Records,
    /// The files.
    pub files: F,
}

impl<F: Files> Stopped<F> {
    /// Memory ran out behind these jobs.
    pub(crate) fn without_memory(records: Records, files: F) -> Stopped<F>
        ensures why { result.why ≡ OutOfMemory }
        ensures records { result.records ≡ records }
        ensures files { F.state result.files ≡ F.state files }
    {
        Stopped {
            why: OrMemory::OutOfMemory,
            records,
            files,
        }
    }
}

impl<W: Naming, F: Files> Context<W, F> {
    /// Memory ran out before the next job began.
    pub(crate) fn without_memory(self) -> Stopped<F>
        ensures why { result.why ≡ OutOfMemory }
        ensures histories { result.records.histories.items ≡ self.histories }
        ensures given_up { histories_of result.records.gave_up.items ≡ self.given_up }
        ensures kept { AreKept W.work result.records }
        ensures files { F.state result.files ≡ self.files }
    {
        Stopped::without_memory(self.records, self.files)
    }
}
