//! What the executors of a job share.
#![tactic(auto)]

ghost use Rattle.std.specs.Prelude.{◌≡◌, IfOk};
ghost use Rattle.sc_exec.specs.Draining.{HasMet};

use crate::drains::Drained;
use crate::helms::Helm;
use crate::openings::Opening;
use crate::visits::Witnessed;
use sc_files::Files;
use sc_queue::Queue;
use sc_work::Naming;
use std::alloc::AllocError;
use std::sync::{Condvar, Mutex, MutexGuard, Wait};

/// What the executors of a job share: its desk and its files, which each of them locks for a
/// moment, and the queue of their reports, which needs no lock.
pub struct Driver<W: Naming, J: Opening, F: Files> {
    /// The desk and the files, with the pass that pops.
    pub helm: Mutex<Helm<W, J, F>>,
    /// It is rung where something has changed at the desk.
    pub bell: Condvar,
    /// The reports on their way to the desk.
    pub queue: Queue<Witnessed<W>>,
    ghost one: { queue.table.shared.table_id ≡ J.queue },
}

impl<W: Naming, J: Opening, F: Files> Driver<W, J, F> {
    /// Locks the helm, and drains the queue before all else. The lock stays, whatever the drain
    /// comes to.
    #[inline(always)]
    pub(crate) fn open<R: Wait>(
        &self,
        rt: &R,
    ) -> (MutexGuard<'_, Helm<W, J, F>>, Result<Drained, AllocError>)
        ensures met { IfOk result.1 HasMet }
    {
        let mut helm = self.helm.lock(rt);
        let drained = helm.drain(rt, &self.queue);
        (helm, drained)
    }
}
