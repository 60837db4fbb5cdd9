//! What lies behind the driver's lock.
#![tactic(auto)]

ghost use Rattle.std.specs.Prelude.{◌≡◌, IfOk, [], true};
ghost use Rattle.crossbeam_queue.specs.Passes.{view};
ghost use Rattle.sc_queue.specs.Rule.{is_driver};
ghost use Rattle.sc_staging.specs.Outputs.{output_dir, output_files};
ghost use Rattle.sc_exec.specs.JobDesks.{IsJobOf, job_desk_data};
ghost use Rattle.sc_exec.specs.Draining.{Drains, HasMet, kept_of};

use crate::drains::{Drained, drain_into};
use crate::job_desks::JobDesk;
use crate::openings::Opening;
use crate::visits::Witnessed;
use sc_desk::Desk;
use sc_files::Files;
use sc_queue::{Posted, Queue, QueuePass, is_idle};
use sc_staging::Output;
use sc_work::Naming;
use std::alloc::AllocError;
use std::sync::Wait;

/// The desk of a job with its files, the pass by which reports are popped, and a report that was
/// popped but isn't entered yet, since memory ran out.
#[derive(Drop)]
pub struct Helm<W: Naming, J: Opening, F: Files> {
    pub(crate) desk: JobDesk<W, J, F>,
    pub(crate) pass: QueuePass<Witnessed<W>>,
    pub(crate) held: Option<Posted<Witnessed<W>>>,
    ghost its_queue: { (pass.table_id ≡ J.queue) × (pass.me.1 ≡ []) },
    ghost drives: { is_driver (view pass) ≡ true },
}

impl<W: Naming, J: Opening, F: Files> Helm<W, J, F> {
    /// A desk and its files, with the first pass of the queue.
    pub fn of(desk: JobDesk<W, J, F>, pass: QueuePass<Witnessed<W>>) -> Helm<W, J, F>
        requires queue { (pass.table_id ≡ J.queue) × (pass.me.1 ≡ []) }
        requires driver { is_driver (view pass) ≡ true }
    {
        Helm {
            desk,
            pass,
            held: None,
        }
    }

    /// The desk and the files, and how their job began.
    pub fn into_parts(self) -> (Desk<W>, Output<F>)
        ensures { IsJobOf W.work J.opening
            (job_desk_data result.0 (output_dir result.1) (output_files F.state result.1)) }
    {
        let Helm { desk, .. } = self;
        desk.into_parts()
    }

    /// Enters the report that is held, and then each that the queue holds, under the marks of those
    /// who posted them.
    #[inline(always)]
    pub fn drain<R: Wait>(
        &mut self,
        rt: &R,
        queue: &Queue<Witnessed<W>>,
    ) -> Result<Drained, AllocError>
        requires queue { queue.now.table.shared.table_id ≡ J.queue }
        ensures drains { Drains W.work
            (kept_of self.old.desk.desk self.old.held (view self.old.pass))
            (kept_of self.new.desk.desk self.new.held (view self.new.pass)) result }
        ensures met { IfOk result HasMet }
    {
        if is_idle(queue, &mut self.pass, &self.held) {
            return Ok(Drained::All { count: 0 });
        }
        drain_into(rt, queue, &mut self.desk, &mut self.pass, &mut self.held)
    }
}
