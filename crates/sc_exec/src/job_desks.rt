//! The desk of a job with the job's files, which knows how the job began.
#![tactic(auto)]

ghost use Rattle.std.specs.Prelude.{◌≡◌, length};
ghost use Rattle.sc_core.specs.Sound.{IsSoundCore};
ghost use Rattle.sc_desk.specs.DeskData.{core_of};
ghost use Rattle.sc_staging.specs.Outputs.{output_dir, output_files};
ghost use Rattle.sc_exec.specs.JobDesks.{IsJobOf, job_desk_data};

use crate::openings::Opening;
use sc_desk::Desk;
use sc_files::Files;
use sc_staging::Output;
use sc_work::Naming;
use std::marker::{Model, PhantomData};

/// The desk of a job that began as `J` says, and the job's files. What it is by its type is known
/// of it wherever it comes from, from under a lock too.
#[derive(Drop)]
pub struct JobDesk<W: Naming, J: Opening, F: Files> {
    pub(crate) desk: Desk<W>,
    pub(crate) output: Output<F>,
    of: PhantomData<J>,
}

impl<W: Naming, J: Opening, F: Files> Model for JobDesk<W, J, F> {
    ghost use Rattle.sc_staging.specs.Outputs.{output_dir, output_files};
    ghost use Rattle.sc_exec.specs.JobDesks.{JobDeskData, IsJobOf, job_desk_code, job_desk_data};

    ghost Value = { JobDeskData };

    ghost coded = { job_desk_code };

    ghost view = { λ h.
        job_desk_data h.desk (output_dir h.output) (output_files F.state h.output) };

    ghost invariant = { λ h. IsJobOf W.work J.opening
        (job_desk_data h.desk (output_dir h.output) (output_files F.state h.output)) };
}

impl<W: Naming, J: Opening, F: Files> JobDesk<W, J, F> {
    /// The desk and the files of a job that began so.
    pub fn of(desk: Desk<W>, output: Output<F>) -> JobDesk<W, J, F>
        requires { IsJobOf W.work J.opening
            (job_desk_data desk (output_dir output) (output_files F.state output)) }
        ensures { result ≡ job_desk_data desk (output_dir output) (output_files F.state output) }
    {
        JobDesk {
            desk,
            output,
            of: PhantomData,
        }
    }

    /// The desk.
    pub fn desk(&self) -> &Desk<W>
        ensures { result.now ≡ self.now.desk }
    {
        &self.desk
    }

    /// What it is by its type: that of a job that began so. A call does nothing.
    pub fn is_job(&self)
        ensures { IsJobOf W.work J.opening self.now }
    {
        let _ = &self.desk;
    }

    /// What its core keeps, and that it and its orders are of all executors of the work. A call
    /// does nothing.
    pub(crate) fn is_sound(&self)
        ensures core { IsSoundCore (core_of self.now.desk) }
        ensures execs { length (core_of self.now.desk).dag.tracker.trust
            ≡ W.work.limits.executors }
        ensures many { length self.now.desk.ordered ≡ W.work.limits.executors }
    {
        self.desk.core().is_sound();
        self.desk.is_sound();
    }

    /// The desk and the files, and how their job began.
    pub fn into_parts(self) -> (Desk<W>, Output<F>)
        ensures desk { result.0 ≡ self.desk }
        ensures dir { output_dir result.1 ≡ self.dir }
        ensures files { output_files F.state result.1 ≡ self.files }
        ensures job { IsJobOf W.work J.opening self }
    {
        let JobDesk {
            desk,
            output,
            of: _,
        } = self;
        (desk, output)
    }
}
