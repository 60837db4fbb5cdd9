//! An executor leaves, and what else is called at a desk without an entry.
#![tactic(auto)]

ghost use Rattle.std.specs.Prelude.{◌≡◌, ◌<◌};
ghost use Rattle.sc_desk.specs.Dues.{IsOrdered};
ghost use Rattle.sc_exec.specs.JobDesks.{KeepsFiles};
ghost use Rattle.sc_exec.specs.Logging.{HasRoom, LeavesBoth, leave_answer};

use crate::job_desks::JobDesk;
use crate::openings::Opening;
use sc_core::{Answer, Core, Entry, Event, JobState, SideAnswer, SideEvent};
use sc_files::Files;
use sc_ids::Mark;
use sc_logs::ExecLog;
use sc_plan::Order;
use sc_work::Naming;

impl<W: Naming, J: Opening, F: Files> JobDesk<W, J, F> {
    /// An executor of the work that can't go on leaves the job, and logs what it was answered. It
    /// takes no memory. False comes exactly where it left before, and then nothing changes.
    #[tactic(auto, using(crate::proofs::Rules::logs_leave))]
    pub fn leave(&mut self, log: &mut ExecLog) -> bool
        requires known { log.old.exec < W.work.limits.executors }
        requires room { HasRoom log.old }
        ensures leaves { LeavesBoth self.old.desk log.old result self.new.desk log.new }
        ensures files { KeepsFiles self.old self.new }
    {
        let answer = leave_answer(self.desk.core());
        let exec = log.exec;
        if !self.desk.leave(exec) {
            return false;
        }
        log.entries.push_reserved(Entry {
            by: Mark::Exec(exec),
            event: Event::Side(SideEvent::Leave { exec }),
            answer: Answer::Side(answer),
        });
        true
    }

    /// The order of the fault plan that comes next, if one is due while the job runs. It counts as
    /// handed out from now on.
    #[tactic(auto, using(crate::proofs::JobDeskLemmas::job_ordered))]
    pub fn due_order(&mut self) -> Option<Order>
        ensures ordered { IsOrdered W.work self.old.desk result self.new.desk }
        ensures files { KeepsFiles self.old self.new }
    {
        self.desk.due_order()
    }
}

/// What an executor is answered that leaves.
fn leave_answer(core: &Core) -> SideAnswer
    ensures { result ≡ leave_answer core.now }
{
    match core.job() {
        JobState::Running => SideAnswer::Left,
        JobState::Done | JobState::Aborted(_) => SideAnswer::Ignored,
    }
}
