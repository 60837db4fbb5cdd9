//! An executor leaves.
#![tactic(auto)]

ghost use Rattle.std.specs.Prelude.{◌<◌};
ghost use Rattle.sc_desk.specs.Asides.{Leaves};

use crate::desks::Desk;
use crate::shelves::clear_after_end;
use sc_ids::ExecId;
use sc_work::Naming;

impl<W: Naming> Desk<W> {
    /// An executor of the work that can't go on leaves the job. That is entered with what the core
    /// answers, marked by the executor itself. It takes no memory. False comes exactly where this
    /// executor left before, and then nothing changes.
    pub fn leave(&mut self, exec: ExecId) -> bool
        requires known { exec < W.work.limits.executors }
        ensures { Leaves self.old exec result self.new }
    {
        if self.journal.has_left(exec) {
            return false;
        }
        self.journal.core().is_sound();
        self.journal.is_replay();
        let _ = self.journal.leave(exec);
        clear_after_end(&mut self.shelf, self.journal.core());
        true
    }
}
