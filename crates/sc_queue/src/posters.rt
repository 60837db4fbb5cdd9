//! An executor's side of the queue.
#![tactic(auto)]

ghost use Rattle.std.specs.Prelude.{◌≡◌, ◌++◌, ◌∷◌, IfErr, OnErr, OnOk, [], length, suc};
ghost use Rattle.crossbeam_queue.specs.Passes.{view};
ghost use Rattle.sc_queue.specs.declared.rules.Hand.TheVariants.{Executor};
ghost use Rattle.sc_queue.specs.Rule.{pushed_of};

use crate::queued::Queued;
use crate::rules::{Posted, Pushes, Queue, QueuePass};
use sc_ids::ExecId;
use std::marker::PhantomData;
use std::sync::Wait;

/// An executor's pass, and how many reports it has pushed.
#[derive(Drop)]
pub struct Poster<T, Q: Queued> {
    pub(crate) exec: ExecId,
    pub(crate) count: u64,
    pub(crate) pass: QueuePass<T>,
    pub(crate) of: PhantomData<Q>,
    ghost its_queue: { (pass.table_id ≡ Q.queue) × (pass.me.1 ≡ []) },
    ghost own: { view pass ≡ Executor exec (pushed_of (view pass)) },
    ghost counted: { count ≡ length (pushed_of (view pass)) },
}

impl<T: Drop, Q: Queued> Poster<T, Q> {
    /// Whose it is.
    pub fn exec(&self) -> ExecId
        ensures { result ≡ self.now.exec }
    {
        self.exec
    }

    /// Pushes a report, behind all that this executor has pushed. It comes back where the queue
    /// was full, and nothing was pushed then.
    pub fn push<R: Wait>(&mut self, rt: &R, queue: &Queue<T>, report: T) -> Result<(), T>
        requires queue { queue.now.table.shared.table_id ≡ Q.queue }
        ensures exec { self.new.exec ≡ self.old.exec }
        ensures pushed { OnOk result (pushed_of (view self.new.pass)
            ≡ pushed_of (view self.old.pass) ++ record {
              exec = self.old.exec;
              number = suc (length (pushed_of (view self.old.pass)));
              report = report;
            } ∷ []) }
        ensures full { OnErr result
            (pushed_of (view self.new.pass) ≡ pushed_of (view self.old.pass)) }
        ensures back { IfErr result (λ back. back ≡ report) }
    {
        let Some(number) = self.count.checked_add(1) else {
            return Err(report);
        };
        let posted = Posted {
            exec: self.exec,
            number,
            report,
        };
        match queue.push_as::<Pushes, R>(rt, &mut self.pass, posted) {
            Ok(()) => {
                self.count = number;
                Ok(())
            }
            Err(posted) => {
                let Posted { report, .. } = posted;
                Err(report)
            }
        }
    }
}
