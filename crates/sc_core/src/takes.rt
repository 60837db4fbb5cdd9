//! An executor asks for a task.
#![tactic(auto)]

ghost use Rattle.std.specs.Prelude.{◌≡◌, ◌+◌, ◌<◌, ◌^◌, IfOk, IfSome, None, OnErr, false};
ghost use Rattle.sc_dag.specs.Offers.{IsOffer};
ghost use Rattle.sc_core.specs.Owners.{IsThrice, has_task};
ghost use Rattle.sc_core.specs.Takes.{IsAsking, Takes, WaitsWell};

use crate::answers::{Abort, Answer, Stepped};
use crate::attempts::held_by;
use crate::running::{HandOut, Phase, Running};
use crate::states::State;
use sc_ids::{AttemptId, ExecId};
use std::alloc::AllocError;

impl State {
    /// An executor asks for a task.
    pub fn take(&mut self, exec: ExecId) -> Result<Stepped, AllocError>
        requires { WaitsWell self.old.0 exec }
        ensures answered { IfOk result (λ s. Takes self.old.0 exec s.answer self.new.0) }
        ensures thrice { IfOk result (λ s. IsThrice s s.answer) }
        ensures unchanged { OnErr result (self.new.0 ≡ self.old.0) }
    {
        match self.refusal(exec) {
            Some(answer) => Ok(Stepped::plain(answer)),
            None => self.next_task(exec),
        }
    }

    /// Why an executor gets no task, whatever there is.
    fn refusal(&self, exec: ExecId) -> Option<Answer>
        ensures refused { IfSome result
            (λ a. Takes self.now.0 exec a self.now.0 × (has_task a ≡ false)) }
        ensures asking { result ≡ None → IsAsking self.now.0 exec }
    {
        if !self.runs() {
            return Some(Answer::Ended);
        }
        match self.left_first {
            Some(first) => Some(Answer::Stopped { exec: first }),
            None => {
                if !self.stages.dag().tracker().is_live(exec) {
                    return Some(Answer::Lost);
                }
                match held_by(&self.running, exec) {
                    Some(held) => Some(Answer::Busy { held }),
                    None => None,
                }
            }
        }
    }

    /// What there is for an executor that gets a task if there is one.
    fn next_task(&mut self, exec: ExecId) -> Result<Stepped, AllocError>
        requires asking { IsAsking self.old.0 exec }
        requires waits { WaitsWell self.old.0 exec }
        ensures answered { IfOk result (λ s. Takes self.old.0 exec s.answer self.new.0) }
        ensures thrice { IfOk result (λ s. IsThrice s s.answer) }
        ensures unchanged { OnErr result (self.new.0 ≡ self.old.0) }
    {
        match self.stages.dag().next_task(exec, self.tick) {
            Some(attempt) => {
                if self.handed < self.stages.dag().limits().hand_outs {
                    self.hand_out(attempt, exec)
                } else {
                    Ok(Stepped::plain(self.abort(Abort::Budget)))
                }
            }
            None => match self.under_way() {
                Some(out) => Ok(Stepped::plain(Answer::Wait { out })),
                None => unreachable!(),
            },
        }
    }

    /// Hands out a task.
    fn hand_out(&mut self, attempt: AttemptId, exec: ExecId) -> Result<Stepped, AllocError>
        requires asking { IsAsking self.old.0 exec }
        requires offer { IsOffer self.old.0.dag exec self.old.0.now attempt }
        requires budget { self.old.0.handed < self.old.0.dag.limits.hand_outs }
        requires fits { self.old.0.handed + 1 < 2 ^ 32 }
        ensures answered { IfOk result (λ s. Takes self.old.0 exec s.answer self.new.0) }
        ensures thrice { IfOk result (λ s. IsThrice s s.answer) }
        ensures unchanged { OnErr result (self.new.0 ≡ self.old.0) }
    {
        let inputs = self.stages.inputs(attempt.stage)?;
        let hand_out = HandOut::new(attempt, self.stages.dag().tracker().epoch(), inputs);
        let running = Running {
            hand_out: hand_out.share()?,
            exec,
            phase: Phase::Given,
            is_out: true,
        };
        let stepped = Stepped::task(hand_out)?;
        self.running.reserve(1)?;
        self.stages.give(attempt, exec, self.tick)?;
        self.running.push_reserved(running);
        self.handed += 1;
        Ok(stepped)
    }
}
