//! The stages of a job, with the lists of inputs that were made last.
#![tactic(auto)]

ghost use Rattle.std.specs.Prelude.{◌≡◌, ◌↔◌, IfOk, OnErr, OnOk, true};
ghost use Rattle.std.specs.Option.{option_map};
ghost use Rattle.sc_core.specs.CoreData.{result_stage};
ghost use Rattle.sc_core.specs.HandOuts.{inputs_of};
ghost use Rattle.sc_core.specs.Tells.{FollowsUp, LooksAgain};
ghost use Rattle.sc_dag.specs.DagData.{DagData, newest_at};
ghost use Rattle.sc_dag.specs.Losses.{after_lost, after_seen};
ghost use Rattle.sc_dag.specs.Offers.{handed_out, may_be_given_in};
ghost use Rattle.sc_dag.specs.Openings.{FitsJob, IsJob, Opens};
ghost use Rattle.sc_dag.specs.Outputs.{is_complete};
ghost use Rattle.sc_dag.specs.Reports.{FailsStage, after_failed, after_hold, after_map_success, after_result_success, is_finished_short, map_success_of, reaches_limit_in, result_success_of, set_of};
ghost use Rattle.sc_dag.specs.Submission.{IsSubmitted, this_stage};

use crate::inputs::{Inputs, inputs_in};
use crate::kept::Kept;
use sc_dag::{Dag, Success};
use sc_ids::{
    AttemptId, Epoch, ExecId, FailureCause, Generation, Limits, Loc, StageGraph, StageId,
};
use sc_taskset::Verdict;
use sc_tracker::Tracker;
use std::alloc::{AllocError, Global};
use std::marker::Model;

/// The stages of a job. A list of inputs is kept until an output is registered or outputs are
/// forgotten, so that the tasks of a stage share it.
#[derive(Drop)]
pub(crate) struct Stages {
    alloc: Global,
    dag: Dag,
    kept: Kept,
}

impl Model for Stages {
    ghost use Rattle.std.specs.Prelude.{Bool};
    ghost use Rattle.sc_dag.specs.DagData.{DagData};
    ghost use Rattle.sc_core.specs.Kept.{AreInputs};

    ghost Value = { DagData × Bool };

    ghost view = { λ s. s.dag };

    ghost invariant = { λ s. AreInputs s.dag.0 s.kept };
}

impl Stages {
    /// The stages of a job that begins, behind another one or none.
    pub fn open(
        alloc: Global,
        graph: &StageGraph,
        last: Option<&Stages>,
        tracker: Tracker,
        limits: Limits,
    ) -> Result<Stages, AllocError>
        requires job { IsJob graph.now }
        requires fits { FitsJob tracker graph.now }
        ensures opens { IfOk result
            (λ s. Opens graph.now (option_map (λ l. l.now.0) last.entry) tracker s.0) }
        ensures limits { IfOk result (λ s. s.0.limits ≡ limits) }
    {
        let dag = Dag::open(alloc, graph, dag_behind(last), tracker, limits)?;
        let kept = Kept::new(alloc, dag.last_stage() as usize + 1)?;
        Ok(Stages { alloc, dag, kept })
    }

    /// The stages alone.
    pub fn dag(&self) -> &Dag
        ensures { result.now ≡ self.now }
    {
        &self.dag
    }

    /// Where the inputs of a stage lie. Nothing that is seen changes.
    pub fn inputs(&mut self, stage: StageId) -> Result<Inputs, AllocError>
        ensures inputs { IfOk result (λ i. i ≡ inputs_of self.old.0 stage) }
        ensures same { self.new ≡ self.old }
    {
        if let Some(inputs) = self.kept.share(stage)? {
            return Ok(inputs);
        }
        let inputs = Inputs::new(self.alloc, inputs_in(self.alloc, &self.dag, stage)?)?;
        self.kept.put(stage, inputs.share()?);
        Ok(inputs)
    }

    /// Makes room for what may be submitted. Nothing that is seen changes.
    pub fn prepare(&mut self) -> Result<(), AllocError>
        ensures same { self.new.0 ≡ self.old.0 }
        ensures ready { OnOk result (self.new.1 ≡ true) }
    {
        self.dag.prepare()
    }

    /// Submits the result stage. It takes no memory.
    pub fn submit_result(&mut self)
        requires { self.old.1 ≡ true }
        ensures { IsSubmitted self.old.0 (this_stage (result_stage self.old.0)) self.new.0 }
    {
        let stage = self.dag.last_stage();
        self.dag.submit(stage);
    }

    /// Hands out a task of the newest attempt of its stage.
    pub fn give(&mut self, attempt: AttemptId, exec: ExecId, now: u64) -> Result<(), AllocError>
        requires { may_be_given_in (newest_at self.old.0 attempt.stage) exec now attempt.partition
            ≡ true }
        ensures answered { OnOk result (self.new.0 ≡ handed_out self.old.0 attempt exec now) }
        ensures unchanged { OnErr result (self.new.0 ≡ self.old.0) }
    {
        self.dag.give(attempt, exec, now)
    }

    /// The success of a map task, after which its stage is looked at: a complete one is told so,
    /// and one that is finished short of outputs is submitted again. It takes no memory.
    pub fn map_success(&mut self, attempt: AttemptId, loc: Loc, epoch: Epoch, now: u64) -> Success
        requires { self.old.1 ≡ true }
        ensures answer { result ≡ map_success_of self.old.0 attempt loc epoch }
        ensures state { FollowsUp result (after_map_success self.old.0 attempt loc epoch now)
            attempt.stage self.new.0 }
    {
        let success = self.register(attempt, loc, epoch, now);
        match success {
            Success::Repeated => {}
            Success::Registered | Success::Bogus | Success::Finished => {
                self.look_again(attempt.stage);
            }
        }
        success
    }

    /// The success of a map task alone.
    fn register(&mut self, attempt: AttemptId, loc: Loc, epoch: Epoch, now: u64) -> Success
        ensures answer { result ≡ map_success_of self.old.0 attempt loc epoch }
        ensures state { self.new.0 ≡ after_map_success self.old.0 attempt loc epoch now }
        ensures ready { self.new.1 ≡ self.old.1 }
    {
        let success = self.dag.map_success(attempt, loc, epoch, now);
        self.kept.forget_after(success);
        success
    }

    /// Looks at a map stage that may be complete, or finished short of outputs.
    fn look_again(&mut self, stage: StageId)
        requires { self.old.1 ≡ true }
        ensures { LooksAgain (is_complete self.old.0 stage) (is_finished_short self.old.0 stage)
            self.old.0 stage self.new.0 }
    {
        if self.dag.is_complete(stage) {
            self.dag.map_done(stage);
        } else if self.dag.is_finished_short(stage) {
            self.dag.submit(stage);
        }
    }

    /// The success of a result task.
    pub fn result_success(&mut self, attempt: AttemptId, now: u64) -> Success
        ensures answer { result ≡ result_success_of self.old.0 attempt }
        ensures state { self.new.0 ≡ after_result_success self.old.0 attempt now }
        ensures ready { self.new.1 ≡ self.old.1 }
    {
        self.dag.result_success(attempt, now)
    }

    /// The failure of a task.
    pub fn failed(&mut self, attempt: AttemptId, cause: FailureCause) -> Verdict
        ensures limit { (result ≡ Verdict.Limit)
            ↔ (reaches_limit_in (set_of self.old.0 attempt) attempt cause ≡ true) }
        ensures state { self.new.0 ≡ after_failed self.old.0 attempt cause }
        ensures ready { self.new.1 ≡ self.old.1 }
    {
        self.dag.failed(attempt, cause)
    }

    /// Whether a grant that is held has denied an attempt of a partition.
    pub fn held(&mut self, stage: StageId, partition: u32, denied: bool)
        ensures state { self.new.0 ≡ after_hold self.old.0 stage partition denied }
        ensures ready { self.new.1 ≡ self.old.1 }
    {
        self.dag.held(stage, partition, denied);
    }

    /// A fetch has shown a generation of an executor's store.
    pub fn raise_seen(&mut self, exec: ExecId, found: Generation)
        ensures state { self.new.0 ≡ after_seen self.old.0 exec found }
        ensures ready { self.new.1 ≡ self.old.1 }
    {
        self.dag.raise_seen(exec, found);
        self.kept.forget();
    }

    /// An executor is told lost.
    pub fn tell_lost(&mut self, exec: ExecId)
        ensures state { self.new.0 ≡ after_lost self.old.0 exec }
        ensures ready { self.new.1 ≡ self.old.1 }
    {
        self.dag.tell_lost(exec);
        self.kept.forget();
    }

    /// An attempt of a stage failed, which is submitted again or has failed too often.
    pub fn stage_failed(&mut self, stage: StageId, number: u64) -> Verdict
        requires { self.old.1 ≡ true }
        ensures { FailsStage self.old.0 stage number result self.new.0 }
    {
        self.dag.stage_failed(stage, number)
    }
}

/// The stages of the job before alone.
fn dag_behind(last: Option<&Stages>) -> Option<&Dag>
    ensures { option_map (λ d. d.now.0) result ≡ option_map (λ l. l.now.0) last.entry }
{
    match last {
        Some(stages) => Some(&stages.dag),
        None => None,
    }
}
