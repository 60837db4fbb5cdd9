//! What an attempt of a save does before it reports.
#![tactic(auto)]

ghost use Rattle.std.specs.Prelude.{◌≡◌, map};
ghost use Rattle.sc_core.specs.Saving.{AsksIf, MovesIf, StagesIf, as_far, come_to, held_back, is_given, is_granted, is_out_of, is_staged, may_save, phase_out, saver_phase};

use crate::answers::SideAnswer;
use crate::attempts::is_of;
use crate::events::FileOutcome;
use crate::running::{Phase, Running};
use crate::states::State;
use sc_commit::Permission;
use sc_ids::AttemptId;

impl State {
    /// An attempt has written its output aside, or tried to.
    pub fn stage(&mut self, attempt: AttemptId, wrote: FileOutcome) -> SideAnswer
        ensures { StagesIf (is_given (saver_phase self.old.0 attempt))
            self.old.0 attempt wrote result self.new.0 }
    {
        if !is_given(self.saver_phase(attempt)) {
            return SideAnswer::Over;
        }
        match wrote {
            FileOutcome::Done => {
                self.come_to(attempt, Phase::Staged);
                SideAnswer::Staged
            }
            FileOutcome::Failed(fault) => {
                self.come_to(attempt, Phase::Faulted(fault));
                SideAnswer::Fault(fault)
            }
        }
    }

    /// An attempt asks whether it may commit. Where a live grant denies it, its partition is held
    /// back until that is freed.
    pub fn ask(&mut self, attempt: AttemptId) -> SideAnswer
        ensures { AsksIf (is_staged (saver_phase self.old.0 attempt))
            self.old.0 attempt result self.new.0 }
    {
        if !is_staged(self.saver_phase(attempt)) {
            return SideAnswer::Over;
        }
        match self.commit.ask(attempt, true) {
            Permission::Granted => {
                self.come_to(attempt, Phase::Granted);
                SideAnswer::Granted
            }
            Permission::Denied { by } => {
                self.hold_back(attempt);
                self.come_to(attempt, Phase::Denied);
                SideAnswer::Denied { by }
            }
            Permission::Over => SideAnswer::Over,
        }
    }

    /// An attempt has moved its output to where it counts, or tried to. Its grant is kept until
    /// its report is told.
    pub fn move_output(&mut self, attempt: AttemptId, renamed: FileOutcome) -> SideAnswer
        ensures { MovesIf (is_granted (saver_phase self.old.0 attempt))
            self.old.0 attempt renamed result self.new.0 }
    {
        if !is_granted(self.saver_phase(attempt)) {
            return SideAnswer::Over;
        }
        match renamed {
            FileOutcome::Done => {
                self.come_to(attempt, Phase::Moved);
                SideAnswer::Moved
            }
            FileOutcome::Failed(fault) => {
                self.come_to(attempt, Phase::Faulted(fault));
                SideAnswer::Fault(fault)
            }
        }
    }

    /// How far an attempt has come that may save: one of the result stage of a running save that
    /// runs and is out.
    pub fn saver_phase(&self, attempt: AttemptId) -> Option<Phase>
        ensures { result ≡ saver_phase self.now.0 attempt }
    {
        if self.may_save(attempt) {
            phase_out(&self.running, attempt)
        } else {
            None
        }
    }

    /// Whether the job runs and saves, and an attempt is of its result stage.
    fn may_save(&self, attempt: AttemptId) -> bool
        ensures { result ≡ may_save self.now.0 attempt }
    {
        self.runs() && self.is_save() && attempt.stage == self.stages.dag().last_stage()
    }

    /// A running attempt that is out has come this far.
    fn come_to(&mut self, attempt: AttemptId, phase: Phase)
        ensures state { self.new.0 ≡ come_to self.old.0 attempt phase }
        ensures ready { self.new.1 ≡ self.old.1 }
    {
        take_to(&mut self.running, attempt, phase);
    }

    /// Where its committer denies, the partition of an attempt is held back.
    fn hold_back(&mut self, attempt: AttemptId)
        ensures state { self.new.0 ≡ held_back self.old.0 attempt }
        ensures ready { self.new.1 ≡ self.old.1 }
    {
        if self.commit.denies(attempt.partition) {
            self.stages.held(attempt.stage, attempt.partition, true);
        }
    }
}

/// How far an attempt has come that runs and is out.
fn phase_out(running: &[Running], attempt: AttemptId) -> Option<Phase>
    ensures { result ≡ phase_out attempt running.now }
{
    running
        .iter()
        .find(|r| is_out_of(r, attempt))
        .map(|r| r.phase)
}

/// Whether a running attempt has these numbers and is out.
fn is_out_of(running: &Running, attempt: AttemptId) -> bool
    ensures { result ≡ is_out_of attempt running.now }
{
    is_of(running, attempt) && running.is_out
}

/// Whether an attempt that may save was handed out, and no more.
pub(crate) fn is_given(phase: Option<Phase>) -> bool
    ensures { result ≡ is_given phase }
{
    match phase {
        Some(Phase::Given) => true,
        Some(Phase::Staged | Phase::Granted | Phase::Denied) => false,
        Some(Phase::Moved | Phase::Faulted(_)) | None => false,
    }
}

/// Whether it has written its output aside, and no more.
fn is_staged(phase: Option<Phase>) -> bool
    ensures { result ≡ is_staged phase }
{
    match phase {
        Some(Phase::Staged) => true,
        Some(Phase::Given | Phase::Granted | Phase::Denied) => false,
        Some(Phase::Moved | Phase::Faulted(_)) | None => false,
    }
}

/// Whether it may commit, and hasn't moved its output yet.
pub(crate) fn is_granted(phase: Option<Phase>) -> bool
    ensures { result ≡ is_granted phase }
{
    match phase {
        Some(Phase::Granted) => true,
        Some(Phase::Given | Phase::Staged | Phase::Denied) => false,
        Some(Phase::Moved | Phase::Faulted(_)) | None => false,
    }
}

/// A running attempt that is out has come this far.
fn take_to(running: &mut Vec<Running>, attempt: AttemptId, phase: Phase)
    ensures { running.new.items ≡ map (as_far attempt phase) running.old.items }
{
    take_each_to(running.as_mut_slice(), attempt, phase);
}

/// The same in a slice.
fn take_each_to(running: &mut [Running], attempt: AttemptId, phase: Phase)
    ensures { running.new ≡ map (as_far attempt phase) running.old }
{
    for one in running.iter_mut() {
        take_one_to(one, attempt, phase);
    }
}

/// The same of one.
fn take_one_to(running: &mut Running, attempt: AttemptId, phase: Phase)
    ensures { running.new ≡ as_far attempt phase running.old }
{
    if is_out_of(running, attempt) {
        running.phase = phase;
    }
}
