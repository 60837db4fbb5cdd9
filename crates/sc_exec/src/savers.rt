//! What an attempt of a save does at a desk, in step with the log of its executor.
#![tactic(auto)]

ghost use Rattle.std.specs.Prelude.{◌≡◌, ◌<◌, ◌+◌, IfOk, OnErr, length, true, vec_capacity, vec_len};
ghost use Rattle.sc_desk.specs.Files.{part_texts};
ghost use Rattle.sc_desk.specs.Saving.{IsEvidentAnswer};
ghost use Rattle.sc_jobs.specs.JobData.{saves};
ghost use Rattle.sc_staging.specs.Done.{text_of};
ghost use Rattle.sc_exec.specs.JobDesks.{KeepsFiles};
ghost use Rattle.sc_exec.specs.Logging.{AsksBoth, HasRoom, IsLastEvent, IsLoggedLast, IsSameLog, MovesBoth, StagesBoth};

use crate::job_desks::JobDesk;
use crate::openings::Opening;
use sc_core::{Answer, Entry, Event, SideAnswer, SideEvent};
use sc_files::Files;
use sc_ids::{AttemptId, Mark};
use sc_logs::ExecLog;
use sc_output::is_within_types;
use sc_staging::Output;
use sc_work::Naming;
use std::alloc::{AllocError, Global};

impl<W: Naming, J: Opening, F: Files> JobDesk<W, J, F> {
    /// An attempt of an executor asks whether it may commit, and what it was answered is logged. A
    /// refused call changes nothing.
    #[tactic(auto, using(crate::proofs::JobDeskLemmas::job_same))]
    pub fn ask(&mut self, log: &mut ExecLog, attempt: AttemptId) -> Result<SideAnswer, AllocError>
        requires room { HasRoom log.old }
        ensures asked { IfOk result
            (λ answer. AsksBoth self.old.desk log.old attempt answer self.new.desk log.new) }
        ensures files { KeepsFiles self.old self.new }
        ensures refused { OnErr result (self.new ≡ self.old) }
        ensures unlogged { OnErr result (IsSameLog log.old log.new) }
        ensures room { HasRoom log.new }
    {
        log.entries.reserve(2)?;
        let by = Mark::Exec(log.exec);
        let noted = self.desk.note(by, SideEvent::Ask { attempt })?;
        log.entries.push_reserved(Entry {
            by,
            event: Event::Side(SideEvent::Ask { attempt }),
            answer: Answer::Side(noted.answer),
        });
        Ok(noted.answer)
    }

    /// An attempt of an executor that comes next to stage writes its part, which has the text of
    /// its partition, and what it was answered is logged. A refused call changes nothing.
    pub fn stage_part(
        &mut self,
        alloc: Global,
        log: &mut ExecLog,
        attempt: AttemptId,
        text: &[u8],
    ) -> Result<SideAnswer, AllocError>
        requires room { HasRoom log.old }
        requires saves { saves W.work J.opening.job.goal ≡ true }
        requires text { text.now ≡ text_of (part_texts W.work J.opening.job.goal) attempt }
        ensures stages { IfOk result
            (λ answer. StagesBoth self.old log.old attempt text.now answer self.new log.new) }
        ensures evident { IfOk result IsEvidentAnswer }
        ensures refused { OnErr result (self.new ≡ self.old) }
        ensures unlogged { OnErr result (IsSameLog log.old log.new) }
        ensures room { HasRoom log.new }
    {
        log.entries.reserve(2)?;
        is_within_types(attempt);
        let by = Mark::Exec(log.exec);
        let Output::Save(staging) = &mut self.output else {
            unreachable!();
        };
        let noted = self.desk.stage_part(alloc, by, attempt, staging, text)?;
        log_last(log, self.desk.entries(), noted.answer);
        Ok(noted.answer)
    }

    /// An attempt of an executor that comes next to move gives its part the name of a committed
    /// one, and what it was answered is logged. A refused call changes nothing.
    pub fn move_part(
        &mut self,
        alloc: Global,
        log: &mut ExecLog,
        attempt: AttemptId,
    ) -> Result<SideAnswer, AllocError>
        requires room { HasRoom log.old }
        requires saves { saves W.work J.opening.job.goal ≡ true }
        ensures moves { IfOk result
            (λ answer. MovesBoth self.old log.old attempt answer self.new log.new) }
        ensures evident { IfOk result IsEvidentAnswer }
        ensures refused { OnErr result (self.new ≡ self.old) }
        ensures unlogged { OnErr result (IsSameLog log.old log.new) }
        ensures room { HasRoom log.new }
    {
        log.entries.reserve(2)?;
        is_within_types(attempt);
        self.desk.is_sound();
        self.desk.is_replay();
        let by = Mark::Exec(log.exec);
        let Output::Save(staging) = &mut self.output else {
            unreachable!();
        };
        let noted = self.desk.move_part(alloc, by, attempt, staging)?;
        log_last(log, self.desk.entries(), noted.answer);
        Ok(noted.answer)
    }
}

/// An executor logs what happened last, by the entries of a journal, with its answer.
fn log_last(log: &mut ExecLog, entries: &[Entry], answer: SideAnswer)
    requires room { vec_len log.old.entries + 1 < vec_capacity log.old.entries }
    requires some { 0 < length entries.now }
    ensures logged { IsLoggedLast log.old entries.now answer log.new }
    ensures room { HasRoom log.new }
{
    log.entries.push_reserved(Entry {
        by: Mark::Exec(log.exec),
        event: last_event(entries),
        answer: Answer::Side(answer),
    });
}

/// What happened last, by the entries of a journal.
fn last_event(entries: &[Entry]) -> Event
    requires some { 0 < length entries.now }
    ensures { IsLastEvent entries.now result }
{
    entries[entries.len() - 1].event
}
