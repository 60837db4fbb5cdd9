//! What became of a report that an executor has pushed.
#![tactic(auto)]

ghost use Rattle.std.specs.Prelude.{◌≡◌, [], IfErr, IfSome, None, OnOk, Some};
ghost use Rattle.std.specs.Option.{option_map};
ghost use Rattle.sc_core.specs.declared.events.Event.TheVariants.{Post};
ghost use Rattle.sc_exec.specs.Lefts.{IsAtWork};
ghost use Rattle.sc_exec.specs.Logging.{HasRoom};
ghost use Rattle.sc_exec.specs.Receipts.{Awaits, Hears, IsUnheard, LogsPost, TellsNews, last_post};

use crate::job_desks::JobDesk;
use crate::lefts::Left;
use crate::openings::Opening;
use sc_core::{Answer, Entry, Event, Outcome};
use sc_files::Files;
use sc_ids::{AttemptId, ExecId, Mark};
use sc_logs::{ExecLog, is_by};
use sc_work::Naming;

impl<W: Naming, J: Opening, F: Files> JobDesk<W, J, F> {
    /// The entry of the last report of an executor, where it was posted since the executor's last
    /// task. It takes no memory.
    pub fn receipt(&self, exec: ExecId) -> Option<&Entry>
        ensures { option_map (λ e. e.now) result
            ≡ last_post exec None self.now.desk.journal.entries }
    {
        last_post(self.desk.entries(), exec)
    }

    /// An executor that has pushed a report logs its Post, read off the receipt, before anything
    /// else. Where there is none it has a task out.
    pub(crate) fn settle(&self, log: &mut ExecLog, sent: Option<AttemptId>) -> Result<(), Left>
        requires awaits { Awaits sent log.old }
        ensures hears { OnOk result (Hears self.now.desk.journal.entries log.old sent log.new) }
        ensures works { OnOk result (IsAtWork [] log.new) }
        ensures unheard { IfErr result (IsUnheard sent log.new) }
        ensures exec { log.new.exec ≡ log.old.exec }
        ensures room { HasRoom log.new }
    {
        match sent {
            None => Ok(()),
            Some(attempt) => self.hear(log, attempt),
        }
    }

    /// The same of one that has pushed the report of this attempt.
    fn hear(&self, log: &mut ExecLog, attempt: AttemptId) -> Result<(), Left>
        requires awaits { Awaits (Some attempt) log.old }
        ensures hears { OnOk result
            (Hears self.now.desk.journal.entries log.old (Some attempt) log.new) }
        ensures works { OnOk result (IsAtWork [] log.new) }
        ensures unheard { IfErr result (IsUnheard (Some attempt) log.new) }
        ensures exec { log.new.exec ≡ log.old.exec }
        ensures room { HasRoom log.new }
    {
        match self.receipt(log.exec) {
            Some(entry) => log_post(log, attempt, entry),
            None => Err(Left::Busy { held: attempt }),
        }
    }
}

/// Logs the Post of an attempt, which this entry has, if it is of that attempt.
#[tactic(auto, using(crate::proofs::ReceiptLemmas::heard_owed))]
fn log_post(log: &mut ExecLog, attempt: AttemptId, entry: &Entry) -> Result<(), Left>
    requires awaits { Awaits (Some attempt) log.old }
    ensures logs { OnOk result (LogsPost entry.now log.old attempt log.new) }
    ensures works { OnOk result (IsAtWork [] log.new) }
    ensures unheard { IfErr result (IsUnheard (Some attempt) log.new) }
    ensures exec { log.new.exec ≡ log.old.exec }
    ensures room { HasRoom log.new }
{
    match post_in(entry, attempt) {
        Some(post) => {
            let (outcome, answer) = post;
            log.entries.push_reserved(Entry {
                by: Mark::Exec(log.exec),
                event: Event::Post { attempt, outcome },
                answer,
            });
            Ok(())
        }
        None => Err(Left::Busy { held: attempt }),
    }
}

/// What an entry tells of the last report of an executor.
enum News {
    /// It is that report's.
    Report,
    /// There was none since, for a task was handed out.
    Task,
    /// Nothing.
    Nothing,
}

/// The entry of the last report of an executor, where it was posted since the executor's last task.
#[tactic(auto, using(crate::proofs::Rules::finds_post))]
fn last_post(entries: &[Entry], exec: ExecId) -> Option<&Entry>
    ensures { option_map (λ e. e.now) result ≡ last_post exec None entries.now }
{
    let many = entries.len();
    for seen in 0..many {
        let entry = &entries[many - 1 - seen];
        match news_of(exec, entry) {
            News::Report => return Some(entry),
            News::Task => return None,
            News::Nothing => {}
        }
    }
    None
}

/// What an entry tells of the last report of an executor.
fn news_of(exec: ExecId, entry: &Entry) -> News
    ensures { TellsNews exec entry.now result }
{
    if !is_by(exec, entry) {
        return News::Nothing;
    }
    match &entry.event {
        Event::Post { .. } => News::Report,
        Event::Take { .. } => match &entry.answer {
            Answer::Task(_) => News::Task,
            _ => News::Nothing,
        },
        Event::Release { .. } | Event::TellLost { .. } | Event::Side(_) => News::Nothing,
    }
}

/// What was reported of an attempt, which this entry is of, and what that was answered.
fn post_in(entry: &Entry, attempt: AttemptId) -> Option<(Outcome, Answer)>
    ensures { IfSome result
        (λ o. (entry.now.event ≡ Post attempt o.0) × (entry.now.answer ≡ o.1)) }
{
    let outcome = outcome_of(&entry.event, attempt)?;
    let answer = copied(&entry.answer)?;
    Some((outcome, answer))
}

/// What was reported of an attempt.
fn outcome_of(event: &Event, attempt: AttemptId) -> Option<Outcome>
    ensures { IfSome result (λ o. event.now ≡ Post attempt o) }
{
    match event {
        Event::Post {
            attempt: of,
            outcome,
        } => { if *of == attempt { Some(*outcome) } else { None } }
        _ => None,
    }
}

/// The same answer again, where it hands out no task.
fn copied(answer: &Answer) -> Option<Answer>
    ensures { IfSome result (λ a. answer.now ≡ a) }
{
    match answer {
        Answer::Task(_) => None,
        Answer::Wait { out } => Some(Answer::Wait { out: *out }),
        Answer::Busy { held } => Some(Answer::Busy { held: *held }),
        Answer::Lost => Some(Answer::Lost),
        Answer::Stopped { exec } => Some(Answer::Stopped { exec: *exec }),
        Answer::Ended => Some(Answer::Ended),
        Answer::Aborted(why) => Some(Answer::Aborted(*why)),
        Answer::Ignored => Some(Answer::Ignored),
        Answer::Repeated => Some(Answer::Repeated),
        Answer::Registered => Some(Answer::Registered),
        Answer::Bogus => Some(Answer::Bogus),
        Answer::Finished => Some(Answer::Finished),
        Answer::Again => Some(Answer::Again),
        Answer::Resubmitted => Some(Answer::Resubmitted),
        Answer::Shelved => Some(Answer::Shelved),
        Answer::Told => Some(Answer::Told),
        Answer::Side(side) => Some(Answer::Side(*side)),
    }
}
