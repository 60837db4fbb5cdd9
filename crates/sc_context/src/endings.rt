//! A job that is over: how it went is recorded.
#![tactic(auto)]

ghost use Rattle.std.specs.Option.{option_to_list};
ghost use Rattle.std.specs.Prelude.{◌≡◌, ◌++◌, IfErr, IfOk, IfSome, Ok, Option};
ghost use Rattle.sc_base.specs.Outside.{FilesState};
ghost use Rattle.sc_base.specs.Trees.{Path};
ghost use Rattle.sc_context.specs.Endings.{CanBeKept, IsOver, IsRecorded, given_by};
ghost use Rattle.sc_context.specs.Goings.{RunsFrom};
ghost use Rattle.sc_context.specs.Records.{AreKept, HasRoom, HasRoomToKeep, IsGivenUp, histories_of};
ghost use Rattle.sc_core.specs.CoreData.{CoreData};
ghost use Rattle.sc_desk.specs.DeskData.{PassedData};
ghost use Rattle.sc_jobs.specs.declared.goals.Goal.{Goal};
ghost use Rattle.sc_lineage.specs.ScriptData.{WorkData};

use crate::records::{GaveUp, Records};
use crate::running::Run;
use crate::stops::Stopped;
use crate::went::Went;
use sc_compute::TaskResult;
use sc_desk::Passed;
use sc_exec::Stores;
use sc_files::Files;
use sc_work::{Naming, SharedWork};

/// A job that is done, and what goes on behind it.
#[derive(Drop)]
pub(crate) struct Ended<W: Naming, F: Files> {
    pub(crate) work: SharedWork<W>,
    pub(crate) passed: Passed,
    pub(crate) stores: Stores<W>,
    pub(crate) records: Records,
    pub(crate) actions: u32,
    /// Its results.
    pub(crate) results: Vec<TaskResult>,
    pub(crate) files: F,
}

/// Records what came of a job, for which there is room, and hands on what it left where it has
/// results. It takes no memory.
pub(crate) fn end_job<W: Naming, F: Files>(
    work: SharedWork<W>,
    actions: u32,
    mut records: Records,
    run: Run<W, F>,
) -> Result<Ended<W, F>, Stopped<F>>
    requires room { HasRoom records }
    requires before { AreKept W.work records }
    requires run { CanBeKept W.work run }
    ensures went { (passed : PassedData) (last : Option CoreData) (goal : Goal)
        (dir : Option Path) (opened : FilesState)
        → RunsFrom W.work F.state passed last goal dir opened run
        → IfOk result (λ e. IsRecorded W.work passed last goal dir opened
        records.histories.items (histories_of records.gave_up.items) e.records.histories.items
        (histories_of e.records.gave_up.items) e.passed (Ok e.results) (F.state e.files)) }
    ensures over { (passed : PassedData) (last : Option CoreData) (goal : Goal)
        (dir : Option Path) (opened : FilesState)
        → RunsFrom W.work F.state passed last goal dir opened run
        → IfErr result (λ s. IsOver W.work passed last goal dir opened records.histories.items
        (histories_of records.gave_up.items) s.records.histories.items
        (histories_of s.records.gave_up.items) s.why (F.state s.files)) }
    ensures actions { IfOk result (λ e. e.actions ≡ actions) }
    ensures recorded { IfOk result (λ e. AreKept W.work e.records) }
    ensures kept { IfErr result (λ s. AreKept W.work s.records) }
    ensures given { IfOk result (λ e. e.records.gave_up.items
        ≡ records.gave_up.items ++ option_to_list (given_by run)) }
    ensures given_over { IfErr result (λ s. s.records.gave_up.items
        ≡ records.gave_up.items ++ option_to_list (given_by run)) }
{
    match run {
        Run::Went {
            went,
            logs,
            gave_up,
            stores,
        } => {
            keep_given_up(&mut records, gave_up);
            let Went {
                history,
                passed,
                results,
                files,
            } = went;
            history.opening.is_sound();
            history.end.is_sound();
            records.keep(history, logs);
            match results {
                Ok(results) => Ok(Ended {
                    work,
                    passed,
                    stores,
                    records,
                    actions,
                    results,
                    files,
                }),
                Err(why) => Err(Stopped {
                    why,
                    records,
                    files,
                }),
            }
        }
        Run::Refused {
            gave_up,
            why,
            files,
        } => {
            records.give_up(gave_up);
            Err(Stopped {
                why,
                records,
                files,
            })
        }
    }
}

/// Records a job that was given up before it ran again, where it was.
fn keep_given_up(records: &mut Records, gave_up: Option<GaveUp>)
    requires room { HasRoom records.old }
    ensures room { HasRoomToKeep records.new }
    ensures kept { (work : WorkData) → AreKept work records.old
        → IfSome gave_up (IsGivenUp work) → AreKept work records.new }
    ensures histories { records.new.histories.items ≡ records.old.histories.items }
    ensures given { records.new.gave_up.items
        ≡ records.old.gave_up.items ++ option_to_list gave_up }
{
    match gave_up {
        Some(gave_up) => records.give_up(gave_up),
        None => {}
    }
}
