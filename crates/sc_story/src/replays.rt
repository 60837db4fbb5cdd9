//! How often the tasks of a run found partitions of cache nodes kept.
#![tactic(auto)]

use crate::cache_reads::tells_reads;
use crate::jobs::JobPlaces;
use crate::keepers::{CacheUses, Keeper, keepers};
use crate::sources::ScriptText;
use crate::tracks::Track;
use sc_core::{Answer, Entry, Event, JobHistory, Outcome, SideEvent};
use sc_ids::{AttemptId, ExecId, FailureCause, Limits, Mark};
use sc_lineage::{Node, Script};
use sc_plan::{Plan, PlanLine};
use std::alloc::{AllocError, Global};

/// The entries so far, told by what executors keep.
#[derive(Drop)]
struct Replay<'a> {
    script: &'a Script,
    places: &'a JobPlaces,
    /// The plan, where there is one executor, which carries out all that is due before each task.
    plan: Option<&'a Plan>,
    /// How many reports were told, where there is one executor.
    told: u64,
    keepers: Vec<Keeper>,
    uses: CacheUses,
}

/// How often the tasks of a run found partitions of cache nodes kept, where its script has such
/// nodes and the entries tell it. A task that is through has used and kept what the cache of its
/// executor says, which nothing changes but that executor's tasks, and lines of the plan that wipe
/// a store or let a partition go. Where one came due, entries show when that is done of one
/// executor alone: before its next task.
pub fn cache_uses(
    alloc: Global,
    history: &[JobHistory],
    text: &ScriptText,
    plan: &Plan,
    track: &Track,
    limits: Limits,
) -> Result<Option<CacheUses>, AllocError> {
    let script = text.script();
    let is_alone = limits.executors == 1;
    let is_shown = is_alone || !touches_caches(plan, track.told);
    if !has_cache(script) || !is_shown || !tells_reads(alloc, script)? {
        return Ok(None);
    }
    let places = JobPlaces::of(alloc, Some(text))?;
    if places.last_of(history).is_none() || limits.cache == 0 {
        return Ok(None);
    }
    let mut replay = Replay {
        script,
        places: &places,
        plan: if is_alone { Some(plan) } else { None },
        told: 0,
        keepers: keepers(alloc, limits)?,
        uses: CacheUses::none(),
    };
    for job in history {
        replay.read_job(alloc, job)?;
    }
    Ok(Some(replay.uses))
}

/// Whether a script has a cache node.
fn has_cache(script: &Script) -> bool {
    for node in script.nodes() {
        if matches!(node, Node::Cache { .. }) {
            return true;
        }
    }
    false
}

/// Whether lines of a plan came due, once so many reports were told, that change what executors
/// keep.
fn touches_caches(plan: &Plan, told: u64) -> bool {
    for line in plan.lines() {
        match *line {
            PlanLine::Drop { after, .. }
            | PlanLine::Lose { after, .. }
            | PlanLine::Evict { after, .. }
                if u64::from(after) <= told => {
                return true;
            }
            _ => {}
        }
    }
    false
}

impl Replay<'_> {
    /// Reads the entries of a job.
    fn read_job(&mut self, alloc: Global, job: &JobHistory) -> Result<(), AllocError> {
        self.told = job.opening.told();
        for entry in job.entries.as_slice() {
            self.read(alloc, entry)?;
            if is_told(entry) {
                self.told = self.told.saturating_add(1);
            }
        }
        Ok(())
    }

    /// Reads an entry.
    fn read(&mut self, alloc: Global, entry: &Entry) -> Result<(), AllocError> {
        let Mark::Exec(exec) = entry.by else {
            return Ok(());
        };
        match entry.event {
            Event::Take { .. } => {
                if let Answer::Task(hand_out) = &entry.answer {
                    self.begin(exec, hand_out.attempt());
                }
                Ok(())
            }
            Event::Post { attempt, outcome } if has_kept(outcome) => {
                self.end(alloc, exec, attempt)
            }
            Event::Side(SideEvent::Stage { attempt, .. }) => self.end(alloc, exec, attempt),
            _ => Ok(()),
        }
    }

    /// An executor begins an attempt.
    fn begin(&mut self, exec: ExecId, attempt: AttemptId) {
        let told = self.told;
        let plan = self.plan;
        if let Some(keeper) = self.keepers.get_mut(exec as usize) {
            keeper.attempt = Some(attempt);
            if let Some(plan) = plan {
                keeper.obey(plan, exec, told);
            }
        }
    }

    /// An executor has kept what its attempt left to keep.
    fn end(&mut self, alloc: Global, exec: ExecId, attempt: AttemptId) -> Result<(), AllocError> {
        let script = self.script;
        if let Some(node) = self.places.numbering.node_of(attempt.stage) {
            if let Some(keeper) = self.keepers.get_mut(exec as usize) {
                let uses = keeper.end(alloc, script, attempt, node)?;
                self.uses.add(uses);
            }
        }
        Ok(())
    }
}

/// Whether a report is told by an entry, in a job of one executor.
fn is_told(entry: &Entry) -> bool {
    match entry.event {
        Event::Post { .. } => !matches!(entry.answer, Answer::Shelved),
        Event::Release { .. } => true,
        Event::Take { .. } | Event::TellLost { .. } | Event::Side(_) => false,
    }
}

/// Whether an attempt that reports this has computed what it was to compute.
fn has_kept(outcome: Outcome) -> bool {
    match outcome {
        Outcome::Map(_) | Outcome::Result => true,
        Outcome::Failed(cause) => {
            matches!(cause, FailureCause::Device(_) | FailureCause::Denied)
        }
    }
}
