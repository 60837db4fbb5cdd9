//! Calls of which nobody counts the steps.
#![tactic(auto)]

ghost use Rattle.std.specs.Prelude.{◌≡◌, ◌<◌};
ghost use Rattle.sc_taskset.specs.Offers.{Offers};
ghost use Rattle.sc_taskset.specs.Reports.{after_loss};
ghost use Rattle.sc_tracker.specs.Tracking.{after_executor_lost};

use sc_base::Steps;
use sc_ids::ExecId;
use sc_taskset::{GivenTask, TaskSet};
use sc_tracker::Tracker;
use std::sync::ledger::{Blank, Ledger};

/// What a task set has for an executor at this time.
pub(crate) fn peek_in<L: Ledger>(
    set: &TaskSet,
    exec: ExecId,
    now: u64,
    blank: Blank,
) -> Option<GivenTask>
    requires name { blank.name ≡ L.name }
    requires parts { blank.parts ≡ L.parts }
    requires some { 0 < blank.parts }
    ensures { Offers set.now exec now result }
{
    let mut steps = Steps::<L>::new(blank);
    set.peek(exec, now, &mut steps)
}

/// An executor told lost to a task set.
pub(crate) fn lose_in<L: Ledger>(set: &mut TaskSet, exec: ExecId, blank: Blank)
    requires name { blank.name ≡ L.name }
    requires parts { blank.parts ≡ L.parts }
    requires some { 0 < blank.parts }
    ensures { set.new ≡ after_loss set.old exec }
{
    let mut steps = Steps::<L>::new(blank);
    set.executor_lost(exec, &mut steps);
}

/// An executor told lost to the tracker.
pub(crate) fn unregister<L: Ledger>(tracker: &mut Tracker, exec: ExecId, blank: Blank)
    requires name { blank.name ≡ L.name }
    requires parts { blank.parts ≡ L.parts }
    requires some { 0 < blank.parts }
    ensures { tracker.new ≡ after_executor_lost tracker.old exec }
{
    let mut steps = Steps::<L>::new(blank);
    tracker.unregister_exec(exec, &mut steps);
}
