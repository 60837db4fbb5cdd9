//! Outputs and the lists in which they are, changed together.
#![tactic(auto)]

ghost use Rattle.std.specs.Prelude.{◌≡◌, ◌+◌, ◌<◌, None, length, map};
ghost use Rattle.sc_base.specs.Lists.{at_or};
ghost use Rattle.sc_tracker.specs.Lists.{AreListed, IsList, with_output};
ghost use Rattle.sc_tracker.specs.Outputs.{placed};
ghost use Rattle.sc_tracker.specs.TrackerData.{registered_on};
ghost use Rattle.sc_tracker.specs.Tracking.{with_forgotten_on};

use crate::links::Place;
use crate::lists::Lists;
use crate::shuffles::{ShuffleOutputs, forget_at, has_room_at, output_in, place_at};
use sc_base::Steps;
use sc_ids::{Epoch, ExecId, Loc};
use std::sync::ledger::{Blank, Ledger};

/// Registers the output at a place, where there is room for it: it is in the list of its executor
/// then, and in no other.
pub(crate) fn register_at(
    shuffles: &mut Vec<ShuffleOutputs>,
    lists: &mut Lists,
    place: Place,
    loc: Loc,
    epoch: Epoch,
)
    requires { AreListed shuffles.old.items lists.old }
    ensures outputs { shuffles.new.items
        ≡ with_output shuffles.old.items place (placed loc epoch) }
    ensures listed { AreListed shuffles.new.items lists.new }
    ensures many { length lists.new.firsts ≡ length lists.old.firsts }
{
    if has_room_at(shuffles, place) {
        match output_in(shuffles, place).here {
            Some(old) => lists.remove(old.exec, place),
            None => {}
        }
        lists.push(loc.exec, place);
        place_at(shuffles, place, loc, epoch);
    }
}

/// Forgets the outputs that are registered on an executor. A step is an output that is looked at.
pub(crate) fn forget_on<L: Ledger>(
    shuffles: &mut Vec<ShuffleOutputs>,
    lists: &mut Lists,
    exec: ExecId,
    steps: &mut Steps<L>,
)
    requires listed { AreListed shuffles.old.items lists.old }
    requires there { exec < length lists.old.firsts }
    ensures outputs { shuffles.new.items ≡ map (with_forgotten_on exec) shuffles.old.items }
    ensures listed { AreListed shuffles.new.items lists.new }
    ensures many { length lists.new.firsts ≡ length lists.old.firsts }
    ensures looked { steps.new ≡ steps.old + registered_on shuffles.old.items exec }
{
    forget_listed(shuffles, lists, exec, steps);
    lists.set_first(exec, None);
}

/// The same where nobody counts the steps.
pub(crate) fn forget_on_in<L: Ledger>(
    shuffles: &mut Vec<ShuffleOutputs>,
    lists: &mut Lists,
    exec: ExecId,
    blank: Blank,
)
    requires listed { AreListed shuffles.old.items lists.old }
    requires there { exec < length lists.old.firsts }
    requires name { blank.name ≡ L.name }
    requires parts { blank.parts ≡ L.parts }
    requires some { 0 < blank.parts }
    ensures outputs { shuffles.new.items ≡ map (with_forgotten_on exec) shuffles.old.items }
    ensures listed { AreListed shuffles.new.items lists.new }
    ensures many { length lists.new.firsts ≡ length lists.old.firsts }
{
    let mut steps = Steps::<L>::new(blank);
    forget_on(shuffles, lists, exec, &mut steps);
}

/// Forgets what is in the list of an executor, which stays as it is.
fn forget_listed<L: Ledger>(
    shuffles: &mut Vec<ShuffleOutputs>,
    lists: &Lists,
    exec: ExecId,
    steps: &mut Steps<L>,
)
    requires { IsList shuffles.old.items lists.now.rows exec (at_or lists.now.firsts exec None) }
    ensures outputs { shuffles.new.items ≡ map (with_forgotten_on exec) shuffles.old.items }
    ensures looked { steps.new ≡ steps.old + registered_on shuffles.old.items exec }
{
    let mut next = lists.first(exec);
    while let Some(place) = next {
        steps.tick();
        next = lists.link(place).next;
        forget_at(shuffles, place);
    }
}
