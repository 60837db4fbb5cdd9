//! Map outputs on two executors, of which one is lost.
#![tactic(auto)]

ghost use Rattle.std.specs.Prelude.{◌≡◌, ◌<◌};

use sc_base::Steps;
use sc_ids::{BlockId, ExecId, Loc, ShuffleId};
use sc_tracker::{Location, Tracker};
use std::marker::Brand;
use std::process::Abort;
use std::sync::ledger::{Blank, Ledger};

/// How many outputs of one shuffle executor 0 has, how many of another one executor 1 has, how many
/// of the first ones are registered again at executor 1, who is lost then, and how many are left.
const ROWS: [(u32, u32, u32, ExecId, u32); 9] = [
    // The loss of an executor with one output looks at no other: that is what its steps promise.
    (1_000, 1, 0, 1, 1_000),
    (1_000, 1, 0, 0, 1),
    (1_000, 1, 0, 2, 1_001),
    // What is registered again goes with its new executor, wherever it was in a list.
    (5, 2, 1, 0, 3),
    (5, 2, 3, 0, 5),
    (5, 2, 3, 1, 2),
    (5, 2, 5, 0, 7),
    (5, 2, 5, 1, 0),
    (0, 0, 0, 0, 0),
];

/// Outputs of a shuffle from one map partition on, registered at an executor.
fn register(tracker: &mut Tracker, node: u32, from: u32, maps: u32, exec: ExecId) {
    let epoch = tracker.epoch();
    for map in from..maps {
        let shuffle = ShuffleId { node, side: 0 };
        let loc = Loc {
            exec,
            generation: 0,
        };
        let _ = tracker.register(BlockId { shuffle, map }, loc, epoch);
    }
}

/// How many outputs are left of two shuffles of so many, of which the first has so many of its
/// last ones registered again, where an executor is told lost: the middle of its executor's list
/// and its front.
fn left_behind<L: Ledger, R: Abort + AllocGlobal>(
    rt: &R,
    outputs: (u32, u32, u32),
    lost: ExecId,
    blank: Blank,
) -> u32
    requires name { blank.name ≡ L.name }
    requires parts { blank.parts ≡ L.parts }
    requires some { 0 < blank.parts }
{
    let (first, second, again) = outputs;
    let mut tracker = Tracker::new(rt.alloc(), 2).expect(rt, "memory");
    for (node, maps) in [(0, first), (1, second)] {
        let shuffle = ShuffleId { node, side: 0 };
        tracker.size_for(shuffle, maps).expect(rt, "memory");
        register(&mut tracker, node, 0, maps, node);
    }
    register(&mut tracker, 0, first.saturating_sub(again), first, 1);
    let mut steps = Steps::<L>::new(blank);
    tracker.unregister_exec(lost, &mut steps);
    let mut left: u32 = 0;
    for (node, maps) in [(0, first), (1, second)] {
        for map in 0..maps {
            let shuffle = ShuffleId { node, side: 0 };
            if let Location::Here(_) = tracker.location(BlockId { shuffle, map }) {
                left = left.saturating_add(1);
            }
        }
    }
    left
}

#[test]
fn a_loss_takes_the_outputs_of_its_executor_alone(rt: HostRuntime) {
    for (first, second, again, lost, expected) in ROWS {
        let outputs = (first, second, again);
        let left = left_behind::<Brand, HostRuntime>(&rt, outputs, lost, Blank::new(1));
        assert!(rt; left == expected, "{first} {second} {again} {lost}: {left}");
    }
}
