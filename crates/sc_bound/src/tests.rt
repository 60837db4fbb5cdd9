//! The bound of a word count: a map stage of two tasks, and two result tasks that read it.
#![tactic(auto)]

use crate::bounds::hand_out_bound;
use sc_ids::{Limits, ShuffleId, Stage, StageGraph, Target};
use sc_plan::parse_plan;
use sc_value::Octets;
use std::process::Abort;

fn word_count<R: Abort + AllocGlobal>(rt: &R) -> StageGraph {
    let shuffle = ShuffleId { node: 1, side: 0 };
    let map = Stage::new(0, Target::Map(shuffle), 2, Vec::new(rt.alloc()));
    let mut parents = Vec::new(rt.alloc());
    parents.push(0).expect(rt, "memory");
    let reading = Stage::new(1, Target::Result { node: 1 }, 2, parents);
    let mut graph = StageGraph::new(rt.alloc());
    graph.push(map).expect(rt, "memory");
    graph.push(reading).expect(rt, "memory");
    graph
}

#[test]
fn each_planned_loss_lets_more_be_handed_out(rt: HostRuntime) {
    let rows = [
        ("", 40),
        ("fail 0 0 0\nlate 1 0 0 2\nevict 0 1", 40),
        ("drop 0 1", 168),
        ("lose 1 0 0", 440),
    ];
    let graph = word_count(&rt);
    for (text, want) in rows {
        let bytes = Octets::copy_of(rt.alloc(), text.as_bytes()).expect(&rt, "memory");
        match parse_plan(rt.alloc(), &bytes, 2) {
            Ok(plan) => {
                let bound = hand_out_bound(&graph, &plan, &Limits::default());
                assert_eq!(rt; bound, want, "{text:?}");
            }
            Err(_) => panic!(rt; "no plan: {text:?}"),
        }
    }
}
