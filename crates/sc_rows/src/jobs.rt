//! Jobs whose schedulers are asked, with a journal for each.
#![tactic(auto)]

ghost use Rattle.std.specs.Prelude.{◌≡◌, ◌<◌, IfSome, false};
ghost use Rattle.std.specs.Option.{option_map};
ghost use Rattle.sc_dag.specs.Openings.{FitsJob, IsJob};
ghost use Rattle.sc_core.specs.Openings.{IsOpening, tracker_behind};
ghost use Rattle.sc_core.specs.Sound.{HasLive, IsSoundCore};
ghost use Rattle.sc_rows.specs.Jobs.{results_alone, room_of, word_count};

use sc_core::{Core, JobState, Journal, cores_are_sound};
use sc_ids::{Limits, ShuffleId, Stage, StageGraph, StageId, Target};
use sc_plan::{Plan, parse_plan};
use sc_value::Octets;
use std::process::Abort;

/// The journal of a word count over two partitions, which saves its results or doesn't, under a
/// fault plan: stage 0 makes two outputs of a shuffle, and stage 1 reads them for two results.
pub fn counting_under<R: Abort + AllocGlobal>(
    rt: &R,
    limits: Limits,
    saves: bool,
    plan: &str,
) -> Journal
    ensures { room_of result.0.core ≡ 2 }
{
    let graph = word_count(rt, 1);
    let plan = plan_of(rt, plan);
    begun(rt, &graph, limits, saves, &plan, None)
}

/// That of a job behind it whose stage 2 reads the outputs of the same shuffle.
pub fn counting_again<R: Abort + AllocGlobal>(rt: &R, limits: Limits, last: &Core) -> Journal
    requires { room_of last.now ≡ 2 }
{
    let graph = word_count(rt, 2);
    begun(rt, &graph, limits, false, &plan_of(rt, ""), Some(last))
}

/// That of a job without a shuffle of so many results, which it saves or doesn't.
pub fn results_under<R: Abort + AllocGlobal>(
    rt: &R,
    limits: Limits,
    tasks: u32,
    saves: bool,
    plan: &str,
) -> Journal
    requires { 0 < tasks }
{
    let graph = results_alone(rt, tasks);
    begun(rt, &graph, limits, saves, &plan_of(rt, plan), None)
}

/// A plan for two executors.
fn plan_of<R: Abort + AllocGlobal>(rt: &R, text: &str) -> Plan {
    let bytes = Octets::copy_of(rt.alloc(), text.as_bytes()).expect(rt, "memory");
    match parse_plan(rt.alloc(), &bytes, 2) {
        Ok(plan) => plan,
        Err(_) => panic!(rt; "no plan: {text:?}"),
    }
}

/// The journal of a job with these stages, which saves its results or doesn't.
fn begun<R: Abort + AllocGlobal>(
    rt: &R,
    graph: &StageGraph,
    limits: Limits,
    saves: bool,
    plan: &Plan,
    last: Option<&Core>,
) -> Journal
    requires job { IsJob graph.now }
    requires fits { FitsJob (tracker_behind (option_map (λ l. l.now) last) limits) graph.now }
    ensures { IsOpening graph.now limits saves plan.now (option_map (λ l. l.now) last.entry)
        result.0.core }
{
    is_live_behind(rt, limits, last);
    let opening = Core::open(rt.alloc(), graph, limits, saves, plan, last).expect(rt, "memory");
    let core = Core::open(rt.alloc(), graph, limits, saves, plan, last).expect(rt, "memory");
    Journal::begin(rt.alloc(), opening, core)
}

/// The core of the job before is one, and somebody is live behind it, since it is done, or in a
/// first job. A call does nothing.
fn is_live_behind<R: Abort>(rt: &R, limits: Limits, last: Option<&Core>)
    ensures sound { IfSome (option_map (λ l. l.now) last.entry) IsSoundCore }
    ensures live { HasLive (tracker_behind (option_map (λ l. l.now) last.entry) limits) }
{
    cores_are_sound();
    match last {
        None if limits.executors > 0 => {}
        None => panic!(rt; "no executors"),
        Some(core) => {
            core.is_sound();
            match core.job() {
                JobState::Done => {}
                _ => panic!(rt; "the job before isn't done"),
            }
        }
    }
}

/// The stages of a word count whose result stage has this number.
fn word_count<R: Abort + AllocGlobal>(rt: &R, last: StageId) -> StageGraph
    ensures { result ≡ word_count last }
{
    let mut graph = StageGraph::new(rt.alloc());
    let shuffle = ShuffleId { node: 3, side: 0 };
    let map = Stage::new(0, Target::Map(shuffle), 2, Vec::new(rt.alloc()));
    graph.push(map).expect(rt, "memory");
    let mut parents = Vec::new(rt.alloc());
    parents.push(0).expect(rt, "memory");
    let reading = Stage::new(last, Target::Result { node: 3 }, 2, parents);
    graph.push(reading).expect(rt, "memory");
    graph
}

/// One stage of so many results.
fn results_alone<R: Abort + AllocGlobal>(rt: &R, tasks: u32) -> StageGraph
    ensures { result ≡ results_alone tasks }
{
    let mut graph = StageGraph::new(rt.alloc());
    let alone = Stage::new(0, Target::Result { node: 0 }, tasks, Vec::new(rt.alloc()));
    graph.push(alone).expect(rt, "memory");
    graph
}
