//! Steps of worlds, as lines of a table.
//!
//! Each line is a step of an executor and its answer, which is an entry of the journal where the
//! scheduler gives it. A line `seen 0: 1` isn't a step: it has the greatest generation of the store
//! of executor 0 that was seen. Unlike a run, a world takes its steps in any order.
#![tactic(auto)]

ghost use Rattle.std.specs.Prelude.{◌≡◌, ◌<◌, IfSome, length};
ghost use Rattle.sc_context.specs.Starts.{new_stores};
ghost use Rattle.sc_jobs.specs.JobData.{goal_node};
ghost use Rattle.sc_jobs.specs.declared.goals.Goal.TheVariants as goals;
ghost use Rattle.sc_lineage.specs.ScriptData.{node_of_action};
ghost use Rattle.sc_lineage.specs.Views.{action_data_of};
ghost use Rattle.sc_desk.specs.Files.{dir_of_job};
ghost use Rattle.sc_rows.specs.Worlds.{IsFirstDesk, IsNewlyOpened};
ghost use Rattle.sc_staging.specs.Outputs.{output_dir, output_files};
ghost use Rattle.sc_stagecut.specs.Carrying.{HasBounds};

use crate::files::standing;
use crate::works::{at, halves, numbers_of, work_of};
use sc_compute::TaskResult;
use sc_desk::{Desk, Passed, files_go_on};
use sc_files::{Files, MemFiles};
use sc_jobs::Goal;
use sc_lineage::{Action, NodeId, Work};
use sc_plan::{Order, OrderKind};
use sc_stagecut::{Carried, unbounded_sort};
use sc_staging::{Opened, Output, Staging};
use sc_store::Store;
use sc_value::Name;
use sc_work::{Naming, SharedWork};
use sc_world::{Applied, Kept, Step, World};
use std::marker::{Brand, Model};
use std::process::Abort;
use std::thread::Threads;

/// A count of words in two partitions: stage 0 makes two map outputs, and stage 1 reads them for
/// two results.
pub const WORD_COUNT: &str = r#"
l = text "in.txt" 2
w = flatMap l (words x)
p = map w (pair x 1)
c = reduceByKey p 2 (+ a b)
collect c
"#;

/// A world, and the files of its job.
#[derive(Drop)]
pub struct Going<W: Naming, F: Files> {
    world: World<W>,
    output: Output<F>,
}

impl<W: Naming, F: Files> Model for Going<W, F> {
    ghost use Rattle.sc_world.specs.Files.{OutputStands};
    ghost use Rattle.sc_world.specs.WorldData.{WorldData, world_code};

    ghost Value = { WorldData };

    ghost coded = { world_code };

    ghost view = { λ g. g.world };

    ghost invariant = { λ g. OutputStands W.work g.world F.state g.output };
}

impl<W: Naming, F: Files> Going<W, F> {
    /// The desk, and the files of its job.
    pub fn into_parts(self) -> (Desk<W>, Output<F>) {
        let Going { world, output } = self;
        let (desk, _) = world.into_parts();
        (desk, output)
    }
}

/// The world of the first action of a work, which reads no sort, and the files of its job.
pub fn world_of<W: Naming, F: Files, R: Abort + AllocGlobal>(
    rt: &R,
    work: Work,
    files: F,
) -> Going<W, F>
    requires { work ≡ W.work }
{
    files_go_on();
    let work = SharedWork::<W>::of(rt.alloc(), work).expect(rt, "memory");
    let desk = desk_of(rt, &work);
    desk.core().is_sound();
    let stores = new_stores(rt, &work);
    let output = output_of(rt, &work, files);
    let Ok(world) = World::begin(rt.alloc(), desk, stores) else {
        panic!(rt; "memory")
    };
    Going { world, output }
}

/// The files of the job of the first action: where that saves, its directory is made.
pub fn output_of<W: Naming, F: Files, R: Abort + AllocGlobal>(
    rt: &R,
    work: &SharedWork<W>,
    files: F,
) -> Output<F>
    requires some { 0 < length W.work.script.actions }
    ensures dir { output_dir result ≡ dir_of_job W.work (goals.Action 0) }
    ensures opened { IfSome (output_dir result)
        (λ dir. IfSome (output_files F.state result).shown (IsNewlyOpened dir)) }
{
    work.is_named();
    match work.get().script().actions()[0].saves_to() {
        Some(dir) => match Staging::open(rt.alloc(), files, dir) {
            Opened::Staging(staging) => Output::Save(staging),
            Opened::Exists { .. } | Opened::Device { .. } | Opened::NoMemory { .. } => {
                panic!(rt; "no directory")
            }
        },
        None => Output::Nothing(files),
    }
}

/// The desk of the first action of a work, which reads no sort.
pub fn desk_of<W: Naming, R: Abort + AllocGlobal>(rt: &R, work: &SharedWork<W>) -> Desk<W>
    ensures first { IsFirstDesk W.work result }
    ensures some { 0 < length W.work.script.actions }
{
    work.is_named();
    work.get().is_sound();
    let shared = work.share().expect(rt, "memory");
    let passed = Passed::first(rt.alloc(), work.get()).expect(rt, "memory");
    assert_no_sort(rt, work.get(), &passed.carried);
    let Ok(desk) = Desk::begin(rt.alloc(), shared, passed, None, Goal::Action { number: 0 }) else {
        panic!(rt; "memory")
    };
    desk
}

/// Sees that there is a first action, and that it reads no sort whose bounds weren't found.
fn assert_no_sort<R: Abort + AllocGlobal>(rt: &R, work: &Work, carried: &Carried)
    ensures some { 0 < length work.now.script.actions }
    ensures bounds { HasBounds work.now.script.nodes carried.now
        (goal_node work.now (goals.Action 0)) }
{
    work.is_sound();
    let actions = work.script().actions();
    assert!(rt; !actions.is_empty(), "no action");
    let sort = unbounded_sort(rt.alloc(), work, node_of(&actions[0]), carried);
    match sort.expect(rt, "memory") {
        Some(_) => panic!(rt; "a sort"),
        None => {}
    }
}

/// The node of an action.
fn node_of(action: &Action) -> NodeId
    ensures { result ≡ node_of_action (action_data_of action.now) }
{
    match action {
        Action::Collect { node } => *node,
        Action::Count { node } => *node,
        Action::Reduce { node, .. } | Action::Save { node, .. } => *node,
    }
}

/// An empty store for each executor, in the order of their numbers.
pub fn new_stores<W: Naming, R: Abort + AllocGlobal>(rt: &R, work: &SharedWork<W>) -> Vec<Store<W>>
    ensures { result.items ≡ new_stores W.work }
{
    work.is_named();
    work.get().is_sound();
    let limits = work.get().limits();
    let mut stores = Vec::new(rt.alloc());
    for exec in 0..limits.executors {
        let shared = work.share().expect(rt, "memory");
        let store = Store::make(rt.alloc(), shared, exec, limits.cache).expect(rt, "memory");
        stores.push(store).expect(rt, "memory");
    }
    stores
}

/// The step that the words of a line say.
fn step_of(words: &str, numbers: &[u64]) -> Step {
    let exec = at(numbers, 0);
    if words.starts_with("take ") {
        Step::Take { exec }
    } else if words.starts_with("read ") {
        Step::Read { exec }
    } else if words.starts_with("compute ") {
        Step::Compute { exec }
    } else if words.starts_with("put ") {
        Step::Put { exec }
    } else if words.starts_with("stage ") {
        Step::Stage { exec }
    } else if words.starts_with("ask ") {
        Step::Ask { exec }
    } else if words.starts_with("move ") {
        Step::Move { exec }
    } else if words.starts_with("post ") {
        Step::Post { exec }
    } else if words.starts_with("lose ") {
        Step::TellLost { exec }
    } else if words.starts_with("tick ") {
        Step::Tick {
            now: u64::from(exec),
        }
    } else {
        Step::Wipe(Order {
            exec,
            number: at(numbers, 1),
            kind: if words.ends_with(" of a loss") {
                OrderKind::Lose
            } else {
                OrderKind::Drop
            },
        })
    }
}

/// What a step was answered.
fn told_of<W: Naming, R: Abort + AllocGlobal>(
    rt: &R,
    world: &World<W>,
    applied: &Applied,
) -> String {
    let alloc = rt.alloc();
    let told = match applied {
        Applied::Told(_) | Applied::Noted(_) => {
            let entry = world.desk().entries().last().expect(rt, "an entry");
            format!(in alloc; "{entry}")
        }
        Applied::Computed(Kept::All) => String::from_str(alloc, "done"),
        Applied::Computed(Kept::Short) => String::from_str(alloc, "kept too little"),
        Applied::Put(loc) => {
            let (exec, generation) = (loc.exec, loc.generation);
            format!(in alloc; "at {exec}@{generation}")
        }
        Applied::Wipe(answer) => format!(in alloc; "{answer:?}"),
        Applied::Ordered(_) => String::from_str(alloc, "ordered"),
        Applied::Done => String::from_str(alloc, "done"),
        Applied::NotEnabled => String::from_str(alloc, "not enabled"),
    };
    told.expect(rt, "memory")
}

/// The lines as they are answered, one after the other, and behind them the results that are there
/// and the directories and files that stand.
fn answers_of<W: Naming, R: Abort + AllocGlobal>(rt: &R, work: Work, lines: String) -> String
    requires { work ≡ W.work }
{
    let mut going = world_of::<W, MemFiles, R>(rt, work, MemFiles::new(rt.alloc()));
    let mut told = replayed(rt, &mut going, lines.as_str());
    push_results(rt, going.world.desk(), &mut told);
    let Going { output, .. } = going;
    let stands = standing(rt, &output.close());
    told.push_str(stands.as_str()).expect(rt, "memory");
    told
}

/// The lines as they are answered, one after the other.
pub fn replayed<W: Naming, F: Files, R: Abort + AllocGlobal>(
    rt: &R,
    going: &mut Going<W, F>,
    lines: &str,
) -> String {
    let mut told = String::new(rt.alloc());
    for line in lines.lines() {
        tell(rt, going, line, &mut told);
    }
    told
}

/// Lets the step of a line happen, and writes the line with its answer.
fn tell<W: Naming, F: Files, R: Abort + AllocGlobal>(
    rt: &R,
    going: &mut Going<W, F>,
    line: &str,
    told: &mut String,
) {
    let (words, _) = halves(line, ": ");
    let numbers = numbers_of(rt, words);
    if words.starts_with("seen ") {
        let seen = going.world.desk().seen(at(&numbers, 0));
        writeln!(told, "{words}: {seen}").expect(rt, "memory");
        return;
    }
    let step = step_of(words, &numbers);
    let applied = going.world.apply(rt.alloc(), &mut going.output, step);
    let answer = told_of(rt, &going.world, &applied.expect(rt, "memory"));
    writeln!(told, "{words}: {answer}").expect(rt, "memory");
}

/// Writes the results that are there, in order, as they are printed.
pub fn push_results<W: Naming, R: Abort + AllocGlobal>(rt: &R, desk: &Desk<W>, told: &mut String) {
    let mut out = Vec::new(rt.alloc());
    for result in desk.results() {
        if let Some(TaskResult::Rows(rows)) = result {
            rows.print_lines(&mut out).expect(rt, "memory");
        }
    }
    let results = String::from_utf8(out).ok().expect(rt, "a text");
    told.push_str(results.as_str()).expect(rt, "memory");
}

/// Sees that a case holds of the world of the first action of a script, over this text of `in.txt`.
pub fn assert_world_of<R: Abort + AllocGlobal + Threads + Sync>(
    rt: &R,
    script: &str,
    input: &str,
    case: &str,
) {
    let (label, rest) = halves(case, "\n");
    let (word, rest) = halves(rest, "\n");
    let (plan, rest) = halves(rest, "----\n");
    let (lines, results) = halves(rest, "----\n");
    let work = work_of(rt, script, plan, word, input);
    let steps = String::from_str(rt.alloc(), lines).expect(rt, "memory");
    let seen = answers_of::<Brand, R>(rt, work, steps);
    let want = format!(in rt.alloc(); "{lines}{results}").expect(rt, "memory");
    assert_eq!(rt; seen.as_str(), want.as_str(), "{label}");
}
