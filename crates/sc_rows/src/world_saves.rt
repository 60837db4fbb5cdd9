//! Worlds of a save step by step: what each step is answered, and which files stand in the end.
//!
//! A case has one more word, a plan, and the steps with their answers; behind them what stands.
#![tactic(auto)]

ghost use Rattle.std.specs.Prelude.{◌≡◌};

use crate::files::standing;
use crate::works::work_of;
use crate::world_lines::{replayed, world_of};
use sc_desk::{Desk, Passed, Taken};
use sc_files::MemFiles;
use sc_ids::Mark;
use sc_lineage::Work;
use sc_staging::{Output, Renewed};
use sc_work::Naming;
use std::marker::Brand;
use std::process::Abort;

/// A line that is saved.
pub const SAVE: &str = r#"
l = text "in.txt" 1
save l "out"
"#;

pub const SAVES: &str =
    r#"==== a holder that is told lost behind its move: the part is another attempt's
--executors=2
lose 1 0 0
----
take 1: driver take: task 0.0.0.0, epoch 0
stage 1: not enabled
compute 1: done
put 1: not enabled
ask 1: not enabled
stage 1: driver stage 0.0.0.0: staged
move 1: not enabled
ask 1: driver ask 0.0.0.0: granted
post 1: not enabled
move 1: driver move 0.0.0.0: moved
wipe 1 by order 1 of a loss: Wiped { generation: 1 }
lose 1: driver lost 1: told
take 1: driver take: lost
take 0: driver take: task 0.0.0.1, epoch 1
compute 0: done
stage 0: driver stage 0.0.0.1: staged
ask 0: driver ask 0.0.0.1: granted
move 0: driver move 0.0.0.1: moved
post 0: driver post 0.0.0.1 result: finished
post 1: driver post 0.0.0.0 result: ignored
take 0: driver take: ended
----
out/ out/_temporary/ out/_temporary/c-0-0-0-0=a
 out/_temporary/c-0-0-0-1=a
 ==== a holder that is told lost before its move is over, and its attempt is let go
--executors=2
lose 1 0 0
----
take 1: driver take: task 0.0.0.0, epoch 0
compute 1: done
stage 1: driver stage 0.0.0.0: staged
ask 1: driver ask 0.0.0.0: granted
lose 1: driver lost 1: told
move 1: driver move 0.0.0.0: over
move 1: not enabled
post 1: not enabled
take 0: driver take: task 0.0.0.1, epoch 1
compute 0: done
stage 0: driver stage 0.0.0.1: staged
ask 0: driver ask 0.0.0.1: granted
move 0: driver move 0.0.0.1: moved
post 0: driver post 0.0.0.1 result: finished
----
out/ out/_temporary/ out/_temporary/s-0-0-0-0=a
 out/_temporary/c-0-0-0-1=a
 "#;

/// Two lines that are saved to two parts.
pub const SAVE_TWO: &str = r#"
l = text "in.txt" 2
save l "out"
"#;

pub const COPIES: &str =
    r#"==== a slow attempt is denied by its copy, which asks first, and its part is not committed
--executors=2 --speculation
----
tick 0: driver tick 0: ticked
take 0: driver take: task 0.0.0.0, epoch 0
take 1: driver take: task 0.0.1.0, epoch 0
compute 1: done
stage 1: driver stage 0.0.1.0: staged
ask 1: driver ask 0.0.1.0: granted
move 1: driver move 0.0.1.0: moved
post 1: driver post 0.0.1.0 result: finished
tick 100: driver tick 100: ticked
take 1: driver take: wait for 0.0.0.0
tick 50: driver tick 50: ticked
take 1: driver take: wait for 0.0.0.0
tick 101: driver tick 101: ticked
take 1: driver take: task 0.0.0.1, epoch 0
compute 0: done
compute 1: done
stage 0: driver stage 0.0.0.0: staged
stage 1: driver stage 0.0.0.1: staged
ask 1: driver ask 0.0.0.1: granted
ask 0: driver ask 0.0.0.0: denied by 0.0.0.1
move 0: not enabled
move 1: driver move 0.0.0.1: moved
post 0: driver post 0.0.0.0 failed: denied: again
take 0: driver take: wait for 0.0.0.1
post 1: driver post 0.0.0.1 result: finished
tick 500: driver tick 500: ignored
take 0: driver take: ended
----
out/ out/_temporary/ out/_temporary/c-0-0-1-0=b
 out/_temporary/s-0-0-0-0=a
 out/_temporary/c-0-0-0-1=a
 "#;

/// Three lines in three parts, of which one is staged when the job is given up.
const STAGED: &str = "take 0: driver take: task 0.0.0.0, epoch 0\ncompute 0: done\n\
    stage 0: driver stage 0.0.0.0: staged\n";

/// Which call on the files fails, or none for 0: the third writes that part, then the staging area
/// is removed, and made anew. And what is told of the job that begins again: what its journal had
/// and has, the first task or at which path a call failed, and what stands then.
const AGAIN: [(u64, &str); 3] = [
    (
        0,
        "2 entries, then 0\ntask 0.0.0.0 of 1 entry\nout/ out/_temporary/ ",
    ),
    (
        4,
        "2 entries, then 0\ndevice: out/_temporary\n\
         out/ out/_temporary/ out/_temporary/s-0-0-0-0=1\n ",
    ),
    (5, "2 entries, then 0\ndevice: out/_temporary\nout/ "),
];

/// The desk of a job behind these steps, given up, at which the job begins again, and its files.
fn again<W: Naming, R: Abort + AllocGlobal>(
    rt: &R,
    work: Work,
    files: MemFiles,
    told: &mut String,
) -> (Desk<W>, Output<MemFiles>)
    requires { work ≡ W.work }
{
    let mut going = world_of::<W, MemFiles, R>(rt, work, files);
    let seen = replayed(rt, &mut going, STAGED);
    assert_eq!(rt; seen.as_str(), STAGED);
    let (desk, output) = going.into_parts();
    let work = desk.work();
    work.is_named();
    work.get().is_sound();
    let passed = Passed::first(rt.alloc(), work.get()).expect(rt, "memory");
    let again = desk.again(rt.alloc(), None, passed.ordered);
    let desk = again.begun.ok().expect(rt, "memory");
    let (before, now) = (again.history.entries.len(), desk.entries().len());
    writeln!(told, "{before} entries, then {now}").expect(rt, "memory");
    (desk, output)
}

/// What is told of a job that begins again, where a call on its files fails.
fn told_again<W: Naming, R: Abort + AllocGlobal>(rt: &R, work: Work, failing: u64) -> String
    requires { work ≡ W.work }
{
    let mut told = String::new(rt.alloc());
    let mut files = MemFiles::new(rt.alloc());
    files.fail_at(failing).expect(rt, "memory");
    let (mut desk, output) = again::<W, R>(rt, work, files, &mut told);
    let Output::Save(staging) = output else {
        panic!(rt; "no save")
    };
    let files = match staging.again() {
        Renewed::Staging(staging) => {
            let Taken::Task(task) = desk.take(Mark::Driver, 0).expect(rt, "memory") else {
                panic!(rt; "no task")
            };
            let (attempt, now) = (task.attempt(), desk.entries().len());
            writeln!(told, "task {attempt} of {now} entry").expect(rt, "memory");
            staging.close()
        }
        Renewed::Device { path, files } => {
            let path = path.as_str();
            writeln!(told, "device: {path}").expect(rt, "memory");
            files
        }
        Renewed::NoMemory { .. } => panic!(rt; "memory"),
    };
    let stands = standing(rt, &files);
    told.push_str(stands.as_str()).expect(rt, "memory");
    told
}

#[test]
fn a_job_begins_again_with_nothing_staged(rt: HostRuntime) {
    let script = "l = parallelize 3 1 2 3 4 5\nsave l \"out\"\n";
    for (failing, want) in AGAIN {
        let work = work_of(&rt, script, "", "", "");
        let told = told_again::<Brand, HostRuntime>(&rt, work, failing);
        assert_eq!(&rt; told.as_str(), want);
    }
}
