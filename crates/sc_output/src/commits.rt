//! The commit and the abort of a job that saves.
#![tactic(auto)]

ghost use Rattle.std.specs.Prelude.{◌≡◌, List, [], ◌∷◌, IfSome, map, true};
ghost use Rattle.sc_base.specs.Outside.{IsLaterFiles};
ghost use Rattle.sc_base.specs.Saves.{success_path};
ghost use Rattle.sc_base.specs.Trees.{has_place};
ghost use Rattle.sc_output.specs.Calls.{AreOpen, IsOpen, MakesCalls, remove_call, write_call};
ghost use Rattle.sc_output.specs.Commits.{AreWinnersFrom, IsReady, abort_calls, commit_calls, final_rename};
ghost use Rattle.sc_output.specs.Ends.{EndsAs};
ghost use Rattle.sc_output.specs.Names.{staging_path};

use crate::names::{committed_name, final_name, staging_name, success_name};
use sc_base::OrMemory;
use sc_files::{FileAnswer, Files};
use sc_ids::AttemptId;
use sc_value::Name;
use std::alloc::Global;

/// Commits a job: renames the file of each winner to the final name of its partition, in order,
/// then removes the staging area, and then writes an empty `_SUCCESS`.
///
/// The first call that fails ends it, and the fault is its path, which is the new one of a rename.
/// Nothing is taken back then. Where memory runs out, the calls before that stand.
pub fn commit_job<F: Files>(
    alloc: Global,
    files: &mut F,
    dir: &Name,
    winners: &[AttemptId],
) -> Result<(), OrMemory<Name>>
    requires winners { AreWinnersFrom 0 winners.now }
    requires ready { IfSome (F.state files.old).shown (IsReady dir.now winners.now) }
    ensures later { IsLaterFiles (F.state files.old) (F.state files.new) }
    ensures calls { MakesCalls (commit_calls dir.now winners.now)
        (F.state files.old) (F.state files.new) result }
{
    rename_parts(alloc, files, dir, winners)?;
    finish(alloc, files, dir)
}

/// Aborts a job: removes the staging area with all that attempts wrote, and leaves the directory.
/// Where that fails, the fault is the staging area's path.
pub fn abort_job<F: Files>(alloc: Global, files: &mut F, dir: &Name) -> Result<(), OrMemory<Name>>
    ensures later { IsLaterFiles (F.state files.old) (F.state files.new) }
    ensures calls { MakesCalls (abort_calls dir.now)
        (F.state files.old) (F.state files.new) result }
{
    remove_staging(alloc, files, dir)
}

/// Renames the file of each winner, in order.
fn rename_parts<F: Files>(
    alloc: Global,
    files: &mut F,
    dir: &Name,
    winners: &[AttemptId],
) -> Result<(), OrMemory<Name>>
    requires { IfSome (F.state files.old).shown
        (AreOpen (map (final_rename dir.now) winners.now)) }
    ensures later { IsLaterFiles (F.state files.old) (F.state files.new) }
    ensures calls { MakesCalls (map (final_rename dir.now) winners.now)
        (F.state files.old) (F.state files.new) result }
{
    for winner in winners {
        rename_part(alloc, files, dir, *winner)?;
    }
    Ok(())
}

/// Renames the file of a winner.
fn rename_part<F: Files>(
    alloc: Global,
    files: &mut F,
    dir: &Name,
    winner: AttemptId,
) -> Result<(), OrMemory<Name>>
    requires { IfSome (F.state files.old).shown (IsOpen (final_rename dir.now winner)) }
    ensures later { IsLaterFiles (F.state files.old) (F.state files.new) }
    ensures calls { MakesCalls (final_rename dir.now winner ∷ [])
        (F.state files.old) (F.state files.new) result }
{
    let from = committed_name(alloc, dir, winner)?;
    let to = final_name(alloc, dir, winner.partition)?;
    let answer = files.rename(&from, &to);
    ended(answer, to)
}

/// Removes the staging area, and says that all is there.
fn finish<F: Files>(alloc: Global, files: &mut F, dir: &Name) -> Result<(), OrMemory<Name>>
    requires { IfSome (F.state files.old).shown
        (AreOpen (remove_call (staging_path dir.now) ∷ write_call (success_path dir.now) [] ∷ [])) }
    ensures later { IsLaterFiles (F.state files.old) (F.state files.new) }
    ensures calls { MakesCalls
        (remove_call (staging_path dir.now) ∷ write_call (success_path dir.now) [] ∷ [])
        (F.state files.old) (F.state files.new) result }
{
    remove_staging(alloc, files, dir)?;
    write_success(alloc, files, dir)
}

/// Removes the staging area.
fn remove_staging<F: Files>(alloc: Global, files: &mut F, dir: &Name) -> Result<(), OrMemory<Name>>
    ensures later { IsLaterFiles (F.state files.old) (F.state files.new) }
    ensures calls { MakesCalls (remove_call (staging_path dir.now) ∷ [])
        (F.state files.old) (F.state files.new) result }
{
    let staging = staging_name(alloc, dir)?;
    let answer = files.remove_tree(&staging);
    ended(answer, staging)
}

/// Writes the file that says that all is there.
fn write_success<F: Files>(alloc: Global, files: &mut F, dir: &Name) -> Result<(), OrMemory<Name>>
    requires { IfSome (F.state files.old).shown (IsOpen (write_call (success_path dir.now) [])) }
    ensures later { IsLaterFiles (F.state files.old) (F.state files.new) }
    ensures calls { MakesCalls (write_call (success_path dir.now) [] ∷ [])
        (F.state files.old) (F.state files.new) result }
{
    let success = success_name(alloc, dir)?;
    let answer = files.write(&success, &[]);
    ended(answer, success)
}

/// What is answered for a call that was to make this path, or to remove it.
fn ended(answer: FileAnswer, path: Name) -> Result<(), OrMemory<Name>>
    ensures { EndsAs answer path result }
{
    match answer {
        FileAnswer::Done => Ok(()),
        FileAnswer::NoDir | FileAnswer::NoFile | FileAnswer::Failed => Err(OrMemory::Fault(path)),
        FileAnswer::OutOfMemory => Err(OrMemory::OutOfMemory),
    }
}
