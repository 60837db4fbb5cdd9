//! What the files of a save are called.
#![tactic(auto)]

ghost use Rattle.std.specs.Prelude.{◌++◌, ◌≡◌, IfOk};
ghost use Rattle.sc_base.specs.Saves.{final_path, success_path};
ghost use Rattle.sc_output.specs.Names.{committed_path, dashed, staged_path, staging_path};

use sc_ids::AttemptId;
use sc_value::Name;
use std::alloc::{AllocError, Global};

/// The directory in which attempts write.
pub fn staging_name(alloc: Global, dir: &Name) -> Result<Name, AllocError>
    ensures { IfOk result (λ name. name ≡ staging_path dir.now) }
{
    let dir = dir.as_str();
    let path = format!(in alloc; "{dir}/_temporary")?;
    Name::new(alloc, path.as_str())
}

/// The file that an attempt writes.
pub fn staged_name(alloc: Global, dir: &Name, attempt: AttemptId) -> Result<Name, AllocError>
    ensures { IfOk result (λ name. name ≡ staged_path dir.now attempt) }
{
    attempt_name(alloc, dir, "/_temporary/s-", attempt)
}

/// The file that a granted attempt makes of the one that it wrote.
pub fn committed_name(alloc: Global, dir: &Name, attempt: AttemptId) -> Result<Name, AllocError>
    ensures { IfOk result (λ name. name ≡ committed_path dir.now attempt) }
{
    attempt_name(alloc, dir, "/_temporary/c-", attempt)
}

/// A file in `dir` that is called by the numbers of an attempt.
fn attempt_name(
    alloc: Global,
    dir: &Name,
    start: &str,
    attempt: AttemptId,
) -> Result<Name, AllocError>
    ensures { IfOk result (λ name. name ≡ dir.now ++ (start.now ++ dashed attempt)) }
{
    let dir = dir.as_str();
    let AttemptId {
        stage,
        stage_attempt,
        partition,
        nth,
    } = attempt;
    let path = format!(in alloc; "{dir}{start}{stage}-{stage_attempt}-{partition}-{nth}")?;
    Name::new(alloc, path.as_str())
}

/// The file of a partition in the end. Its number has at least five digits.
pub fn final_name(alloc: Global, dir: &Name, partition: u32) -> Result<Name, AllocError>
    ensures { IfOk result (λ name. name ≡ final_path dir.now partition) }
{
    let dir = dir.as_str();
    let front = partition / 10_000;
    let thousands = partition / 1_000 % 10;
    let hundreds = partition / 100 % 10;
    let tens = partition / 10 % 10;
    let ones = partition % 10;
    let path = format!(in alloc; "{dir}/part-{front}{thousands}{hundreds}{tens}{ones}")?;
    Name::new(alloc, path.as_str())
}

/// The empty file that says that all parts are there.
pub fn success_name(alloc: Global, dir: &Name) -> Result<Name, AllocError>
    ensures { IfOk result (λ name. name ≡ success_path dir.now) }
{
    let dir = dir.as_str();
    let path = format!(in alloc; "{dir}/_SUCCESS")?;
    Name::new(alloc, path.as_str())
}
