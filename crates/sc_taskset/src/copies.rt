//! Attempts that run, of which a task has none, one or two.
#![tactic(auto)]

ghost use Rattle.std.specs.Prelude.{◌≡◌, ◌++◌};
ghost use Rattle.std.specs.List.{list_any};
ghost use Rattle.std.specs.Option.{option_map, option_to_list};
ghost use Rattle.sc_taskset.specs.Accounting.{is_single};
ghost use Rattle.sc_taskset.specs.Looks.{is_copy_on};
ghost use Rattle.sc_taskset.specs.Lookups.{copy_at, is_one_elsewhere, without_copy, without_exec};

use crate::tasks::RunningCopy;
use sc_ids::ExecId;

/// An attempt, if it is the one of a number.
pub fn nth_of(copy: Option<RunningCopy>, nth: u32) -> Option<RunningCopy>
    ensures { result ≡ copy_at nth (option_to_list copy) }
{
    copy.filter(|c| c.nth == nth)
}

/// An attempt, unless it is the one of a number.
pub fn unless_nth(copy: Option<RunningCopy>, nth: u32) -> Option<RunningCopy>
    ensures { option_to_list result ≡ without_copy nth (option_to_list copy) }
{
    copy.filter(|c| c.nth != nth)
}

/// An attempt, unless it runs on an executor.
pub fn unless_on(copy: Option<RunningCopy>, exec: ExecId) -> Option<RunningCopy>
    ensures { option_to_list result ≡ without_exec exec (option_to_list copy) }
{
    copy.filter(|c| c.exec != exec)
}

/// Where an attempt runs.
pub fn exec_of(copy: Option<RunningCopy>) -> Option<ExecId>
    ensures { result ≡ option_map (λ c. c.exec) copy }
{
    copy.map(|c| c.exec)
}

/// Whether an attempt runs on an executor.
pub fn is_on(copy: Option<RunningCopy>, exec: ExecId) -> bool
    ensures { result ≡ list_any (is_copy_on exec) (option_to_list copy) }
{
    match copy {
        None => false,
        Some(c) => c.exec == exec,
    }
}

/// Whether exactly one attempt runs.
pub fn is_one(first: Option<RunningCopy>, second: Option<RunningCopy>) -> bool
    ensures { result ≡ is_single (option_to_list first ++ option_to_list second) }
{
    match first {
        None => second.is_some(),
        Some(_) => second.is_none(),
    }
}

/// Whether exactly one attempt runs, on another executor.
pub fn is_one_elsewhere(
    first: Option<RunningCopy>,
    second: Option<RunningCopy>,
    exec: ExecId,
) -> bool
    ensures { result ≡ is_one_elsewhere exec (option_to_list first ++ option_to_list second) }
{
    match first {
        None => is_elsewhere(second, exec),
        Some(copy) => second.is_none() && copy.exec != exec,
    }
}

/// Whether an attempt runs, on another executor.
fn is_elsewhere(copy: Option<RunningCopy>, exec: ExecId) -> bool
    ensures { result ≡ is_one_elsewhere exec (option_to_list copy) }
{
    match copy {
        None => false,
        Some(c) => c.exec != exec,
    }
}
