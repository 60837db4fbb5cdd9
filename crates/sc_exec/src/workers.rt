//! Executors with their logs.
#![tactic(auto)]

ghost use Rattle.std.specs.Prelude.{◌≡◌, ◌≤◌, [], length, vec_capacity};
ghost use Rattle.sc_exec.specs.Workers.{lefts_of, logs_of};

use crate::lefts::Left;
use sc_logs::ExecLog;

/// An executor of a job: what it wrote down, and why it takes no more tasks.
#[derive(Drop)]
pub struct Worker {
    /// Its log.
    pub log: ExecLog,
    /// Why it takes no more tasks. Before it has worked this says that memory ran out, which is so
    /// where it never comes to work.
    pub left: Left,
}

/// What executors wrote down, and why each takes no more tasks, in their order. It takes no memory,
/// since there is room for both.
pub fn into_logs(
    workers: Vec<Worker>,
    mut logs: Vec<ExecLog>,
    mut lefts: Vec<Left>,
) -> (Vec<ExecLog>, Vec<Left>)
    requires no_logs { logs.items ≡ [] }
    requires no_lefts { lefts.items ≡ [] }
    requires log_room { length workers.items ≤ vec_capacity logs }
    requires left_room { length workers.items ≤ vec_capacity lefts }
    ensures logs { result.0.items ≡ logs_of workers.items }
    ensures lefts { result.1.items ≡ lefts_of workers.items }
{
    for worker in workers {
        let Worker { log, left } = worker;
        logs.push_reserved(log);
        lefts.push_reserved(left);
    }
    (logs, lefts)
}
