//! A line that shows how far a run is.
#![tactic(auto)]

use sc_exec::Gate;
use sc_ids::{AttemptId, ExecId};
use sc_told::{Progress, blank};
use sc_value::Octets;
use std::sync::{Mutex, Wait};

/// A gate that shows on standard error, as bars in one line, how far the stages are at which
/// executors work; or one that shows nothing and keeps nobody. A line is printed under the lock, so
/// that none is older than the one before.
#[derive(Drop)]
pub(crate) struct ShowingGate<R: Eprint + AllocGlobal> {
    rt: R,
    shows: bool,
    progress: Mutex<Progress>,
}

impl<R: Eprint + AllocGlobal> ShowingGate<R> {
    /// A gate that shows the stages of a script once that is known, or nothing.
    pub(crate) fn new(rt: R, shows: bool) -> Self {
        let progress = Progress::unknown(rt.alloc());
        ShowingGate {
            rt,
            shows,
            progress: Mutex::new(progress),
        }
    }

    /// The script of the run is known, and no executor works yet.
    pub(crate) fn foresee(&self, script: &Octets) {
        if self.shows {
            if let Ok(begun) = Progress::of_script(self.rt.alloc(), script) {
                if let Some(mut progress) = self.progress.try_lock() {
                    *progress = begun;
                }
            }
        }
    }

    /// Blots out what is shown.
    pub(crate) fn clear(&self) {
        if self.shows {
            let _ = self.rt.eprint(blank());
        }
    }

    /// Shows how far the run is where an executor begins a task.
    fn show(&self, progress: &mut Progress, exec: ExecId, attempt: AttemptId) {
        if let Ok(text) = progress.begin(self.rt.alloc(), exec, attempt) {
            let _ = self.rt.eprint(text);
        }
    }
}

impl<R: Eprint + AllocGlobal> Gate for ShowingGate<R> {
    fn enter<W: Wait>(&self, rt: &W, exec: ExecId, attempt: AttemptId) {
        if self.shows {
            let mut progress = self.progress.lock(rt);
            self.show(&mut progress, exec, attempt);
        }
    }
}
