//! The limits of a run.
#![tactic(auto)]

ghost use Rattle.std.specs.Prelude.{◌≡◌};
ghost use Rattle.sc_ids.specs.LimitDefaults.{default_limits};

/// The limits of a run.
#[derive(Clone, Copy, Debug, PartialEq, Eq)]
pub struct Limits {
    /// How many counted failures of a partition in one attempt of its stage abort the job.
    pub task_failures: u32,
    /// How many failed attempts of a stage without a completion between abort the job.
    pub stage_attempts: u32,
    /// How many executors there are.
    pub executors: u32,
    /// How many blocks of cached nodes each of them keeps.
    pub cache: u32,
    /// Whether a slow task may get a second copy.
    pub speculation: bool,
    /// How many tasks a job may hand out.
    pub hand_outs: u32,
}

impl Default for Limits {
    fn default() -> Limits
        ensures { result ≡ default_limits }
    {
        Limits {
            task_failures: 4,
            stage_attempts: 4,
            executors: 2,
            cache: 64,
            speculation: false,
            hand_outs: 16_777_216,
        }
    }
}
