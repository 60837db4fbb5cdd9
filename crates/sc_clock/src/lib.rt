//! Clocks: numbers of milliseconds, of which nothing is promised.
//!
//! A [`Clock`] may stand still, jump or go back, and whoever asks it has to be right all the
//! same. [`StepClock`] goes on by the same step at each call, [`ListClock`] gives numbers from a
//! list, and [`HostClock`] reads the system's monotone clock, which alone tells of time.
#![tactic(auto)]

mod clock;
mod host;
mod listed;
mod steps;

pub use clock::Clock;
pub use host::HostClock;
pub use listed::ListClock;
pub use steps::StepClock;
