//! A clock.
#![tactic(auto)]

/// What tells the time, in milliseconds. It promises nothing: any number may follow any other.
pub trait Clock {
    /// The next number.
    fn now(&mut self) -> u64;
}
