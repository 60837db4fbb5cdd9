//! Reports that are to be told later.
#![tactic(auto)]

/// A report that is to be told later.
#[derive(Drop)]
pub struct ShelvedReport<R> {
    /// Its key, which counts up in a job and is never used again there.
    pub key: u32,
    /// It is due once so many reports were told.
    pub due: u64,
    /// What is reported.
    pub report: R,
}
