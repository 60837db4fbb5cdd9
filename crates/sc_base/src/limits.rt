//! How much is counted.
#![tactic(auto)]

/// The most rows, items or bytes that one list of places counts: a place has 32 bits. What is more
/// is answered as want of memory, and each contract that does so says it.
pub const COUNT_LIMIT: usize = u32::MAX as usize;
