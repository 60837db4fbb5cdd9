//! The limits of scripts. That of partitions is the lineage's, [`sc_lineage::PARTITION_LIMIT`].
#![tactic(auto)]

/// The most bytes that a script may have.
pub const SCRIPT_LIMIT: usize = 65536;

/// The most bytes that a line may have.
pub const LINE_LIMIT: usize = 4096;

/// How deep parentheses may be nested.
pub const DEPTH_LIMIT: usize = 32;

/// The most characters that a word may have.
pub const WORD_LIMIT: usize = 64;

/// The most definitions that a script may have.
pub const NODE_LIMIT: usize = 256;

/// The most actions that a script may have.
pub const ACTION_LIMIT: usize = 64;

/// The most constructors that the type of a node's rows may be written with.
pub const TYPE_LIMIT: u64 = 256;
