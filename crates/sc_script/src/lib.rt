//! The grammar of scripts: from bytes to a checked script, or to the fault of the first line that
//! has one.
//!
//! [`parse`] reads a script as `specs/` says: `Tokens.antt` which bytes of a line are tokens,
//! `Trees.antt` which tokens have the form of a line, `Tables.antt` how operations, actions and
//! heads are written and what each takes, `Fitting.antt` the one checker of arguments,
//! `Items.antt` the node or the action that arguments make, `Lines.antt` the nine tests of a line
//! as one chain, and `Scripts.antt` which bytes are which script and which have which fault.
//!
//! A further operation is a line in the table of words, a line of what it takes, and a line of
//! `node_from`, in the definitions and in the code. Scripts have the limits of `Limits.antt`.
//! What a script means is the lineage's; nothing here runs.
#![tactic(auto)]

mod arguments;
mod counts;
mod defined;
mod faults;
mod fitting;
mod items;
mod laws;
mod limits;
mod lines;
mod literals;
mod parsing;
mod tables;
mod tokens;
mod trees;

pub use faults::{FaultKind, ParseError, ScriptFault};
pub use laws::{scripts_have_one_reading, tables_are_exact};
pub use parsing::parse;
