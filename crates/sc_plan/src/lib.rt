//! Fault plans: what a run is to survive, as a text of a line for each fault.
//!
//! [`parse_plan`] reads a plan as `specs/` says: `Tables.antt` has the kinds of lines, how each is
//! written and how many numbers it takes, `PlanLines.antt` the line that these make and which lines
//! say the same, `LineReading.antt` the five tests of a line as one chain, and `Plans.antt` which
//! bytes are which plan and which have which fault. The limits are in `Limits.antt`.
//!
//! A [`Plan`] is asked which attempts fail and whose reports come late or twice, by
//! `specs/Attempts.antt`, and by `specs/Orders.antt` which stores are wiped, which caches let a
//! block go, and which executors are told lost, each once so many reports were told. A wipe or an
//! eviction is an [`Order`], numbered for each executor by when it is due and then by line.
//!
//! Contracts see a plan as the list of its lines, and nothing of how it is looked up. Nothing here
//! happens: the scheduler carries a plan out. Texts come from `sc_value`, names from `sc_ids`.
#![tactic(auto)]

mod attempts;
mod faults;
mod laws;
mod limits;
mod lines;
mod lookups;
mod orders;
mod parsing;
mod plans;
mod reading;
mod tables;

pub use faults::{PlanError, PlanFault, PlanFaultKind};
pub use laws::{orders_are_numbered, plans_have_one_reading, readers_are_exact};
pub use lines::{AttemptPlace, PlanLine};
pub use orders::{Order, OrderKind};
pub use parsing::parse_plan;
pub use plans::Plan;
