//! Actions.
#![tactic(auto)]

use sc_lineage::DriverFault;
use sc_value::Octets;

/// What an action gave.
#[derive(Drop)]
pub enum Evaluated {
    /// Its text.
    Prints(Octets),
    /// A directory with the part of each partition, which the tasks leave.
    Saves,
    /// A fault of the driver, where the results are put together.
    Faults(DriverFault),
    /// Nothing ever, since a partition raises.
    Never {
        /// The first that does.
        partition: u32,
    },
}
