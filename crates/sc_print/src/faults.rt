//! Why not all actions were printed.
#![tactic(auto)]

use sc_core::Abort;
use sc_lineage::DriverFault;
use sc_value::Name;

/// Why not all actions were printed.
#[derive(Drop)]
pub enum PrintFault {
    /// A job for an action was aborted.
    Aborted {
        /// The number of the action, from 0.
        action: u32,
        /// Why.
        abort: Abort,
    },
    /// An action was to save to a directory that is there already.
    Exists {
        /// The number of the action, from 0.
        action: u32,
        /// The directory, or its staging area.
        path: Name,
    },
    /// A call on the files of an action that saves failed.
    Device {
        /// The number of the action, from 0.
        action: u32,
        /// The path that it was to make, or the directory that it was to remove.
        path: Name,
    },
    /// An action has no text, since its results have no value together.
    Driver {
        /// The number of the action, from 0.
        action: u32,
        /// The fault.
        fault: DriverFault,
    },
    /// The sink failed.
    Write,
}
