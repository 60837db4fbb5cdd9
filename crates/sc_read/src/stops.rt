//! Why a reading stopped.
#![tactic(auto)]

use sc_plan::PlanFault;
use sc_script::ScriptFault;
use sc_value::Name;

/// Why a name gave no bytes.
#[derive(Clone, Copy)]
pub enum Unreadable {
    /// There is no file of this name.
    Missing,
    /// The file couldn't be read.
    Failed,
}

/// Why there is no script.
#[derive(Clone, Copy)]
pub enum ScriptStop {
    /// Its file gave no bytes.
    Unreadable(Unreadable),
    /// Its bytes have this fault.
    Faulty(ScriptFault),
}

/// Why there is no plan.
#[derive(Drop)]
pub enum PlanStop {
    /// Its file gave no bytes.
    Unreadable {
        /// Its name.
        name: Name,
        /// Why it gave none.
        why: Unreadable,
    },
    /// Its bytes have this fault.
    Faulty(PlanFault),
}

/// Why an input wasn't taken.
#[derive(Drop)]
pub enum InputStop {
    /// Its file gave no bytes.
    Unreadable {
        /// Its name.
        name: Name,
        /// Why it gave none.
        why: Unreadable,
    },
    /// Its bytes aren't UTF-8.
    NotText {
        /// Its name.
        name: Name,
    },
}
