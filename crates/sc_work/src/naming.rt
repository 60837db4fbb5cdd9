//! Which work it is, as proofs know it.
#![tactic(auto)]

ghost use Rattle.std.specs.Prelude.{[]};
ghost use Rattle.sc_ids.specs.LimitDefaults.{default_limits};
ghost use Rattle.sc_lineage.specs.ScriptData.{WorkData, work_data};

use std::marker::Brand;

/// A type that stands for a work. It has no bytes.
pub trait Naming {
    ghost work: { WorkData };
}

/// Any work: a run that begins with a work says which one its brand is.
impl Naming for Brand {
    ghost work = { work_data (record { nodes = []; actions = [] }) [] [] default_limits };
}
