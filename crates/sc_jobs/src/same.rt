//! Which stages are the same.
#![tactic(auto)]

ghost use Rattle.std.specs.Prelude.{◌≡◌};
ghost use Rattle.std.specs.Cmp.Lexicographic.{pointwise};
ghost use Rattle.sc_jobs.specs.Equality.{same_stage};

use sc_ids::{Stage, StageGraph};

/// Whether two graphs have the same stages.
pub(crate) fn same_graph(a: &StageGraph, b: &StageGraph) -> bool
    ensures { result ≡ pointwise same_stage a.now b.now }
{
    let (a, b) = (a.stages(), b.stages());
    if a.len() != b.len() {
        return false;
    }
    for i in 0..a.len() {
        if !same_stage(&a[i], &b[i]) {
            return false;
        }
    }
    true
}

/// Whether two stages are the same.
fn same_stage(a: &Stage, b: &Stage) -> bool
    ensures { result ≡ same_stage a.now b.now }
{
    a.id() == b.id()
        && a.target() == b.target()
        && a.tasks() == b.tasks()
        && a.parents() == b.parents()
}
