//! What goes on from job to job.
#![tactic(auto)]

ghost use Rattle.std.specs.Prelude.{◌≡◌, [], IfOk, None, length, replicate};
ghost use Rattle.sc_stagecut.specs.Carrying.{carried_data};
ghost use Rattle.sc_desk.specs.Begins.{IsPassedFor};
ghost use Rattle.sc_desk.specs.Orders.{no_orders};

use crate::orders::Orders;
use sc_lineage::Work;
use sc_stagecut::Carried;
use std::alloc::{AllocError, Global};
use std::marker::Model;

/// What goes on from job to job of a run.
#[derive(Drop)]
pub struct Passed {
    /// The stages and bounds that were found.
    pub carried: Carried,
    /// How many orders of the fault plan were handed out.
    pub ordered: Orders,
}

impl Model for Passed {
    ghost use Rattle.sc_desk.specs.DeskData.{PassedData, passed_code, passed_data};

    ghost Value = { PassedData };

    ghost coded = { passed_code };

    ghost view = { λ p. passed_data p.carried p.ordered };
}

impl Passed {
    /// What the first job of a work begins with: no stage, no bounds, and no order handed out.
    pub fn first(alloc: Global, work: &Work) -> Result<Passed, AllocError>
        ensures passed { IfOk result (λ p. IsPassedFor work.now p) }
        ensures nothing { IfOk result (λ p. p.carried
            ≡ carried_data [] 0 (replicate (length work.now.script.nodes) None)) }
        ensures none { IfOk result
            (λ p. p.ordered ≡ replicate work.now.limits.executors no_orders) }
    {
        Ok(Passed {
            carried: Carried::new(alloc, work.script().nodes().len())?,
            ordered: Orders::new(alloc, work.limits().executors)?,
        })
    }
}
