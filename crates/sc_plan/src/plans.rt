//! Fault plans.
#![tactic(auto)]

use crate::lines::PlanLine;
use crate::lookups::{Sought, Table};
use std::alloc::{AllocError, Global};
use std::marker::Model;

/// A fault plan. Contracts see it as the list of its lines in the order of the text; what it is
/// asked lies in tables.
#[derive(Drop)]
pub struct Plan {
    lines: Vec<PlanLine>,
    pub(crate) fails: Table,
    pub(crate) lates: Table,
    pub(crate) twices: Table,
    pub(crate) wipes: Table,
    pub(crate) evicts: Table,
    pub(crate) losses: Table,
}

impl Model for Plan {
    ghost use Rattle.std.specs.Prelude.{List};
    ghost use Rattle.sc_plan.specs.Lookups.{AreTables};
    ghost use Rattle.sc_plan.specs.PlanLines.{IsSoundPlan};
    ghost use Rattle.sc_plan.specs.declared.lines.PlanLine.{PlanLine};

    ghost Value = { List PlanLine };

    ghost view = { λ p. p.lines.items };

    ghost invariant = { λ p. IsSoundPlan p.lines.items
        × AreTables p.lines.items p.fails p.lates p.twices p.wipes p.evicts p.losses };
}

impl Plan {
    ghost use Rattle.std.specs.Prelude.{◌≡◌, IfOk, []};
    ghost use Rattle.sc_plan.specs.PlanLines.{IsSoundPlan};

    /// A plan without lines, under which nothing fails.
    pub fn empty(alloc: Global) -> Plan
        ensures { result ≡ [] }
    {
        Plan {
            lines: Vec::new(alloc),
            fails: Table::empty(alloc),
            lates: Table::empty(alloc),
            twices: Table::empty(alloc),
            wipes: Table::empty(alloc),
            evicts: Table::empty(alloc),
            losses: Table::empty(alloc),
        }
    }

    /// The plan of some lines.
    pub(crate) fn of_lines(alloc: Global, lines: Vec<PlanLine>) -> Result<Plan, AllocError>
        requires { IsSoundPlan lines.items }
        ensures { IfOk result (λ p. p ≡ lines.items) }
    {
        let fails = Table::of_lines(alloc, lines.as_slice(), Sought::Fail)?;
        let lates = Table::of_lines(alloc, lines.as_slice(), Sought::Late)?;
        let twices = Table::of_lines(alloc, lines.as_slice(), Sought::Twice)?;
        let wipes = Table::of_lines(alloc, lines.as_slice(), Sought::Wipe)?;
        let evicts = Table::of_lines(alloc, lines.as_slice(), Sought::Evict)?;
        let losses = Table::of_lines(alloc, lines.as_slice(), Sought::Loss)?;
        Ok(Plan {
            lines,
            fails,
            lates,
            twices,
            wipes,
            evicts,
            losses,
        })
    }

    /// The same plan once more.
    pub fn copied(&self, alloc: Global) -> Result<Plan, AllocError>
        ensures { IfOk result (λ p. p ≡ self.now) }
    {
        Plan::of_lines(alloc, self.lines.as_slice().to_vec(alloc)?)
    }

    /// Its lines, in the order of the text.
    pub fn lines(&self) -> &[PlanLine]
        ensures lines { result.now ≡ self.now }
        ensures sound { IsSoundPlan self.now }
    {
        self.lines.as_slice()
    }
}
