//! What is due at a desk.
#![tactic(auto)]

ghost use Rattle.std.specs.Prelude.{◌≡◌, ◌⊎◌, [], IfSome, None, Some, false, length, true};
ghost use Rattle.sc_desk.specs.DeskData.{core_of};
ghost use Rattle.sc_desk.specs.Dues.{IsBusy, IsDueLoss, IsDueReport, IsIdle, IsOrdered, first_due, first_key, is_any_out};

use crate::desks::Desk;
use crate::shelves::runs;
use sc_core::{Core, Shelved};
use sc_ids::ExecId;
use sc_plan::Order;
use sc_work::Naming;

impl<W: Naming> Desk<W> {
    /// The executor that is to be told lost next, if one is.
    pub fn due_loss(&self) -> Option<ExecId>
        ensures { IsDueLoss (core_of self.now) result }
    {
        self.is_sound();
        first_loss(self.core())
    }

    /// The key of the report that is to be told next, if one is, where this executor asks.
    pub fn due_report(&self, exec: ExecId) -> Option<u32>
        ensures { IsDueReport (core_of self.now) exec result }
    {
        next_report(self.core(), exec)
    }

    /// The order of the fault plan that comes next, if one is due while the job runs. It counts as
    /// handed out from now on.
    pub fn due_order(&mut self) -> Option<Order>
        ensures { IsOrdered W.work self.old result self.new }
    {
        if !runs(self.journal.core()) {
            return None;
        }
        self.work.is_named();
        let told = self.journal.core().told();
        self.ordered.next(self.work.get().plan(), told)
    }
}

/// The first executor that may be told lost.
fn first_loss(core: &Core) -> Option<ExecId>
    requires { length core.now.dag.tracker.trust ≡ core.now.dag.limits.executors }
    ensures { IsDueLoss core.now result }
{
    for exec in 0..core.limits().executors {
        if core.may_be_lost(exec) {
            return Some(exec);
        }
    }
    None
}

/// The key of the report that is to be told next, where this executor asks.
fn next_report(core: &Core, exec: ExecId) -> Option<u32>
    ensures { IsDueReport core.now exec result }
{
    match first_due(core.shelf(), core.told()) {
        Some(key) => Some(key),
        None => first_if_idle(core, exec),
    }
}

/// The key of the first report on the shelf, where nothing else can happen.
fn first_if_idle(core: &Core, exec: ExecId) -> Option<u32>
    ensures due { IfSome result
        (λ key. IsIdle core.now exec × (first_key core.now.shelf ≡ Some key)) }
    ensures none { result ≡ None → (core.now.shelf ≡ []) ⊎ IsBusy core.now exec }
{
    if is_busy(core, exec) {
        None
    } else {
        first_key(core.shelf())
    }
}

/// Whether something else can happen than that a report is told late.
fn is_busy(core: &Core, exec: ExecId) -> bool
    ensures busy { result ≡ true → IsBusy core.now exec }
    ensures idle { result ≡ false → IsIdle core.now exec }
{
    if is_any_out(core) {
        return true;
    }
    match core.next_task(exec) {
        Some(_) => true,
        None => false,
    }
}

/// Whether an attempt is out.
fn is_any_out(core: &Core) -> bool
    ensures { result ≡ is_any_out core.now }
{
    core.running().iter().any(|r| r.is_out)
}

/// The key of the first report on a shelf that is due once so many were told.
fn first_due(shelf: &[Shelved], told: u64) -> Option<u32>
    ensures { result ≡ first_due shelf.now told }
{
    shelf.iter().find(|s| s.due <= told).map(|s| s.key)
}

/// The key of the first report on a shelf.
fn first_key(shelf: &[Shelved]) -> Option<u32>
    ensures { result ≡ first_key shelf.now }
{
    match shelf.first() {
        Some(first) => Some(first.key),
        None => None,
    }
}
