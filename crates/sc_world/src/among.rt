//! The attempts and the stores of all executors, of which one goes on.
#![tactic(auto)]

ghost use Rattle.std.specs.Prelude.{◌≡◌, ◌<◌, IfOk, IfSome, None, OnErr, OnOk, Some, is_some, length, true};
ghost use Rattle.sc_base.specs.Lists.{at_or};
ghost use Rattle.sc_ids.specs.Changes.{change_at};
ghost use Rattle.sc_store.specs.Storing.{IsWipe};
ghost use Rattle.sc_task.specs.Attempts.{reported};
ghost use Rattle.sc_desk.specs.Saving.{IsEvidentAnswer};
ghost use Rattle.sc_world.specs.Places.{AreInOrder, ComputesAmong, EvictsAmong, HasPart, IsAside, IsAttemptOf, PutsAmong, ReadStands, ReadsAmong, WipesAmong, held_with, settled};
ghost use Rattle.sc_world.specs.declared.places.AttemptState.{AttemptState};
ghost use Rattle.sc_world.specs.Steps.{phase_of};

use crate::places::Place;
use crate::saving::Part;
use crate::steps::Kept;
use sc_core::SideAnswer;
use sc_desk::Taken;
use sc_ids::{AttemptId, ExecId, Loc};
use sc_net::Report;
use sc_plan::Order;
use sc_store::{Store, WipeAnswer};
use sc_work::Naming;
use std::alloc::{AllocError, Global};

/// What an executor was given: a task it has out from now on.
pub(crate) fn give_among<W: Naming>(
    held: &mut Vec<Place<W>>,
    alloc: Global,
    exec: ExecId,
    taken: Taken<W>,
)
    requires { exec < length held.old.items }
    ensures { held.new.items ≡ held_with held.old.items exec taken }
{
    match taken {
        Taken::Task(task) => held[exec as usize].give(alloc, task),
        Taken::Wait { .. } | Taken::Busy { .. } | Taken::Lost | Taken::Stopped { .. } => {}
        Taken::Ended | Taken::Aborted(_) => {}
    }
}

/// The attempt of an executor reads its next block. A refused call changes nothing.
pub(crate) fn read_among<W: Naming>(
    held: &mut Vec<Place<W>>,
    stores: &[Store<W>],
    exec: ExecId,
) -> Result<(), AllocError>
    requires order { AreInOrder stores.now }
    requires stands { IfSome (at_or held.old.items exec None) (ReadStands stores.now) }
    requires reads { phase_of (at_or held.old.items exec None) ≡ AttemptState.Reads }
    ensures reads { OnOk result (ReadsAmong stores.now exec held.old.items held.new.items) }
    ensures refused { OnErr result (held.new.items ≡ held.old.items) }
{
    held[exec as usize].read(stores)
}

/// The attempt of an executor computes; the answer says how much the executor's store has kept of
/// what it computed. A refused call changes nothing.
pub(crate) fn compute_among<W: Naming>(
    held: &mut Vec<Place<W>>,
    stores: &mut Vec<Store<W>>,
    alloc: Global,
    exec: ExecId,
) -> Result<Kept, AllocError>
    requires there { exec < length stores.old.items }
    requires computes { phase_of (at_or held.old.items exec None) ≡ AttemptState.Computes }
    ensures computes { IfOk result (λ kept. ComputesAmong W.work exec held.old.items
        stores.old.items kept held.new.items stores.new.items) }
    ensures refused { OnErr result (held.new.items ≡ held.old.items) }
    ensures same { OnErr result (stores.new.items ≡ stores.old.items) }
{
    let store = &mut stores[exec as usize];
    held[exec as usize].compute(alloc, store)
}

/// The attempt of an executor puts the block that it has computed into the store of the executor. A
/// refused call changes nothing.
pub(crate) fn put_among<W: Naming>(
    held: &mut Vec<Place<W>>,
    stores: &mut Vec<Store<W>>,
    exec: ExecId,
) -> Result<Loc, AllocError>
    requires there { exec < length stores.old.items }
    requires puts { phase_of (at_or held.old.items exec None) ≡ AttemptState.Puts }
    ensures puts { IfOk result (λ loc. PutsAmong W.work exec held.old.items stores.old.items loc
        held.new.items stores.new.items) }
    ensures refused { OnErr result (held.new.items ≡ held.old.items) }
    ensures same { OnErr result (stores.new.items ≡ stores.old.items) }
{
    let own = &mut stores[exec as usize];
    held[exec as usize].put(own)
}

/// What the attempt of an executor is to write.
pub(crate) fn part_among<W: Naming>(
    held: &[Place<W>],
    alloc: Global,
    exec: ExecId,
) -> Result<Part, AllocError>
    requires stages { phase_of (at_or held.now exec None) ≡ AttemptState.Stages }
    ensures { IfOk result (λ p. HasPart W.work (at_or held.now exec None) p.attempt p.text.items) }
{
    held[exec as usize].part(alloc)
}

/// The numbers of the attempt of an executor.
pub(crate) fn attempt_among<W: Naming>(held: &[Place<W>], exec: ExecId) -> AttemptId
    requires taken { is_some (at_or held.now exec None) ≡ true }
    ensures { IsAttemptOf (at_or held.now exec None) result }
{
    held[exec as usize].attempt()
}

/// The attempt of an executor, which is one of a save, did something beside the reports, which is
/// answered so.
pub(crate) fn settle_among<W: Naming>(held: &mut Vec<Place<W>>, exec: ExecId, answer: SideAnswer)
    requires aside { IsAside (at_or held.old.items exec None) }
    requires evident { IsEvidentAnswer answer }
    ensures { held.new.items ≡ change_at held.old.items exec
        (λ _. settled (at_or held.old.items exec None) answer) }
{
    held[exec as usize].settle(answer);
}

/// The attempt of an executor goes, and what it reports goes on.
pub(crate) fn report_among<W: Naming>(held: &mut Vec<Place<W>>, exec: ExecId) -> Report<W>
    requires reports { phase_of (at_or held.old.items exec None) ≡ AttemptState.Reports }
    ensures held { at_or held.old.items exec None ≡ Some (reported result.task result.finding) }
    ensures gone { held.new.items ≡ change_at held.old.items exec (λ _. None) }
{
    held[exec as usize].take_report()
}

/// An executor has an attempt out that is to report.
pub(crate) fn hold_among<W: Naming>(held: &mut Vec<Place<W>>, exec: ExecId, report: Report<W>)
    requires there { exec < length held.old.items }
    ensures { held.new.items
        ≡ change_at held.old.items exec (λ _. Some (reported report.task report.finding)) }
{
    held[exec as usize].hold(report);
}

/// The store of an order's executor is wiped by it.
pub(crate) fn wipe_among<W: Naming>(stores: &mut Vec<Store<W>>, order: Order) -> WipeAnswer
    requires order { AreInOrder stores.old.items }
    requires there { order.exec < length stores.old.items }
    requires wipes { IsWipe order.kind }
    ensures { WipesAmong order stores.old.items result stores.new.items }
{
    stores[order.exec as usize].wipe(order)
}

/// The store of an executor lets its least recently used cached block go.
pub(crate) fn evict_among<W: Naming>(stores: &mut Vec<Store<W>>, exec: ExecId)
    requires there { exec < length stores.old.items }
    ensures { EvictsAmong exec stores.old.items stores.new.items }
{
    stores[exec as usize].evict();
}
