//! What is done at the store of an executor, which is locked meanwhile.
#![tactic(auto)]

ghost use Rattle.std.specs.Prelude.{◌≡◌, [], IfErr, IfOk, OnErr, OnOk, true};
ghost use Rattle.sc_desk.specs.Posts.{Posts};
ghost use Rattle.sc_net.specs.Reports.{IsTrueReport};
ghost use Rattle.sc_net.specs.Tasks.{is_map_task, target_of_task};
ghost use Rattle.sc_task.specs.Caches.{KeepsEach, TakesCached};
ghost use Rattle.sc_task.specs.Nexts.{FetchesFrom, next_of};
ghost use Rattle.sc_task.specs.States.{computed_data, read_data};
ghost use Rattle.sc_task.specs.Steps.{PutsOwn};
ghost use Rattle.sc_exec.specs.Fetching.{GetsFrom, IsBarred, IsOfNoStore, LacksFrom};
ghost use Rattle.sc_exec.specs.Performing.{IsPrepared};
ghost use Rattle.sc_exec.specs.Places.{IsCarriedOut, IsWantOfMemory};

use crate::lefts::Left;
use crate::performing::{Got, Prepared};
use sc_desk::{Desk, Posted};
use sc_ids::{AttemptId, ExecId, Loc, Mark};
use sc_net::Report;
use sc_plan::{Order, OrderKind};
use sc_store::Store;
use sc_task::{Assigned, Computed, Read, Took};
use sc_work::Naming;
use std::alloc::{AllocFailed, Global};
use std::marker::Model;

/// A block isn't in the store at which it was to lie, and no wipe since tells why. Only who goes
/// for it there makes one ([`crate::Stores`]).
#[derive(Clone, Copy, Debug, PartialEq, Eq)]
pub struct Absence {
    loc: Loc,
}

impl Absence {
    /// Where it was to lie.
    pub fn loc(&self) -> Loc
        ensures { result ≡ self.now.loc }
    {
        self.loc
    }
}

/// What an attempt reports, of a store only what was seen or left there ([`crate::Stores`]).
#[derive(Drop)]
pub struct Witnessed<W: Naming> {
    report: Report<W>,
}

impl<W: Naming> Model for Witnessed<W> {
    ghost use Rattle.sc_net.specs.Reports.{ReportData, report_code};

    ghost Value = { ReportData };

    ghost coded = { report_code };

    ghost view = { λ w. w.report };
}

impl<W: Naming> Witnessed<W> {
    /// A report that says nothing of a store.
    pub(crate) fn of(report: Report<W>) -> Witnessed<W>
        requires storeless { IsOfNoStore report.finding }
        ensures { result ≡ report }
    {
        Witnessed { report }
    }

    /// The report.
    pub(crate) fn into_report(self) -> Report<W>
        ensures { result ≡ self }
    {
        self.report
    }

    /// Which attempt it is of.
    pub(crate) fn attempt(&self) -> AttemptId
        ensures { result ≡ self.now.task.hand_out.attempt }
    {
        self.report.attempt()
    }

    /// It comes to a desk. Where memory ran out it is handed back.
    pub(crate) fn come_to(
        self,
        desk: &mut Desk<W>,
        by: Mark,
    ) -> Result<Posted<W>, AllocFailed<Witnessed<W>>>
        ensures posted { IfOk result (λ p. Posts W.work desk.old by self p desk.new) }
        ensures refused { OnErr result (desk.new ≡ desk.old) }
        ensures back { IfErr result (λ failed. failed.value ≡ self) }
    {
        match desk.post(by, self.report) {
            Ok(posted) => Ok(posted),
            Err(AllocFailed { value: report }) => Err(AllocFailed {
                value: Witnessed { report },
            }),
        }
    }

    /// What it is by its type: true of its task. A call does nothing.
    pub(crate) fn is_true(&self)
        ensures { IsTrueReport W.work self.now.task self.now.finding }
    {
        self.report.is_true();
    }
}

/// An attempt goes for its next block at the store of its location.
pub(crate) fn fetch_from<W: Naming>(store: &Store<W>, state: Assigned<W>) -> Result<Got<W>, Left>
    requires there { FetchesFrom store.now.exec (next_of state.task state.got) }
    ensures gets { IfOk result (GetsFrom store.now state) }
    ensures lacks { IfErr result (LacksFrom store.now state) }
{
    match state.read(store) {
        Ok(Took::Next(next)) => Ok(Got::Next(next)),
        Ok(Took::Gone(report)) => Ok(Got::Report(Witnessed { report })),
        Ok(Took::Absent { loc, .. }) => Err(Left::Absent(Absence { loc })),
        Err(_) => Err(Left::NoMemory),
    }
}

/// Takes the partitions of cache nodes that an attempt needs from a store, each that is there.
pub(crate) fn cached_from<W: Naming>(
    alloc: Global,
    store: &Store<W>,
    read: Read<W>,
) -> Result<Read<W>, Left>
    ensures takes { IfOk result (λ r. TakesCached W.work (target_of_task W.work read.task)
        store.now r.known) }
    ensures rest { IfOk result (λ r. r ≡ read_data read.task read.got r.known) }
    ensures none { IfErr result IsWantOfMemory }
{
    match read.cached(alloc, store) {
        Ok(read) => Ok(read),
        Err(_) => Err(Left::NoMemory),
    }
}

/// Keeps the partitions of cache nodes that an attempt has computed in a store, where those that it
/// took from there become the most recently used before.
pub(crate) fn keep_made<W: Naming>(
    store: &mut Store<W>,
    computed: Computed<W>,
) -> Result<Computed<W>, Left>
    ensures kept { IfOk result (λ c. c ≡ computed_data computed.task [] []) }
    ensures keeps { OnOk result (KeepsEach computed.used computed.fresh store.old store.new) }
    ensures none { IfErr result IsWantOfMemory }
{
    match computed.keep(store) {
        Ok(computed) => Ok(computed),
        Err(_) => Err(Left::NoMemory),
    }
}

/// Puts the block of a map task into the store of an executor, and reports where it lies.
pub(crate) fn put_block<W: Naming>(
    store: &mut Store<W>,
    exec: ExecId,
    computed: Computed<W>,
) -> Result<Prepared<W>, Left>
    requires map { is_map_task computed.task ≡ true }
    ensures prepared { IfOk result (IsPrepared W.work computed.task) }
    ensures puts { OnOk result (PutsOwn W.work computed.task store.old store.new) }
    ensures barred { IfErr result (IsBarred exec) }
{
    match computed.put(store) {
        Ok(stored) => Ok(Prepared::Report(Witnessed {
            report: stored.report(),
        })),
        Err(_) => Err(Left::NoMemory),
    }
}

/// Carries out an order of the fault plan: the store is wiped, unless it was by that order before
/// or by a later one, or loses the partition that was used the longest ago.
pub(crate) fn carry_out_at<W: Naming>(store: &mut Store<W>, order: Order)
    requires own { order.exec ≡ store.old.exec }
    ensures { IsCarriedOut order.kind order.number store.old store.new }
{
    match order.kind {
        OrderKind::Drop | OrderKind::Lose => {
            let _ = store.wipe(order);
        }
        OrderKind::Evict => store.evict(),
    }
}
