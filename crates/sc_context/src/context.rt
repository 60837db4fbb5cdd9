//! The context.
#![tactic(auto)]

ghost use Rattle.std.specs.Prelude.{◌≡◌, ◌≤◌, IfErr, IfOk, None, length, map};
ghost use Rattle.sc_context.specs.Contexts.{IsReady, new_context};
ghost use Rattle.sc_context.specs.Histories.{HasCome};
ghost use Rattle.sc_context.specs.Progress.{first_progress};
ghost use Rattle.sc_context.specs.Records.{AreKept, histories_of};
ghost use Rattle.sc_desk.specs.Begins.{FitsLast};
ghost use Rattle.sc_stagecut.specs.Carrying.{IsCarriedFor};

use crate::records::Records;
use crate::starts::{locked, new_stores};
use sc_desk::Passed;
use sc_exec::Stores;
use sc_files::Files;
use sc_work::{Naming, SharedWork};
use std::alloc::{AllocError, AllocFailed, Global};
use std::marker::Model;

/// The jobs of a run so far, what goes on to the next one, and the files that saves write to.
#[derive(Drop)]
pub struct Context<W: Naming, F: Files> {
    pub(crate) work: SharedWork<W>,
    pub(crate) passed: Passed,
    pub(crate) stores: Stores<W>,
    pub(crate) records: Records,
    pub(crate) actions: u32,
    pub(crate) files: F,
}

impl<W: Naming, F: Files> Model for Context<W, F> {
    ghost use Rattle.std.specs.Coded.{codes};
    ghost use Rattle.sc_base.specs.Outside.{files_state_code};
    ghost use Rattle.sc_context.specs.Contexts.{ContextData, IsContext, context_data};
    ghost use Rattle.sc_context.specs.Records.{AreKept, histories_of};

    ghost Value = { ContextData };

    ghost coded = { Prim.hlevel (codes, files_state_code) };

    ghost view = { λ c.
        context_data c.actions c.passed.carried c.records.histories.items
        (histories_of c.records.gave_up.items) (F.state c.files) };

    ghost invariant = { λ c. IsContext W.work c.passed
        (context_data c.actions c.passed.carried c.records.histories.items
        (histories_of c.records.gave_up.items) (F.state c.files))
        × AreKept W.work c.records };
}

impl<W: Naming, F: Files> Context<W, F> {
    /// A context in which no job has run: the executors have empty stores. Where memory is wanting
    /// the files are handed back.
    pub fn new(
        alloc: Global,
        work: SharedWork<W>,
        files: F,
    ) -> Result<Context<W, F>, AllocFailed<F>>
        ensures new { IfOk result (λ c. c ≡ new_context W.work (F.state files)) }
        ensures back { IfErr result (λ failed. F.state failed.value ≡ F.state files) }
    {
        match make_starts(alloc, &work) {
            Ok(starts) => Ok(Context {
                work,
                passed: starts.passed,
                stores: starts.stores,
                records: Records::new(alloc),
                actions: 0,
                files,
            }),
            Err(_) => Err(AllocFailed { value: files }),
        }
    }

    /// The work.
    pub fn work(&self) -> &SharedWork<W>
        ensures { result.now ≡ W.work }
    {
        self.work.is_named();
        &self.work
    }

    /// How many actions have their value.
    pub fn actions(&self) -> u32
        ensures { result ≡ self.now.progress.actions }
    {
        self.actions
    }

    /// What every context keeps: its jobs were done one behind the other, there are no more values
    /// than actions, and what is carried serves the next job, with a place for the bounds of each
    /// node; and so does what the last job left.
    pub fn is_sound(&self)
        ensures come { HasCome W.work (first_progress W.work) self.now.histories
            self.now.given_up self.now.progress }
        ensures within { self.now.progress.actions ≤ length W.work.script.actions }
        ensures serves { IsCarriedFor W.work.script.nodes self.now.progress.carried }
        ensures places { length self.now.progress.carried.bounds ≡ length W.work.script.nodes }
        ensures fits { FitsLast W.work self.now.progress.last }
    {
        let _ = &self.records;
    }

    /// How the jobs went, and the files.
    pub fn into_parts(self) -> (Records, F)
        ensures histories { result.0.histories.items ≡ self.histories }
        ensures given_up { histories_of result.0.gave_up.items ≡ self.given_up }
        ensures kept { AreKept W.work result.0 }
        ensures files { F.state result.1 ≡ self.files }
    {
        (self.records, self.files)
    }
}

/// What a run begins with: what goes on to its first job, and the stores.
#[derive(Drop)]
struct Starts<W: Naming> {
    passed: Passed,
    stores: Stores<W>,
}

/// What the jobs of a work begin with.
fn make_starts<W: Naming>(alloc: Global, work: &SharedWork<W>) -> Result<Starts<W>, AllocError>
    ensures carried { IfOk result (λ s. s.passed.carried ≡ (first_progress W.work).carried) }
    ensures ready { IfOk result (λ s. IsReady W.work s.passed None) }
{
    work.is_named();
    work.get().is_sound();
    let passed = Passed::first(alloc, work.get())?;
    let stores = new_stores(alloc, work)?;
    let room = Vec::with_capacity(alloc, stores.len())?;
    Ok(Starts {
        passed,
        stores: locked(stores, room),
    })
}
