//! A shared work.
#![tactic(auto)]

ghost use Rattle.std.specs.Prelude.{◌≡◌, ◌↔◌, IfOk, IsTrue, true};
ghost use Rattle.std.specs.Cmp.{partial_equiv_from_equiv};
ghost use Rattle.sc_work.specs.Equality.{always_equal};

use crate::naming::Naming;
use sc_lineage::Work;
use std::alloc::{AllocError, Global};
use std::marker::{Model, PhantomData};
use std::sync::Arc;

/// A work that by its type is the one that `W` stands for. To share it copies nothing.
#[derive(Drop)]
pub struct SharedWork<W: Naming> {
    work: Arc<Work, Global>,
    of: PhantomData<W>,
}

impl<W: Naming> Model for SharedWork<W> {
    ghost use Rattle.std.specs.Arc.{arc_value};
    ghost use Rattle.std.specs.Prelude.{◌≡◌};
    ghost use Rattle.sc_lineage.specs.ScriptData.{WorkData};
    ghost use Rattle.sc_lineage.specs.ScriptCode.{work_code};

    ghost Value = { WorkData };

    ghost coded = { work_code };

    ghost view = { λ s. arc_value s.work };

    ghost invariant = { λ s. arc_value s.work ≡ W.work };
}

impl<W: Naming> SharedWork<W> {
    /// A work that is to be shared.
    pub fn of(alloc: Global, work: Work) -> Result<SharedWork<W>, AllocError>
        requires named { work ≡ W.work }
        ensures { IfOk result (λ s. s ≡ work) }
    {
        Ok(SharedWork {
            work: Arc::new(alloc, work)?,
            of: PhantomData,
        })
    }

    /// The same work again, which copies nothing of it.
    pub fn share(&self) -> Result<SharedWork<W>, AllocError>
        ensures { IfOk result (λ s. s ≡ self.now) }
    {
        Ok(SharedWork {
            work: Arc::try_clone(&self.work)?,
            of: PhantomData,
        })
    }

    /// The work.
    pub fn get(&self) -> &Work
        ensures { result.now ≡ self.now }
    {
        &self.work
    }

    /// What it is by its type.
    pub fn is_named(&self)
        ensures { self.now ≡ W.work }
    {
        let _ = &self.work;
    }
}

impl<W: Naming> PartialEq for SharedWork<W> {
    ghost eq = { λ a b. true };

    ghost laws = { partial_equiv_from_equiv always_equal };

    /// Whether both are one work. By their type they are, so nothing is compared.
    fn eq(&self, other: &SharedWork<W>) -> bool
        ensures value { result ≡ true }
        ensures same { IsTrue result ↔ (self.now ≡ other.now) }
    {
        let _ = &self.work;
        let _ = &other.work;
        true
    }
}
