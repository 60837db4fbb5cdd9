//! How a call is refused.
#![tactic(auto)]

use std::alloc::{AllocError, AllocFailed};

/// Why a call gave nothing: a fault that its contract ties to a cause, or want of memory, which may
/// come at any time.
#[derive(Clone, Copy, Debug, Drop, PartialEq, Eq)]
pub enum OrMemory<F> {
    /// The fault.
    Fault(F),
    /// Memory ran out.
    OutOfMemory,
}

impl<F> From<AllocError> for OrMemory<F> {
    ghost use Rattle.std.specs.Prelude.{◌≡◌};
    ghost use Rattle.sc_base.specs.declared.refusals.OrMemory.TheVariants.{OutOfMemory};

    ghost from_gives = { λ _ e. e ≡ OutOfMemory };

    fn from(_: AllocError) -> Self {
        OrMemory::OutOfMemory
    }
}

impl<F, T: Drop> From<AllocFailed<T>> for OrMemory<F> {
    ghost use Rattle.std.specs.Prelude.{◌≡◌};
    ghost use Rattle.sc_base.specs.declared.refusals.OrMemory.TheVariants.{OutOfMemory};

    ghost from_gives = { λ _ e. e ≡ OutOfMemory };

    fn from(_: AllocFailed<T>) -> Self {
        OrMemory::OutOfMemory
    }
}
