//! What is known of one map output.
#![tactic(auto)]

ghost use Rattle.std.specs.Prelude.{◌≡◌};
ghost use Rattle.sc_ids.specs.Changes.{change_at};
ghost use Rattle.sc_tracker.specs.Outputs.{forgotten, is_here, location_in, placed};

use sc_ids::{Epoch, Loc};

/// What is known of one map output.
#[derive(Clone, Copy, Debug, PartialEq, Eq)]
pub struct Output {
    /// Where it is registered.
    pub here: Option<Loc>,
    /// Where it was registered last.
    pub last: Option<Loc>,
    /// The epoch when it was, and 0 where it never was.
    pub since: Epoch,
}

/// The answer to the question where a block lies.
#[derive(Clone, Copy, Debug, PartialEq, Eq)]
pub enum Location {
    /// It is registered there.
    Here(Loc),
    /// It isn't registered.
    Missing {
        /// Where it was registered last, and None where it never was.
        last: Option<Loc>,
    },
}

impl Output {
    /// An output that was never registered.
    pub(crate) const NEVER: Output = Output {
        here: None,
        last: None,
        since: 0,
    };

    /// Whether it is registered.
    pub(crate) fn is_here(self) -> bool
        ensures { result ≡ is_here self }
    {
        self.here.is_some()
    }

    /// Where it lies.
    pub(crate) fn location(self) -> Location
        ensures { result ≡ location_in self }
    {
        match self.here {
            Some(loc) => Location::Here(loc),
            None => Location::Missing { last: self.last },
        }
    }

    /// Registers it at a location.
    pub(crate) fn place(&mut self, loc: Loc, epoch: Epoch)
        ensures { self.new ≡ placed loc epoch self.old }
    {
        self.here = Some(loc);
        self.last = Some(loc);
        self.since = epoch;
    }

    /// Forgets where it is, and not where it was last.
    pub(crate) fn forget(&mut self)
        ensures { self.new ≡ forgotten self.old }
    {
        self.here = None;
    }
}

/// Registers an output of a shuffle, where there is room for it.
pub(crate) fn place_in(outputs: &mut Vec<Output>, map: u32, loc: Loc, epoch: Epoch)
    ensures { outputs.new.items ≡ change_at outputs.old.items map (placed loc epoch) }
{
    if (map as usize) < outputs.len() {
        outputs[map as usize].place(loc, epoch);
    }
}

/// Forgets an output of a shuffle.
pub(crate) fn forget_in(outputs: &mut Vec<Output>, map: u32)
    ensures { outputs.new.items ≡ change_at outputs.old.items map forgotten }
{
    if (map as usize) < outputs.len() {
        outputs[map as usize].forget();
    }
}
