//! How what entries speak of is written.
#![tactic(auto)]

use sc_ids::{FailureCause, Fault, Loc, Mark, StageId};
use sc_tracker::Location;
use std::fmt;

/// Who made an entry: an executor by its number, or the driver.
#[derive(Clone, Copy)]
pub(crate) struct By {
    pub mark: Mark,
}

impl fmt::Display for By {
    ghost use Rattle.std.specs.Prelude.{Some};
    ghost use Rattle.sc_core.specs.Texts.{mark_text};

    ghost output = { λ by. Some (mark_text by.mark) };

    fn fmt<W: fmt::Write>(&self, f: &mut fmt::Formatter<W>) -> fmt::Result {
        match self.mark {
            Mark::Exec(exec) => write!(f, "{exec}"),
            Mark::Driver => write!(f, "driver"),
        }
    }
}

/// An executor's store at a generation.
#[derive(Clone, Copy)]
pub(crate) struct Store {
    pub loc: Loc,
}

impl fmt::Display for Store {
    ghost use Rattle.std.specs.Prelude.{Some};
    ghost use Rattle.sc_core.specs.Texts.{loc_text};

    ghost output = { λ store. Some (loc_text store.loc) };

    fn fmt<W: fmt::Write>(&self, f: &mut fmt::Formatter<W>) -> fmt::Result {
        let exec = self.loc.exec;
        let generation = self.loc.generation;
        write!(f, "{exec}@{generation}")
    }
}

/// Where an input lies; one that is missing has a hyphen, and where it was last.
#[derive(Clone, Copy)]
struct At {
    location: Location,
}

impl fmt::Display for At {
    ghost use Rattle.std.specs.Prelude.{Some};
    ghost use Rattle.sc_core.specs.Texts.{location_text};

    ghost output = { λ at. Some (location_text at.location) };

    fn fmt<W: fmt::Write>(&self, f: &mut fmt::Formatter<W>) -> fmt::Result {
        match self.location {
            Location::Here(loc) => {
                let store = Store { loc };
                write!(f, "{store}")
            }
            Location::Missing { last: None } => write!(f, "-"),
            Location::Missing { last: Some(loc) } => {
                let store = Store { loc };
                write!(f, "-{store}")
            }
        }
    }
}

/// Where inputs lie, each behind a space.
#[derive(Clone, Copy)]
pub(crate) struct Places<'a> {
    pub inputs: &'a [Location],
}

impl<'a> fmt::Display for Places<'a> {
    ghost use Rattle.std.specs.Prelude.{Some};
    ghost use Rattle.sc_core.specs.Texts.{locations_text};

    ghost output = { λ places. Some (locations_text places.inputs.now) };

    fn fmt<W: fmt::Write>(&self, f: &mut fmt::Formatter<W>) -> fmt::Result {
        for location in self.inputs {
            let at = At {
                location: *location,
            };
            write!(f, " {at}")?;
        }
        Ok(())
    }
}

/// A call on the files that failed.
#[derive(Clone, Copy)]
pub(crate) struct Failed {
    pub fault: Fault,
}

impl fmt::Display for Failed {
    ghost use Rattle.std.specs.Prelude.{Some};
    ghost use Rattle.sc_core.specs.Texts.{fault_text};

    ghost output = { λ failed. Some (fault_text failed.fault) };

    fn fmt<W: fmt::Write>(&self, f: &mut fmt::Formatter<W>) -> fmt::Result {
        let before = self.fault.before.faults;
        let after = self.fault.after.faults;
        let first = self.fault.before.clashes;
        let last = self.fault.after.clashes;
        write!(
            f,
            "device, faults {before} to {after}, clashes {first} to {last}"
        )
    }
}

/// Why an attempt failed.
#[derive(Clone, Copy)]
pub(crate) struct Why {
    pub cause: FailureCause,
}

impl fmt::Display for Why {
    ghost use Rattle.std.specs.Prelude.{Some};
    ghost use Rattle.sc_core.specs.Texts.{cause_text};

    ghost output = { λ why. Some (cause_text why.cause) };

    fn fmt<W: fmt::Write>(&self, f: &mut fmt::Formatter<W>) -> fmt::Result {
        match self.cause {
            FailureCause::Planned => write!(f, "planned"),
            FailureCause::Raised(raise) => {
                let name = raise.name();
                write!(f, "raised {name}")
            }
            FailureCause::Device(fault) => {
                let failed = Failed { fault };
                write!(f, "{failed}")
            }
            FailureCause::Gone {
                exec,
                wanted,
                found,
            } => write!(f, "gone {exec}@{wanted} found {found}"),
            FailureCause::Metadata { last } => {
                let store = Store { loc: last };
                write!(f, "missing -{store}")
            }
            FailureCause::Denied => write!(f, "denied"),
        }
    }
}

/// A partition that failed as often as is allowed in an attempt of its stage.
#[derive(Clone, Copy)]
pub(crate) struct Often {
    pub stage: StageId,
    pub number: u64,
    pub partition: u32,
}

impl fmt::Display for Often {
    ghost use Rattle.std.specs.Prelude.{Some};
    ghost use Rattle.sc_core.specs.Texts.{limit_text};

    ghost output = { λ often. Some (limit_text often.stage often.number often.partition) };

    fn fmt<W: fmt::Write>(&self, f: &mut fmt::Formatter<W>) -> fmt::Result {
        let stage = self.stage;
        let number = self.number;
        let partition = self.partition;
        write!(f, "task limit of {stage}.{number} partition {partition}")
    }
}
