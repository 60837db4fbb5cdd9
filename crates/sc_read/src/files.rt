//! One file.
#![tactic(auto)]

ghost use Rattle.sc_base.specs.Outside.{IsLaterSource};
ghost use Rattle.sc_read.specs.Files.{ReadsFile};

use crate::stops::Unreadable;
use sc_base::OrMemory;
use sc_input::{ReadAnswer, Source};
use sc_value::{Name, Octets};

/// The bytes under a name, for which the source is asked once.
///
/// # Errors
///
/// `Missing` and `Failed` only where their count rose in this call.
pub fn read_file<S: Source>(source: &mut S, name: &Name) -> Result<Octets, OrMemory<Unreadable>>
    ensures later { IsLaterSource (S.state source.old) (S.state source.new) }
    ensures file { ReadsFile (S.state source.old) (S.state source.new) name.now result }
{
    match source.read(name) {
        ReadAnswer::Bytes(bytes) => Ok(bytes),
        ReadAnswer::NoFile => Err(OrMemory::Fault(Unreadable::Missing)),
        ReadAnswer::Failed => Err(OrMemory::Fault(Unreadable::Failed)),
        ReadAnswer::OutOfMemory => Err(OrMemory::OutOfMemory),
    }
}
