//! What the changes of a tracker mean for each block and for each executor.
#![tactic(auto)]

ghost use Rattle.sc_tracker.specs.TrackerLaws.{BogusStaysBogus, CallsGoForward, ForgetsOnOne, LookupsAreSound, NewTasksAreTrusted, OlderTasksAreBogus, RegistersOne, SizesForAll, UnregistersAll};

/// The laws of blocks: what holds of every tracker holds of each, and which of them a call changes.
/// A call does nothing.
pub fn laws_of_blocks()
    ensures sound { LookupsAreSound }
    ensures sized { SizesForAll }
    ensures registered { RegistersOne }
    ensures forgotten { ForgetsOnOne }
    ensures unregistered { UnregistersAll }
{}

/// The laws of what was heard: it never goes back, what it rules out it rules out for good, and it
/// rules out what was handed out before an event, and nothing that is handed out now. A call does
/// nothing.
pub fn laws_of_trust()
    ensures forward { CallsGoForward }
    ensures for_good { BogusStaysBogus }
    ensures new { NewTasksAreTrusted }
    ensures older { OlderTasksAreBogus }
{}
