//! Laws, as functions that do nothing.
#![tactic(auto)]

ghost use Rattle.sc_world.specs.Laws.{DriverEntersAll, FetchesFind, MissesAreKnown, ReportsAreKnown, StepsKeepSound, WorldsBegin, WorldsLeaveReady};
ghost use Rattle.sc_world.specs.Tracks.{ReportsMoveTrackers};

/// What a told report does to the tracker. A call does nothing.
pub fn reports_move_trackers()
    ensures { ReportsMoveTrackers }
{}

/// What holds of every world holds after every step, whatever the plan wipes, loses, delays or
/// doubles: so each block that is fetched lies where it is said to, as far as that store wasn't
/// wiped since, and no report is a stranger or speaks of what can't be yet. A call does nothing.
pub fn worlds_stay_sound()
    ensures begins { WorldsBegin }
    ensures steps { StepsKeepSound }
    ensures ready { WorldsLeaveReady }
    ensures fetches { FetchesFind }
    ensures misses { MissesAreKnown }
    ensures reports { ReportsAreKnown }
{}

/// Whatever the steps of a world enter at its desk is entered by the driver, so the history of a
/// job that only a world ran has no entry of an executor. A call does nothing.
pub fn entries_are_the_drivers()
    ensures { DriverEntersAll }
{}
