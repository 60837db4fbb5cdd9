//! What holds of all orders, of the files of all jobs, and of all jobs that begin again.
#![tactic(auto)]

ghost use Rattle.sc_desk.specs.Begins.{AgainIsBegun, ServesUnregistered};
ghost use Rattle.sc_desk.specs.Files.{FilesGoOn};
ghost use Rattle.sc_desk.specs.Orders.{NextOrdersAreDue};

/// An order that comes next is one of the plan that is due, and once it is handed out fewer are
/// left.
pub fn orders_are_due()
    ensures { NextOrdersAreDue }
{}

/// How the files of a job stand while its journal grows, call by call. A call does nothing.
pub fn files_go_on()
    ensures { FilesGoOn }
{}

/// A job that begins again begins like any other, and what the job before leaves serves it. A call
/// does nothing.
pub fn jobs_begin_again()
    ensures begun { AgainIsBegun }
    ensures serves { ServesUnregistered }
{}
