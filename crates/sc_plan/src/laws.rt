//! Laws of fault plans.
#![tactic(auto)]

ghost use Rattle.sc_plan.specs.Laws.{OrdersAreNumbered, ReadersAreExact};
ghost use Rattle.sc_plan.specs.Plans.{PlansHaveOneReading};

/// The law that all bytes, whether they are text or not, are one plan or have one fault, and never
/// both, for any number of executors. A call does nothing.
pub fn plans_have_one_reading()
    ensures { PlansHaveOneReading }
{}

/// The law that a plan says of attempts and of losses exactly what stands in its lines. A call does
/// nothing.
pub fn readers_are_exact()
    ensures { ReadersAreExact }
{}

/// The law that wipes and evictions are numbered by when they are due and then by line, and that
/// those that are due have the first numbers. A call does nothing.
pub fn orders_are_numbered()
    ensures { OrdersAreNumbered }
{}
