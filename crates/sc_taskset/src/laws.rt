//! What holds of task sets whatever they are told, as functions that do nothing.
#![tactic(auto)]

ghost use Rattle.sc_taskset.specs.Laws.{HandOutsKeepAccount, ZombiesOfferNothing};

/// A zombie has nothing for anyone.
pub fn zombies_offer_nothing()
    ensures { ZombiesOfferNothing }
{}

/// A hand-out of a partition is one of those that were left of it.
pub fn hand_outs_keep_account()
    ensures { HandOutsKeepAccount }
{}
