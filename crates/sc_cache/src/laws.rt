//! What holds of every cache.
#![tactic(auto)]

ghost use Rattle.sc_cache.specs.CacheLaws.{CachesAreLawful};

/// A kept block is found under its name, and each other one as before, unless it is the one that
/// goes; a use changes no block.
pub fn caches_are_lawful<V>()
    ensures { CachesAreLawful V }
{}
