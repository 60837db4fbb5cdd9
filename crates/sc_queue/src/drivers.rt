//! The driver's side of the queue.
#![tactic(auto)]

ghost use Rattle.std.specs.Prelude.{◌≡◌, ◌<◌, ◌+◌, ◌-◌, ◌^◌, ◌++◌, ◌∷◌, List, MatchOption, None, [], length, true, ⊤};
ghost use Rattle.crossbeam_queue.specs.Passes.{IsPassOf, view};
ghost use Rattle.sc_queue.specs.declared.rules.Posted.{Posted};
ghost use Rattle.sc_queue.specs.Rule.{AreDelivered, as_list, is_driver, joined_of, made_of, popped_of, pushed_of};

use crate::posters::Poster;
use crate::queued::Queued;
use crate::rules::{Passes, Pops, Posted, Queue, QueuePass};
use std::marker::PhantomData;
use std::sync::Wait;

/// The report that is held, or else the next one of the queue. Where there is none, the queue was
/// empty at one moment, and each executor whose pass was joined had pushed what was popped of it.
pub fn next<T: Drop, R: Wait>(
    rt: &R,
    queue: &Queue<T>,
    pass: &mut QueuePass<T>,
    held: &mut Option<Posted<T>>,
) -> Option<Posted<T>>
    requires pass { IsPassOf queue.now pass.old }
    requires driver { is_driver (view pass.old) ≡ true }
    ensures pass { IsPassOf queue.now pass.new }
    ensures driver { is_driver (view pass.new) ≡ true }
    ensures came { (came : List (Posted T))
        × (popped_of (view pass.new) ≡ popped_of (view pass.old) ++ came)
        × (as_list held.old ++ came ≡ as_list result) }
    ensures held { held.new ≡ None }
    ensures made { made_of (view pass.new) ≡ made_of (view pass.old) }
    ensures joined { joined_of (view pass.new) ≡ joined_of (view pass.old) }
    ensures empty { MatchOption result
        (AreDelivered (popped_of (view pass.new)) (joined_of (view pass.new)))
        (λ p. ⊤) }
{
    if held.is_some() {
        return held.take();
    }
    queue.pop_as::<Pops, R>(rt, pass)
}

/// Whether nothing is on its way: no report is held, and the queue was empty at one moment, when
/// each executor whose pass was joined had pushed what was popped of it.
#[inline(always)]
pub fn is_idle<T: Drop>(queue: &Queue<T>, pass: &mut QueuePass<T>, held: &Option<Posted<T>>) -> bool
    requires pass { IsPassOf queue.now pass.old }
    requires driver { is_driver (view pass.old) ≡ true }
    ensures pass { IsPassOf queue.now pass.new }
    ensures same { view pass.new ≡ view pass.old }
    ensures held { result ≡ true → held.now ≡ None }
    ensures empty { result ≡ true
        → AreDelivered (popped_of (view pass.new)) (joined_of (view pass.new)) }
{
    if held.is_some() {
        return false;
    }
    queue.is_empty_as::<Pops>(pass)
}

/// Makes the side of the next executor, which has pushed nothing yet.
pub fn hire<T: Drop, Q: Queued>(
    queue: &Queue<T>,
    pass: &mut QueuePass<T>,
    made: u32,
) -> Poster<T, Q>
    requires queue { queue.now.table.shared.table_id ≡ Q.queue }
    requires pass { IsPassOf queue.now pass.old }
    requires driver { is_driver (view pass.old) ≡ true }
    requires made { made ≡ made_of (view pass.old) }
    ensures pass { IsPassOf queue.now pass.new }
    ensures driver { is_driver (view pass.new) ≡ true }
    ensures exec { result.exec ≡ made }
    ensures pushed { pushed_of (view result.pass) ≡ [] }
    ensures made { made_of (view pass.new) ≡ made + 1 }
    ensures joined { joined_of (view pass.new) ≡ joined_of (view pass.old) }
    ensures popped { popped_of (view pass.new) ≡ popped_of (view pass.old) }
{
    let theirs = queue.another::<Passes>(pass);
    Poster {
        exec: made,
        count: 0,
        pass: theirs,
        of: PhantomData,
    }
}

/// Joins the pass of an executor. They are joined in the order of their executors.
pub fn join<T: Drop, Q: Queued>(queue: &Queue<T>, pass: &mut QueuePass<T>, poster: Poster<T, Q>)
    requires queue { queue.now.table.shared.table_id ≡ Q.queue }
    requires pass { IsPassOf queue.now pass.old }
    requires driver { is_driver (view pass.old) ≡ true }
    requires order { poster.exec ≡ length (joined_of (view pass.old)) }
    ensures pass { IsPassOf queue.now pass.new }
    ensures driver { is_driver (view pass.new) ≡ true }
    ensures made { made_of (view pass.new) ≡ made_of (view pass.old) }
    ensures joined { joined_of (view pass.new)
        ≡ joined_of (view pass.old) ++ pushed_of (view poster.pass) ∷ [] }
    ensures popped { popped_of (view pass.new) ≡ popped_of (view pass.old) }
{
    let Poster { pass: theirs, .. } = poster;
    queue.absorb::<Passes>(pass, theirs);
}
