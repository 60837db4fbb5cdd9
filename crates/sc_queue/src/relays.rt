//! Two executors that push, and whoever has the lock that pops.
#![tactic(auto)]

ghost use Rattle.std.specs.Prelude.{◌≡◌, ◌<◌, ◌++◌, ◌+◌, ◌∷◌, IfOk, IfSome, List, OnOk, [], length, suc, true};
ghost use Rattle.crossbeam_queue.specs.Passes.{IsPassOf, view};
ghost use Rattle.sc_queue.specs.declared.rules.Hand.TheVariants.{Driver};
ghost use Rattle.sc_queue.specs.Rule.{AreDelivered, AreNumbered, is_driver, joined_of, made_of, popped_of, pushed_of, reports_of};

use crate::drivers::{hire, join as join_pass, next};
use crate::posters::Poster;
use crate::queued::Queued;
use crate::rules::{Posted, Queue, QueuePass};
use std::alloc::{AllocError, Global};
use std::marker::{Brand, PhantomData};
use std::sync::{Mutex, Wait};
use std::thread::{Threads, join};

/// The pass that pops, with all that it has popped.
#[derive(Drop)]
pub struct Reader<Q: Queued> {
    pass: QueuePass<u64>,
    got: Vec<Posted<u64>>,
    of: PhantomData<Q>,
    ghost its_queue: { (pass.table_id ≡ Q.queue) × (pass.me.1 ≡ []) },
    ghost drives: { is_driver (view pass) ≡ true },
    ghost apart: { joined_of (view pass) ≡ [] },
    ghost all: { popped_of (view pass) ≡ got.items },
}

/// What two executors share: the reader behind a lock, and the queue beside it.
#[derive(Drop)]
struct Shared<Q: Queued> {
    reader: Mutex<Reader<Q>>,
    queue: Queue<u64>,
    ghost one: { queue.table.shared.table_id ≡ Q.queue },
}

/// Pops all that the queue holds.
fn drain<R: Wait>(
    rt: &R,
    queue: &Queue<u64>,
    pass: &mut QueuePass<u64>,
    got: &mut Vec<Posted<u64>>,
) -> Result<(), AllocError>
    requires pass { IsPassOf queue.now pass.old }
    requires driver { is_driver (view pass.old) ≡ true }
    requires all { popped_of (view pass.old) ≡ got.old.items }
    ensures pass { IsPassOf queue.now pass.new }
    ensures driver { is_driver (view pass.new) ≡ true }
    ensures all { popped_of (view pass.new) ≡ got.new.items }
    ensures made { made_of (view pass.new) ≡ made_of (view pass.old) }
    ensures joined { joined_of (view pass.new) ≡ joined_of (view pass.old) }
    ensures empty { OnOk result (AreDelivered got.new.items (joined_of (view pass.new))) }
{
    for _ in rt.forever() {
        got.reserve(1)?;
        let mut held = None;
        match next(rt, queue, pass, &mut held) {
            Some(posted) => got.push_reserved(posted),
            None => return Ok(()),
        }
    }
    unreachable!()
}

impl<Q: Queued> Reader<Q> {
    /// Pops all that the queue holds.
    fn read<R: Wait>(&mut self, rt: &R, queue: &Queue<u64>) -> Result<(), AllocError>
        requires queue { queue.now.table.shared.table_id ≡ Q.queue }
    {
        drain(rt, queue, &mut self.pass, &mut self.got)
    }
}

/// Pushes a report; where the queue is full whoever gets the lock pops first.
fn send<Q: Queued, R: Wait>(
    rt: &R,
    shared: &Shared<Q>,
    poster: &mut Poster<u64, Q>,
    report: u64,
) -> bool
    ensures exec { poster.new.exec ≡ poster.old.exec }
    ensures sent { result ≡ true → length (pushed_of (view poster.new.pass))
        ≡ suc (length (pushed_of (view poster.old.pass))) }
{
    for _ in rt.forever() {
        if poster.push(rt, &shared.queue, report).is_ok() {
            return true;
        }
        if shared.reader.lock(rt).read(rt, &shared.queue).is_err() {
            return false;
        }
    }
    unreachable!()
}

/// Pushes the numbers from 1 to n, and hands the pass back.
fn send_all<Q: Queued, R: Wait>(
    rt: &R,
    shared: &Shared<Q>,
    mut poster: Poster<u64, Q>,
    n: u64,
) -> Option<Poster<u64, Q>>
    requires none { pushed_of (view poster.pass) ≡ [] }
    ensures exec { IfSome result (λ p. p.exec ≡ poster.exec) }
    ensures sent { IfSome result (λ p. length (pushed_of (view p.pass)) ≡ n) }
{
    for i in 0..n {
        if !send(rt, shared, &mut poster, i + 1) {
            return None;
        }
    }
    Some(poster)
}

/// Two executors push so many reports each, popped by whoever has the lock. Those of each come out
/// whole, numbered from 1 on, in order.
fn two_posters<Q: Queued + Send + Sync, R: Threads + Wait + Sync>(
    rt: &R,
    alloc: Global,
    queue: Queue<u64>,
    mut pass: QueuePass<u64>,
    n: u64,
) -> Option<Vec<Posted<u64>>>
    requires queue { queue.table.shared.table_id ≡ Q.queue }
    requires pass { IsPassOf queue pass × (view pass ≡ Driver 0 [] []) }
    ensures first { IfSome result (λ got. (length (reports_of 0 got.items) ≡ n)
        × AreNumbered 1 (reports_of 0 got.items)) }
    ensures second { IfSome result (λ got. (length (reports_of 1 got.items) ≡ n)
        × AreNumbered 1 (reports_of 1 got.items)) }
{
    let one = hire::<u64, Q>(&queue, &mut pass, 0);
    let two = hire::<u64, Q>(&queue, &mut pass, 1);
    let shared = Shared {
        reader: Mutex::new(Reader::<Q> {
            pass,
            got: Vec::new(alloc),
            of: PhantomData,
        }),
        queue,
    };
    let both = &shared;
    let (one, two) = join(
        rt,
        move || -> Option<Poster<u64, Q>>
            requires { pushed_of (view one.pass) ≡ [] }
            ensures { IfSome result
                (λ p. (p.exec ≡ one.exec) × (length (pushed_of (view p.pass)) ≡ n)) }
        { send_all(rt, both, one, n) },
        move || -> Option<Poster<u64, Q>>
            requires { pushed_of (view two.pass) ≡ [] }
            ensures { IfSome result
                (λ p. (p.exec ≡ two.exec) × (length (pushed_of (view p.pass)) ≡ n)) }
        { send_all(rt, both, two, n) },
    );
    let one = one?;
    let two = two?;
    let Shared { reader, queue } = shared;
    settle(rt, &queue, reader.into_inner(), one, two)
}

/// Joins the passes and pops what is left.
fn settle<Q: Queued, R: Wait>(
    rt: &R,
    queue: &Queue<u64>,
    reader: Reader<Q>,
    one: Poster<u64, Q>,
    two: Poster<u64, Q>,
) -> Option<Vec<Posted<u64>>>
    requires queue { queue.now.table.shared.table_id ≡ Q.queue }
    requires order { (one.exec ≡ 0) × (two.exec ≡ 1) }
    ensures first { IfSome result (λ got. (reports_of 0 got.items ≡ pushed_of (view one.pass))
        × AreNumbered 1 (pushed_of (view one.pass))) }
    ensures second { IfSome result (λ got. (reports_of 1 got.items ≡ pushed_of (view two.pass))
        × AreNumbered 1 (pushed_of (view two.pass))) }
{
    let Reader {
        mut pass,
        mut got,
        ..
    } = reader;
    join_pass(queue, &mut pass, one);
    join_pass(queue, &mut pass, two);
    match drain(rt, queue, &mut pass, &mut got) {
        Ok(()) => Some(got),
        Err(AllocError) => None,
    }
}

/// The same over a queue of its own, of a capacity.
pub fn relay_two<R: Threads + Wait + Sync>(
    rt: &R,
    alloc: Global,
    capacity: usize,
    n: u64,
) -> Result<Option<Vec<Posted<u64>>>, AllocError>
    requires { 0 < capacity }
    ensures first { IfOk result (λ o. IfSome o (λ got.
        (length (reports_of 0 got.items) ≡ n) × AreNumbered 1 (reports_of 0 got.items))) }
    ensures second { IfOk result (λ o. IfSome o (λ got.
        (length (reports_of 1 got.items) ≡ n) × AreNumbered 1 (reports_of 1 got.items))) }
{
    let (queue, pass) = Queue::<u64>::ruled(alloc, capacity)?;
    Ok(two_posters::<Brand, R>(rt, alloc, queue, pass, n))
}
