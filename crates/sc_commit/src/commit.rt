//! The commit coordinator of a stage.
#![tactic(auto)]

ghost use Rattle.std.specs.Prelude.{◌≡◌, ◌≢◌, ◌↔◌, IfOk, if◌then◌else◌, length, replicate, slice_get};
ghost use Rattle.sc_ids.specs.Changes.{change_at};
ghost use Rattle.sc_commit.specs.CommitFacts.{IsSoundCommit};
ghost use Rattle.sc_commit.specs.Committers.{committer_at, holder_in, winner_in};
ghost use Rattle.sc_commit.specs.Committing.{after_ask, after_end, answer_to, asked, denies, ended, holds, permitted_at};

use crate::committers::{Committer, Ending, Permission};
use sc_ids::AttemptId;
use std::alloc::{AllocError, Global};
use std::marker::Model;

/// Which attempt of each partition of a stage may commit.
#[derive(Drop)]
pub struct Commit {
    committers: Vec<Committer>,
}

impl Model for Commit {
    ghost use Rattle.std.specs.Prelude.{List};
    ghost use Rattle.sc_commit.specs.declared.committers.Committer.{Committer};
    ghost use Rattle.sc_commit.specs.CommitFacts.{IsSoundCommit};

    ghost Value = { List Committer };

    ghost view = { λ c. c.committers.items };

    ghost invariant = { λ c. IsSoundCommit c.committers.items };
}

impl Commit {
    /// A coordinator of so many partitions, with nobody granted.
    pub fn begin(alloc: Global, partitions: u32) -> Result<Commit, AllocError>
        ensures { IfOk result (λ c. c ≡ replicate partitions Committer.Nobody) }
    {
        let committers = vec![in alloc; Committer::Nobody; partitions as usize]?;
        Ok(Commit { committers })
    }

    /// Whether an attempt may commit; `runs` says whether it runs. It takes no memory.
    pub fn ask(&mut self, attempt: AttemptId, runs: bool) -> Permission
        ensures answer { result ≡ answer_to self.old attempt runs }
        ensures state { self.new ≡ after_ask self.old attempt runs }
    {
        if runs {
            ask_at(&mut self.committers, attempt)
        } else {
            Permission::Over
        }
    }

    /// An attempt ended: the answer is whether it held a grant, which is then freed, or won where
    /// it succeeded. It takes no memory.
    pub fn ended(&mut self, attempt: AttemptId, how: Ending) -> bool
        ensures freed { result ≡ holds attempt (committer_at self.old attempt.partition) }
        ensures state { self.new ≡ after_end self.old attempt how }
    {
        end_at(&mut self.committers, attempt, how)
    }

    /// The attempt of a partition that has won, and None exactly where none has.
    pub fn winner(&self, partition: u32) -> Option<AttemptId>
        ensures { result ≡ winner_in (committer_at self.now partition) }
    {
        self.committer(partition).winner()
    }

    /// The attempt of a partition that holds the grant, and None exactly where none does.
    pub fn holder(&self, partition: u32) -> Option<AttemptId>
        ensures { result ≡ holder_in (committer_at self.now partition) }
    {
        self.committer(partition).holder()
    }

    /// Whether a live grant of a partition has denied another attempt.
    pub fn denies(&self, partition: u32) -> bool
        ensures { result ≡ denies (committer_at self.now partition) }
    {
        self.committer(partition).denies()
    }

    /// The committer of a partition: nobody where the partition isn't there.
    pub fn committer(&self, partition: u32) -> Committer
        ensures { result ≡ committer_at self.now partition }
    {
        match self.committers.get(partition as usize) {
            Some(committer) => *committer,
            None => Committer::Nobody,
        }
    }

    /// How many partitions there are.
    pub fn partitions(&self) -> usize
        ensures { result ≡ length self.now }
    {
        self.committers.len()
    }

    /// What every coordinator keeps: holders and winners are of their partition, a partition with a
    /// winner has no grant, and only a grant denies.
    pub fn is_sound(&self)
        ensures { IsSoundCommit self.now }
    {
        let _ = &self.committers;
    }
}

fn ask_at(committers: &mut Vec<Committer>, attempt: AttemptId) -> Permission
    ensures answer { result
        ≡ permitted_at attempt (slice_get committers.old.items attempt.partition) }
    ensures state { committers.new.items
        ≡ change_at committers.old.items attempt.partition (asked attempt) }
{
    if (attempt.partition as usize) < committers.len() {
        committers[attempt.partition as usize].ask(attempt)
    } else {
        Permission::Over
    }
}

fn end_at(committers: &mut Vec<Committer>, attempt: AttemptId, how: Ending) -> bool
    ensures freed { result ≡ holds attempt (committer_at committers.old.items attempt.partition) }
    ensures state { committers.new.items
        ≡ change_at committers.old.items attempt.partition (ended attempt how) }
{
    if (attempt.partition as usize) < committers.len() {
        committers[attempt.partition as usize].end(attempt, how)
    } else {
        false
    }
}
