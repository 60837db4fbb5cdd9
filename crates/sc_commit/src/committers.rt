//! The committer of one partition.
#![tactic(auto)]

ghost use Rattle.std.specs.Prelude.{◌≡◌};
ghost use Rattle.sc_commit.specs.Committing.{asked, denies, ended, holds, is_same, permitted, permitted_beside};
ghost use Rattle.sc_commit.specs.Committers.{holder_in, winner_in};

use sc_ids::AttemptId;

/// Which attempt of a partition may commit.
#[derive(Clone, Copy, Debug, PartialEq, Eq)]
pub enum Committer {
    /// None was granted, or none that still counts.
    Nobody,
    /// One was granted, and hasn't ended.
    Holder {
        /// The attempt.
        attempt: AttemptId,
        /// Whether another one was denied meanwhile.
        denies: bool,
    },
    /// One was granted, and has succeeded.
    Winner {
        /// The attempt.
        attempt: AttemptId,
    },
}

/// The answer to an attempt that asks whether it may commit.
#[derive(Clone, Copy, Debug, PartialEq, Eq)]
pub enum Permission {
    /// It may.
    Granted,
    /// It may not: another one holds the grant, or has won.
    Denied {
        /// The other attempt.
        by: AttemptId,
    },
    /// It doesn't run any more, or its partition isn't there.
    Over,
}

/// How an attempt ended.
#[derive(Clone, Copy, Debug, PartialEq, Eq)]
pub enum Ending {
    /// It succeeded.
    Succeeded,
    /// It failed, was denied, or its executor was lost.
    Failed,
}

impl Committer {
    /// Answers a running attempt, and grants where nobody was granted.
    pub(crate) fn ask(&mut self, asker: AttemptId) -> Permission
        ensures answer { result ≡ permitted asker self.old }
        ensures state { self.new ≡ asked asker self.old }
    {
        match *self {
            Committer::Nobody => {
                *self = Committer::Holder {
                    attempt: asker,
                    denies: false,
                };
                Permission::Granted
            }
            Committer::Holder { attempt, .. } => {
                if !is_same(attempt, asker) {
                    *self = Committer::Holder {
                        attempt,
                        denies: true,
                    };
                }
                permission_beside(attempt, asker)
            }
            Committer::Winner { attempt } => permission_beside(attempt, asker),
        }
    }

    /// Ends an attempt, and tells whether it held the grant.
    pub(crate) fn end(&mut self, ending: AttemptId, how: Ending) -> bool
        ensures freed { result ≡ holds ending self.old }
        ensures state { self.new ≡ ended ending how self.old }
    {
        match *self {
            Committer::Holder { attempt, .. } => {
                if !is_same(attempt, ending) {
                    return false;
                }
                *self = match how {
                    Ending::Succeeded => Committer::Winner { attempt },
                    Ending::Failed => Committer::Nobody,
                };
                true
            }
            Committer::Nobody | Committer::Winner { .. } => false,
        }
    }

    /// The attempt that holds the grant.
    pub fn holder(self) -> Option<AttemptId>
        ensures { result ≡ holder_in self }
    {
        match self {
            Committer::Holder { attempt, .. } => Some(attempt),
            Committer::Nobody | Committer::Winner { .. } => None,
        }
    }

    /// The attempt that has won.
    pub fn winner(self) -> Option<AttemptId>
        ensures { result ≡ winner_in self }
    {
        match self {
            Committer::Winner { attempt } => Some(attempt),
            Committer::Nobody | Committer::Holder { .. } => None,
        }
    }

    /// Whether a live grant has denied another attempt.
    pub fn denies(self) -> bool
        ensures { result ≡ denies self }
    {
        match self {
            Committer::Holder { denies, .. } => denies,
            Committer::Nobody | Committer::Winner { .. } => false,
        }
    }
}

/// The answer to an attempt where one came first, unless it is the same.
fn permission_beside(first: AttemptId, asker: AttemptId) -> Permission
    ensures { result ≡ permitted_beside first asker }
{
    if is_same(first, asker) {
        Permission::Granted
    } else {
        Permission::Denied { by: first }
    }
}

/// Whether two attempts are one.
fn is_same(a: AttemptId, b: AttemptId) -> bool
    ensures { result ≡ is_same a b }
{
    a == b
}
