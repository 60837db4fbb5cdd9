//! The outputs that are registered on each executor, in a list of their places.
#![tactic(auto)]

ghost use Rattle.std.specs.Prelude.{◌≡◌, IfOk, OnErr, OnOk, [], ◌∷◌, ◌++◌, None, replicate};
ghost use Rattle.sc_base.specs.Lists.{at_or};
ghost use Rattle.sc_ids.specs.Changes.{change_at};
ghost use Rattle.sc_tracker.specs.Lists.{link_at, lists_data, pushed, removed, unlinked, with_back, with_first, with_item, with_next};

use crate::links::{Link, LinkRow, Place};
use sc_ids::ExecId;
use std::alloc::{AllocError, Global};
use std::marker::Model;

/// A list for each executor, and the links of the outputs that may be in one.
#[derive(Drop)]
pub(crate) struct Lists {
    firsts: Vec<Option<Place>>,
    rows: Vec<LinkRow>,
}

impl Model for Lists {
    ghost use Rattle.sc_tracker.specs.Lists.{ListsData, lists_data};

    ghost Value = { ListsData };

    ghost view = { λ l. lists_data l.firsts.items l.rows.items };
}

impl Lists {
    /// Empty lists of so many executors.
    pub(crate) fn new(alloc: Global, executors: u32) -> Result<Lists, AllocError>
        ensures { IfOk result (λ l. l ≡ lists_data (replicate executors None) []) }
    {
        let firsts = vec![in alloc; None; executors as usize]?;
        Ok(Lists {
            firsts,
            rows: Vec::new(alloc),
        })
    }

    /// A copy.
    pub(crate) fn copied(&self, alloc: Global) -> Result<Lists, AllocError>
        ensures { IfOk result (λ l. l ≡ self.now) }
    {
        let firsts = self.firsts.as_slice().to_vec(alloc)?;
        let rows = copies(alloc, self.rows.as_slice())?;
        Ok(Lists { firsts, rows })
    }

    /// Links for the outputs of one more shuffle. A refused call changes nothing.
    pub(crate) fn add(&mut self, alloc: Global, maps: u32) -> Result<(), AllocError>
        ensures added { OnOk result (self.new
            ≡ lists_data self.old.firsts (self.old.rows ++ replicate maps unlinked ∷ [])) }
        ensures refused { OnErr result (self.new ≡ self.old) }
    {
        let row = LinkRow::new(alloc, maps)?;
        self.rows.push(row)?;
        Ok(())
    }

    /// Where the list of an executor begins.
    pub(crate) fn first(&self, exec: ExecId) -> Option<Place>
        ensures { result ≡ at_or self.now.firsts exec None }
    {
        match self.firsts.get(exec as usize) {
            Some(first) => *first,
            None => None,
        }
    }

    /// What stands before and behind an output.
    pub(crate) fn link(&self, place: Place) -> Link
        ensures { result ≡ link_at self.now.rows place }
    {
        match self.rows.get(place.at) {
            Some(row) => row.get(place.map),
            None => Link::NONE,
        }
    }

    /// Another output, or none, as the first one of an executor.
    pub(crate) fn set_first(&mut self, exec: ExecId, first: Option<Place>)
        ensures { self.new ≡ with_first exec first self.old }
    {
        put_first(&mut self.firsts, exec, first);
    }

    /// Another link in the place of one.
    fn put(&mut self, place: Place, link: Link)
        ensures { self.new
            ≡ lists_data self.old.firsts (with_item self.old.rows place (λ _. link)) }
    {
        put_at(&mut self.rows, place, link);
    }

    /// Another output, or none, behind an output that may be there.
    fn set_next(&mut self, place: Option<Place>, next: Option<Place>)
        ensures { self.new ≡ with_next place next self.old }
    {
        if let Some(place) = place {
            let back = self.link(place).back;
            self.put(place, Link { back, next });
        }
    }

    /// Another output, or none, before an output that may be there.
    fn set_back(&mut self, place: Option<Place>, back: Option<Place>)
        ensures { self.new ≡ with_back place back self.old }
    {
        if let Some(place) = place {
            let next = self.link(place).next;
            self.put(place, Link { back, next });
        }
    }

    /// Puts an output in front of the list of an executor.
    pub(crate) fn push(&mut self, exec: ExecId, place: Place)
        ensures { self.new ≡ pushed exec place self.old }
    {
        let next = self.first(exec);
        self.put(place, Link { back: None, next });
        self.set_back(next, Some(place));
        self.set_first(exec, Some(place));
    }

    /// Takes an output out of the list of an executor, if that is there.
    pub(crate) fn remove(&mut self, exec: ExecId, place: Place)
        ensures { self.new ≡ removed exec place self.old }
    {
        if (exec as usize) < self.firsts.len() {
            let link = self.link(place);
            self.set_next(link.back, link.next);
            self.set_back(link.next, link.back);
            if link.back.is_none() {
                self.set_first(exec, link.next);
            }
        }
    }
}

fn put_first(firsts: &mut Vec<Option<Place>>, exec: ExecId, first: Option<Place>)
    ensures { firsts.new.items ≡ change_at firsts.old.items exec (λ _. first) }
{
    if (exec as usize) < firsts.len() {
        firsts[exec as usize] = first;
    }
}

fn put_at(rows: &mut Vec<LinkRow>, place: Place, link: Link)
    ensures { rows.new.items ≡ with_item rows.old.items place (λ _. link) }
{
    if place.at < rows.len() {
        rows[place.at].put(place.map, link);
    }
}

/// Copies of the links of several shuffles.
fn copies(alloc: Global, rows: &[LinkRow]) -> Result<Vec<LinkRow>, AllocError>
    ensures { IfOk result (λ v. v.items ≡ rows.now) }
{
    let mut copies = Vec::new(alloc);
    for row in rows {
        copies.push(row.copied(alloc)?)?;
    }
    Ok(copies)
}
