//! Places of outputs, and what stands before and behind each in a list.
#![tactic(auto)]

ghost use Rattle.std.specs.Prelude.{◌≡◌, IfOk, replicate};
ghost use Rattle.sc_base.specs.Lists.{at_or};
ghost use Rattle.sc_ids.specs.Changes.{change_at};
ghost use Rattle.sc_tracker.specs.Lists.{unlinked};

use std::alloc::{AllocError, Global};
use std::marker::Model;

/// Where an output stands: its shuffle among those that there is room for, and its map partition.
#[derive(Clone, Copy, Debug, PartialEq, Eq)]
pub struct Place {
    pub at: usize,
    pub map: u32,
}

/// What stands before and behind an output in the list of its executor.
#[derive(Clone, Copy, Debug, PartialEq, Eq)]
pub struct Link {
    pub back: Option<Place>,
    pub next: Option<Place>,
}

impl Link {
    /// Nothing does.
    pub(crate) const NONE: Link = Link {
        back: None,
        next: None,
    };
}

/// The links of the outputs of one shuffle.
#[derive(Drop)]
pub(crate) struct LinkRow {
    links: Vec<Link>,
}

impl Model for LinkRow {
    ghost use Rattle.std.specs.Prelude.{List};
    ghost use Rattle.sc_tracker.specs.declared.links.Link.{Link};

    ghost Value = { List Link };

    ghost view = { λ r. r.links.items };
}

impl LinkRow {
    /// So many outputs, none of them linked.
    pub(crate) fn new(alloc: Global, maps: u32) -> Result<LinkRow, AllocError>
        ensures { IfOk result (λ r. r ≡ replicate maps unlinked) }
    {
        let links = vec![in alloc; Link::NONE; maps as usize]?;
        Ok(LinkRow { links })
    }

    /// A copy.
    pub(crate) fn copied(&self, alloc: Global) -> Result<LinkRow, AllocError>
        ensures { IfOk result (λ r. r ≡ self.now) }
    {
        let links = self.links.as_slice().to_vec(alloc)?;
        Ok(LinkRow { links })
    }

    /// The link of a map partition.
    pub(crate) fn get(&self, map: u32) -> Link
        ensures { result ≡ at_or self.now map unlinked }
    {
        match self.links.get(map as usize) {
            Some(link) => *link,
            None => Link::NONE,
        }
    }

    /// Another link in the place of one.
    pub(crate) fn put(&mut self, map: u32, link: Link)
        ensures { self.new ≡ change_at self.old map (λ _. link) }
    {
        put_in(&mut self.links, map, link);
    }
}

fn put_in(links: &mut Vec<Link>, map: u32, link: Link)
    ensures { links.new.items ≡ change_at links.old.items map (λ _. link) }
{
    if (map as usize) < links.len() {
        links[map as usize] = link;
    }
}
