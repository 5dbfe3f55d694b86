//! The records through which the free blocks of each order are linked.

ghost use Rattle.std.specs.Prelude.{◌≡◌, ◌<◌, IfOk, length};
ghost use Rattle.zone_blocks.specs.Links.{next_of, prev_of, Joins};

use std::alloc::{AllocError, Global};
use std::marker::Model;

/// The two neighbours of a node in its list.
#[derive(Clone, Copy)]
pub(crate) struct Link {
    next: u32,
    prev: u32,
}

/// A record for each node, of which there are at most 2^32, seen as their list.
#[derive(Drop)]
pub(crate) struct Links {
    records: Vec<Link>,
}

impl Model for Links {
    ghost use Rattle.std.specs.Prelude.{◌≤◌, ◌^◌, List, length};
    ghost use Rattle.zone_blocks.specs.declared.links.Link.{Link};

    ghost Value = { List Link };

    ghost view = { λ l. l.records.items };

    ghost invariant = { λ l. length l.records.items ≤ 2 ^ 32 };
}

impl Links {
    /// The records of this many nodes, or an error if the numbers of nodes don't fit into 32 bits or memory runs out.
    pub fn new(alloc: Global, nodes: usize) -> Result<Links, AllocError>
        ensures { IfOk result (λ links. length links ≡ nodes) }
    {
        if nodes > 1 << 32 {
            return Err(AllocError);
        }
        let records = vec![in alloc; Link { next: 0, prev: 0 }; nodes]?;
        Ok(Links { records })
    }

    /// The node after this one.
    pub fn next(&self, node: usize) -> usize
        requires { node < length self.now }
        ensures { result ≡ next_of self.now node }
    {
        self.records[node].next as usize
    }

    /// The node before this one.
    pub fn prev(&self, node: usize) -> usize
        requires { node < length self.now }
        ensures { result ≡ prev_of self.now node }
    {
        self.records[node].prev as usize
    }

    /// Makes `after` the node after `before`, and `before` the node before `after`.
    pub fn join(&mut self, before: usize, after: usize)
        requires before { before < length self.old }
        requires after { after < length self.old }
        ensures { Joins self.old before after self.new }
    {
        let records = &mut self.records;
        records[before].next = after as u32;
        records[after].prev = before as u32;
    }
}
