// A part that is read, with the capacity that its words tell: who reads many fields reads that one once.
ghost use Rattle.std.specs.Prelude.{◌≡◌};
ghost use Rattle.table.specs.Layout.{cap, cell, link_at};
ghost use Rattle.table.specs.Rep.{child_at};

use crate::{MOST_NODES, capacity, child_field, get_in, inner_slot, up_to};
use std::marker::Model;

// A clause sees the words.
#[derive(Drop)]
pub struct Part<'a> {
    words: &'a [i64],
    capacity: u32,
}

impl<'a> Model for Part<'a> {
    ghost use Rattle.std.specs.Prelude.{◌≡◌};
    ghost use Rattle.table.specs.Words.{Words};
    ghost use Rattle.table.specs.Layout.{cap};

    ghost Value = { Words };

    ghost view = { λ p. p.words.now };

    ghost invariant = { λ p. p.capacity ≡ cap p.words.now };
}

impl<'a> Part<'a> {
    pub fn of(words: &'a [i64]) -> Part<'a>
        ensures { result ≡ words.now }
    {
        Part {
            words,
            capacity: capacity(words),
        }
    }

    // The same for a caller who has read the capacity.
    pub fn with_capacity(words: &'a [i64], capacity: u32) -> Part<'a>
        requires { capacity ≡ cap words.now }
        ensures { result ≡ words.now }
    {
        Part { words, capacity }
    }

    // A slot's field, and 0 where the part has none such.
    pub fn get(&self, field: usize, slot: u32) -> i64
        ensures { result ≡ cell self.now field slot }
    {
        get_in(self.words, self.capacity, field, slot)
    }

    // A slot's field as the number of a node: 0 where it is none from 0 to 8,192.
    pub fn link(&self, field: usize, slot: u32) -> u32
        ensures { result ≡ link_at self.now field slot }
    {
        up_to(MOST_NODES, self.get(field, slot))
    }

    // A child of an inner node, and 0 where `x` is none.
    pub fn child(&self, tree: u8, side: bool, x: u32) -> u32
        ensures { result ≡ child_at self.now tree side x }
    {
        self.link(child_field(tree, side), inner_slot(x))
    }
}
