// Memory for the lists of heartbeats, used again, so that few heartbeats allocate.
ghost use Rattle.std.specs.Prelude.{◌≡◌, ◌<◌, ◌+◌, ◌++◌, ◌≤◌, length, map, vec_len, vec_capacity, IfOk, OnErr};
ghost use Rattle.puljemrod.specs.Rows.{remaining_of};

use crate::rows::{RemainingRow, remaining_of};
use bm_answers::LineAnswer;
use bm_base::{Call, Event, Items, Remaining};
use std::alloc::{AllocError, Global};
use std::marker::Model;
use std::mem;

/// The longest list that is kept, in items: 64 KiB.
const MOST: usize = 4096;

/// Two lists for the next heartbeats: while the last answer has the list of its heartbeat, the next
/// one takes another. A contract sees the capacity of the first, in items.
#[derive(Drop)]
pub struct Spare {
    first: Vec<Remaining>,
    second: Vec<Remaining>,
}

impl Model for Spare {
    ghost use Rattle.std.specs.Prelude.{ℕ, vec_capacity};

    ghost Value = { ℕ };

    ghost view = { λ s. vec_capacity s.first };
}

impl Spare {
    /// Two empty lists. Takes no memory.
    pub fn new(alloc: Global) -> Spare {
        Spare {
            first: Vec::new(alloc),
            second: Vec::new(alloc),
        }
    }

    /// Moves the first list out with a copy of the rows, in their order. It takes memory only if
    /// that list has too little capacity for them.
    pub fn copy(
        &mut self,
        alloc: Global,
        rows: &[RemainingRow],
    ) -> Result<Items<Remaining>, AllocError>
        ensures copied { IfOk result (λ items. items ≡ map remaining_of rows.now) }
        ensures refused { OnErr result (self.old < length rows.now) }
        ensures unchanged { OnErr result (self.new ≡ self.old) }
    {
        self.first.clear();
        self.first.reserve(rows.len())?;
        let second = mem::replace(&mut self.second, Vec::new(alloc));
        let mut list = mem::replace(&mut self.first, second);
        push_rows(&mut list, rows);
        Ok(Items::from_vec(list))
    }

    /// Takes the list back from an answer that is dropped.
    pub fn take_back(&mut self, answer: Option<LineAnswer>)
        ensures { self.old ≤ self.new }
    {
        let Some(answer) = answer else {
            return;
        };
        let LineAnswer::Answered(call, _answer) = answer else {
            return;
        };
        let Call::Apply(event) = call else {
            return;
        };
        if let Event::Heartbeat { remaining, .. } = event {
            self.put(remaining.into_vec());
        }
    }

    /// Keeps the two longest of the lists, the longest one first.
    fn put(&mut self, list: Vec<Remaining>)
        ensures { self.old ≤ self.new }
    {
        let capacity = list.capacity();
        if capacity > MOST {
            return;
        }
        if self.first.capacity() < capacity {
            self.second = mem::replace(&mut self.first, list);
        } else if self.second.capacity() < capacity {
            self.second = list;
        }
    }
}

/// Appends the rows to a list that has capacity for them.
fn push_rows(list: &mut Vec<Remaining>, rows: &[RemainingRow])
    requires { vec_len list.old + length rows.now ≤ vec_capacity list.old }
    ensures { list.new.items ≡ list.old.items ++ map remaining_of rows.now }
{
    for row in rows {
        list.push_reserved(remaining_of(row));
    }
}
