// The names of one kind, numbered from 1 in the order of their first occurrence.
ghost use Rattle.std.specs.Prelude.{◌≡◌, ◌+◌, true, not, is_some, IfOk, OnOk, [], length, position, bytes_eq};
ghost use Rattle.fsck_cluster.specs.Names.{is_new, name_number, name_of, with_name};

use indexmap::IndexSet;
use std::alloc::{AllocError, Global};
use std::marker::Model;

/// Names, with a hash table of their indices.
#[derive(Drop)]
pub struct Names {
    set: IndexSet<String>,
}

impl Model for Names {
    ghost use Rattle.std.specs.Prelude.{List, map, string_bytes};
    ghost use Rattle.fsck_text.specs.Cuts.{Text};

    ghost Value = { List Text };

    ghost view = { λ names. map string_bytes names.set.keys };
}

/// The number of a name, and whether the name is new.
#[derive(Clone, Copy, Drop)]
pub struct Numbered {
    pub number: u32,
    pub is_new: bool,
}

impl Names {
    /// Makes an empty set of names. Takes no memory.
    pub fn new(alloc: Global) -> Names
        ensures { result ≡ [] }
    {
        Names {
            set: IndexSet::new(alloc),
        }
    }

    /// Returns the number of names.
    pub fn len(&self) -> usize
        ensures { result ≡ length self.now }
    {
        self.set.len()
    }

    /// The number of a name; a new name is added. `Err` when out of memory, or if the number does
    /// not fit into 32 bits.
    pub fn intern(&mut self, alloc: Global, name: &str) -> Result<Numbered, AllocError>
        ensures number { IfOk result (λ r. r.number ≡ name_number self.old name.now) }
        ensures new { IfOk result (λ r. r.is_new ≡ is_new self.old name.now) }
        ensures names { OnOk result (self.new ≡ with_name self.old name.now) }
    {
        let (index, is_new) = self.intern_index(alloc, name)?;
        match u32::try_from(index).ok().and_then(|at| at.checked_add(1)) {
            Some(number) => Ok(Numbered { number, is_new }),
            None => Err(AllocError),
        }
    }

    /// The index of a name, and whether it was added now.
    fn intern_index(&mut self, alloc: Global, name: &str) -> Result<(usize, bool), AllocError>
        ensures index { IfOk result (λ r. r.0 + 1 ≡ name_number self.old name.now) }
        ensures new { IfOk result (λ r. r.1 ≡ is_new self.old name.now) }
        ensures names { OnOk result (self.new ≡ with_name self.old name.now) }
    {
        match self.index(name) {
            Some(index) => Ok((index, false)),
            None => Ok((self.put(alloc, name)?, true)),
        }
    }

    /// Adds a new name at the end, and returns its index.
    fn put(&mut self, alloc: Global, name: &str) -> Result<usize, AllocError>
        requires { is_new self.old name.now ≡ true }
        ensures index { IfOk result (λ at. at + 1 ≡ name_number self.old name.now) }
        ensures names { OnOk result (self.new ≡ with_name self.old name.now) }
    {
        let key = String::from_str(alloc, name)?;
        let (index, _) = self.set.insert_full(key)?;
        Ok(index)
    }

    /// The index of a name, if it is known.
    pub fn index(&self, name: &str) -> Option<usize>
        ensures index { result ≡ position (bytes_eq name.now) self.now }
        ensures new { not (is_some result) ≡ is_new self.now name.now }
    {
        self.set.get_index_of(name)
    }

    /// The name of a number; empty if it has none.
    pub fn name(&self, number: u32) -> &str
        ensures { result.now ≡ name_of self.now number }
    {
        match self.set.get_index((number as usize).saturating_sub(1)) {
            Some(name) => name.as_str(),
            None => "",
        }
    }
}
