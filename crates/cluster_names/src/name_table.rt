// Numbers and names of one kind, one to one.
ghost use Rattle.std.specs.Prelude.{◌≡◌, ◌++◌, ◌∷◌, [], Some, length, slice_get, option_map, IfOk, IfSome, OnErr, if◌then◌else◌};
ghost use Rattle.cluster_names.specs.Rows.{name_of, number_of, is_free};

use indexmap::{IndexMap, IndexSet};
use std::alloc::{AllocError, Global};
use std::marker::Model;

/// Names of one kind. No number has two names, and no name two numbers. A look-up is by hash.
#[derive(Drop)]
pub struct NameTable {
    /// Each name with its number, in the order of addition.
    names: IndexMap<String, u32>,
    /// The numbers in the same order, so that the index of a number is that of its name.
    numbers: IndexSet<u32>,
}

impl Model for NameTable {
    ghost use Rattle.std.specs.Prelude.{map};
    ghost use Rattle.cluster_names.specs.Rows.{Rows};
    ghost use Rattle.cluster_names.specs.Names.{row_of, IsIndexed};

    ghost Value = { Rows };

    ghost view = { λ t. map row_of t.names.entries };

    ghost invariant = { λ t. IsIndexed t.names.entries t.numbers.keys };
}

impl NameTable {
    /// A table without names. Takes no memory.
    pub fn new(alloc: Global) -> NameTable
        ensures { result ≡ [] }
    {
        NameTable {
            names: IndexMap::new(alloc),
            numbers: IndexSet::new(alloc),
        }
    }

    /// Returns the number of names.
    pub fn len(&self) -> usize
        ensures { result ≡ length self.now }
    {
        self.names.len()
    }

    /// The number and the name at an index, in the order of their addition.
    pub fn get(&self, index: usize) -> Option<(u32, &str)>
        ensures { option_map (λ r. (r.0, r.1.now)) result ≡ slice_get self.now index }
    {
        let (name, number) = self.names.get_index(index)?;
        Some((*number, name.as_str()))
    }

    /// The name of a number.
    pub fn name(&self, number: u32) -> Option<&str>
        ensures name { option_map (λ t. t.now) result ≡ name_of self.now number }
        ensures back { IfSome result (λ t. number_of self.now t.now ≡ Some number) }
    {
        let index = self.numbers.get_index_of(&number)?;
        let (name, _) = self.names.get_index(index)?;
        Some(name.as_str())
    }

    /// The number of a name.
    pub fn number(&self, name: &str) -> Option<u32>
        ensures number { result ≡ number_of self.now name.now }
        ensures back { IfSome result (λ n. name_of self.now n ≡ Some name.now) }
    {
        self.names.get(name).copied()
    }

    /// Adds a number with its name. `false` if the number has a name already, or the name a number;
    /// then nothing changes.
    pub fn add(&mut self, alloc: Global, number: u32, name: &str) -> Result<bool, AllocError>
        ensures added { IfOk result (λ added. added ≡ is_free self.old number name.now) }
        ensures rows { IfOk result (λ added. self.new
            ≡ (if added then self.old ++ (number, name.now) ∷ [] else self.old)) }
        ensures err { OnErr result (self.new ≡ self.old) }
    {
        if self.name(number).is_some() || self.number(name).is_some() {
            return Ok(false);
        }
        let name = String::from_str(alloc, name)?;
        self.numbers.reserve(1)?;
        self.names.insert(name, number)?;
        match self.numbers.insert(number) {
            Ok(_) => Ok(true),
            Err(_) => unreachable!(),
        }
    }
}
