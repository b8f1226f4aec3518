// The file of each block.
ghost use Rattle.std.specs.Prelude.{◌≡◌, length, slice_get, option_map, not, IfOk, OnOk, if◌then◌else◌};
ghost use Rattle.cluster_names.specs.FileTable.{has_block, with_block, with_path, path_index, file_index_of, path_of, no_blocks};

use bm_base::{BlockId, Items};
use indexmap::{IndexMap, IndexSet};
use std::alloc::{AllocError, Global};
use std::marker::Model;

/// Where a block is among the files: the index of its file's path, and its index in the file.
#[derive(Clone, Copy, Debug, PartialEq, Eq, Drop)]
pub struct FileIndex {
    pub file: usize,
    pub index: u64,
}

/// The files and their blocks. Each path and each block is stored once; a look-up is by hash.
#[derive(Drop)]
pub struct Files {
    paths: IndexSet<String>,
    file_indices: IndexMap<u64, FileIndex>,
}

impl Model for Files {
    ghost use Rattle.std.specs.Prelude.{map, string_bytes};
    ghost use Rattle.cluster_names.specs.FileTable.{FileTable};

    ghost Value = { FileTable };

    ghost view = { λ f. record {
      paths = map string_bytes f.paths.keys;
      file_indices = f.file_indices.entries;
    } };
}

impl Files {
    /// A table without files. Takes no memory.
    pub fn new(alloc: Global) -> Files
        ensures { result ≡ no_blocks }
    {
        Files {
            paths: IndexSet::new(alloc),
            file_indices: IndexMap::new(alloc),
        }
    }

    /// The number of files that have a block.
    pub fn file_count(&self) -> usize
        ensures { result ≡ length self.now.paths }
    {
        self.paths.len()
    }

    /// The number of blocks that are in a file.
    pub fn block_count(&self) -> usize
        ensures { result ≡ length self.now.file_indices }
    {
        self.file_indices.len()
    }

    /// The path of a file, by its index.
    pub fn path(&self, file: usize) -> Option<&str>
        ensures { option_map (λ t. t.now) result ≡ slice_get self.now.paths file }
    {
        match self.paths.get_index(file) {
            Some(path) => Some(path.as_str()),
            None => None,
        }
    }

    /// The file of a block, and its index there.
    pub fn find_block(&self, block: BlockId) -> Option<FileIndex>
        ensures { result ≡ file_index_of self.now block }
    {
        self.file_indices.get(&block.0).copied()
    }

    /// The block at an index, with its file, in the order of addition.
    pub fn get(&self, index: usize) -> Option<(BlockId, FileIndex)>
        ensures { result ≡ slice_get self.now.file_indices index }
    {
        let (block, file_index) = self.file_indices.get_index(index)?;
        Some((BlockId(*block), *file_index))
    }

    /// The path of a block's file, and the index of the block there.
    pub fn path_of(&self, block: BlockId) -> Option<(&str, u64)>
        ensures { option_map (λ p. (p.0.now, p.1)) result ≡ path_of self.now block }
    {
        let found = self.find_block(block)?;
        let path = self.path(found.file)?;
        Some((path, found.index))
    }

    /// Adds a block of a file. `false` if the block is in a file already; then nothing changes.
    pub fn add(
        &mut self,
        alloc: Global,
        block: BlockId,
        path: &str,
        index: u64,
    ) -> Result<bool, AllocError>
        ensures added { IfOk result (λ added. added ≡ not (has_block self.old block)) }
        ensures blocks { IfOk result (λ added. self.new
            ≡ (if added then with_block self.old block path.now index else self.old)) }
    {
        if self.file_indices.contains_key(&block.0) {
            return Ok(false);
        }
        let file = self.intern_path(alloc, path)?;
        self.file_indices
            .insert(block.0, FileIndex { file, index })?;
        Ok(true)
    }

    /// The index of a path, which is added if it is new.
    fn intern_path(&mut self, alloc: Global, path: &str) -> Result<usize, AllocError>
        ensures index { IfOk result (λ at. at ≡ path_index self.old.paths path.now) }
        ensures paths { OnOk result (self.new.paths ≡ with_path self.old.paths path.now) }
        ensures file_indices { self.new.file_indices ≡ self.old.file_indices }
    {
        if let Some(index) = self.paths.get_index_of(path) {
            return Ok(index);
        }
        let path = String::from_str(alloc, path)?;
        let (index, _) = self.paths.insert_full(path)?;
        Ok(index)
    }
}
