use crate::block_tree::BlockTree;
use crate::pair_table::PairTable;
use std::alloc::AllocError;
use subscript_keys::{KeyBytes, Pairs, Run, Span, ValueBytes};

/// A tree's runs are its leaves.
impl PairTable for BlockTree {
    ghost pairs = { λ t. t };

    fn len(&self) -> usize {
        BlockTree::len(self)
    }

    fn get(&self, key: &KeyBytes) -> Option<&ValueBytes> {
        BlockTree::get(self, key)
    }

    fn next(&self, key: &KeyBytes) -> Option<(&KeyBytes, &ValueBytes)> {
        BlockTree::next(self, key)
    }

    fn run_for(&self, key: &KeyBytes) -> Result<Run, AllocError> {
        BlockTree::run_for(self, key)
    }

    fn set(&mut self, key: KeyBytes, value: ValueBytes) -> Result<Option<ValueBytes>, AllocError> {
        BlockTree::set(self, key, value)
    }

    fn kill_span(&mut self, span: &Span) -> Result<Pairs, AllocError> {
        BlockTree::kill_span(self, span)
    }
}
