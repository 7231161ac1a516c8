ghost use Rattle.std.specs.Prelude.{◌≡◌, ◌≤◌, true, map, length, IfOk, OnOk, OnErr};
ghost use Rattle.std.specs.Option.{option_copied, option_map};
ghost use Rattle.std.specs.declared.cmp.Ordering.TheVariants.{Less};
ghost use Rattle.subscript_keys.specs.declared.limits.TheConstants.{KEY_LIMIT, VALUE_LIMIT};
ghost use Rattle.plain_orders.specs.PairMap.{Map, key_cmp, value_at, put, within};
ghost use Rattle.end_words.specs.Runs.{covers, pairs_of};
ghost use Rattle.block_bytes.specs.Blocks.{block_bytes, IsBlockRun};
ghost use Rattle.block_tree.specs.TreeWords.{as_pair, without, next_above, end_of_keys, all_keys, FitsOneBlock};

use std::alloc::AllocError;
use subscript_keys::{KeyBytes, Pairs, Run, Span, ValueBytes};

/// The pairs of a store, cut into runs.
pub trait PairTable: Drop {
    /// The list of the pairs. A tree's rises by their keys, as its own `len` says.
    ghost pairs: { Self → Map };

    /// How many pairs there are.
    fn len(&self) -> usize
        ensures { result ≡ length (pairs self.now) };

    /// The value of the node with this key.
    fn get(&self, key: &KeyBytes) -> Option<&ValueBytes>
        ensures { option_copied result ≡ value_at (pairs self.now) key.now };

    /// The pair with the least key above this one.
    fn next(&self, key: &KeyBytes) -> Option<(&KeyBytes, &ValueBytes)>
        ensures { option_map (λ p. (p.0.now, p.1.now)) result ≡ next_above (pairs self.now) key.now };

    /// A run that holds the key: its span and its pairs. While all pairs fit one block, all of them.
    fn run_for(&self, key: &KeyBytes) -> Result<Run, AllocError>
        requires { key_cmp key.now end_of_keys ≡ Less }
        ensures covers { IfOk result (λ run. covers key.now run ≡ true) }
        ensures pairs { IfOk result (λ run. pairs_of run ≡ within (pairs self.now) run.span) }
        ensures block { IfOk result (λ run. IsBlockRun run) }
        ensures fits { IfOk result (λ run. length (block_bytes run) ≤ 8192) }
        ensures whole { FitsOneBlock (pairs self.now) → IfOk result (λ run. run.span ≡ all_keys) };

    /// Puts a pair in place of another with its key, whose value it answers. Out of memory, nothing changes.
    fn set(&mut self, key: KeyBytes, value: ValueBytes) -> Result<Option<ValueBytes>, AllocError>
        requires key { length key ≤ KEY_LIMIT }
        requires below { key_cmp key end_of_keys ≡ Less }
        requires value { length value ≤ VALUE_LIMIT }
        ensures old { IfOk result (λ old. old ≡ value_at (pairs self.old) key) }
        ensures ok { OnOk result (pairs self.new ≡ put (pairs self.old) key value) }
        ensures err { OnErr result (pairs self.new ≡ pairs self.old) };

    /// Removes the pairs of a span, and answers them in the order of their keys. Out of memory, nothing changes.
    fn kill_span(&mut self, span: &Span) -> Result<Pairs, AllocError>
        ensures removed { IfOk result (λ removed. removed ≡ map as_pair (within (pairs self.old) span.now)) }
        ensures ok { OnOk result (pairs self.new ≡ without (pairs self.old) span.now) }
        ensures err { OnErr result (pairs self.new ≡ pairs self.old) };
}
