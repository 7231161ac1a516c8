ghost use Rattle.std.specs.Prelude.{◌≡◌, ℕ, ◌+◌, [], IfOk, OnOk, OnErr, option_map};
ghost use Rattle.std.specs.Borrow.{sem};
ghost use Rattle.std.specs.List.{find};
ghost use Rattle.std.specs.NonZero.{non_zero_usize_get};
ghost use Rattle.std.specs.Option.{option_copied};
ghost use Rattle.std.specs.Map.{values_of};
ghost use Rattle.std.specs.Map.Iter.{deref_pair};
ghost use Rattle.end_words.specs.Runs.{covers};
ghost use Rattle.block_cache.specs.CacheWords.{used, with_block, without_met};
ghost use Rattle.block_cache.specs.Numbering.{number_of, IsNumberedBelow, SameSpans};
ghost use Rattle.block_cache.specs.declared.limits.TheConstants.{CACHE_LIMIT};

use crate::limits::CACHE_LIMIT;
use lru::LruCache;
use span_index::{Found, SpanIndex};
use std::alloc::{AllocError, Global};
use std::marker::Model;
use std::num::NonZeroUsize;
use subscript_keys::{KeyBytes, Run, Span};

/// The runs of a data server that came and weren't dropped, at most `CACHE_LIMIT`.
#[derive(Drop)]
pub struct BlockCache {
    /// The runs by running numbers.
    runs: LruCache<u64, Run>,
    /// Their spans, each that of its number.
    spans: SpanIndex,
    /// The number of the next run.
    next: u64,
}

impl Model for BlockCache {
    ghost use Rattle.std.specs.Prelude.{◌≡◌, List};
    ghost use Rattle.std.specs.Map.{values_of};
    ghost use Rattle.subscript_keys.specs.declared.run.Run.{Run};
    ghost use Rattle.block_cache.specs.declared.limits.TheConstants.{CACHE_LIMIT};
    ghost use Rattle.block_cache.specs.Numbering.{IsNumberedBelow, SameSpans};

    ghost Value = { List Run };

    ghost view = { λ c. values_of c.runs.entries };

    ghost invariant = { λ c. (c.runs.cap ≡ CACHE_LIMIT) × IsNumberedBelow c.next c.runs.entries × SameSpans c.runs.entries c.spans };
}

impl BlockCache {
    ghost use Rattle.block_cache.specs.CacheLends.{EndsAs};

    pub fn new(alloc: Global) -> Result<BlockCache, AllocError>
        ensures { IfOk result (λ cache. cache ≡ []) }
    {
        Ok(BlockCache {
            runs: LruCache::new(alloc, limit())?,
            spans: SpanIndex::new(alloc),
            next: 0,
        })
    }

    /// The first run that covers the key. It counts as used.
    pub fn cover(&mut self, key: &KeyBytes) -> Option<&Run>
        ensures* uses { sem 𝓛 (EndsAs self.entry (used key.now self.old)) }
        ensures value { option_copied result ≡ find (covers key.now) self.old }
    {
        self.use_cover(key);
        self.peek(key)
    }

    /// Counts the first run that covers the key as used.
    fn use_cover(&mut self, key: &KeyBytes)
        ensures { self.new ≡ used key.now self.old }
    {
        use_cover(&mut self.runs, &self.spans, key);
    }

    /// The run that `cover` answers; it doesn't count as used.
    pub fn peek(&self, key: &KeyBytes) -> Option<&Run>
        ensures { option_copied result ≡ find (covers key.now) self.now }
    {
        cover_run(&self.runs, &self.spans, key)
    }

    /// Puts a run in front. At the limit the last one goes. Past the greatest number it answers as where there is no
    /// memory.
    pub fn take_block(&mut self, run: Run) -> Result<(), AllocError>
        ensures ok { OnOk result (self.new ≡ with_block run self.old) }
        ensures err { OnErr result (self.new ≡ self.old) }
    {
        if self.next == u64::MAX {
            return Err(AllocError);
        }
        put_block(&mut self.runs, &mut self.spans, self.next, run)?;
        self.next += 1;
        Ok(())
    }

    /// Lets go the runs that meet the span. It takes no memory.
    pub fn drop_span(&mut self, span: &Span)
        ensures { self.new ≡ without_met span.now self.old }
    {
        drop_met(&mut self.runs, &mut self.spans, span);
    }

    /// Lets all runs go.
    pub fn clear(&mut self)
        ensures { self.new ≡ [] }
    {
        self.runs.clear();
        self.spans.clear();
    }
}

/// How many runs are kept at most.
fn limit() -> NonZeroUsize
    ensures { non_zero_usize_get result ≡ CACHE_LIMIT }
{
    match NonZeroUsize::new(CACHE_LIMIT) {
        Some(limit) => limit,
        None => NonZeroUsize::MIN,
    }
}

/// Whether a run covers the key.
fn is_cover(run: &Run, key: &KeyBytes) -> bool
    ensures { result ≡ covers key.now run.now }
{
    run.span.contains(key)
}

/// The first run that covers the key, with its number, by going through them.
fn find_cover<'a>(runs: &'a LruCache<u64, Run>, key: &KeyBytes) -> Option<(&'a u64, &'a Run)>
    ensures { option_map deref_pair result ≡ find (λ e. covers key.now e.1) runs.now.entries }
{
    runs.iter().find(|entry| is_cover(entry.1, key))
}

/// The number of the first run that covers the key, by going through them.
fn first_number(runs: &LruCache<u64, Run>, key: &KeyBytes) -> Option<u64>
    ensures { result ≡ option_map number_of (find (λ e. covers key.now e.1) runs.now.entries) }
{
    Some(*find_cover(runs, key)?.0)
}

/// The number of the first run that covers the key: the runs are gone through only where several cover it.
fn cover_number(runs: &LruCache<u64, Run>, spans: &SpanIndex, key: &KeyBytes) -> Option<u64>
    requires { SameSpans runs.now.entries spans.now }
    ensures { result ≡ option_map number_of (find (λ e. covers key.now e.1) runs.now.entries) }
{
    match spans.holder(key) {
        Found::Nowhere => None,
        Found::Once(number) => Some(number),
        Found::Often => first_number(runs, key),
    }
}

/// The first run that covers the key.
fn cover_run<'a>(runs: &'a LruCache<u64, Run>, spans: &SpanIndex, key: &KeyBytes) -> Option<&'a Run>
    requires { SameSpans runs.now.entries spans.now }
    ensures { option_copied result ≡ find (covers key.now) (values_of runs.now.entries) }
{
    if runs.len() < 1 {
        return None;
    }
    let number = cover_number(runs, spans, key)?;
    runs.peek(&number)
}

/// Puts the first run that covers the key in front.
fn use_cover(runs: &mut LruCache<u64, Run>, spans: &SpanIndex, key: &KeyBytes)
    requires { SameSpans runs.old.entries spans.now }
    ensures values { values_of runs.new.entries ≡ used key.now (values_of runs.old.entries) }
    ensures cap { runs.new.cap ≡ runs.old.cap }
    ensures numbers { (n : ℕ) → IsNumberedBelow n runs.old.entries → IsNumberedBelow n runs.new.entries }
    ensures spans { SameSpans runs.new.entries spans.now }
{
    if runs.len() == 0 {
        return;
    }
    match cover_number(runs, spans, key) {
        None => (),
        Some(number) => {
            runs.promote(&number);
        }
    }
}

/// The run's span, once more.
fn span_of(run: &Run) -> Result<Span, AllocError>
    ensures { IfOk result (λ span. span ≡ run.now.span) }
{
    Ok(Span {
        lo: run.span.lo.clone()?,
        hi: run.span.hi.clone()?,
    })
}

/// Puts a run in front, with a number above all others. Where that fails its span isn't kept.
fn put_block(
    runs: &mut LruCache<u64, Run>,
    spans: &mut SpanIndex,
    number: u64,
    run: Run,
) -> Result<(), AllocError>
    requires limit { runs.old.cap ≡ CACHE_LIMIT }
    requires numbers { IsNumberedBelow number runs.old.entries }
    requires spans { SameSpans runs.old.entries spans.old }
    ensures values { OnOk result (values_of runs.new.entries ≡ with_block run (values_of runs.old.entries)) }
    ensures limit { OnOk result (runs.new.cap ≡ CACHE_LIMIT) }
    ensures numbers { OnOk result (IsNumberedBelow (number + 1) runs.new.entries) }
    ensures spans { SameSpans runs.new.entries spans.new }
    ensures err { OnErr result (runs.new ≡ runs.old) }
{
    // The length tells that the numbers differ and that no more runs are there than are kept at most.
    let _count = runs.len();
    spans.put(number, span_of(&run)?)?;
    match runs.push(number, run) {
        Ok(None) => Ok(()),
        Ok(Some(gone)) => {
            spans.drop_owner(gone.0);
            Ok(())
        }
        Err(_) => {
            spans.drop_owner(number);
            Err(AllocError)
        }
    }
}

/// Lets go the runs that meet the span.
fn drop_met(runs: &mut LruCache<u64, Run>, spans: &mut SpanIndex, span: &Span)
    requires { SameSpans runs.old.entries spans.old }
    ensures values { values_of runs.new.entries ≡ without_met span.now (values_of runs.old.entries) }
    ensures cap { runs.new.cap ≡ runs.old.cap }
    ensures numbers { (n : ℕ) → IsNumberedBelow n runs.old.entries → IsNumberedBelow n runs.new.entries }
    ensures spans { SameSpans runs.new.entries spans.new }
{
    while runs.len() > 0 {
        match spans.met(span) {
            None => return,
            Some(number) => {
                drop(runs.pop(&number));
                spans.drop_owner(number);
            }
        }
    }
}
