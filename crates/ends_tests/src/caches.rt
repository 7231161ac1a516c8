use crate::texts::{calls, key, key_of, span, word};
use block_cache::{BlockCache, CACHE_LIMIT};
use std::alloc::Global;
use std::str;
use std::test::Fail;
use subscript_keys::{Pair, Pairs, Run, Span, ValueBytes};

const CALLS: &str = "
# The run taken last is the first of those that cover a key, and two of one span stay two.
block a c one =
block a c two =
peek b = two
cover b = two
peek d = none
# A use puts a run in front.
block b d three =
peek b = three
cover a = two
peek b = two
# A Drop lets go what it meets, and an end isn't within.
drop c d =
peek b = two
peek c = none
block c d four =
drop a b =
cover a = none
cover c = four
clear =
cover c = none
# A run within another one, and one that holds others: the first of those that cover counts.
block a z wide =
block f g within =
block m n other =
peek f = within
cover b = wide
peek f = wide
drop m n =
peek f = within
peek b = none
";

#[test]
fn a_cache_answers_the_first_that_covers(rt: HostRuntime) -> Result<(), Fail> {
    let mut cache = BlockCache::new(rt.alloc())?;
    for (call, wanted) in calls(rt.alloc(), CALLS)? {
        let answer = called(rt.alloc(), &mut cache, call)?;
        assert_eq!(rt; answer.as_str(), wanted, "{call}");
    }
    Ok(())
}

#[test]
fn a_full_cache_lets_go_the_run_used_least_lately(rt: HostRuntime) -> Result<(), Fail> {
    let alloc = rt.alloc();
    let mut cache = BlockCache::new(alloc)?;
    for (lo, hi, name) in [("a", "b", "old"), ("b", "c", "used")] {
        cache.take_block(run(
            alloc,
            Span {
                lo: key_of(alloc, lo)?,
                hi: key_of(alloc, hi)?,
            },
            name,
        )?)?;
    }
    for _one in 2..CACHE_LIMIT {
        cache.take_block(run(
            alloc,
            Span {
                lo: key_of(alloc, "c")?,
                hi: key_of(alloc, "d")?,
            },
            "more",
        )?)?;
    }
    for (call, wanted) in calls(
        alloc,
        "cover b = used\nblock c d last =\npeek a = none\npeek b = used\npeek c = last\n",
    )? {
        assert_eq!(rt; called(alloc, &mut cache, call)?.as_str(), wanted, "{call}");
    }
    Ok(())
}

fn called(alloc: Global, cache: &mut BlockCache, call: &str) -> Result<String, Fail> {
    let mut words = call.split_whitespace();
    match word(&mut words)? {
        "block" => {
            let span = span(alloc, &mut words)?;
            cache.take_block(run(alloc, span, word(&mut words)?)?)?;
        }
        "drop" => cache.drop_span(&span(alloc, &mut words)?),
        "clear" => cache.clear(),
        "cover" => {
            let key = key(alloc, &mut words)?;
            return name_of(alloc, cache.cover(&key));
        }
        _ => {
            let key = key(alloc, &mut words)?;
            return name_of(alloc, cache.peek(&key));
        }
    }
    Ok(String::new(alloc))
}

/// A run with one pair, whose value is a name.
fn run(alloc: Global, span: Span, name: &str) -> Result<Run, Fail> {
    let pair = Pair {
        key: span.lo.clone()?,
        value: ValueBytes::from_vec(Vec::from_slice(alloc, name.as_bytes())?),
    };
    let mut pairs = Vec::new(alloc);
    pairs.push(pair)?;
    Ok(Run {
        span,
        pairs: Pairs::from_vec(pairs),
    })
}

fn name_of(alloc: Global, run: Option<&Run>) -> Result<String, Fail> {
    let Some(run) = run else {
        return Ok(String::from_str(alloc, "none")?);
    };
    let pair = run.pairs.as_slice().first().ok_or("a run has no pair")?;
    Ok(String::from_str(alloc, str::from_utf8(pair.value.as_slice())?)?)
}
