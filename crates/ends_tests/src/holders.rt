use crate::texts::{add, calls, number, span, word};
use block_holders::{Drops, Holders};
use plain_orders::Spans;
use std::alloc::Global;
use std::str::{self, SplitWhitespace};
use std::test::Fail;

const CALLS: &str = "
# Those that meet go in the order in which they were noted, whoever's they are; an end isn't within.
note 5 a c =
note 2 b d =
note 5 c e =
touched a b = 5:a
touched a b =
touched d e = 5:c
# The very span is noted once for a session, and again after it was dropped.
note 2 b d =
touched c d x z = 2:b
touched b d =
note 2 b d =
note 3 b d =
note 2 a b =
touched a z = 2:b 3:b 2:a
# What a session had is forgotten, and what meets nothing stays.
note 7 a c =
note 8 a c =
forget 7 =
touched c d =
touched a a =
touched b c = 8:a
# A span within another one is found, and so is one that holds others; what is empty meets nothing.
note 1 a z =
note 2 f g =
note 3 m m =
note 4 c d =
note 5 c k =
touched m n = 1:a
touched f g = 2:f 5:c
touched l n =
touched a z = 4:c
forget 3 =
";

#[test]
fn touched_spans_are_told_once_in_the_order_noted(rt: HostRuntime) -> Result<(), Fail> {
    let mut holders = Holders::new(rt.alloc());
    for (call, wanted) in calls(rt.alloc(), CALLS)? {
        let answer = called(rt.alloc(), &mut holders, call)?;
        assert_eq!(rt; answer.as_str(), wanted, "{call}");
    }
    Ok(())
}

fn called(alloc: Global, holders: &mut Holders, call: &str) -> Result<String, Fail> {
    let mut words = call.split_whitespace();
    match word(&mut words)? {
        "note" => holders.note(number(&mut words)?, span(alloc, &mut words)?)?,
        "forget" => holders.forget(number(&mut words)?),
        _ => {
            let spans = spans(alloc, call, &mut words)?;
            return told(alloc, holders.touched(&spans)?);
        }
    }
    Ok(String::new(alloc))
}

/// One span, or two.
fn spans(alloc: Global, call: &str, words: &mut SplitWhitespace<'_>) -> Result<Spans, Fail> {
    let mut spans = Spans::new(alloc);
    for _two in 0..call.split_whitespace().count() / 2 {
        spans.push(span(alloc, words)?)?;
    }
    Ok(spans)
}

fn told(alloc: Global, drops: Drops) -> Result<String, Fail> {
    let mut answer = String::new(alloc);
    for noted in drops.into_vec() {
        let lo = str::from_utf8(noted.span.lo.as_slice())?;
        add(
            &mut answer,
            format!(in alloc; "{}:{lo}", noted.session)?.as_str(),
        )?;
    }
    Ok(answer)
}
