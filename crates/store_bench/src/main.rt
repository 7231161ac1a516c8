//! A program to be timed: it does the same to a tree of blocks or to std's ordered map of the same pairs, and prints how
//! many pairs were found. `store_bench tree WHAT COUNT LENGTH TIMES` and `store_bench map ..` put COUNT pairs with values of
//! LENGTH bytes, in no order (`sets`) or rising (`rising`), and then get each (`gets`), walk from key to key (`walk`), or
//! remove them 1, 100 or all at a time (`kill1`, `kill100`, `killall`), all of it TIMES over. With `none` in place of the
//! first word the pairs and the keys are made, and nothing else is done.
#![tactic(auto)]

mod on_map;
mod on_tree;
mod pairs;
mod what;

use crate::on_map::found_in_map;
use crate::on_tree::found_in_tree;
use crate::pairs::{keys_of, pairs_of};
use crate::what::what_of;
use anyhow::{Result, bail};
use std::env;

fn main(rt: HostRuntime) -> Result<()> {
    let alloc = rt.alloc();
    let mut words = Vec::new(alloc);
    for word in env::args(&rt)?.skip(1) {
        words.push(word)?;
    }
    let [which, what, count, length, times] = words.as_slice() else {
        bail!("usage: store_bench WHICH WHAT COUNT LENGTH TIMES");
    };
    let (Some(what), Ok(count), Ok(length), Ok(times)) = (
        what_of(what.as_str()),
        count.as_str().parse::<u64>(),
        length.as_str().parse::<u64>(),
        times.as_str().parse::<u64>(),
    ) else {
        bail!("usage: store_bench WHICH WHAT COUNT LENGTH TIMES");
    };
    let mut found = 0u64;
    for _ in 0..times {
        let pairs = pairs_of(alloc, what, count, length)?;
        let keys = keys_of(alloc, count)?;
        let more = match which.as_str() {
            "tree" => found_in_tree(alloc, what, pairs, &keys)?,
            "map" => found_in_map(alloc, what, pairs, &keys)?,
            _ => 0,
        };
        found = found.wrapping_add(more);
    }
    println!(rt; "{found}")?;
    Ok(())
}
