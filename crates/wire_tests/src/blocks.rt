use crate::texts::{bytes, lines, word};
use block_bytes::*;
use std::alloc::Global;
use std::str::SplitWhitespace;
use std::test::*;
use subscript_keys::{KeyBytes, Pair, Pairs, Run, Span, ValueBytes};

/// The bytes of a block, or of what would be one if it weren't too large, and the run: the ends of its span, and
/// its keys, each with its value.
const RUNS: &str = "
fits  0100000001FF000100027800000135             -  FF  7800 35
fits  0100000001FF000200017800000001790000       -  FF  78 -  79 -
fits  0100000001FF0001000278001FF2.37*8178       -  FF  7800 37*8178
large 0100000001FF0001000278001FF3.37*8179       -  FF  7800 37*8179
";

/// Bytes that are no block, and why.
const NO_BLOCKS: &str = "
0100000001FF00010002780000013500           a byte more
0200000001FF000100027800000135             another form
0100000001FF000200027800000135             a count too high
0100000001FF010000027800000135             a count with its ends swapped
010001780001780000                         an empty span
01000000027800000100027800000135           a key at the span's end
010001790001FF000100027800000135           a key before the span
0100000001FF000200017800000001780000       equal keys
0100000001FF000200017900000001780000       falling keys
";

/// The run that words tell.
fn run_of(alloc: Global, words: &mut SplitWhitespace<'_>) -> Result<Run, Fail> {
    let lo = KeyBytes::from_vec(bytes(alloc, words)?);
    let hi = KeyBytes::from_vec(bytes(alloc, words)?);
    let mut pairs = Pairs::new(alloc);
    for _ in 0..2 {
        if words.clone()?.next().is_none() {
            break;
        }
        let key = KeyBytes::from_vec(bytes(alloc, words)?);
        let value = ValueBytes::from_vec(bytes(alloc, words)?);
        pairs.push(Pair { key, value })?;
    }
    Ok(Run {
        span: Span { lo, hi },
        pairs,
    })
}

fn is_no_block(alloc: Global, bytes: &[u8]) -> bool {
    matches!(read_block(alloc, bytes), Err(BlockError::NotABlock))
}

#[test]
fn a_run_stands_as_its_bytes_if_these_are_at_most_8192(rt: HostRuntime) -> Result<(), Fail> {
    let alloc = rt.alloc();
    for line in lines(alloc, RUNS)? {
        let mut words = line.split_whitespace();
        let fits = word(&mut words)? == "fits";
        let want = bytes(alloc, &mut words)?;
        let run = run_of(alloc, &mut words)?;
        if !is_block_run(&run) {
            return Err(Fail::from("the run has a block"));
        }
        let written = write_block(alloc, &run);
        assert_eq!(rt; is_no_block(alloc, want.as_slice()), !fits);
        if !fits {
            assert!(rt; matches!(written, Err(BlockError::BlockTooLarge)));
            continue;
        }
        let block = written.ok().ok_or("the run fits")?;
        assert_eq!(rt; block.as_slice(), want.as_slice());
        let found = read_block(alloc, want.as_slice())?;
        assert_eq!(rt; found.span, run.span);
        assert_eq!(rt; found.pairs.as_slice(), run.pairs.as_slice());
        assert_eq!(rt; block.into_vec().as_slice(), want.as_slice());
        for cut in 0..want.len().min(100) {
            assert!(rt; is_no_block(alloc, &want[..cut]), "cut at {cut}");
        }
    }
    Ok(())
}

#[test]
fn other_bytes_are_no_block(rt: HostRuntime) -> Result<(), Fail> {
    let alloc = rt.alloc();
    for line in lines(alloc, NO_BLOCKS)? {
        let bytes = bytes(alloc, &mut line.split_whitespace())?;
        assert!(rt; is_no_block(alloc, bytes.as_slice()), "{line}");
    }
    Ok(())
}
