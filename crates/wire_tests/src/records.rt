ghost use Rattle.std.specs.Prelude.{IfOk};
ghost use Rattle.journal_records.specs.Records.{HasRecordOp};

use crate::fields::op_of;
use crate::texts::{bytes, lines, number, word};
use journal_records::*;
use plain_orders::Entry;
use std::alloc::Global;
use std::str::SplitWhitespace;
use std::test::*;

/// The bytes of a record, and its entry: its kind and its numbers in hexadecimal digits; an update ends with its
/// operation.
const RECORDS: &str = "
01.00*4                                       epoch 0
0101020304                                    epoch 01020304
01.FF*4                                       epoch FFFFFFFF
02.00*9                                       opened 0 0
02A1A2A3A4A5A6A7A807                          opened A1A2A3A4A5A6A7A8 7
02.FF*9                                       opened FFFFFFFFFFFFFFFF FF
03.00*8                                       closed 0
03A1A2A3A4A5A6A7A8                            closed A1A2A3A4A5A6A7A8
03.FF*8                                       closed FFFFFFFFFFFFFFFF
04.00*22.0100024100000135                     update 0 0 0 0 set 00024100 35
04.FF*22.0100024100000135                     update FFFFFFFFFFFFFFFF FFFFFFFFFFFFFFFF FFFF FFFFFFFF set 00024100 35
04A1A2A3A4A5A6A7A8B1B2B3B4B5B6B7B8C1C2D1D2D3D4.0200024100                update A1A2A3A4A5A6A7A8 B1B2B3B4B5B6B7B8 C1C2 D1D2D3D4 kill 00024100
04A1A2A3A4A5A6A7A8B1B2B3B4B5B6B7B8C1C2.00*4.03000241000DE0B6B3A763FFFF   update A1A2A3A4A5A6A7A8 B1B2B3B4B5B6B7B8 C1C2 0 add 00024100 999999999999999999
04.FF*18.00*4.0300024100F21F494C589C0001      update FFFFFFFFFFFFFFFF FFFFFFFFFFFFFFFF FFFF 0 add 00024100 -999999999999999999
05.00*22                                      commit 0 0 0 0
05A1A2A3A4A5A6A7A8B1B2B3B4B5B6B7B8C1C2D1D2D3D4 commit A1A2A3A4A5A6A7A8 B1B2B3B4B5B6B7B8 C1C2 D1D2D3D4
05.FF*22                                      commit FFFFFFFFFFFFFFFF FFFFFFFFFFFFFFFF FFFF FFFFFFFF
06.00*22                                      rollback 0 0 0 0
06A1A2A3A4A5A6A7A8B1B2B3B4B5B6B7B8C1C2D1D2D3D4 rollback A1A2A3A4A5A6A7A8 B1B2B3B4B5B6B7B8 C1C2 D1D2D3D4
06.FF*22                                      rollback FFFFFFFFFFFFFFFF FFFFFFFFFFFFFFFF FFFF FFFFFFFF
";

/// Bytes that begin with no record, and why.
const NO_RECORDS: &str = "
-                                             no bytes
00*23                                         kind 00
07.00*22                                      kind 07
04.00*21.0103000241.00*9                      an increment in a transaction
04.00*22.03000241000DE0B6B3A7640000           an increment of 19 digits
04.00*22.0300024100F21F494C589C0000           one of 19 digits and a minus sign
04.00*22.02000141                             a key of no node
04.00*22.0400024100                           an operation of kind 04
";

/// The entry that words tell.
pub fn entry_of(alloc: Global, words: &mut SplitWhitespace<'_>) -> Result<Entry, Fail>
    ensures { IfOk result (λ entry. HasRecordOp entry) }
{
    let kind = word(words)?;
    let session = number(words)?;
    if kind == "epoch" {
        let number = u32::try_from(session)?;
        return Ok(Entry::Epoch { number });
    }
    if kind == "closed" {
        return Ok(Entry::Closed { session });
    }
    let w = number(words)?;
    if kind == "opened" {
        let app = u8::try_from(w)?;
        return Ok(Entry::Opened { session, app });
    }
    let job = u16::try_from(number(words)?)?;
    let txn = u32::try_from(number(words)?)?;
    if kind == "commit" {
        return Ok(Entry::Commit {
            session,
            w,
            job,
            txn,
        });
    }
    if kind == "rollback" {
        return Ok(Entry::Rollback {
            session,
            w,
            job,
            txn,
        });
    }
    let op = op_of(alloc, txn, words)?;
    Ok(Entry::Update {
        session,
        w,
        job,
        txn,
        op,
    })
}

fn is_no_record(alloc: Global, bytes: &[u8]) -> bool {
    matches!(read_entry(alloc, bytes), Err(RecordError::NotARecord))
}

/// Whether so many bytes in front are the record of the entry.
fn begins_with(alloc: Global, bytes: &[u8], entry: &Entry, length: usize) -> bool {
    matches!(read_entry(alloc, bytes), Ok((found, count)) if found == *entry && count == length)
}

#[test]
fn an_entry_stands_as_its_record_and_is_read_back(rt: HostRuntime) -> Result<(), Fail> {
    let alloc = rt.alloc();
    for line in lines(alloc, RECORDS)? {
        let mut words = line.split_whitespace();
        let want = bytes(alloc, &mut words)?;
        let want = want.as_slice();
        let entry = entry_of(alloc, &mut words)?;
        let mut bytes = Vec::new(alloc);
        write_entry(&entry, &mut bytes)?;
        assert_eq!(rt; bytes.as_slice(), want);
        assert!(rt; begins_with(alloc, want, &entry, want.len()), "{line}");
        for cut in 0..want.len() {
            assert!(rt; is_no_record(alloc, &want[..cut]), "{line}, cut at {cut}");
        }
        write_entry(&entry, &mut bytes)?;
        let (front, after) = bytes.as_slice().split_at(want.len());
        assert_eq!(rt; (front, after), (want, want));
        assert!(rt;
            begins_with(alloc, bytes.as_slice(), &entry, want.len()),
            "{line}"
        );
    }
    Ok(())
}

#[test]
fn other_bytes_are_no_record(rt: HostRuntime) -> Result<(), Fail> {
    let alloc = rt.alloc();
    for line in lines(alloc, NO_RECORDS)? {
        let bytes = bytes(alloc, &mut line.split_whitespace())?;
        assert!(rt; is_no_record(alloc, bytes.as_slice()), "{line}");
    }
    Ok(())
}
