ghost use Rattle.std.specs.Prelude.{IfOk};
ghost use Rattle.field_bytes.specs.Fields.{HasShortLists};
ghost use Rattle.journal_records.specs.Records.{IsRecordOp};

use crate::texts::{bytes, lines, word};
use field_bytes::*;
use plain_orders::Op;
use std::alloc::Global;
use std::str::SplitWhitespace;
use std::test::*;
use subscript_keys::{NUMBER_LIMIT, ValueBytes};

/// The bytes of an operation, and the operation, whose key stands after its count; `none` where they begin with
/// none.
const OPS: &str = "
0100024100000135                 set 00024100 35
0200024100                       kill 00024100
03000241.00*7.012C               add 00024100 300
0300024100.FF*8                  add 00024100 -1
-                                none
0000024100                       none
0400024100                       none
02000141                         none
";

/// The operation that words tell, in a transaction, 0 being none.
pub fn op_of(alloc: Global, txn: u32, words: &mut SplitWhitespace<'_>) -> Result<Op, Fail>
    ensures short { IfOk result (λ op. HasShortLists op) }
    ensures recorded { IfOk result (λ op. IsRecordOp txn op) }
{
    let kind = word(words)?;
    let key = bytes(alloc, words)?;
    let (key, _) = take_key(alloc, key.as_slice())?;
    if kind == "kill" {
        return Ok(Op::Kill { key });
    }
    if kind == "set" {
        let value = bytes(alloc, words)?;
        if value.len() > 65535 {
            return Err(Fail::from("a value is too long"));
        }
        let value = ValueBytes::from_vec(value);
        return Ok(Op::Set { key, value });
    }
    let amount = word(words)?.parse::<i64>()?;
    if kind != "add" || txn != 0 || amount.unsigned_abs() >= NUMBER_LIMIT {
        return Err(Fail::from("no such operation"));
    }
    Ok(Op::Add { key, amount })
}

#[test]
fn numbers_and_lists_stand_with_the_greatest_byte_first(rt: HostRuntime) -> Result<(), Fail> {
    let mut bytes = Vec::new(rt.alloc());
    put_u8(&mut bytes, 0xA1)?;
    put_u16(&mut bytes, 0xB1B2)?;
    put_u32(&mut bytes, 0xC1C2_C3C4)?;
    put_u64(&mut bytes, 0xD1D2_D3D4_D5D6_D7D8)?;
    put_i64(&mut bytes, -2)?;
    put_list(&mut bytes, b"hi")?;
    let want =
        b"\xA1\xB1\xB2\xC1\xC2\xC3\xC4\xD1\xD2\xD3\xD4\xD5\xD6\xD7\xD8\xFF\xFF\xFF\xFF\xFF\xFF\xFF\xFE\x00\x02hi";
    assert_eq!(rt; bytes.as_slice(), want.as_slice());
    let (n8, rest) = take_u8(bytes.as_slice()).ok_or("a byte")?;
    let (n16, rest) = take_u16(rest).ok_or("two bytes")?;
    let (n32, rest) = take_u32(rest).ok_or("four bytes")?;
    let (n64, rest) = take_u64(rest).ok_or("eight bytes")?;
    let (signed, rest) = take_i64(rest).ok_or("eight bytes with a sign")?;
    let (list, rest) = take_list(rest).ok_or("a list")?;
    assert_eq!(rt; (n8, n16, n32), (0xA1, 0xB1B2, 0xC1C2_C3C4));
    assert_eq!(rt; n64, 0xD1D2_D3D4_D5D6_D7D8);
    assert_eq!(rt; signed, -2);
    assert_eq!(rt; list, b"hi".as_slice());
    assert!(rt; rest.is_empty());
    Ok(())
}

#[test]
fn operations_stand_behind_their_kinds(rt: HostRuntime) -> Result<(), Fail> {
    let alloc = rt.alloc();
    for line in lines(alloc, OPS)? {
        let mut words = line.split_whitespace();
        let want = bytes(alloc, &mut words)?;
        if line.ends_with("none") {
            assert!(rt;
                matches!(take_op(alloc, &want), Err(FieldError::NoField)),
                "{line}"
            );
            continue;
        }
        let op = op_of(alloc, 0, &mut words)?;
        let mut written = Vec::new(alloc);
        put_op(&mut written, &op)?;
        assert_eq!(rt; written.as_slice(), want.as_slice());
        assert!(rt;
            matches!(take_op(alloc, &want), Ok((taken, [])) if taken == op),
            "{line}"
        );
        let (_, cut) = want
            .as_slice()
            .split_last()
            .ok_or("an operation has bytes")?;
        assert!(rt;
            matches!(take_op(alloc, cut), Err(FieldError::NoField)),
            "{line}"
        );
    }
    Ok(())
}
