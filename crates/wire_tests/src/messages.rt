use crate::texts::{bytes, lines, number, word};
use ecp_messages::*;
use plain_orders::Op;
use std::alloc::{AllocError, Global};
use std::str::SplitWhitespace;
use std::test::*;

/// What reading a body answers, the direction, its number, its kind and its fields; at the end the count of what
/// was taken, if it isn't 5.
const BODIES: &str = "
# the first numbers of a session: the update set ^x 5, job 2 asks for ^x shared, 64 messages were taken
whole     up                  1 03 00*7.01.00*6.0100027800000135 0
whole     up                  2 06 0000000700020200027800 3
whole     up                  0 7F - 40
# up messages, each with its smallest and its greatest fields
whole     up                  0 01 01.00*5
whole     up                  0 01 01.FF*5
whole     up                  0 02 00*25
whole     up                  0 02 FF*25
whole     up                  1 03 00*14.01000278000000
whole     up   FFFFFFFFFFFFFFFF 03 FF*14.0200027800
whole     up                  1 04 00*11.02780080.00*7
whole     up                  1 04 FF*10.000278007F.FF*7
whole     up                  1 05 000100
whole     up                  1 05 0003FEFFFF
whole     up                  1 06 00*6.0100027800
whole     up                  1 06 FF*6.0200027800
whole     up                  1 07 00000100027800
whole     up                  1 07 FFFF0200027800
whole     up                  1 08 00*4
whole     up                  1 08 FF*4
whole     up                  1 09 00*15
whole     up                  1 09 FF*14.01
whole     up                  1 0A 00*14
whole     up                  1 0A FF*14
whole     up                  1 0B 00*4
whole     up                  1 0B FF*4
whole     up                  1 0C -
whole     up                  1 0D 00000100000001.00*9.027800
whole     up                  1 0D FFFF02.FF*12.00027800
whole     up                  0 7F -
# a number where none may stand, and none where one has to
bad_field up                  1 01 01.00*5
bad_field up                  1 7F -
bad_field up                  0 0C -
# version 2
bad_field up                  0 01 02.00*5
# an increment as an Update
bad_field up                  1 03 00*14.03000278.00*9
# no key of a node
bad_field up                  1 04 00*11.017880.00*7
bad_field up                  1 07 0000010000
# no bytes, and such that don't stand below FF
bad_field up                  1 05 0000
bad_field up                  1 05 0001FF
bad_field up                  1 05 0002FF00
# modes 0 and 3
bad_field up                  1 06 00*8.027800
bad_field up                  1 06 00*6.0300027800
bad_field up                  1 07 00*4.027800
bad_field up                  1 0D 00000300000001.00*9.027800
# wanted 2
bad_field up                  1 09 00*14.02
# count 0
bad_field up                  1 0D 000001.00*13.027800
bad_field up                  0 0D 00000100000001.00*9.027800
# kinds that no up message has
bad_kind  up                  1 00 01
bad_kind  up                  1 0E 01
bad_kind  up                  1 7E 01
bad_kind  up                  1 80 01
bad_kind  up                  1 81 01
bad_kind  up                  1 FF 01
# down messages
whole     down                0 81 00*52
whole     down                0 81 FF*52
whole     down                0 82 00*16
whole     down                0 82 FF*16
whole     down                1 83 00*26
whole     down FFFFFFFFFFFFFFFF 83 FF*24.000200FF
whole     down                1 84 00*27.01FF
whole     down                1 84 FF*24.0002780000037800FF
whole     down                1 85 00*24
whole     down                1 85 FF*24
whole     down                1 86 00*36
whole     down                1 86 FF*36
whole     down                1 87 00*24.01.00*18.80.00*7
whole     down                1 87 FF*24.01.FF*18.7F.FF*7
whole     down                1 87 00*24.06.00*26
whole     down                1 88 00*24
whole     down                1 88 FF*24
whole     down                0 7F -
# a number where none may stand, none where one has to, and a Bare with one
bad_field down                1 82 00*16
bad_field down                0 85 00*24
bad_field down                1 7F -
# about 0 and 7
bad_field down                1 87 00*51
bad_field down                1 87 00*24.07.00*26
# a sum of what wasn't counted
bad_field down                1 87 00*24.02.00*25.01
# a block that is cut off
bad_field down                1 83 00*25.0200
# kinds that no down message has
bad_kind  down                1 00 01
bad_kind  down                1 0D 01
bad_kind  down                1 7E 01
bad_kind  down                1 80 01
bad_kind  down                1 89 01
bad_kind  down                1 FF 01
";

/// The bodies of an Update `set ^x 5`, of an Answer with the numbers 3 to 8 that tells the sum -2, and of a Block of
/// two bytes.
const FIELDS: &str = "
1 03 00*7.01000200000003010002780000.0135
1 87 00*7.03.00*7.04.00*7.05010006.00*7.07.00*7.08.FF*7.FE
1 83 00*25.026869
";

/// The body that words tell: its number, its kind, its fields, and maybe the count of what was taken.
fn body_of(alloc: Global, words: &mut SplitWhitespace<'_>) -> Result<Vec<u8>, Fail> {
    let seq = number(words)?;
    let kind = number(words)?;
    let fields = bytes(alloc, words)?;
    let taken = match words.next() {
        None => 5,
        Some(taken) => u64::from_str_radix(taken, 16)?,
    };
    let mut body = Vec::new(alloc);
    body.extend_from_slice(&seq.to_be_bytes())?;
    body.extend_from_slice(&taken.to_be_bytes())?;
    body.push(u8::try_from(kind)?)?;
    body.extend_from_slice(fields.as_slice())?;
    Ok(body)
}

/// What the frame of a body is written as.
fn up_again(alloc: Global, body: &[u8]) -> Result<Vec<u8>, MessageError> {
    let frame = decode_up(alloc, body)?;
    let mut written = Vec::new(alloc);
    encode_up(&frame, &mut written).map_err(MessageError::Memory)?;
    Ok(written)
}

fn down_again(alloc: Global, body: &[u8]) -> Result<Vec<u8>, MessageError> {
    let frame = decode_down(alloc, body)?;
    let mut written = Vec::new(alloc);
    encode_down(&frame, &mut written).map_err(MessageError::Memory)?;
    Ok(written)
}

/// What reading a body answers, and writing its frame.
fn answer(alloc: Global, direction: &str, body: &[u8]) -> &'static str {
    let again = match direction {
        "up" => up_again(alloc, body),
        _ => down_again(alloc, body),
    };
    match again {
        Ok(written) if written.as_slice() == body => "whole",
        Ok(_) => "other bytes",
        Err(MessageError::BadKind) => "bad_kind",
        Err(MessageError::BadField) => "bad_field",
        Err(MessageError::LeftOver) => "left_over",
        Err(MessageError::Memory(_)) => "memory",
    }
}

#[test]
fn bodies_are_read_and_written_or_refused(rt: HostRuntime) -> Result<(), Fail> {
    let alloc = rt.alloc();
    for line in lines(alloc, BODIES)? {
        let mut words = line.split_whitespace();
        let want = word(&mut words)?;
        let direction = word(&mut words)?;
        let mut body = body_of(alloc, &mut words)?;
        assert_eq!(rt; answer(alloc, direction, body.as_slice()), want, "{line}");
        if want != "whole" {
            continue;
        }
        for cut in 0..body.len() {
            let (front, _) = body.as_slice().split_at(cut);
            assert_eq!(rt;
                answer(alloc, direction, front),
                "bad_field",
                "{line}, cut at {cut}"
            );
        }
        body.push(0)?;
        assert_eq!(rt;
            answer(alloc, direction, body.as_slice()),
            "left_over",
            "{line}"
        );
    }
    Ok(())
}

/// Whether a body stands for an update `set ^x 5` with the numbers 1, 2 and 3.
fn is_update(alloc: Global, body: &[u8]) -> Result<bool, MessageError> {
    let frame = decode_up(alloc, body)?;
    Ok(match &frame.message {
        Up::Update {
            w: 1,
            job: 2,
            txn: 3,
            op: Op::Set { key, value },
        } => key.as_slice() == b"x\0".as_slice() && value.as_slice() == b"5".as_slice(),
        _ => false,
    })
}

/// Whether a body stands for an Answer with the numbers 3 to 8 that tells the sum -2, or for a Block of two bytes.
fn is_answer_or_block(alloc: Global, body: &[u8]) -> Result<bool, MessageError> {
    let frame = decode_down(alloc, body)?;
    Ok(match &frame.message {
        Down::Answer {
            front: Front { n: 3, w: 4, s: 5 },
            about: About::Counted,
            job: 6,
            number: 7,
            at: 8,
            sum: -2,
        } => true,
        Down::Block { block, .. } => block.as_slice() == b"hi".as_slice(),
        _ => false,
    })
}

#[test]
fn fields_stand_in_the_order_of_the_table(rt: HostRuntime) -> Result<(), Fail> {
    let alloc = rt.alloc();
    for line in lines(alloc, FIELDS)? {
        let body = body_of(alloc, &mut line.split_whitespace())?;
        let is_up = line.starts_with("1 03");
        let is_right = if is_up {
            is_update(alloc, body.as_slice())?
        } else {
            is_answer_or_block(alloc, body.as_slice())?
        };
        assert!(rt; is_right, "{line}");
    }
    messages_have_one_spelling();
    Ok(())
}
