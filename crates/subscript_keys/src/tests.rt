ghost use Rattle.std.specs.Prelude.{IfOk};
ghost use Rattle.subscript_keys.specs.Key.{HasForm};

use crate::{Decimal, KeyBytes, KeyError, Name, Node, Span, Sub, SubText, Subs, decode, encode};
use std::alloc::{AllocError, Global};

/// Numbers of one digit, of two and of eighteen at every exponent that has them, in rising order.
const RISING: [&[u8]; 96] = [
    b".000000000000000001",
    b".00000000000000001",
    b".000000000000000012",
    b".0000000000000001",
    b".00000000000000012",
    b".000000000000001",
    b".0000000000000012",
    b".00000000000001",
    b".000000000000012",
    b".0000000000001",
    b".00000000000012",
    b".000000000001",
    b".0000000000012",
    b".00000000001",
    b".000000000012",
    b".0000000001",
    b".00000000012",
    b".000000001",
    b".0000000012",
    b".00000001",
    b".000000012",
    b".0000001",
    b".00000012",
    b".000001",
    b".0000012",
    b".00001",
    b".000012",
    b".0001",
    b".00012",
    b".001",
    b".0012",
    b".01",
    b".012",
    b".1",
    b".12",
    b".123456789012345678",
    b".5",
    b".999999999999999999",
    b"1",
    b"1.2",
    b"1.23456789012345678",
    b"2",
    b"5",
    b"9.9",
    b"10",
    b"12",
    b"12.3456789012345678",
    b"100",
    b"120",
    b"123.456789012345678",
    b"1000",
    b"1200",
    b"1234.56789012345678",
    b"10000",
    b"12000",
    b"12345.6789012345678",
    b"100000",
    b"120000",
    b"123456.789012345678",
    b"1000000",
    b"1200000",
    b"1234567.89012345678",
    b"10000000",
    b"12000000",
    b"12345678.9012345678",
    b"100000000",
    b"120000000",
    b"123456789.012345678",
    b"1000000000",
    b"1200000000",
    b"1234567890.12345678",
    b"10000000000",
    b"12000000000",
    b"12345678901.2345678",
    b"100000000000",
    b"120000000000",
    b"123456789012.345678",
    b"1000000000000",
    b"1200000000000",
    b"1234567890123.45678",
    b"10000000000000",
    b"12000000000000",
    b"12345678901234.5678",
    b"100000000000000",
    b"120000000000000",
    b"123456789012345.678",
    b"1000000000000000",
    b"1200000000000000",
    b"1234567890123456.78",
    b"10000000000000000",
    b"12000000000000000",
    b"12345678901234567.8",
    b"100000000000000000",
    b"120000000000000000",
    b"123456789012345678",
    b"999999999999999999",
];

/// What is a number where its text is one, and text else.
fn sub_of(alloc: Global, text: &[u8]) -> Result<Sub, AllocError>
    ensures { IfOk result HasForm }
{
    match Decimal::read(text) {
        Some(number) => Ok(Sub::Num(number)),
        None => Ok(Sub::Text(SubText::from_vec(Vec::from_slice(alloc, text)?))),
    }
}

/// The key of the node ^x with this subscript.
fn key_of_sub(alloc: Global, text: &[u8]) -> Result<KeyBytes, KeyError> {
    let sub = sub_of(alloc, text).map_err(KeyError::Memory)?;
    let name = Vec::from_slice(alloc, b"x").map_err(KeyError::Memory)?;
    let mut subs = Subs::new(alloc);
    subs.push(sub).map_err(KeyError::Memory)?;
    let node = Node {
        name: Name::from_vec(name),
        subs,
    };
    encode(alloc, &node)
}

#[test]
fn keys_have_the_bytes_of_the_format(rt: HostRuntime) {
    let table: [(&[u8], &[u8]); 9] = [
        (b"-1.5", &[0x78, 0x00, 0x10, 0x3F, 0x09, 0x05, 0x0B]),
        (b"-.5", &[0x78, 0x00, 0x10, 0x40, 0x05, 0x0B]),
        (b"0", &[0x78, 0x00, 0x20]),
        (b".5", &[0x78, 0x00, 0x30, 0x40, 0x06, 0x00]),
        (b"10", &[0x78, 0x00, 0x30, 0x42, 0x02, 0x00]),
        (b"02", &[0x78, 0x00, 0x40, 0x30, 0x32, 0x00, 0x01]),
        (
            b"a\x00\xFF",
            &[0x78, 0x00, 0x40, 0x61, 0x00, 0xFF, 0xFF, 0x00, 0x01],
        ),
        (b"-0", &[0x78, 0x00, 0x40, 0x2D, 0x30, 0x00, 0x01]),
        (b"1.", &[0x78, 0x00, 0x40, 0x31, 0x2E, 0x00, 0x01]),
    ];
    for (text, want) in table {
        let key = key_of_sub(rt.alloc(), text).expect(&rt, "memory");
        assert_eq!(rt; key.as_slice(), want, "{text:?}");
        let node = decode(rt.alloc(), want).expect(&rt, "a node's key");
        let sub = sub_of(rt.alloc(), text).expect(&rt, "memory");
        assert_eq!(rt;
            node.name.as_slice(),
            b"x".as_slice(),
            "the name beside {text:?}"
        );
        assert!(rt;
            matches!(node.subs.as_slice(), [read] if *read == sub),
            "{text:?} is read back"
        );
    }
}

/// How many subscripts the node has that has this key; none where no node has it.
fn subs_read(alloc: Global, key: &[u8]) -> Result<Option<usize>, KeyError> {
    match decode(alloc, key) {
        Ok(node) => Ok(Some(node.subs.as_slice().len())),
        Err(KeyError::NotAKey) => Ok(None),
        Err(error) => Err(error),
    }
}

/// The key of ^x(-1.5,"a\00b").
const TWO_SUBS: [u8; 14] = [
    0x78, 0x00, 0x10, 0x3F, 0x09, 0x05, 0x0B, 0x40, 0x61, 0x00, 0xFF, 0x62, 0x00, 0x01,
];

#[test]
fn a_front_of_a_key_is_one_only_behind_the_name_or_a_subscript(rt: HostRuntime) {
    for length in 0..=TWO_SUBS.len() {
        let (front, _) = TWO_SUBS.split_at(length);
        let want = match length {
            2 => Some(0),
            7 => Some(1),
            14 => Some(2),
            _ => None,
        };
        let read = subs_read(rt.alloc(), front).expect(&rt, "memory");
        assert!(rt; read == want, "{front:?}");
    }
}

#[test]
fn a_key_with_a_byte_changed_is_read_as_the_format_has_it(rt: HostRuntime) {
    let table: [(&[u8], bool); 26] = [
        // the name of ^x(-1.5)
        (&[0x41, 0x00, 0x10, 0x3F, 0x09, 0x05, 0x0B], true),
        (&[0x30, 0x00, 0x10, 0x3F, 0x09, 0x05, 0x0B], false),
        (&[0x00, 0x00, 0x10, 0x3F, 0x09, 0x05, 0x0B], false),
        (&[0x78, 0x61, 0x10, 0x3F, 0x09, 0x05, 0x0B], false),
        // its tag
        (&[0x78, 0x00, 0x0F, 0x3F, 0x09, 0x05, 0x0B], false),
        (&[0x78, 0x00, 0x20, 0x3F, 0x09, 0x05, 0x0B], false),
        (&[0x78, 0x00, 0x30, 0x3F, 0x09, 0x05, 0x0B], false),
        (&[0x78, 0x00, 0x40, 0x3F, 0x09, 0x05, 0x0B], false),
        // its exponent: 19, 18, -16 and -17
        (&[0x78, 0x00, 0x10, 0x2D, 0x09, 0x05, 0x0B], false),
        (&[0x78, 0x00, 0x10, 0x2E, 0x09, 0x05, 0x0B], true),
        (&[0x78, 0x00, 0x10, 0x50, 0x09, 0x05, 0x0B], true),
        (&[0x78, 0x00, 0x10, 0x51, 0x09, 0x05, 0x0B], false),
        // its digits: 9, 0, none, a last 0, one
        (&[0x78, 0x00, 0x10, 0x3F, 0x01, 0x05, 0x0B], true),
        (&[0x78, 0x00, 0x10, 0x3F, 0x0A, 0x05, 0x0B], false),
        (&[0x78, 0x00, 0x10, 0x3F, 0x0B, 0x05, 0x0B], false),
        (&[0x78, 0x00, 0x10, 0x3F, 0x09, 0x0A, 0x0B], false),
        (&[0x78, 0x00, 0x10, 0x3F, 0x09, 0x0B, 0x0B], false),
        // its end
        (&[0x78, 0x00, 0x10, 0x3F, 0x09, 0x05, 0x00], false),
        // ^x("02"), ^x("12"), which is the number 12, ^x(""), and ends of a text
        (&[0x78, 0x00, 0x40, 0x30, 0x32, 0x00, 0x01], true),
        (&[0x78, 0x00, 0x40, 0x31, 0x32, 0x00, 0x01], false),
        (&[0x78, 0x00, 0x40, 0x00, 0x01], false),
        (&[0x78, 0x00, 0x40, 0x30, 0x32, 0x00, 0x02], false),
        (&[0x78, 0x00, 0x40, 0x30, 0x32, 0x00, 0xFF], false),
        (&[0x78, 0x00, 0x40, 0x41], false),
        // the digits of 18 and of 19 ones
        (
            b"x\x00\x30\x52\x02\x02\x02\x02\x02\x02\x02\x02\x02\x02\x02\x02\x02\x02\x02\x02\x02\x02\x00",
            true,
        ),
        (
            b"x\x00\x30\x52\x02\x02\x02\x02\x02\x02\x02\x02\x02\x02\x02\x02\x02\x02\x02\x02\x02\x02\x02\x00",
            false,
        ),
    ];
    for (key, is_key) in table {
        let read = subs_read(rt.alloc(), key).expect(&rt, "memory");
        let want = if is_key { Some(1) } else { None };
        assert!(rt; read == want, "{key:?}");
    }
}

#[test]
fn subscripts_past_the_limits_are_refused(rt: HostRuntime) {
    let empty = key_of_sub(rt.alloc(), b"");
    assert!(rt;
        matches!(empty, Err(KeyError::EmptySubscript)),
        "the empty subscript"
    );
    let longest = vec![in rt.alloc(); b'a'; 495].expect(&rt, "memory");
    let key = key_of_sub(rt.alloc(), &longest).expect(&rt, "a key of 500 bytes");
    assert_eq!(rt; key.as_slice().len(), 500, "the longest key");
    let longer = vec![in rt.alloc(); b'a'; 496].expect(&rt, "memory");
    let refused = key_of_sub(rt.alloc(), &longer);
    assert!(rt;
        matches!(refused, Err(KeyError::KeyTooLong)),
        "a key of 501 bytes"
    );
}

/// The text with a minus sign in front.
fn negated(alloc: Global, text: &[u8]) -> Result<Vec<u8>, AllocError> {
    let mut negative = Vec::from_slice(alloc, b"-")?;
    negative.extend_from_slice(text)?;
    Ok(negative)
}

#[test]
fn numbers_stand_by_value_and_before_texts(rt: HostRuntime) {
    for pair in RISING.windows(2) {
        if let [less, more] = pair {
            let below = key_of_sub(rt.alloc(), less).expect(&rt, "memory");
            let above = key_of_sub(rt.alloc(), more).expect(&rt, "memory");
            assert!(rt; below < above, "{less:?} before {more:?}");
            assert!(rt;
                below.as_slice().get(2) == Some(&0x30),
                "{less:?} is a number"
            );
            let minus_less = negated(rt.alloc(), less).expect(&rt, "memory");
            let minus_more = negated(rt.alloc(), more).expect(&rt, "memory");
            let below = key_of_sub(rt.alloc(), &minus_more).expect(&rt, "memory");
            let above = key_of_sub(rt.alloc(), &minus_less).expect(&rt, "memory");
            assert!(rt; below < above, "{minus_more:?} before {minus_less:?}");
            assert!(rt;
                above.as_slice().get(2) == Some(&0x10),
                "{minus_less:?} is a number"
            );
        }
    }
    let mixed: [&[u8]; 14] = [
        b"-999999999999999999",
        b"-10",
        b"-1.5",
        b"-.5",
        b"-.000000000000000001",
        b"0",
        b".000000000000000001",
        b".5",
        b"2",
        b"10",
        b"999999999999999999",
        b"02",
        b"A",
        b"a",
    ];
    for pair in mixed.windows(2) {
        if let [less, more] = pair {
            let below = key_of_sub(rt.alloc(), less).expect(&rt, "memory");
            let above = key_of_sub(rt.alloc(), more).expect(&rt, "memory");
            assert!(rt; below < above, "{less:?} before {more:?}");
        }
    }
}

#[test]
fn texts_of_numbers_are_read_and_written(rt: HostRuntime) {
    for text in RISING {
        let number = Decimal::read(text).expect(&rt, "a canonical number");
        let mut written = Vec::new(rt.alloc());
        number.write(&mut written).expect(&rt, "memory");
        assert_eq!(rt; written.as_slice(), text, "the text again");
        let negative = negated(rt.alloc(), text).expect(&rt, "memory");
        let number = Decimal::read(&negative).expect(&rt, "a canonical number");
        let mut written = Vec::new(rt.alloc());
        number.write(&mut written).expect(&rt, "memory");
        assert_eq!(rt; written, negative, "the negative text again");
    }
    let others: [&[u8]; 12] = [
        b"",
        b"-",
        b".",
        b"-0",
        b"00",
        b"01",
        b"0.5",
        b"1.",
        b"1.50",
        b"1..2",
        b"1e5",
        b"1234567890123456789",
    ];
    for text in others {
        assert!(rt;
            Decimal::read(text).is_none(),
            "{text:?} is no canonical number"
        );
    }
}

#[test]
fn the_span_under_a_node_ends_behind_its_descendants(rt: HostRuntime) {
    let one = key_of_sub(rt.alloc(), b"1").expect(&rt, "memory");
    let two = key_of_sub(rt.alloc(), b"2").expect(&rt, "memory");
    let span = Span::under(rt.alloc(), &one).expect(&rt, "memory");
    assert!(rt; span.contains(&one), "the node itself");
    assert!(rt; !span.contains(&two), "the next node");
    let next = Span::under(rt.alloc(), &two).expect(&rt, "memory");
    assert!(rt;
        span.meets(&span) && !span.meets(&next),
        "spans of two nodes"
    );
}
