use crate::{TextError, print_node, print_value, read_front, read_node, read_value};
use std::alloc::Global;
use subscript_keys::{KEY_LIMIT, ValueBytes, encode};

/// The name of a refusal.
fn name_of(error: &TextError) -> &'static str {
    match error {
        TextError::NoCaret => "NoCaret",
        TextError::BadName => "BadName",
        TextError::BadSubscript => "BadSubscript",
        TextError::Unclosed => "Unclosed",
        TextError::KeyTooLong => "KeyTooLong",
        TextError::BadValue => "BadValue",
        TextError::ValueTooLong => "ValueTooLong",
        TextError::Memory(_) => "Memory",
    }
}

/// The printed text of the value that is read, after the number of bytes read.
fn value_again(alloc: Global, text: &[u8]) -> Result<(usize, ValueBytes, Vec<u8>), TextError> {
    let (value, count) = match read_value(alloc, text) {
        Ok(read) => read,
        Err(error) => return Err(error),
    };
    let mut printed = Vec::new(alloc);
    print_value(&value, &mut printed).map_err(TextError::Memory)?;
    Ok((count, value, printed))
}

/// The printed text of the node that is read, after the number of bytes read.
fn node_again(alloc: Global, text: &[u8]) -> Result<(usize, Vec<u8>), TextError> {
    let (node, count) = match read_node(alloc, text) {
        Ok(read) => read,
        Err(error) => return Err(error),
    };
    let mut printed = Vec::new(alloc);
    print_node(&node, &mut printed).map_err(TextError::Memory)?;
    Ok((count, printed))
}

#[test]
fn values_are_read_and_printed(rt: HostRuntime) {
    let table: [(&[u8], usize, &[u8], &[u8]); 19] = [
        (b"0", 1, b"0", b"0"),
        (b"5 ^x", 1, b"5", b"5"),
        (b"-.5,", 3, b"-.5", b"-.5"),
        (b"10.5)", 4, b"10.5", b"10.5"),
        (
            b"123456789012345678",
            18,
            b"123456789012345678",
            b"123456789012345678",
        ),
        (
            b"1234567890123456789",
            19,
            b"1234567890123456789",
            b"\"1234567890123456789\"",
        ),
        (b"\"2\"", 3, b"2", b"2"),
        (b"\"02\"", 4, b"02", b"\"02\""),
        (b"\"\"", 2, b"", b"\"\""),
        (b"\"\"\"\"", 4, b"\"", b"\"\"\"\""),
        (b"\"a\"\"b\" 1", 6, b"a\"b", b"\"a\"\"b\""),
        (b"\"a\\\\b\"", 6, b"a\\b", b"\"a\\\\b\""),
        (b"\"\\41\\7e\\7f\"", 11, b"A~\x7F", b"\"A~\\7f\""),
        (b"\"\\0a\\00\"", 8, b"\n\x00", b"\"\\0a\\00\""),
        (b"\"\\ff\\ab\"", 8, b"\xFF\xAB", b"\"\\ff\\ab\""),
        (b"\"\\22\\5c\"", 8, b"\"\\", b"\"\"\"\\\\\""),
        (b"\"\t\xC3\"", 4, b"\t\xC3", b"\"\\09\\c3\""),
        (b"\"none\"", 6, b"none", b"\"none\""),
        (b"\"a\"1", 3, b"a", b"\"a\""),
    ];
    for (text, count, value, printed) in table {
        let (read, is, again) = value_again(rt.alloc(), text).expect(&rt, "a value");
        assert_eq!(rt; read, count, "the bytes read of {text:?}");
        assert_eq!(rt; is.as_slice(), value, "the value of {text:?}");
        assert_eq!(rt; again.as_slice(), printed, "the printed text of {text:?}");
    }
}

#[test]
fn texts_of_no_value_are_refused(rt: HostRuntime) {
    let table: [(&[u8], &str); 23] = [
        (b"", "BadValue"),
        (b"none", "BadValue"),
        (b" 5", "BadValue"),
        (b"\n", "BadValue"),
        (b"-", "BadValue"),
        (b"-0", "BadValue"),
        (b"01", "BadValue"),
        (b"0.5", "BadValue"),
        (b"1.", "BadValue"),
        (b"1.50", "BadValue"),
        (b"1-2", "BadValue"),
        (b"1.2.3", "BadValue"),
        (b"\"", "Unclosed"),
        (b"\"ab", "Unclosed"),
        (b"\"ab\"\"", "Unclosed"),
        (b"\"ab\n\"", "Unclosed"),
        (b"\"ab\\\\", "Unclosed"),
        (b"\"ab\\", "BadValue"),
        (b"\"ab\\4\"", "BadValue"),
        (b"\"ab\\4A\"", "BadValue"),
        (b"\"ab\\A4\"", "BadValue"),
        (b"\"ab\\\"\"", "BadValue"),
        (b"\"ab\\n\"", "BadValue"),
    ];
    for (text, want) in table {
        match read_value(rt.alloc(), text) {
            Ok(_) => assert!(rt; false, "{text:?} is read"),
            Err(error) => assert_eq!(rt; name_of(&error), want, "the refusal of {text:?}"),
        }
    }
}

#[test]
fn nodes_are_read_and_printed(rt: HostRuntime) {
    let table: [(&[u8], usize, &[u8]); 14] = [
        (b"^x", 2, b"^x"),
        (b"^x 5", 2, b"^x"),
        (b"^Ab9,", 4, b"^Ab9"),
        (b"^x\"", 2, b"^x"),
        (
            b"^abcdefghijklmnopqrstuvwxyz01234)",
            32,
            b"^abcdefghijklmnopqrstuvwxyz01234",
        ),
        (b"^x(1)", 5, b"^x(1)"),
        (b"^x(\"1\") 5", 7, b"^x(1)"),
        (b"^x(0,-.5,\"02\")(1)", 14, b"^x(0,-.5,\"02\")"),
        (b"^x(\"\")", 6, b"^x(\"\")"),
        (b"^x(\"a\"\"b\",\"\\00\")", 16, b"^x(\"a\"\"b\",\"\\00\")"),
        (b"^x(\"\\41\")", 9, b"^x(\"A\")"),
        (b"^x(123456789012345678)", 22, b"^x(123456789012345678)"),
        (
            b"^x(1234567890123456789)",
            23,
            b"^x(\"1234567890123456789\")",
        ),
        (b"^x(\",)\")", 8, b"^x(\",)\")"),
    ];
    for (text, count, printed) in table {
        let (read, again) = node_again(rt.alloc(), text).expect(&rt, "a node");
        assert_eq!(rt; read, count, "the bytes read of {text:?}");
        assert_eq!(rt; again.as_slice(), printed, "the printed text of {text:?}");
    }
}

#[test]
fn texts_of_no_node_are_refused(rt: HostRuntime) {
    let table: [(&[u8], &str); 27] = [
        (b"", "NoCaret"),
        (b"x", "NoCaret"),
        (b" ^x", "NoCaret"),
        (b"^", "BadName"),
        (b"^1", "BadName"),
        (b"^(1)", "BadName"),
        (b"^abcdefghijklmnopqrstuvwxyz012345", "BadName"),
        (b"^x(", "Unclosed"),
        (b"^x(\n", "Unclosed"),
        (b"^x(1", "Unclosed"),
        (b"^x(1\n)", "Unclosed"),
        (b"^x(1,", "Unclosed"),
        (b"^x(\"a", "Unclosed"),
        (b"^x(\"a)", "Unclosed"),
        (b"^x(\"a\n\")", "Unclosed"),
        (b"^x()", "BadSubscript"),
        (b"^x(,1)", "BadSubscript"),
        (b"^x(1,)", "BadSubscript"),
        (b"^x(a)", "BadSubscript"),
        (b"^x(1 )", "BadSubscript"),
        (b"^x( 1)", "BadSubscript"),
        (b"^x(\"a\"b)", "BadSubscript"),
        (b"^x(01)", "BadSubscript"),
        (b"^x(-0)", "BadSubscript"),
        (b"^x(\"\\4\")", "BadSubscript"),
        (b"^x(\"\\4F\")", "BadSubscript"),
        (b"^x(\"a\\", "BadSubscript"),
    ];
    for (text, want) in table {
        match read_node(rt.alloc(), text) {
            Ok(_) => assert!(rt; false, "{text:?} is read"),
            Err(error) => assert_eq!(rt; name_of(&error), want, "the refusal of {text:?}"),
        }
    }
}

#[test]
fn a_front_ends_at_its_fault(rt: HostRuntime) {
    let table: [(&[u8], &[u8], usize, &str); 5] = [
        (b"^abc,", b"abc", 0, "4"),
        (b"^x(1,\"b\") y", b"x", 2, "9"),
        (b"^x(1,\"b", b"x", 1, "Unclosed"),
        (b"^x(1,\"b\";", b"x", 2, "BadSubscript"),
        (b"^x(", b"x", 0, "Unclosed"),
    ];
    for (text, name, count, want) in table {
        let front = read_front(rt.alloc(), text).expect(&rt, "a caret and a name");
        assert_eq!(rt; front.name.as_slice(), name, "{text:?}");
        assert_eq!(rt; front.subs.as_slice().len(), count, "{text:?}");
        match front.end {
            Ok(taken) => {
                let taken = format!(in rt.alloc(); "{taken}").expect(&rt, "memory");
                assert_eq!(rt; taken.as_str(), want, "{text:?}");
            }
            Err(error) => assert_eq!(rt; name_of(&error), want, "{text:?}"),
        }
    }
    for (text, want) in [(b"x(1)", "NoCaret"), (b"^1(1", "BadName")] {
        match read_front(rt.alloc(), text) {
            Ok(_) => assert!(rt; false, "{text:?} is read"),
            Err(error) => assert_eq!(rt; name_of(&error), want, "{text:?}"),
        }
    }
}

/// A front, a piece so many times, and a back.
fn repeated(
    alloc: Global,
    front: &[u8],
    piece: &[u8],
    count: usize,
    back: &[u8],
) -> Result<Vec<u8>, TextError> {
    let mut text = Vec::from_slice(alloc, front).map_err(TextError::Memory)?;
    for _piece in 0..count {
        text.extend_from_slice(piece).map_err(TextError::Memory)?;
    }
    text.extend_from_slice(back).map_err(TextError::Memory)?;
    Ok(text)
}

#[test]
fn the_limits_are_the_formats(rt: HostRuntime) {
    let values: [(&[u8], &[u8], usize, &[u8], &str); 8] = [
        (b"\"", b"\\00", 3000, b"\"", "read"),
        (b"\"", b"\\00", 3001, b"\"", "ValueTooLong"),
        (b"\"", b"a", 3001, b"\\", "ValueTooLong"),
        (b"\"", b"a", 3000, b"\\", "BadValue"),
        (b"\"", b"a", 3001, b"", "ValueTooLong"),
        (b"\"", b"\"\"", 3000, b"", "Unclosed"),
        (b"", b"1", 3000, b"", "read"),
        (b"", b"1", 3001, b"", "ValueTooLong"),
    ];
    for (front, piece, count, back, want) in values {
        let text = repeated(rt.alloc(), front, piece, count, back).expect(&rt, "memory");
        match read_value(rt.alloc(), &text) {
            Ok(_) => assert_eq!(rt; want, "read", "{count} times {piece:?}"),
            Err(error) => assert_eq!(rt; name_of(&error), want, "{count} times {piece:?}"),
        }
    }
    let nodes: [(&[u8], &[u8], usize, &[u8], &str); 16] = [
        (b"^x(\"", b"a", 495, b"\")", "read"),
        (b"^x(\"", b"a", 496, b"\")", "KeyTooLong"),
        (b"^x(\"", b"a", 496, b"\"b)", "KeyTooLong"),
        (b"^x(\"", b"a", 496, b"\\", "KeyTooLong"),
        (b"^x(\"", b"a", 495, b"\\", "BadSubscript"),
        (b"^x(\"", b"a", 5000, b"", "KeyTooLong"),
        (b"^x(\"", b"\\00", 247, b"\")", "read"),
        (b"^x(\"", b"\\00", 248, b"\")", "KeyTooLong"),
        (b"^x(0", b",0", 498, b")", "KeyTooLong"),
        (b"^x(\"", b"a", 495, b"", "Unclosed"),
        (b"^x(\"", b"a", 496, b"", "KeyTooLong"),
        (b"^x(\"", b"\\00", 247, b"", "Unclosed"),
        (b"^x(\"", b"\\00", 248, b"", "KeyTooLong"),
        (b"^x(0", b",0", 497, b",\"\"", "Unclosed"),
        (b"^x(0", b",0", 497, b",\"b", "KeyTooLong"),
        (b"^x(0", b",0", 497, b",\"1", "Unclosed"),
    ];
    for (front, piece, count, back, want) in nodes {
        let text = repeated(rt.alloc(), front, piece, count, back).expect(&rt, "memory");
        match read_node(rt.alloc(), &text) {
            Ok((node, _)) => {
                assert_eq!(rt; want, "read", "{count} times {piece:?}");
                let key = encode(rt.alloc(), &node).expect(&rt, "a key within the limit");
                assert!(rt;
                    key.as_slice().len() <= KEY_LIMIT,
                    "{count} times {piece:?}"
                );
            }
            Err(error) => assert_eq!(rt; name_of(&error), want, "{count} times {piece:?}"),
        }
    }
}

#[test]
fn other_bytes_are_printed_in_hexadecimal_and_read(rt: HostRuntime) {
    for byte in 0..=255u8 {
        if byte < b' ' || byte > b'~' {
            let value = vec![in rt.alloc(); byte; 1].expect(&rt, "memory");
            let mut printed = Vec::new(rt.alloc());
            print_value(&ValueBytes::from_vec(value), &mut printed).expect(&rt, "memory");
            let want = format!(in rt.alloc(); "\"\\{byte:02x}\"").expect(&rt, "memory");
            assert_eq!(rt; printed.as_slice(), want.as_bytes(), "the byte {byte}");
            let (again, _) = read_value(rt.alloc(), &printed).expect(&rt, "a value");
            assert_eq!(rt;
                again.as_slice(),
                [byte].as_slice(),
                "the byte {byte} again"
            );
        }
    }
}
