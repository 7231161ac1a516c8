//! The greatest sizes.
use crate::stages::{DECLARED, status_of};
use outer_io::MemSink;
use std::alloc::{AllocError, Global};

/// The declarations and this many lines that get the global.
fn gets(alloc: Global, count: u32) -> Result<Vec<u8>, AllocError> {
    let mut text = Vec::from_slice(alloc, DECLARED.as_bytes())?;
    for _ in 0..count {
        text.extend_from_slice(b"J1: get ^x\n")?;
    }
    Ok(text)
}

#[test]
fn a_script_of_too_many_lines_or_bytes_is_too_large(rt: HostRuntime) -> Result<(), AllocError> {
    let alloc = rt.alloc();
    let mut short_of_lf = gets(alloc, 65_532)?;
    short_of_lf.extend_from_slice(b"J1: get ^x")?;
    let cases = [
        (gets(alloc, 65_532)?, 0),
        (gets(alloc, 65_533)?, 4),
        (short_of_lf, 4),
        (vec![in alloc; b'x'; 67_108_864]?, 3),
        (vec![in alloc; b'x'; 67_108_865]?, 4),
    ];
    let cases = Vec::from_array(alloc, cases)?;
    for (text, want) in cases {
        let length = text.len();
        let mut sink = MemSink::new(alloc, Vec::new(alloc));
        let status = status_of(alloc, text, &[], &mut sink)?;
        assert_eq!(rt; status, want, "{length} bytes");
        if want == 4 {
            assert!(rt;
                sink.bytes() == b"ecp: too large\n".as_slice(),
                "{length} bytes"
            );
        }
    }
    Ok(())
}
