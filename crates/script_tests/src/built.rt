//! Good lines that aren't built yet, and strings as they are written.
use crate::stages::{DECLARED, run};
use std::alloc::AllocError;

/// Lines that aren't built yet.
const UNBUILT: [&str; 26] = [
    "pump",
    "hold",
    "flow",
    "up A1 D1",
    "down A1 D1",
    "save D1",
    "tick 1",
    "break A1 D1",
    "mend A1 D1",
    "crash D1",
    "crash D1 18446744073709551615",
    "restart D1",
    "die A1",
    "data D2",
    "app A2",
    "job J2 A1",
    "time retry 5",
    "J1: incr ^x -5",
    "J1: lock ^x",
    "J1: lock ^x shared wait 10000",
    "J1: unlock ^x shared now",
    "J1: tstart",
    "J1: tcommit",
    "J1: tcommit sync",
    "J1: trollback",
    "J1: sync D1",
];

#[test]
fn a_good_line_that_is_not_built_is_refused_by_its_number(
    rt: HostRuntime,
) -> Result<(), AllocError> {
    let alloc = rt.alloc();
    for line in UNBUILT {
        let text = format!(in alloc; "{DECLARED}# a comment\n{line}\npump\n")?;
        let (status, output) = run(alloc, text.as_bytes())?;
        assert_eq!(rt; status, 3, "{line}");
        assert!(rt;
            output.as_slice() == b"ecp: line 6: not built yet\n".as_slice(),
            "{line}"
        );
    }
    Ok(())
}

/// Values as they may be written, and as they are printed.
const VALUES: [(&str, &str); 12] = [
    ("5", "5"),
    ("\"5\"", "5"),
    ("\"05\"", "\"05\""),
    ("-.5", "-.5"),
    ("\"\"", "\"\""),
    ("\"a\"\"b\"", "\"a\"\"b\""),
    ("\"a\\\\b\"", "\"a\\\\b\""),
    ("\"\\00\\1f\\7f\\80\\ff\"", "\"\\00\\1f\\7f\\80\\ff\""),
    ("\"\\4a\\22\\5c\"", "\"J\"\"\\\\\""),
    ("\"\u{1}\t\r\u{e9}\"", "\"\\01\\09\\0d\\c3\\a9\""),
    ("123456789012345678", "123456789012345678"),
    ("1234567890123456789", "\"1234567890123456789\""),
];

#[test]
fn a_string_is_printed_in_its_one_spelling(rt: HostRuntime) -> Result<(), AllocError> {
    let alloc = rt.alloc();
    for (written, printed) in VALUES {
        let text = format!(in alloc; "{DECLARED}J1: set ^x(1) {written}\nJ1: get ^x(1)\n")?;
        let want = format!(in alloc; "J1 5 queued D1:1\nJ1 6 value {printed} @3 fetched\ntrail\n")?;
        let (status, output) = run(alloc, text.as_bytes())?;
        assert_eq!(rt; status, 0, "{written}");
        assert!(rt; output.starts_with(want.as_bytes()), "{written}");
    }
    Ok(())
}
