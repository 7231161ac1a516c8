//! Lines that are refused, each by its number and for its first fault from the left.
use crate::stages::{DECLARED, run};
use std::alloc::{AllocError, Global};

/// What a line is called, and after it, with ~ between its lines, a script that ends in such a line.
const BAD: &str = r#"bad line|jump
bad line|J1: jump ^x
bad line|J1:
bad line|1J: get ^x
bad line|J1:get ^x
bad line|: get ^x
bad line|jump ^x(
bad line|J1: jump "
bad line|x# is no comment here
bad line|pump~jump
declaration too late|J1: get ^x~data D2
declaration too late|hold~time retry 5
declaration too late|J1: get ^x~data D1 D2
declaration too late|await J1~global x
declared twice|data D1
declared twice|app J1
declared twice|job D1 A1
declared twice|global ^x D1
declared twice|job A1 B9
declared twice|data D2~app D2
bad name|data 1D
bad name|data D-1
bad name|app A.1
bad name|data Data4567890123xyz
bad name|global x D1
bad name|global ^x(1) D1
bad name|global ^1 D1
bad name|global ^ D1
bad name|job 1 2
bad name|job J2 -
bad name|pump~save 1
bad node|J1: get x
bad node|J1: get ^1
bad node|J1: get ^x(
bad node|J1: get ^x(1
bad node|J1: get ^x("a
bad node|J1: get ^x()
bad node|J1: get ^x(1,)
bad node|J1: get ^x("")
bad node|J1: next ^x("",1)
bad node|J1: get ^x(01)
bad node|J1: get ^x(1)(2)
bad node|J1: get ^x-
bad node|J1: kill ^x("\4A")
bad node|J1: set ^x(01) 05
bad node|hold~J1: get x
subscript missing|J1: next ^x
subscript missing|J1: next ^x y
subscript missing|flow~J1: next ^x
value missing|J1: set ^x
value missing|J1: set ^x(1)  
value missing|pump~J1: set ^x
bad value|J1: set ^x a
bad value|J1: set ^x 01
bad value|J1: set ^x "a
bad value|J1: set ^x "\4A"
bad value|J1: set ^x "\q"
bad value|J1: set ^x 5"
bad value|J1: set ^x "a"b
bad value|J1: set ^x .5. 6
bad value|hold~J1: set ^x -
bad number|tick 0
bad number|tick 10001
bad number|tick 01
bad number|tick -1
bad number|tick +1
bad number|J1: incr ^x -0
bad number|J1: incr ^x 1000000000000000000
bad number|J1: incr ^x 1.5
bad number|J1: lock ^x wait 0
bad number|J1: lock ^x wait 10001
bad number|time retry 0
bad number|time round 100001
bad number|crash D1 18446744073709551616
bad number|tick 0 1
bad number|hold~tick x
wrong words|hold on
wrong words|J1: get
wrong words|J1: set
wrong words|J1: get ^x ^x
wrong words|up A1
wrong words|J1: lock ^x wait
wrong words|J1: lock ^x wait 5 shared
wrong words|J1: unlock ^x now shared
wrong words|J1: tcommit now
wrong words|J1: tstart 1
wrong words|time foo 5
wrong words|data
wrong words|job J2
wrong words|global ^y
wrong words|tick
wrong words|crash D1 1 2
wrong words|J1: get ^x 01
wrong words|pump~flow x
unknown name|J2: get ^x
unknown name|D1: get ^x
unknown name|J1: get ^y
unknown name|save A1
unknown name|up D1 A1
unknown name|await J9
unknown name|await A1
unknown name|J1: sync D2
unknown name|job J2 A9
unknown name|job J2 D1
unknown name|global ^y A1
unknown name|J9: jump
unknown name|J1: get ^y(01)
unknown name|J1: set ^y
unknown name|hold~J2: get ^x
"#;

#[test]
fn a_bad_line_is_named_with_its_first_fault(rt: HostRuntime) -> Result<(), AllocError> {
    let alloc = rt.alloc();
    let mut rows = 0usize;
    for row in BAD.lines() {
        let Some((fault, lines)) = row.split_once('|') else {
            continue;
        };
        rows = rows.saturating_add(1);
        let line = 5 + lines.matches('~').count();
        let lines = lines.replace(alloc, '~', "\n")?;
        let text = format!(in alloc; "{DECLARED}{lines}\nJ1: get ^x\n")?;
        let want = format!(in alloc; "ecp: line {line}: {fault}\n")?;
        let (status, output) = run(alloc, text.as_bytes())?;
        assert_eq!(rt; status, 3, "{lines}");
        assert!(rt; output.as_slice() == want.as_bytes(), "{lines}");
    }
    assert_eq!(rt; rows, 109);
    Ok(())
}

/// A front, a letter so often, and a back.
fn around(alloc: Global, front: &str, count: usize, back: &str) -> Result<String, AllocError> {
    let mut text = format!(in alloc; "{DECLARED}{front}")?;
    for _ in 0..count {
        text.push('a')?;
    }
    text.push_str(back)?;
    Ok(text)
}

/// What is too long by one letter: what stands before the letters, how many may be, what stands after, and what
/// the line is called with one more.
const LONG: [(&str, usize, &str, &str); 9] = [
    ("J1: set ^x \"", 3000, "\"\n", "value too long"),
    ("J1: set ^x \"\\61", 2999, "\"\n", "value too long"),
    ("J1: set ^x(\"", 495, "\") 1\n", "key too long"),
    ("J1: set ^x(\"\\61", 494, "\") 1\n", "key too long"),
    ("J1: kill ^x(\"", 495, "\")\n", "key too long"),
    ("J1: next ^x(\"", 495, "\")\n", "key too long"),
    // The empty text takes no room.
    ("J1: next ^x(\"", 495, "\",\"\")\n", "key too long"),
    // The greatest lengths with a number, and a second fault after the first.
    ("J1: set ^x(1,\"", 491, "\") 1\n", "key too long"),
    ("J1: get ^x(\"", 495, "\")\n", "key too long"),
];

#[test]
fn keys_and_values_have_their_greatest_lengths(rt: HostRuntime) -> Result<(), AllocError> {
    let alloc = rt.alloc();
    for (front, most, back, fault) in LONG {
        let (fits, _) = run(alloc, around(alloc, front, most, back)?.as_bytes())?;
        assert_eq!(rt; fits, 0, "{front}");
        let longer = around(alloc, front, most.saturating_add(1), back)?;
        let want = format!(in alloc; "ecp: line 5: {fault}\n")?;
        let (status, output) = run(alloc, longer.as_bytes())?;
        assert_eq!(rt; status, 3, "{front}");
        assert!(rt; output.as_slice() == want.as_bytes(), "{front}");
    }
    Ok(())
}

/// Two faults on a line, or one after a line that isn't built yet: what stands before 4000 letters, what after,
/// and which line is refused for what.
const LONGER: [(&str, &str, u32, &str); 5] = [
    ("J1: set ^x \"", "", 5, "value too long"),
    ("J1: set ^x(\"", "\",01) 05", 5, "key too long"),
    ("J1: get ^x(\"\",\"", "\")", 5, "bad node"),
    ("pump\nJ1: set ^x \"", "\"", 6, "value too long"),
    ("pump\nJ1: get ^x(\"", "\")", 6, "key too long"),
];

#[test]
fn the_first_of_two_faults_counts_where_one_is_a_length(rt: HostRuntime) -> Result<(), AllocError> {
    let alloc = rt.alloc();
    for (front, back, line, fault) in LONGER {
        let text = around(alloc, front, 4000, back)?;
        let want = format!(in alloc; "ecp: line {line}: {fault}\n")?;
        let (_status, output) = run(alloc, text.as_bytes())?;
        assert!(rt; output.as_slice() == want.as_bytes(), "{front}");
    }
    Ok(())
}

/// What follows a key that is full, and what the line is called.
const FULL: [(&str, &str); 6] = [
    ("\",\"\")", "bad node"),
    ("\",\"aaa", "key too long"),
    ("\",\"aaa\\q", "key too long"),
    ("\",\"", "bad node"),
    // It may be a number, and is measured at its end.
    ("\",\"1", "bad node"),
    ("", "bad node"),
];

#[test]
fn a_full_key_is_too_long_at_the_byte_that_passes_it(rt: HostRuntime) -> Result<(), AllocError> {
    let alloc = rt.alloc();
    for (back, fault) in FULL {
        let text = around(alloc, "J1: get ^x(\"", 495, back)?;
        let want = format!(in alloc; "ecp: line 5: {fault}\n")?;
        let (_status, output) = run(alloc, text.as_bytes())?;
        assert!(rt; output.as_slice() == want.as_bytes(), "{back}");
    }
    Ok(())
}

/// Last lines without their LF, and what they are called.
const LAST: [(&str, &str); 5] = [
    ("J1: set ^x \"abc", "bad value"),
    ("J1: get ^x(\"abc", "bad node"),
    ("J1: get ^x(1,", "bad node"),
    // A CR that no LF follows stays.
    ("J1: set ^x \"a\"\r", "bad value"),
    ("flow\r", "bad line"),
];

#[test]
fn a_last_line_may_lack_its_end(rt: HostRuntime) -> Result<(), AllocError> {
    let alloc = rt.alloc();
    for (line, fault) in LAST {
        let text = format!(in alloc; "{DECLARED}{line}")?;
        let want = format!(in alloc; "ecp: line 5: {fault}\n")?;
        let (_status, output) = run(alloc, text.as_bytes())?;
        assert!(rt; output.as_slice() == want.as_bytes(), "{line}");
    }
    Ok(())
}

/// What may be declared: the words before the number and after it, and how often it may be there.
const MANY: [(&str, &str, u32); 4] = [
    ("data E", "", 16),
    ("app B", "", 16),
    ("job K", " A1", 256),
    ("global ^g", " D1", 256),
];

/// As many as may be of these declarations, the one that stands there already among them, and this line.
fn all_declared(
    alloc: Global,
    front: &str,
    back: &str,
    most: u32,
    last: &str,
) -> Result<String, AllocError> {
    let mut text = String::from_str(alloc, DECLARED)?;
    for number in 1..most {
        text.push_str(&format!(in alloc; "{front}{number}{back}\n")?)?;
    }
    text.push_str(last)?;
    Ok(text)
}

#[test]
fn one_declaration_too_many_is_refused(rt: HostRuntime) -> Result<(), AllocError> {
    let alloc = rt.alloc();
    for (front, back, most) in MANY {
        let one_more = format!(in alloc; "{front}X{back}")?;
        let two_faults = format!(in alloc; "{front}X{back} x")?;
        for (last, fault) in [
            ("jump", "bad line"),
            (one_more.as_str(), "too many"),
            (two_faults.as_str(), "too many"),
        ] {
            let text = all_declared(alloc, front, back, most, last)?;
            let line = most.saturating_add(4);
            let want = format!(in alloc; "ecp: line {line}: {fault}\n")?;
            let (_status, output) = run(alloc, text.as_bytes())?;
            assert!(rt; output.as_slice() == want.as_bytes(), "{last}");
        }
    }
    Ok(())
}
