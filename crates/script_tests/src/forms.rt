//! What scripts print, and which words and lines are refused.
use crate::stages::{DECLARED, FIRST, FIRST_OUTPUT, run, words};
use cluster_call::script;
use outer_io::{MemSink, MemSource};
use std::alloc::AllocError;

/// Scripts, each with its output.
const OUTPUTS: [(&str, &str); 15] = [
    ("", "trail\ntimes 5 60 1200 60\n"),
    ("data D1\n", "trail\ntimes 5 60 1200 60\nopened 0 0\n"),
    (
        "data D1\napp A1\n",
        "trail\ntimes 5 60 1200 60\nopened 0 0\n",
    ),
    (
        "data D1\napp A1\njob J1 A1\n",
        "trail\ntimes 5 60 1200 60 0\nopened 0 0\n",
    ),
    (DECLARED, "trail\ntimes 5 60 1200 60 0\nopened 0 0\n"),
    (FIRST, FIRST_OUTPUT),
    (
        "data D1\napp A1\njob J1 A1\nglobal ^x D1\nJ1: set ^x 5\nJ1: get ^x",
        FIRST_OUTPUT,
    ),
    (
        "data D1\napp A1\njob J1 A1\nglobal ^x D1\nJ1: get ^x\n",
        "J1 5 value none @2 fetched\ntrail\ntimes 5 60 1200 60 0\nopened 0 0\nenter 0 open 2 0\nsynced 0 2\nmet 0 0 2\nread 0 5 0 2 fetched get ^x none\n",
    ),
    (
        "data Data4567890123xy\napp A\njob j A\nglobal ^g2345678901234567890123456789ab Data4567890123xy\nj: set ^g2345678901234567890123456789ab 999999999999999999\nj: set ^g2345678901234567890123456789ab 0\nj: get ^g2345678901234567890123456789ab\n",
        "j 5 queued Data4567890123xy:1\nj 6 queued Data4567890123xy:2\nj 7 value 0 @4 fetched\ntrail\ntimes 5 60 1200 60 0\nopened 0 0\nenter 0 open 2 0\nsynced 0 2\nmet 0 0 2\nissue 0 5 0 1 set ^g2345678901234567890123456789ab 999999999999999999\nenter 0 update 2 1 0 0 set ^g2345678901234567890123456789ab 999999999999999999\nsynced 0 3\nissue 0 6 0 2 set ^g2345678901234567890123456789ab 0\nenter 0 update 2 2 0 0 set ^g2345678901234567890123456789ab 0\nsynced 0 4\nread 0 7 0 4 fetched get ^g2345678901234567890123456789ab 0\n",
    ),
    // the declarations in another order, spaces, comments, a CR before the LF, an await
    (
        "# names first\r\napp  A1\r\n  data D1 \n\njob J1   A1\n  # and globals\nglobal ^x D1\nglobal ^y D1\nawait J1\n  J1:  set   ^y(1,\"a b\")   \"c  d\"  \nJ1: get ^y(1,\"a b\")\r\nJ1: get ^x",
        "J1 10 queued D1:1\nJ1 11 value \"c  d\" @3 fetched\nJ1 12 value none @3 fetched\ntrail\ntimes 5 60 1200 60 0\nopened 0 0\nenter 0 open 2 0\nsynced 0 2\nmet 0 0 2\nissue 0 10 0 1 set ^y(1,\"a b\") \"c  d\"\nenter 0 update 2 1 0 0 set ^y(1,\"a b\") \"c  d\"\nsynced 0 3\nread 0 11 0 3 fetched get ^y(1,\"a b\") \"c  d\"\nread 0 12 0 3 fetched get ^x none\n",
    ),
    // awaits alone, and no data server
    (
        "app A1\njob J1 A1\nawait J1\n",
        "trail\ntimes 5 60 1200 60 0\n",
    ),
    // a kill takes the node and its descendants
    (
        "data D1\napp A1\njob J1 A1\nglobal ^x D1\nJ1: set ^x(1) 1\nJ1: set ^x(1,2) 2\nJ1: set ^x(2) 3\nJ1: data ^x(1)\nJ1: data ^x\nJ1: kill ^x(1)\nJ1: data ^x(1)\nJ1: get ^x(1,2)\nJ1: data ^x(2)\n",
        "J1 5 queued D1:1\nJ1 6 queued D1:2\nJ1 7 queued D1:3\nJ1 8 data 11 @5 fetched\nJ1 9 data 10 @5 fetched\nJ1 10 queued D1:4\nJ1 11 data 0 @6 fetched\nJ1 12 value none @6 fetched\nJ1 13 data 1 @6 fetched\ntrail\ntimes 5 60 1200 60 0\nopened 0 0\nenter 0 open 2 0\nsynced 0 2\nmet 0 0 2\nissue 0 5 0 1 set ^x(1) 1\nenter 0 update 2 1 0 0 set ^x(1) 1\nsynced 0 3\nissue 0 6 0 2 set ^x(1,2) 2\nenter 0 update 2 2 0 0 set ^x(1,2) 2\nsynced 0 4\nissue 0 7 0 3 set ^x(2) 3\nenter 0 update 2 3 0 0 set ^x(2) 3\nsynced 0 5\nread 0 8 0 5 fetched data ^x(1) 11\nread 0 9 0 5 fetched data ^x 10\nissue 0 10 0 4 kill ^x(1)\nenter 0 update 2 4 0 0 kill ^x(1)\nsynced 0 6\nread 0 11 0 6 fetched data ^x(1) 0\nread 0 12 0 6 fetched get ^x(1,2) none\nread 0 13 0 6 fetched data ^x(2) 1\n",
    ),
    // subscripts in their order
    (
        "data D1\napp A1\njob J1 A1\nglobal ^x D1\nJ1: set ^x(\"a\") 1\nJ1: set ^x(10) 1\nJ1: set ^x(0) 1\nJ1: set ^x(\"02\") 1\nJ1: set ^x(-.5) 1\nJ1: set ^x(2) 1\nJ1: set ^x(\"A\") 1\nJ1: set ^x(.5) 1\nJ1: set ^x(-1.5) 1\nJ1: next ^x(\"\")\nJ1: next ^x(-1.5)\nJ1: next ^x(-.5)\nJ1: next ^x(0)\nJ1: next ^x(.5)\nJ1: next ^x(2)\nJ1: next ^x(10)\nJ1: next ^x(\"02\")\nJ1: next ^x(\"A\")\nJ1: next ^x(\"a\")\n",
        "J1 5 queued D1:1\nJ1 6 queued D1:2\nJ1 7 queued D1:3\nJ1 8 queued D1:4\nJ1 9 queued D1:5\nJ1 10 queued D1:6\nJ1 11 queued D1:7\nJ1 12 queued D1:8\nJ1 13 queued D1:9\nJ1 14 next -1.5 @11 fetched\nJ1 15 next -.5 @11 fetched\nJ1 16 next 0 @11 fetched\nJ1 17 next .5 @11 fetched\nJ1 18 next 2 @11 fetched\nJ1 19 next 10 @11 fetched\nJ1 20 next \"02\" @11 fetched\nJ1 21 next \"A\" @11 fetched\nJ1 22 next \"a\" @11 fetched\nJ1 23 next \"\" @11 fetched\ntrail\ntimes 5 60 1200 60 0\nopened 0 0\nenter 0 open 2 0\nsynced 0 2\nmet 0 0 2\nissue 0 5 0 1 set ^x(\"a\") 1\nenter 0 update 2 1 0 0 set ^x(\"a\") 1\nsynced 0 3\nissue 0 6 0 2 set ^x(10) 1\nenter 0 update 2 2 0 0 set ^x(10) 1\nsynced 0 4\nissue 0 7 0 3 set ^x(0) 1\nenter 0 update 2 3 0 0 set ^x(0) 1\nsynced 0 5\nissue 0 8 0 4 set ^x(\"02\") 1\nenter 0 update 2 4 0 0 set ^x(\"02\") 1\nsynced 0 6\nissue 0 9 0 5 set ^x(-.5) 1\nenter 0 update 2 5 0 0 set ^x(-.5) 1\nsynced 0 7\nissue 0 10 0 6 set ^x(2) 1\nenter 0 update 2 6 0 0 set ^x(2) 1\nsynced 0 8\nissue 0 11 0 7 set ^x(\"A\") 1\nenter 0 update 2 7 0 0 set ^x(\"A\") 1\nsynced 0 9\nissue 0 12 0 8 set ^x(.5) 1\nenter 0 update 2 8 0 0 set ^x(.5) 1\nsynced 0 10\nissue 0 13 0 9 set ^x(-1.5) 1\nenter 0 update 2 9 0 0 set ^x(-1.5) 1\nsynced 0 11\nread 0 14 0 11 fetched next ^x(\"\") -1.5\nread 0 15 0 11 fetched next ^x(-1.5) -.5\nread 0 16 0 11 fetched next ^x(-.5) 0\nread 0 17 0 11 fetched next ^x(0) .5\nread 0 18 0 11 fetched next ^x(.5) 2\nread 0 19 0 11 fetched next ^x(2) 10\nread 0 20 0 11 fetched next ^x(10) \"02\"\nread 0 21 0 11 fetched next ^x(\"02\") \"A\"\nread 0 22 0 11 fetched next ^x(\"A\") \"a\"\nread 0 23 0 11 fetched next ^x(\"a\") \"\"\n",
    ),
    // numbers of 18 digits and of more
    (
        "data D1\napp A1\njob J1 A1\nglobal ^x D1\nJ1: set ^x(1234567890123456789) 1\nJ1: set ^x(123456789012345678) 2\nJ1: next ^x(\"\")\nJ1: next ^x(123456789012345678)\n",
        "J1 5 queued D1:1\nJ1 6 queued D1:2\nJ1 7 next 123456789012345678 @4 fetched\nJ1 8 next \"1234567890123456789\" @4 fetched\ntrail\ntimes 5 60 1200 60 0\nopened 0 0\nenter 0 open 2 0\nsynced 0 2\nmet 0 0 2\nissue 0 5 0 1 set ^x(\"1234567890123456789\") 1\nenter 0 update 2 1 0 0 set ^x(\"1234567890123456789\") 1\nsynced 0 3\nissue 0 6 0 2 set ^x(123456789012345678) 2\nenter 0 update 2 2 0 0 set ^x(123456789012345678) 2\nsynced 0 4\nread 0 7 0 4 fetched next ^x(\"\") 123456789012345678\nread 0 8 0 4 fetched next ^x(123456789012345678) \"1234567890123456789\"\n",
    ),
    // another name has another value
    (
        "data D1\napp A1\njob J1 A1\nglobal ^x D1\nglobal ^y D1\nJ1: set ^x 1\nJ1: set ^y 2\nJ1: get ^x\nJ1: get ^y\n",
        "J1 6 queued D1:1\nJ1 7 queued D1:2\nJ1 8 value 1 @4 fetched\nJ1 9 value 2 @4 fetched\ntrail\ntimes 5 60 1200 60 0\nopened 0 0\nenter 0 open 2 0\nsynced 0 2\nmet 0 0 2\nissue 0 6 0 1 set ^x 1\nenter 0 update 2 1 0 0 set ^x 1\nsynced 0 3\nissue 0 7 0 2 set ^y 2\nenter 0 update 2 2 0 0 set ^y 2\nsynced 0 4\nread 0 8 0 4 fetched get ^x 1\nread 0 9 0 4 fetched get ^y 2\n",
    ),
];

#[test]
fn a_script_prints_its_answers_and_its_trail(rt: HostRuntime) -> Result<(), AllocError> {
    for (text, want) in OUTPUTS {
        let (status, output) = run(rt.alloc(), text.as_bytes())?;
        assert_eq!(rt; status, 0, "{text}");
        assert!(rt; output.as_slice() == want.as_bytes(), "{text}");
    }
    Ok(())
}

/// Words that are no form of a command.
const NO_FORMS: [&[&str]; 8] = [
    &[],
    &["script"],
    &["script", ""],
    &["script", "-f"],
    &["script", "--"],
    &["script", "a", "b"],
    &["live", "a"],
    &["Script", "a"],
];

#[test]
fn other_words_get_the_usage_and_nothing_is_read(rt: HostRuntime) -> Result<(), AllocError> {
    let alloc = rt.alloc();
    for texts in NO_FORMS {
        // A take would fail.
        let mut source = MemSource::new(Vec::new(alloc), vec![in alloc; 0]?);
        let mut sink = MemSink::new(alloc, Vec::new(alloc));
        let status = script(alloc, &words(alloc, texts)?, &mut source, &mut sink);
        assert_eq!(rt; status.number(), 2, "{texts:?}");
        assert!(rt;
            sink.bytes() == b"usage: ecp script FILE\n".as_slice(),
            "{texts:?}"
        );
    }
    Ok(())
}
