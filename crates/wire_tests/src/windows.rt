use bytes::Bytes;
use link_window::{Taken, Window, WindowError};
use std::test::Fail;

#[test]
fn numbers_are_taken_in_order_and_refused_by_name(rt: HostRuntime) -> Result<(), Fail> {
    let mut window = Window::new(rt.alloc());
    assert_eq!(rt; window.send(Bytes::from_static(b"a"))?, 1);
    let turns = [
        ((1, 2), Err(WindowError::AckPastSent { sent: 1, got: 2 })),
        ((3, 0), Err(WindowError::Gap { wanted: 1, got: 3 })),
        ((1, 1), Ok(Taken::Fresh)),
        ((1, 1), Ok(Taken::Repeat)),
        ((0, 0), Ok(Taken::Repeat)),
        ((2, 0), Ok(Taken::Fresh)),
    ];
    for ((seq, ack), answer) in turns {
        assert_eq!(rt; window.take(seq, ack), answer, "at {seq}, {ack}");
    }
    assert_eq!(rt; window.taken(), 2);
    let gap = WindowError::Gap { wanted: 1, got: 3 };
    let text = format!(in rt.alloc(); "{gap}")?;
    assert_eq!(rt; text.as_str(), "message 3 came where message 1 is the next");
    Ok(())
}

#[test]
fn what_is_not_acknowledged_is_sent_again(rt: HostRuntime) -> Result<(), Fail> {
    let mut window = Window::new(rt.alloc());
    for body in [b"a", b"b", b"c", b"d"] {
        window.send(Bytes::from_static(body))?;
    }
    let cases = [
        (0, 0, "abcd"),
        (0, 1, "bcd"),
        (1, 0, "bcd"),
        (3, 1, "d"),
        (3, 4, ""),
        (4, 9, ""),
    ];
    for (ack, taken, again) in cases {
        assert_eq!(rt; window.take(0, ack), Ok(Taken::Repeat));
        let bodies = window.resend(taken);
        assert_eq!(rt;
            bodies.len(),
            again.len(),
            "behind {taken}, {ack} acknowledged"
        );
        for (body, byte) in bodies.iter().zip(again.as_bytes()) {
            assert_eq!(rt; body.as_slice(), [*byte].as_slice());
        }
    }
    assert_eq!(rt; window.sent(), 4);
    Ok(())
}
