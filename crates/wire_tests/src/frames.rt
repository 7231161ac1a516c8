use ecp_frames::{FrameError, Frames};
use std::alloc::AllocError;
use std::test::Fail;

/// The first numbered update of a session, `set ^x 5`, as a frame.
const UPDATE: [u8; 43] = [
    0, 0, 0, 0x27, 0, 0, 0, 0, 0, 0, 0, 1, 0, 0, 0, 0, 0, 0, 0, 0, 3, 0, 0, 0, 0, 0, 0, 0, 1, 0, 0,
    0, 0, 0, 0, 1, 0, 2, 0x78, 0, 0, 1, 0x35,
];

/// Whether the next frame is there and is the update's.
fn gives_update(frames: &mut Frames) -> Result<bool, AllocError> {
    match frames.next()? {
        Some(body) => Ok(body.as_slice() == &UPDATE[4..]),
        None => Ok(false),
    }
}

#[test]
fn a_frame_is_the_same_whole_and_byte_by_byte(rt: HostRuntime) -> Result<(), Fail> {
    let mut bytewise = Frames::new(rt.alloc());
    for byte in UPDATE {
        assert!(rt; bytewise.next()?.is_none());
        bytewise.feed(&[byte])?;
    }
    assert!(rt; gives_update(&mut bytewise)?);
    for cut in 0..43 {
        let (front, back) = UPDATE.split_at(cut);
        let mut frames = Frames::new(rt.alloc());
        frames.feed(front)?;
        assert!(rt; frames.next()?.is_none(), "before the cut at {cut}");
        frames.feed(back)?;
        assert!(rt; gives_update(&mut frames)?, "behind the cut at {cut}");
        assert!(rt; frames.next()?.is_none());
    }
    Ok(())
}

#[test]
fn a_length_that_no_frame_has_is_refused_again_and_again(rt: HostRuntime) -> Result<(), Fail> {
    let cases = [
        ([0, 0, 0, 1, 9, 0, 0, 0, 0], FrameError::Empty),
        ([0, 0, 0, 1, 9, 0, 0, 0x40, 1], FrameError::TooLong(16385)),
    ];
    for (bytes, error) in cases {
        let mut frames = Frames::new(rt.alloc());
        assert_eq!(rt; frames.feed(&bytes), Err(error));
        assert_eq!(rt; frames.feed(&[0, 0, 0, 1]), Err(error));
        match frames.next()? {
            Some(body) => assert_eq!(rt; body.as_slice(), [9].as_slice()),
            None => assert!(rt; false, "the frame before it is given"),
        }
        assert!(rt; frames.next()?.is_none());
        assert_eq!(rt; frames.feed(&[]), Err(error));
    }
    Ok(())
}
