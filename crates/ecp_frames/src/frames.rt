ghost use Rattle.std.specs.Prelude.{◌≡◌, ◌++◌, ◌≢◌, [], None, Some, IfOk, IfErr, OnOk, OnErr};
ghost use Rattle.ecp_frames.specs.Stream.{fault_in, fed, first_frame, behind_first};

use crate::frame_error::FrameError;
use crate::lengths::{scan, whole_length};
use bytes::{Bytes, BytesMut};
use std::alloc::{AllocError, Global};
use std::marker::Model;

/// The bytes of one connection, out of which frames are given.
#[derive(Drop)]
pub struct Frames {
    bytes: BytesMut,
    /// Where the first frame begins whose length was not looked at. It may lie past the end.
    checked: usize,
    fault: Option<FrameError>,
}

impl Model for Frames {
    ghost use Rattle.std.specs.Prelude.{◌≡◌, ℕ, List};

    ghost Value = { List ℕ };

    ghost use Rattle.ecp_frames.specs.Stream.{fault_in, IsBoundary};

    ghost view = { λ f. f.bytes.items };

    ghost invariant = { λ f. (f.fault ≡ fault_in f.bytes.items) × IsBoundary f.bytes.items f.checked };
}

impl Frames {
    pub fn new(alloc: Global) -> Frames
        ensures { result ≡ [] }
    {
        Frames {
            bytes: BytesMut::new(alloc),
            checked: 0,
            fault: None,
        }
    }

    /// Takes the next bytes of the stream. After a refused length nothing is taken, and each call answers the
    /// same; the frames before it are still given. Where there is no memory nothing is taken.
    pub fn feed(&mut self, piece: &[u8]) -> Result<(), FrameError>
        ensures ok { OnOk result ((fault_in (self.old ++ piece.now) ≡ None)
            × (self.new ≡ self.old ++ piece.now)) }
        ensures refused { IfErr result (λ error. error ≢ FrameError.Memory
            → (fault_in (self.old ++ piece.now) ≡ Some error) × (self.new ≡ fed self.old piece.now)) }
        ensures memory { result ≡ Err FrameError.Memory → self.new ≡ self.old }
    {
        if let Some(fault) = self.fault {
            return Err(fault);
        }
        if self.bytes.extend_from_slice(piece).is_err() {
            return Err(FrameError::Memory);
        }
        match scan(self.bytes.as_slice(), self.checked) {
            Ok(checked) => {
                self.checked = checked;
                Ok(())
            }
            Err(fault) => {
                self.fault = Some(fault);
                Err(fault)
            }
        }
    }

    /// The body of the first frame, where all of it is there.
    pub fn next(&mut self) -> Result<Option<Bytes>, AllocError>
        ensures frame { IfOk result (λ frame. frame ≡ first_frame self.old) }
        ensures ok { OnOk result (self.new ≡ behind_first self.old) }
        ensures err { OnErr result (self.new ≡ self.old) }
    {
        let Some(length) = whole_length(self.bytes.as_slice()) else {
            return Ok(None);
        };
        let mut frame = self.bytes.freeze_to(4 + length)?;
        frame.advance(4);
        self.checked = self.checked.saturating_sub(4 + length);
        Ok(Some(frame))
    }
}
