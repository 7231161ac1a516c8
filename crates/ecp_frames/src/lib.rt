//! Frames in a stream of bytes, however it was cut. A frame is a length as a u32, the greatest byte first, and
//! that many bytes, at least 1 and at most 16384. Contracts see `Frames` as the bytes that were fed and not
//! given yet. Which frames are given and which length is refused depends on the bytes alone:
//! `same_for_any_cut`.
#![tactic(auto)]

mod any_cut;
mod frame_error;
mod frames;
mod lengths;

pub use any_cut::same_for_any_cut;
pub use frame_error::FrameError;
pub use frames::Frames;
pub use lengths::MAX_LENGTH;
