ghost use Rattle.std.specs.Prelude.{◌≡◌, ◌≢◌, ◌^◌, ◌<◌, ◌++◌, List, ℕ, length, drop, None, Some, MatchResult};
ghost use Rattle.ecp_frames.specs.Stream.{length_ahead, refusal, whole_ahead, fault_in};

use crate::frame_error::FrameError;

/// The greatest length of a frame.
pub const MAX_LENGTH: u32 = 16384;

/// The length that stands first, where all of it is there.
fn length_of(bytes: &[u8]) -> Option<u32>
    ensures { result ≡ length_ahead bytes.now }
{
    let (head, _) = bytes.split_first_chunk::<4>()?;
    Some(u32::from_be_bytes(*head))
}

/// Why a length is refused.
fn refusal_of(length: u32) -> Option<FrameError>
    ensures { result ≡ refusal length }
{
    if length == 0 {
        return Some(FrameError::Empty);
    }
    if length > MAX_LENGTH {
        return Some(FrameError::TooLong(length));
    }
    None
}

/// The length of the first frame, where it is allowed and all of the frame is there.
pub(crate) fn whole_length(bytes: &[u8]) -> Option<usize>
    ensures { result ≡ whole_ahead bytes.now }
{
    let length = length_of(bytes)?;
    if refusal_of(length).is_some() || bytes.len() - 4 < length as usize {
        return None;
    }
    Some(length as usize)
}

/// Looks at the lengths from the frame on that begins at `from`, and answers where the first one begins whose
/// length is not all there.
pub(crate) fn scan(bytes: &[u8], from: usize) -> Result<usize, FrameError>
    requires { length bytes.now < 2 ^ 63 }
    ensures { MatchResult result
        (λ at. (fault_in (drop from bytes.now) ≡ None) × ((more : List ℕ)
        → fault_in (drop from (bytes.now ++ more)) ≡ fault_in (drop at (bytes.now ++ more))))
        (λ fault. (fault ≢ FrameError.Memory) × (fault_in (drop from bytes.now) ≡ Some fault)) }
{
    let mut at = from;
    while at < bytes.len() {
        let (_, rest) = bytes.split_at(at);
        let Some(length) = length_of(rest) else {
            return Ok(at);
        };
        if let Some(fault) = refusal_of(length) {
            return Err(fault);
        }
        at += 4 + length as usize;
    }
    Ok(at)
}
