use crate::piece::Piece;

/// A call that a disk in memory has taken.
#[derive(Drop)]
pub enum DiskCall {
    Write { at: u64, part: Piece },
    Cut { to: u64 },
    Sync,
}
