use crate::lines::Lines;

/// A connection of the net in memory.
#[derive(Drop)]
pub struct Connection {
    pub app: u8,
    pub server: u8,
    /// How many connections had been made before it.
    pub made: usize,
    /// Whether it was cut by itself. It may also be cut with its pair or its data server.
    pub is_cut: bool,
    pub is_accepted: bool,
    pub lines: Lines,
}
