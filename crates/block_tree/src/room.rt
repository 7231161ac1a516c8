/// A leaf's place, and how many bytes its pairs take there, at most.
#[derive(Clone, Copy)]
pub struct Room {
    pub at: usize,
    pub bytes: usize,
}
