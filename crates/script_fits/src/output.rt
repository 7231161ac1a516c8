use plain_orders::Trail;
use transcript::Piece;

/// What a script puts out: the lines of the transcript in the order in which they were made, and the trail.
#[derive(Drop)]
pub struct Output {
    pub pieces: Vec<Piece>,
    pub trail: Trail,
}
