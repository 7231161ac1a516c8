/// What an increment does: it writes the sum, or finds a value that is no whole number of at most
/// `DIGIT_LIMIT` digits, or a sum with more. An entry that is no increment does `Nothing` of this.
#[derive(Clone, Copy, Debug, PartialEq, Eq)]
pub enum Sum {
    Nothing,
    Whole(i64),
    NotWhole,
    Range,
}
