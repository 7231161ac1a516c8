/// A number of at most `DIGIT_LIMIT` significant digits. One that is not zero is 0.d1d2d3.. times ten to the power
/// `exponent`, where `digits` is d1d2d3.. as one whole number, d1 is not 0 and no zero ends it. Zero has
/// digits 0 and exponent 0 and is not negative.
#[derive(Clone, Copy, Debug, PartialEq, Eq)]
pub struct Decimal {
    pub negative: bool,
    pub exponent: i8,
    pub digits: u64,
}
