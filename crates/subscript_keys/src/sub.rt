use crate::decimal::Decimal;
use crate::sub_text::SubText;

/// A subscript: a number exactly where its string is a canonical number of at most `DIGIT_LIMIT` digits, else text.
#[derive(Clone, Debug, PartialEq, Eq, Drop)]
pub enum Sub {
    Num(Decimal),
    Text(SubText),
}
