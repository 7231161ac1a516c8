/// What is done once the pairs are put.
#[derive(Clone, Copy)]
pub enum What {
    /// Nothing; they are put in no order.
    Sets,
    /// Nothing; they are put in the order of their keys.
    Rising,
    /// Each is got.
    Gets,
    /// Each is gone to from the one before it.
    Walk,
    /// They are removed, so many at a time.
    Kills(u64),
}

/// What a word names.
pub fn what_of(word: &str) -> Option<What> {
    match word {
        "sets" => Some(What::Sets),
        "rising" => Some(What::Rising),
        "gets" => Some(What::Gets),
        "walk" => Some(What::Walk),
        "kill1" => Some(What::Kills(1)),
        "kill100" => Some(What::Kills(100)),
        "killall" => Some(What::Kills(u64::MAX)),
        _ => None,
    }
}
