/// Whose spans hold a key.
#[derive(Clone, Copy)]
pub enum Found {
    /// Nobody's.
    Nowhere,
    /// One span, of this owner.
    Once(u64),
    /// More than one.
    Often,
}
