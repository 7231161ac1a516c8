/// How far a data server's list goes, as each numbered down message tells.
#[derive(Clone, Copy)]
pub struct Front {
    /// The length of the list.
    pub n: u64,
    /// How many updates of the session are in it.
    pub w: u64,
    /// How many of them are in the synced part.
    pub s: u64,
}
