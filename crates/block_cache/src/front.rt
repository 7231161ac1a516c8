/// How far an application server knows a data server, in a session and an epoch: the length of its order and the
/// session's own items in it.
#[derive(Clone, Copy)]
pub struct Front {
    pub session: u64,
    pub epoch: u32,
    pub n: u64,
    pub w: u64,
}
