/// Where an answer to a read came from: the job's own updates on their way decide it, or a run of the
/// cache does, or a run that was fetched for this command.
#[derive(Clone, Copy, Debug, PartialEq, Eq)]
pub enum Via {
    Own,
    Cached,
    Fetched,
}
