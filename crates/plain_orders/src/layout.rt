use crate::job_apps::JobApps;
use crate::name_list::NameList;

/// Times of the connections, in ticks: between two tries of an application server, until a data server
/// closes a broken session, until an application server gives one up, and until a recovery round is due.
#[derive(Clone, Copy, Debug, PartialEq, Eq)]
pub struct Times {
    pub retry: u64,
    pub trouble: u64,
    pub recover: u64,
    pub round: u64,
}

/// How many data servers and application servers there are, and where each job runs.
#[derive(Debug, Drop)]
pub struct Layout {
    pub servers: u8,
    pub apps: u8,
    pub job_apps: JobApps,
    pub times: Times,
}

/// The declared names, by index.
#[derive(Debug, Drop)]
pub struct Names {
    pub servers: NameList,
    pub apps: NameList,
    pub jobs: NameList,
}
