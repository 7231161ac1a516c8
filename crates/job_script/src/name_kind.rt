/// What a name in a script names.
#[derive(Clone, Copy, Debug, PartialEq, Eq)]
pub enum NameKind {
    Server,
    App,
    Job,
}
