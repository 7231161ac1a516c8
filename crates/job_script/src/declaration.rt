use crate::setting::Setting;
use subscript_keys::Name;

/// What a line declares.
#[derive(Debug, Drop)]
pub enum Declaration {
    Server { name: Name },
    App { name: Name },
    Job { name: Name, app: u8 },
    /// The name is without its caret.
    Global { name: Name, server: u8 },
    Time { setting: Setting, ticks: u64 },
}
