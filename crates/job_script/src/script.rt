use crate::declared_line::DeclaredLines;
use crate::script_line::ScriptLines;
use plain_orders::{Layout, Names};

/// A script: what it declares, the lines that declare it, and the lines that ask for something.
#[derive(Debug, Drop)]
pub struct Script {
    pub layout: Layout,
    pub names: Names,
    pub declarations: DeclaredLines,
    pub lines: ScriptLines,
}
