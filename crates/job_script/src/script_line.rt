ghost use Rattle.std.specs.Prelude.{◌≡◌};

use crate::todo::Todo;
use std::marker::Model;

/// A line of a script that asks for something, with its number from 1.
#[derive(Debug, Drop)]
pub struct ScriptLine {
    pub line: u32,
    pub todo: Todo,
}

/// The lines of a script that ask for something, in their order. Contracts see them as the list.
#[derive(Debug, Drop)]
pub struct ScriptLines {
    items: Vec<ScriptLine>,
}

impl Model for ScriptLines {
    ghost use Rattle.std.specs.Prelude.{List};
    ghost use Rattle.job_script.specs.declared.script_line.ScriptLine.{ScriptLine};

    ghost Value = { List ScriptLine };

    ghost view = { λ l. l.items.items };
}

impl ScriptLines {
    pub fn from_vec(items: Vec<ScriptLine>) -> ScriptLines
        ensures { result ≡ items.items }
    {
        ScriptLines { items }
    }

    pub fn as_slice(&self) -> &[ScriptLine]
        ensures { result.now ≡ self.now }
    {
        self.items.as_slice()
    }
}
