ghost use Rattle.std.specs.Prelude.{◌≡◌};

use std::marker::Model;

/// The first word of a line that declares something.
#[derive(Clone, Copy, Debug, PartialEq, Eq)]
pub enum DeclaringWord {
    Data,
    App,
    Job,
    Global,
    Time,
}

/// Such a line, with its number from 1.
#[derive(Clone, Copy, Debug, PartialEq, Eq)]
pub struct DeclaredLine {
    pub line: u32,
    pub word: DeclaringWord,
}

/// The lines of a script that declare something, in their order. Contracts see them as the list.
#[derive(Debug, Drop)]
pub struct DeclaredLines {
    items: Vec<DeclaredLine>,
}

impl Model for DeclaredLines {
    ghost use Rattle.std.specs.Prelude.{List};
    ghost use Rattle.job_script.specs.declared.declared_line.DeclaredLine.{DeclaredLine};

    ghost Value = { List DeclaredLine };

    ghost view = { λ l. l.items.items };
}

impl DeclaredLines {
    pub fn from_vec(items: Vec<DeclaredLine>) -> DeclaredLines
        ensures { result ≡ items.items }
    {
        DeclaredLines { items }
    }

    pub fn as_slice(&self) -> &[DeclaredLine]
        ensures { result.now ≡ self.now }
    {
        self.items.as_slice()
    }
}
