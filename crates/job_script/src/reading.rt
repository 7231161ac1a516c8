ghost use Rattle.std.specs.Prelude.{◌≡◌, ◌+◌, ◌-◌, ◌^◌, ◌<◌, ◌≤◌, [], ◌∷◌, ◌++◌, length, true, IfOk};
ghost use Rattle.job_script.specs.Scripts.{HasRoomFor, MayTake, behind, declared_by, word_of, nothing_declared, declaration_before, todo_before, layout_of, declared_names};

use crate::declaration::Declaration;
use crate::declared::Declared;
use crate::declared_line::{DeclaredLine, DeclaredLines, DeclaringWord};
use crate::line::Line;
use crate::script::Script;
use crate::script_line::{ScriptLine, ScriptLines};
use crate::todo::Todo;
use plain_orders::{Layout, Names};
use std::alloc::{AllocError, Global};

/// What the lines read so far declare and ask for, and the number of the next line.
#[derive(Drop)]
pub struct Reading {
    pub declared: Declared,
    pub declarations: Vec<DeclaredLine>,
    pub todos: Vec<ScriptLine>,
    pub line: u32,
}

/// The word of a declaration.
fn word_of(declaration: &Declaration) -> DeclaringWord
    ensures { result ≡ word_of declaration.now }
{
    match declaration {
        Declaration::Server { .. } => DeclaringWord::Data,
        Declaration::App { .. } => DeclaringWord::App,
        Declaration::Job { .. } => DeclaringWord::Job,
        Declaration::Global { .. } => DeclaringWord::Global,
        Declaration::Time { .. } => DeclaringWord::Time,
    }
}

impl Reading {
    /// Before the first line.
    pub fn new(alloc: Global) -> Reading
        ensures declared { result.declared ≡ nothing_declared }
        ensures declarations { result.declarations.items ≡ [] }
        ensures todos { result.todos.items ≡ [] }
        ensures line { result.line ≡ 1 }
    {
        Reading {
            declared: Declared::new(alloc),
            declarations: Vec::new(alloc),
            todos: Vec::new(alloc),
            line: 1,
        }
    }

    /// After a line that does nothing.
    fn skip(self) -> Reading
        requires { self.line < 2 ^ 32 - 1 }
        ensures { result ≡ record self { line = self.line + 1 } }
    {
        Reading {
            line: self.line + 1,
            ..self
        }
    }

    /// After a line that declares this; all is let go when out of memory.
    fn declare(self, declaration: Declaration) -> Result<Reading, AllocError>
        requires room { HasRoomFor self.declared declaration }
        requires number { self.line < 2 ^ 32 - 1 }
        ensures declared { IfOk result (λ next. next.declared ≡ declared_by self.declared declaration) }
        ensures declarations { IfOk result (λ next. next.declarations.items ≡ self.declarations.items ++ record { line = self.line; word = word_of declaration } ∷ []) }
        ensures todos { IfOk result (λ next. next.todos.items ≡ self.todos.items) }
        ensures line { IfOk result (λ next. next.line ≡ self.line + 1) }
    {
        let Reading {
            declared,
            mut declarations,
            todos,
            line,
        } = self;
        let word = word_of(&declaration);
        declarations.push(DeclaredLine { line, word })?;
        let declared = declared.with(declaration)?;
        Ok(Reading {
            declared,
            declarations,
            todos,
            line: line + 1,
        })
    }

    /// After a line that asks for this; all is let go when out of memory.
    fn ask(self, todo: Todo) -> Result<Reading, AllocError>
        requires { self.line < 2 ^ 32 - 1 }
        ensures declared { IfOk result (λ next. next.declared ≡ record self.declared { is_closed = true }) }
        ensures declarations { IfOk result (λ next. next.declarations.items ≡ self.declarations.items) }
        ensures todos { IfOk result (λ next. next.todos.items ≡ self.todos.items ++ record { line = self.line; todo = todo } ∷ []) }
        ensures line { IfOk result (λ next. next.line ≡ self.line + 1) }
    {
        let Reading {
            mut declared,
            declarations,
            mut todos,
            line,
        } = self;
        todos.push(ScriptLine { line, todo })?;
        declared.is_closed = true;
        Ok(Reading {
            declared,
            declarations,
            todos,
            line: line + 1,
        })
    }

    /// After this line; all is let go when out of memory.
    pub fn with(self, line: Line) -> Result<Reading, AllocError>
        requires may { MayTake self.declared line }
        requires number { self.line < 2 ^ 32 - 1 }
        ensures declared { IfOk result (λ next. next.declared ≡ behind self.declared line) }
        ensures declarations { IfOk result (λ next. next.declarations.items ≡ self.declarations.items ++ declaration_before self.line line []) }
        ensures todos { IfOk result (λ next. next.todos.items ≡ self.todos.items ++ todo_before self.line line []) }
        ensures line { IfOk result (λ next. next.line ≡ self.line + 1) }
    {
        match line {
            Line::Nothing => Ok(self.skip()),
            Line::Declares(declaration) => self.declare(declaration),
            Line::Asks(todo) => self.ask(todo),
        }
    }

    /// The script of these lines.
    pub fn into_script(self) -> Script
        requires servers { length self.declared.servers ≤ 16 }
        requires apps { length self.declared.apps ≤ 16 }
        ensures layout { result.layout ≡ layout_of self.declared }
        ensures names { result.names ≡ declared_names self.declared }
        ensures declarations { result.declarations ≡ self.declarations.items }
        ensures lines { result.lines ≡ self.todos.items }
    {
        let Reading {
            declared,
            declarations,
            todos,
            ..
        } = self;
        let Declared {
            servers,
            apps,
            jobs,
            job_apps,
            times,
            ..
        } = declared;
        let layout = Layout {
            servers: servers.len() as u8,
            apps: apps.len() as u8,
            job_apps,
            times,
        };
        let names = Names {
            servers: servers.into_list(),
            apps: apps.into_list(),
            jobs: jobs.into_list(),
        };
        Script {
            layout,
            names,
            declarations: DeclaredLines::from_vec(declarations),
            lines: ScriptLines::from_vec(todos),
        }
    }
}
