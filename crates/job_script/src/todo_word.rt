ghost use Rattle.std.specs.Prelude.{◌≡◌, ◌≢◌, IfSome, IfNone};
ghost use Rattle.job_script.specs.FirstWords.{todo_text};
ghost use Rattle.job_script.specs.declared.todo_word.TodoWord.{TodoWord};

use crate::splits::is_same;

/// The first word of a line that asks for something, other than a job's.
#[derive(Clone, Copy, Debug, PartialEq, Eq)]
pub enum TodoWord {
    Hold,
    Flow,
    Up,
    Down,
    Save,
    Pump,
    Tick,
    Break,
    Mend,
    Crash,
    Restart,
    Die,
    Await,
}

/// Such words, in the order in which they are looked for.
const TODO_WORDS: [TodoWord; 13] = [
    TodoWord::Hold,
    TodoWord::Flow,
    TodoWord::Up,
    TodoWord::Down,
    TodoWord::Save,
    TodoWord::Pump,
    TodoWord::Tick,
    TodoWord::Break,
    TodoWord::Mend,
    TodoWord::Crash,
    TodoWord::Restart,
    TodoWord::Die,
    TodoWord::Await,
];

impl TodoWord {
    /// The word.
    pub fn text(self) -> &'static [u8]
        ensures { result.now ≡ todo_text self }
    {
        match self {
            TodoWord::Hold => b"hold",
            TodoWord::Flow => b"flow",
            TodoWord::Up => b"up",
            TodoWord::Down => b"down",
            TodoWord::Save => b"save",
            TodoWord::Pump => b"pump",
            TodoWord::Tick => b"tick",
            TodoWord::Break => b"break",
            TodoWord::Mend => b"mend",
            TodoWord::Crash => b"crash",
            TodoWord::Restart => b"restart",
            TodoWord::Die => b"die",
            TodoWord::Await => b"await",
        }
    }

    /// What a line with this first word asks for.
    pub fn of(word: &[u8]) -> Option<TodoWord>
        ensures some { IfSome result (λ todo. word.now ≡ todo_text todo) }
        ensures none { IfNone result ((todo : TodoWord) → word.now ≢ todo_text todo) }
    {
        for todo in TODO_WORDS {
            if is_same(word, todo.text()) {
                return Some(todo);
            }
        }
        None
    }
}
