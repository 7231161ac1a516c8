ghost use Rattle.std.specs.Prelude.{◌≡◌, ◌≢◌, IfSome, IfNone};
ghost use Rattle.job_script.specs.CommandWords.{command_text};
ghost use Rattle.job_script.specs.declared.command_word.CommandWord.{CommandWord};

use crate::splits::is_same;

/// The first word of a job's command.
#[derive(Clone, Copy, Debug, PartialEq, Eq)]
pub enum CommandWord {
    Set,
    Kill,
    Get,
    Shape,
    Next,
    Incr,
    Lock,
    Unlock,
    Start,
    Commit,
    Rollback,
    Sync,
}

/// Such words, in the order in which they are looked for.
const COMMAND_WORDS: [CommandWord; 12] = [
    CommandWord::Set,
    CommandWord::Kill,
    CommandWord::Get,
    CommandWord::Shape,
    CommandWord::Next,
    CommandWord::Incr,
    CommandWord::Lock,
    CommandWord::Unlock,
    CommandWord::Start,
    CommandWord::Commit,
    CommandWord::Rollback,
    CommandWord::Sync,
];

impl CommandWord {
    /// The word.
    pub fn text(self) -> &'static [u8]
        ensures { result.now ≡ command_text self }
    {
        match self {
            CommandWord::Set => b"set",
            CommandWord::Kill => b"kill",
            CommandWord::Get => b"get",
            CommandWord::Shape => b"data",
            CommandWord::Next => b"next",
            CommandWord::Incr => b"incr",
            CommandWord::Lock => b"lock",
            CommandWord::Unlock => b"unlock",
            CommandWord::Start => b"tstart",
            CommandWord::Commit => b"tcommit",
            CommandWord::Rollback => b"trollback",
            CommandWord::Sync => b"sync",
        }
    }

    /// Which command begins with this word.
    pub fn of(word: &[u8]) -> Option<CommandWord>
        ensures some { IfSome result (λ command. word.now ≡ command_text command) }
        ensures none { IfNone result ((command : CommandWord) → word.now ≢ command_text command) }
    {
        for command in COMMAND_WORDS {
            if is_same(word, command.text()) {
                return Some(command);
            }
        }
        None
    }
}
