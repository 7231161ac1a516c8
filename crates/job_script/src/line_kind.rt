/// Why a line is bad.
#[derive(Clone, Copy, Debug, PartialEq, Eq)]
pub enum LineKind {
    /// The first word is no line's, or a job's command is none.
    Unknown,
    /// A declaration stands after a line of another kind.
    Late,
    /// A name or a global is declared already.
    Twice,
    /// There are as many of this kind as may be.
    TooMany,
    /// A name is outside its form.
    Name,
    /// No node stands where one must, or an empty subscript where none may.
    Node,
    /// A key has more than `KEY_LIMIT` bytes.
    Key,
    /// A next asks for a node without subscripts.
    NoSub,
    /// A set has no value.
    NoValue,
    /// No value stands where one must.
    Value,
    /// A value has more than `VALUE_LIMIT` bytes.
    Long,
    /// A number is outside its form or its limits.
    Number,
    /// There are too many words, or too few, or an option that isn't there.
    Words,
    /// A line that a live run doesn't have. Reading a script never answers it.
    NotLive,
}

impl LineKind {
    ghost use Rattle.std.specs.Prelude.{◌≡◌, codes};
    ghost use Rattle.job_script.specs.Kinds.{kind_text};

    /// What such a line is called.
    pub fn text(self) -> &'static [u8]
        ensures { result.now ≡ kind_text self }
    {
        match self {
            LineKind::Unknown => b"bad line",
            LineKind::Late => b"declaration too late",
            LineKind::Twice => b"declared twice",
            LineKind::TooMany => b"too many",
            LineKind::Name => b"bad name",
            LineKind::Node => b"bad node",
            LineKind::Key => b"key too long",
            LineKind::NoSub => b"subscript missing",
            LineKind::NoValue => b"value missing",
            LineKind::Value => b"bad value",
            LineKind::Long => b"value too long",
            LineKind::Number => b"bad number",
            LineKind::Words => b"wrong words",
            LineKind::NotLive => b"not live",
        }
    }
}
