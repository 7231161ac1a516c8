use subscript_keys::{KeyBytes, Sub, ValueBytes};

/// What a read asked and was answered.
#[derive(Drop)]
pub enum Question {
    Get {
        key: KeyBytes,
        value: Option<ValueBytes>,
    },
    /// `code` is 0, 1, 10 or 11.
    Shape {
        key: KeyBytes,
        code: u8,
    },
    /// The next subscript below `parent` after `sub`, where none stands before the first, and at the end
    /// after the last.
    Next {
        parent: KeyBytes,
        sub: Option<Sub>,
        found: Option<Sub>,
    },
}
