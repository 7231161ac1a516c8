ghost use Rattle.std.specs.Prelude.{◌≡◌};

use std::marker::Model;

/// The bytes of a block as a message carries them, not read yet. Contracts see the list of its bytes.
#[derive(Drop)]
pub struct BlockPart {
    bytes: Vec<u8>,
}

impl Model for BlockPart {
    ghost use Rattle.std.specs.Prelude.{List, ℕ};

    ghost Value = { List ℕ };

    ghost view = { λ b. b.bytes.items };
}

impl BlockPart {
    pub fn from_vec(bytes: Vec<u8>) -> BlockPart
        ensures { result ≡ bytes.items }
    {
        BlockPart { bytes }
    }

    pub fn as_slice(&self) -> &[u8]
        ensures { result.now ≡ self.now }
    {
        self.bytes.as_slice()
    }
}
