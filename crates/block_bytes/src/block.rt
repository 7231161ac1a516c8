ghost use Rattle.std.specs.Prelude.{◌≡◌};
ghost use Rattle.block_bytes.specs.Blocks.{IsBlock};

use std::marker::Model;

/// The bytes of a run, at most 8192. Contracts see the list of them.
#[derive(Debug, Drop)]
pub struct Block {
    bytes: Vec<u8>,
}

impl Model for Block {
    ghost use Rattle.std.specs.Prelude.{List, ℕ};
    ghost use Rattle.block_bytes.specs.Blocks.{IsBlock};

    ghost Value = { List ℕ };

    ghost view = { λ b. b.bytes.items };

    ghost invariant = { λ b. IsBlock b.bytes.items };
}

impl Block {
    /// The block whose bytes these are.
    pub(crate) fn from_vec(bytes: Vec<u8>) -> Block
        requires { IsBlock bytes.items }
        ensures { result ≡ bytes.items }
    {
        Block { bytes }
    }

    pub fn into_vec(self) -> Vec<u8>
        ensures value { result.items ≡ self }
        ensures block { IsBlock self }
    {
        let Block { bytes } = self;
        bytes
    }

    pub fn as_slice(&self) -> &[u8]
        ensures value { result.now ≡ self.now }
        ensures block { IsBlock self.now }
    {
        self.bytes.as_slice()
    }
}
