ghost use Rattle.std.specs.Prelude.{◌≡◌, ◌==◌};
ghost use Rattle.std.proofs.Common.{rules};
ghost use Rattle.std.specs.Cmp.Rules.{comparing};
ghost use Rattle.std.specs.Cmp.Lexicographic.{pointwise};

use std::alloc::AllocError;
use std::marker::Model;

/// The value of a node, which contracts see as the list of its bytes.
#[derive(Debug, Drop)]
pub struct ValueBytes {
    bytes: Vec<u8>,
}

impl Model for ValueBytes {
    ghost use Rattle.std.specs.Prelude.{List, ℕ};
    ghost use Rattle.std.specs.Coded.{coded_list, coded_ℕ};

    ghost Value = { List ℕ };

    ghost coded = { coded_list coded_ℕ };

    ghost view = { λ b. b.bytes.items };
}

impl ValueBytes {
    pub fn from_vec(bytes: Vec<u8>) -> ValueBytes
        ensures { result ≡ bytes.items }
    {
        ValueBytes { bytes }
    }

    pub fn into_vec(self) -> Vec<u8>
        ensures { result.items ≡ self }
    {
        let ValueBytes { bytes } = self;
        bytes
    }

    pub fn as_slice(&self) -> &[u8]
        ensures { result.now ≡ self.now }
    {
        self.bytes.as_slice()
    }
}

impl Clone for ValueBytes {
    ghost is_clone = { λ old new. new ≡ old };

    fn clone(&self) -> Result<ValueBytes, AllocError> {
        Ok(ValueBytes {
            bytes: self.bytes.clone()?,
        })
    }
}

impl PartialEq for ValueBytes {
    ghost eq = { pointwise ◌==◌ };

    ghost laws = { Prim.search (comparing, rules) };

    fn eq(&self, other: &ValueBytes) -> bool {
        self.bytes.as_slice() == other.bytes.as_slice()
    }
}

impl Eq for ValueBytes {
    ghost laws = { Prim.search (comparing, rules) };
}
