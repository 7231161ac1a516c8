ghost use Rattle.std.specs.Prelude.{◌≡◌, ◌==◌};
ghost use Rattle.std.proofs.Common.{rules};
ghost use Rattle.std.specs.Cmp.Rules.{comparing};
ghost use Rattle.std.specs.Cmp.Lexicographic.{pointwise};

use std::alloc::AllocError;
use std::marker::Model;

/// A subscript that is no number, which contracts see as the list of its bytes.
#[derive(Debug, Drop)]
pub struct SubText {
    bytes: Vec<u8>,
}

impl Model for SubText {
    ghost use Rattle.std.specs.Prelude.{List, ℕ};
    ghost use Rattle.std.specs.Coded.{coded_list, coded_ℕ};

    ghost Value = { List ℕ };

    ghost coded = { coded_list coded_ℕ };

    ghost view = { λ b. b.bytes.items };
}

impl SubText {
    pub fn from_vec(bytes: Vec<u8>) -> SubText
        ensures { result ≡ bytes.items }
    {
        SubText { bytes }
    }

    pub fn into_vec(self) -> Vec<u8>
        ensures { result.items ≡ self }
    {
        let SubText { bytes } = self;
        bytes
    }

    pub fn as_slice(&self) -> &[u8]
        ensures { result.now ≡ self.now }
    {
        self.bytes.as_slice()
    }
}

impl Clone for SubText {
    ghost is_clone = { λ old new. new ≡ old };

    fn clone(&self) -> Result<SubText, AllocError> {
        Ok(SubText {
            bytes: self.bytes.clone()?,
        })
    }
}

impl PartialEq for SubText {
    ghost eq = { pointwise ◌==◌ };

    ghost laws = { Prim.search (comparing, rules) };

    fn eq(&self, other: &SubText) -> bool {
        self.bytes.as_slice() == other.bytes.as_slice()
    }
}

impl Eq for SubText {
    ghost laws = { Prim.search (comparing, rules) };
}
