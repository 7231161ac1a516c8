ghost use Rattle.std.specs.Prelude.{◌≡◌, ◌↔◌, IsTrue, IfOk};
ghost use Rattle.subscript_keys.specs.Span.{IsIn, Meet, span_lo, span_hi};

use crate::key_bytes::KeyBytes;
use std::alloc::{AllocError, Global};

/// The byte strings from `lo`, which is within, up to `hi`, which is without.
#[derive(Debug, PartialEq, Eq, Drop)]
pub struct Span {
    pub lo: KeyBytes,
    pub hi: KeyBytes,
}

impl Span {
    /// The span of a node, whose key this is, and its descendants.
    pub fn under(alloc: Global, key: &KeyBytes) -> Result<Span, AllocError>
        ensures lo { IfOk result (λ span. span.lo ≡ span_lo key.now) }
        ensures hi { IfOk result (λ span. span.hi ≡ span_hi key.now) }
    {
        let mut hi = Vec::with_capacity(alloc, key.as_slice().len() + 1)?;
        hi.extend_from_slice(key.as_slice())?;
        hi.push(0xFF)?;
        Ok(Span {
            lo: key.clone()?,
            hi: KeyBytes::from_vec(hi),
        })
    }

    /// Whether the key is within.
    pub fn contains(&self, key: &KeyBytes) -> bool
        ensures { IsTrue result ↔ IsIn self.now.lo self.now.hi key.now }
    {
        self.lo <= *key && *key < self.hi
    }

    /// Whether some byte string is in both spans.
    pub fn meets(&self, other: &Span) -> bool
        ensures { IsTrue result ↔ Meet self.now.lo self.now.hi other.now.lo other.now.hi }
    {
        self.lo < self.hi && other.lo < other.hi && self.lo < other.hi && other.lo < self.hi
    }
}
