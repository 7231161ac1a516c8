ghost use Rattle.std.specs.Prelude.{◌≡◌, IfOk};
ghost use Rattle.std.specs.List.{list_any};
ghost use Rattle.lock_index.specs.IndexWords.{passes_below, passes_above, passes_beside};

use crate::number_index::NumberIndex;
use crate::number_test::NumberTest;
use std::alloc::AllocError;
use subscript_keys::KeyBytes;

impl NumberIndex<KeyBytes> {
    /// Whether a number passes at a name that is this one, or an ancestor or a descendant of it.
    pub fn any_beside<T: NumberTest>(&self, name: &KeyBytes, test: &T) -> Result<bool, AllocError>
        ensures { IfOk result (λ passes. passes ≡ list_any (passes_beside name.now (T.passes test.now)) self.now) }
    {
        if self.any_below(name, test) {
            return Ok(true);
        }
        self.any_above(name, test)
    }

    /// Whether a number passes at a name that begins with this one.
    fn any_below<T: NumberTest>(&self, name: &KeyBytes, test: &T) -> bool
        ensures { result ≡ list_any (passes_below name.now (T.passes test.now)) self.now }
    {
        for (key, numbers) in self.places.range(name..) {
            if !key.as_slice().starts_with(name.as_slice()) {
                return false;
            }
            if any_passes(numbers.as_slice(), test) {
                return true;
            }
        }
        false
    }

    /// Whether a number passes at a name with which this one begins.
    fn any_above<T: NumberTest>(&self, name: &KeyBytes, test: &T) -> Result<bool, AllocError>
        ensures { IfOk result (λ passes. passes ≡ list_any (passes_above name.now (T.passes test.now)) self.now) }
    {
        if self.places.len() == 0 {
            return Ok(false);
        }
        let mut bytes = name.clone()?.into_vec();
        for _shorter in 0..name.as_slice().len() + 1 {
            let front = KeyBytes::from_vec(bytes);
            if any_passes(self.numbers(&front), test) {
                return Ok(true);
            }
            bytes = front.into_vec();
            bytes.pop();
        }
        Ok(false)
    }
}

/// Whether one of these numbers passes.
fn any_passes<T: NumberTest>(numbers: &[u64], test: &T) -> bool
    ensures { result ≡ list_any (T.passes test.now) numbers.now }
{
    numbers.iter().any(|number| test.passes(*number))
}
