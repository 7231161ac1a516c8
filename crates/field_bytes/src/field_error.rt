ghost use Rattle.std.specs.Prelude.{◌≡◌};
ghost use Rattle.field_bytes.specs.declared.field_error.FieldError.TheVariants.{Memory};

use std::alloc::AllocError;

/// Why no field was taken.
#[derive(Debug, Drop)]
pub enum FieldError {
    /// No such field stands in front.
    NoField,
    /// Memory ran out, whatever stands there.
    Memory(AllocError),
}

impl From<AllocError> for FieldError {
    ghost from_gives = { λ alloc_error e. e ≡ Memory alloc_error };

    fn from(alloc_error: AllocError) -> FieldError {
        FieldError::Memory(alloc_error)
    }
}
