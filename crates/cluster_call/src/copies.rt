//! Copies of what a run keeps twice.
ghost use Rattle.std.specs.Prelude.{◌≡◌, IfOk};
ghost use Rattle.std.specs.Option.{option_copied};

use plain_orders::{JobApps, Layout, Op};
use std::alloc::{AllocError, Global};
use subscript_keys::{Sub, ValueBytes};

/// A copy of a value that may be wanting.
pub fn copy_value(value: Option<&ValueBytes>) -> Result<Option<ValueBytes>, AllocError>
    ensures { IfOk result (λ copy. copy ≡ option_copied value.entry) }
{
    match value {
        Some(value) => Ok(Some(value.clone()?)),
        None => Ok(None),
    }
}

/// A copy of a subscript that may be wanting.
pub fn copy_sub(sub: &Option<Sub>) -> Result<Option<Sub>, AllocError>
    ensures { IfOk result (λ copy. copy ≡ sub.now) }
{
    match sub {
        Some(sub) => Ok(Some(sub.clone()?)),
        None => Ok(None),
    }
}

/// A copy of an operation.
pub fn copy_op(op: &Op) -> Result<Op, AllocError>
    ensures { IfOk result (λ copy. copy ≡ op.now) }
{
    match op {
        Op::Set { key, value } => Ok(Op::Set {
            key: key.clone()?,
            value: value.clone()?,
        }),
        Op::Kill { key } => Ok(Op::Kill { key: key.clone()? }),
        Op::Add { key, amount } => Ok(Op::Add {
            key: key.clone()?,
            amount: *amount,
        }),
    }
}

/// A copy of a layout.
pub fn copy_layout(alloc: Global, layout: &Layout) -> Result<Layout, AllocError>
    ensures { IfOk result (λ copy. copy ≡ layout.now) }
{
    Ok(Layout {
        servers: layout.servers,
        apps: layout.apps,
        job_apps: JobApps::from_vec(Vec::from_slice(alloc, layout.job_apps.as_slice())?),
        times: layout.times,
    })
}
