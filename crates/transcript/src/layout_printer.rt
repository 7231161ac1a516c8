//! The line of the times.
ghost use Rattle.std.specs.Prelude.{◌≡◌, ◌++◌, OnOk, OnErr};
ghost use Rattle.transcript.specs.Parts.{fields};
ghost use Rattle.transcript.specs.ActText.{times_line};

use crate::printer::Printer;
use plain_orders::Layout;
use std::alloc::AllocError;

/// For each job the index of its application server, a space before each.
fn put_job_apps(to: &mut Printer, job_apps: &[u8]) -> Result<(), AllocError>
    ensures { OnOk result (to.new ≡ to.old ++ fields job_apps.now) }
{
    for app in job_apps {
        to.field(u64::from(*app))?;
    }
    Ok(())
}

/// The line of the times, with the application server of each job.
fn put_layout(to: &mut Printer, layout: &Layout) -> Result<(), AllocError>
    ensures { OnOk result (to.new ≡ to.old ++ times_line layout.now) }
{
    let times = layout.times;
    let numbers = [times.retry, times.trouble, times.recover, times.round];
    to.words(b"times", &numbers)?;
    put_job_apps(to, layout.job_apps.as_slice())?;
    to.bytes(b"\n")
}

/// Appends the line of the times, `times RETRY TROUBLE RECOVER ROUND` and for each job the index of its application
/// server, with its LF. After an `Err` what was there stands.
pub fn print_layout(layout: &Layout, to: &mut Vec<u8>) -> Result<(), AllocError>
    ensures ok { OnOk result (to.new.items ≡ to.old.items ++ times_line layout.now) }
    ensures err { OnErr result (to.new.items ≡ to.old.items) }
{
    let mut text = Printer::new(*to.allocator());
    put_layout(&mut text, layout)?;
    to.extend_from_slice(text.as_slice())
}
