//! The printed spelling of subscripts.
ghost use Rattle.std.specs.Prelude.{◌≡◌, ◌++◌, OnOk, OnErr};
ghost use Rattle.std.specs.List.{AllByRecursion};
ghost use Rattle.subscript_keys.specs.Decimal.{BeginsWith};
ghost use Rattle.subscript_keys.specs.Key.{HasForm};
ghost use Rattle.global_text.specs.Nodes.{sub_text, more_subs_text, subs_text, HasBytes};

use crate::string_writer::put_quoted;
use std::alloc::AllocError;
use subscript_keys::Sub;

/// Appends a subscript. After an `Err` a part of it may stand there.
fn put_sub(to: &mut Vec<u8>, sub: &Sub) -> Result<(), AllocError>
    requires { HasForm sub.now }
    ensures ok { OnOk result (to.new.items ≡ to.old.items ++ sub_text sub.now) }
    ensures front { BeginsWith to.new.items to.old.items }
    ensures bytes { HasBytes sub.now }
{
    match sub {
        Sub::Num(number) => number.write(to),
        Sub::Text(text) => put_quoted(to, text.as_slice()),
    }
}

/// Appends the subscript's one printed spelling.
pub fn print_sub(sub: &Sub, to: &mut Vec<u8>) -> Result<(), AllocError>
    requires { HasForm sub.now }
    ensures ok { OnOk result (to.new.items ≡ to.old.items ++ sub_text sub.now) }
    ensures err { OnErr result (to.new.items ≡ to.old.items) }
    ensures bytes { HasBytes sub.now }
{
    let length = to.len();
    if let Err(error) = put_sub(to, sub) {
        to.truncate(length);
        return Err(error);
    }
    Ok(())
}

/// Appends further subscripts, a comma before each.
fn put_more_subs(to: &mut Vec<u8>, subs: &[Sub]) -> Result<(), AllocError>
    requires { AllByRecursion HasForm subs.now }
    ensures ok { OnOk result (to.new.items ≡ to.old.items ++ more_subs_text subs.now) }
    ensures front { BeginsWith to.new.items to.old.items }
    ensures bytes { OnOk result (AllByRecursion HasBytes subs.now) }
{
    for sub in subs {
        to.push(b',')?;
        put_sub(to, sub)?;
    }
    Ok(())
}

/// Appends subscripts in parentheses, or nothing where there are none.
pub fn put_subs(to: &mut Vec<u8>, subs: &[Sub]) -> Result<(), AllocError>
    requires { AllByRecursion HasForm subs.now }
    ensures ok { OnOk result (to.new.items ≡ to.old.items ++ subs_text subs.now) }
    ensures front { BeginsWith to.new.items to.old.items }
    ensures bytes { OnOk result (AllByRecursion HasBytes subs.now) }
{
    let Some((first, others)) = subs.split_first() else {
        return Ok(());
    };
    to.push(b'(')?;
    put_sub(to, first)?;
    put_more_subs(to, others)?;
    to.push(b')')?;
    Ok(())
}
