//! Names and settings among the parts of a line.
ghost use Rattle.std.specs.Prelude.{◌≡◌, ◌≢◌, ℕ, ◌∷◌, List, IfOk, IfErr, IfSome, IfNone};
ghost use Rattle.subscript_keys.specs.Key.{IsName};
ghost use Rattle.job_script.specs.declared.setting.Setting.{Setting};
ghost use Rattle.job_script.specs.Names.{setting_word};
ghost use Rattle.job_script.specs.Parts.{NewName, NewGlobal, OfKind, TakesPart};
ghost use Rattle.job_script.specs.Words.{IsAhead};
ghost use Rattle.job_script.specs.Refusals.{RefusesNewName, RefusesNewGlobal, RefusesOfKind, RefusesSetting, IsMemoryFault};

use crate::declared::Declared;
use crate::line_fault::LineFault;
use crate::line_kind::LineKind;
use crate::name_form::{is_global_name, is_node_name};
use crate::name_kind::NameKind;
use crate::setting::Setting;
use crate::splits::{is_same, split_word};
use std::alloc::Global;
use subscript_keys::Name;

/// How many globals may be declared.
const GLOBAL_LIMIT: usize = 256;

/// A copy of a name.
fn copy_name(alloc: Global, name: &[u8]) -> Result<Name, LineFault>
    ensures ok { IfOk result (λ copy. copy ≡ name.now) }
    ensures err { IfErr result IsMemoryFault }
{
    let bytes = Vec::from_slice(alloc, name).map_err(LineFault::Memory)?;
    Ok(Name::from_vec(bytes))
}

/// A name that isn't declared yet, and what follows it.
pub fn take_new_name<'a>(
    alloc: Global,
    declared: &Declared,
    kind: NameKind,
    text: &'a [u8],
) -> Result<(Name, &'a [u8]), LineFault>
    ensures ok { IfOk result (λ got. TakesPart declared.now (NewName kind got.0) text.now got.1.now) }
    ensures err { IfErr result (RefusesNewName declared.now kind text.now) }
{
    if text.is_empty() {
        return Err(LineFault::Bad(LineKind::Words));
    }
    let (word, rest) = split_word(text);
    if !is_node_name(word) {
        return Err(LineFault::Bad(LineKind::Name));
    }
    if declared.has_name(word) {
        return Err(LineFault::Bad(LineKind::Twice));
    }
    if !declared.has_room(kind) {
        return Err(LineFault::Bad(LineKind::TooMany));
    }
    Ok((copy_name(alloc, word)?, rest))
}

/// The name after a caret, if these are a global's.
fn global_name_of(word: &[u8]) -> Option<&[u8]>
    ensures some { IfSome result (λ name. IsName name.now × (word.now ≡ 94 ∷ name.now)) }
    ensures none { IfNone result ((name : List ℕ) → IsName name → word.now ≢ 94 ∷ name) }
{
    let Some((first, name)) = word.split_first() else {
        return None;
    };
    if *first != b'^' {
        return None;
    }
    if is_global_name(name) {
        Some(name)
    } else {
        None
    }
}

/// A global that isn't declared yet, and what follows it. Its name is without the caret.
pub fn take_new_global<'a>(
    alloc: Global,
    declared: &Declared,
    text: &'a [u8],
) -> Result<(Name, &'a [u8]), LineFault>
    ensures ok { IfOk result (λ got. TakesPart declared.now (NewGlobal got.0) text.now got.1.now) }
    ensures err { IfErr result (RefusesNewGlobal declared.now text.now) }
{
    if text.is_empty() {
        return Err(LineFault::Bad(LineKind::Words));
    }
    let (word, rest) = split_word(text);
    let Some(name) = global_name_of(word) else {
        return Err(LineFault::Bad(LineKind::Name));
    };
    if declared.server_of(name).is_some() {
        return Err(LineFault::Bad(LineKind::Twice));
    }
    if declared.globals.as_slice().len() >= GLOBAL_LIMIT {
        return Err(LineFault::Bad(LineKind::TooMany));
    }
    Ok((copy_name(alloc, name)?, rest))
}

/// The index of a name that is declared as one of this kind, and what follows it.
pub fn take_of_kind<'a>(
    declared: &Declared,
    kind: NameKind,
    text: &'a [u8],
) -> Result<(u8, &'a [u8]), LineFault>
    ensures ok { IfOk result (λ got. TakesPart declared.now (OfKind kind got.0) text.now got.1.now) }
    ensures err { IfErr result (RefusesOfKind declared.now kind text.now) }
{
    if text.is_empty() {
        return Err(LineFault::Bad(LineKind::Words));
    }
    let (word, rest) = split_word(text);
    if !is_node_name(word) {
        return Err(LineFault::Bad(LineKind::Name));
    }
    let Some(index) = declared.index_of(kind, word) else {
        return Err(LineFault::Unknown);
    };
    Ok((index, rest))
}

/// The setting that a word names.
#[tactic(auto, using(crate::proofs::NameLemmas::no_setting))]
fn setting_of(word: &[u8]) -> Option<Setting>
    ensures some { IfSome result (λ setting. word.now ≡ setting_word setting) }
    ensures none { IfNone result ((setting : Setting) → word.now ≢ setting_word setting) }
{
    if is_same(word, b"retry") {
        return Some(Setting::Retry);
    }
    if is_same(word, b"trouble") {
        return Some(Setting::Trouble);
    }
    if is_same(word, b"recover") {
        return Some(Setting::Recover);
    }
    if is_same(word, b"round") {
        return Some(Setting::Round);
    }
    None
}

/// A setting, and what follows it.
pub fn take_setting<'a>(text: &'a [u8]) -> Result<(Setting, &'a [u8]), LineFault>
    ensures ok { IfOk result (λ got. IsAhead (setting_word got.0) text.now got.1.now) }
    ensures err { IfErr result (RefusesSetting text.now) }
{
    let (word, rest) = split_word(text);
    let Some(setting) = setting_of(word) else {
        return Err(LineFault::Bad(LineKind::Words));
    };
    Ok((setting, rest))
}
