//! The forms of names.
ghost use Rattle.std.specs.Prelude.{◌↔◌, IsTrue};
ghost use Rattle.subscript_keys.specs.Key.{IsName};
ghost use Rattle.job_script.specs.Names.{IsNodeName};

use subscript_keys::GLOBAL_NAME_LIMIT;

/// How many bytes the name of a server, an application server or a job may have.
const NODE_NAME_LIMIT: usize = 16;

/// Whether this names a server, an application server or a job: a letter, and letters and digits.
pub fn is_node_name(name: &[u8]) -> bool
    ensures { IsTrue result ↔ IsNodeName name.now }
{
    name.first().is_some_and(|b| b.is_ascii_alphabetic())
        && name.iter().all(|b| b.is_ascii_alphanumeric())
        && name.len() <= NODE_NAME_LIMIT
}

/// Whether this names a global, without its caret.
pub fn is_global_name(name: &[u8]) -> bool
    ensures { IsTrue result ↔ IsName name.now }
{
    let Some((first, others)) = name.split_first() else {
        return false;
    };
    first.is_ascii_alphabetic()
        && others.iter().all(|b| b.is_ascii_alphanumeric())
        && others.len() < GLOBAL_NAME_LIMIT
}
