//! Targets, and why there is none.
ghost use Rattle.std.specs.Prelude.{IfOk};
ghost use Rattle.subscript_keys.specs.Key.{HasForm};

use app_job::Target;
use std::alloc::{AllocError, Global};
use std::test::*;
use subscript_keys::{Decimal, KeyError, Name, Node, Sub, SubText, Subs};

/// The subscript that is this string, which may be empty.
fn sub_of(alloc: Global, string: &[u8]) -> Result<Sub, AllocError>
    ensures { IfOk result HasForm }
{
    match Decimal::read(string) {
        Some(number) => Ok(Sub::Num(number)),
        None => Ok(Sub::Text(SubText::from_vec(Vec::from_slice(alloc, string)?))),
    }
}

/// The target at data server 3 that is ^x with this subscript.
fn target_of(alloc: Global, string: &[u8]) -> Result<Target, KeyError> {
    let name = Vec::from_slice(alloc, b"x").map_err(KeyError::Memory)?;
    let sub = sub_of(alloc, string).map_err(KeyError::Memory)?;
    let mut subs = Subs::new(alloc);
    subs.push(sub).map_err(KeyError::Memory)?;
    let name = Name::from_vec(name);
    Target::new(alloc, 3, Node { name, subs })
}

#[test]
fn a_target_keeps_its_node_and_is_refused_as_its_key_is(rt: HostRuntime) -> Result<(), Fail> {
    let alloc = rt.alloc();
    let long = vec![in alloc; b'a'; 496]?;
    let table: [(&[u8], &[u8]); 4] = [
        (b"A", b"x\x00\x40A\x00\x01"),
        (b"10", b"x\x00\x30\x42\x02\x00"),
        (b"", b"EmptySubscript"),
        (&long, b"KeyTooLong"),
    ];
    for (string, want) in table {
        match target_of(alloc, string) {
            Ok(target) => {
                assert_eq!(rt; target.key().as_slice(), want, "{string:?}");
                assert_eq!(rt; target.server(), 3);
                assert_eq!(rt; target.node().name.as_slice(), b"x".as_slice());
                assert_eq!(rt; target.node().subs.as_slice().len(), 1);
            }
            Err(KeyError::EmptySubscript) => assert_eq!(rt; b"EmptySubscript".as_slice(), want),
            Err(KeyError::KeyTooLong) => assert_eq!(rt; b"KeyTooLong".as_slice(), want),
            Err(_) => assert!(rt; false, "{string:?}"),
        }
    }
    Ok(())
}
