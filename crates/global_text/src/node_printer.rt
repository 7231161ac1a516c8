//! Printing nodes.
ghost use Rattle.std.specs.Prelude.{◌≡◌, ◌++◌, OnOk, OnErr};
ghost use Rattle.std.specs.List.{AllByRecursion};
ghost use Rattle.subscript_keys.specs.Decimal.{BeginsWith};
ghost use Rattle.subscript_keys.specs.Key.{HasForm};
ghost use Rattle.global_text.specs.Nodes.{node_text, HasBytes};

use crate::sub_printer::put_subs;
use std::alloc::AllocError;
use subscript_keys::Node;

/// Appends a node. After an `Err` a part of it may stand there.
fn put_node(to: &mut Vec<u8>, node: &Node) -> Result<(), AllocError>
    requires { AllByRecursion HasForm node.now.subs }
    ensures ok { OnOk result (to.new.items ≡ to.old.items ++ node_text node.now) }
    ensures front { BeginsWith to.new.items to.old.items }
    ensures bytes { OnOk result (AllByRecursion HasBytes node.now.subs) }
{
    to.push(b'^')?;
    to.extend_from_slice(node.name.as_slice())?;
    put_subs(to, node.subs.as_slice())
}

/// Appends the node's one printed spelling.
pub fn print_node(node: &Node, to: &mut Vec<u8>) -> Result<(), AllocError>
    requires { AllByRecursion HasForm node.now.subs }
    ensures ok { OnOk result (to.new.items ≡ to.old.items ++ node_text node.now) }
    ensures err { OnErr result (to.new.items ≡ to.old.items) }
    ensures bytes { OnOk result (AllByRecursion HasBytes node.now.subs) }
{
    let length = to.len();
    if let Err(error) = put_node(to, node) {
        to.truncate(length);
        return Err(error);
    }
    Ok(())
}
