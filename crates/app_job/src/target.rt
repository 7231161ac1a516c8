ghost use Rattle.std.specs.Prelude.{◌≡◌, ◌≢◌, ◌↔◌, ◌<◌, length, Err, IfOk};
ghost use Rattle.std.specs.List.{AllByRecursion};
ghost use Rattle.subscript_keys.specs.Key.{IsName, HasForm, HasEmpty, key_of};
ghost use Rattle.app_job.specs.Sites.{IsSite};

use std::alloc::Global;
use std::marker::Model;
use subscript_keys::{KEY_LIMIT, KeyBytes, KeyError, Node, encode};

/// A node at its global's data server, by the server's index. Contracts see the server, the node and its key.
#[derive(Debug, Drop)]
pub struct Target {
    server: u8,
    node: Node,
    key: KeyBytes,
}

impl Model for Target {
    ghost use Rattle.app_job.specs.Sites.{Site, IsSite};

    ghost Value = { Site };

    ghost view = { λ t. record { server = t.server; node = t.node; key = t.key } };

    ghost invariant = { λ t. IsSite (record { server = t.server; node = t.node; key = t.key }) };
}

impl Target {
    /// The node at this data server. It is refused as its key is: an empty subscript first, then a key that is
    /// too long.
    pub fn new(alloc: Global, server: u8, node: Node) -> Result<Target, KeyError>
        requires name { IsName node.name }
        requires subs { AllByRecursion HasForm node.subs }
        ensures server { IfOk result (λ target. target.server ≡ server) }
        ensures node { IfOk result (λ target. target.node ≡ node) }
        ensures site { IfOk result IsSite }
        ensures empty { (result ≡ Err KeyError.EmptySubscript) ↔ HasEmpty node.subs }
        ensures long { result ≡ Err KeyError.KeyTooLong → KEY_LIMIT < length (key_of node) }
        ensures no_key { result ≢ Err KeyError.NotAKey }
    {
        let key = encode(alloc, &node)?;
        Ok(Target { server, node, key })
    }

    /// The index of the data server.
    pub fn server(&self) -> u8
        ensures { result ≡ self.now.server }
    {
        self.server
    }

    pub fn node(&self) -> &Node
        ensures { result.now ≡ self.now.node }
    {
        &self.node
    }

    /// The node's key, within its limit.
    pub fn key(&self) -> &KeyBytes
        ensures key { result.now ≡ self.now.key }
        ensures site { IsSite self.now }
    {
        &self.key
    }
}
