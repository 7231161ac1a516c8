ghost use Rattle.std.specs.Prelude.{◌≡◌, ℕ, ◌≤◌, IfOk, IfErr};
ghost use Rattle.outer_io.specs.Causes.{Rose};
ghost use Rattle.outer_link.specs.Marks.{IsFresh};
ghost use Rattle.outer_link.specs.Net.{Shape, IsNodeOf};

use crate::net::Net;
use crate::node_name::NodeName;
use outer_io::Stop;

/// What makes the net of each node.
pub trait NetMaker {
    type N: Net;

    /// How many nodes there are, and whether the nets may hold back what is there.
    ghost shape: { Self → Shape };

    /// How often it has failed. It never falls, and stays at the greatest u64.
    ghost faults: { Self → ℕ };

    /// The net of this node. No connection is known on it yet.
    fn make(&mut self, node: NodeName) -> Result<Self::N, Stop>
        requires { IsNodeOf (shape self.old) node }
        ensures fresh { IfOk result (λ net. IsFresh (Self.N.marks net)) }
        ensures net_shape { IfOk result (λ net. Self.N.shape net ≡ shape self.old) }
        ensures failed { IfErr result (λ stop. stop ≡ Stop.Failed
            → Rose (faults self.old) (faults self.new)) }
        ensures faults { faults self.old ≤ faults self.new }
        ensures shape { shape self.new ≡ shape self.old };
}
