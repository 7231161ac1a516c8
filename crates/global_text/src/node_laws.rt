ghost use Rattle.std.specs.Prelude.{◌≡◌, ◌++◌, [], ℕ, List};
ghost use Rattle.std.specs.List.{AllByRecursion};
ghost use Rattle.subscript_keys.specs.declared.node.Node.{Node};
ghost use Rattle.subscript_keys.specs.Key.{key_of, HasForm, IsName, IsWithinLimit};
ghost use Rattle.global_text.specs.declared.text_error.TextError.{TextError};
ghost use Rattle.global_text.specs.Numbers.{BeginsOtherwise};
ghost use Rattle.global_text.specs.Nodes.{extends_name, ReadsNode, node_text, HasBytes};
ghost use Rattle.global_text.specs.Faults.{HasNodeFault, IsMemory, AreOne};

/// Reading is one: a text begins with one node at most, by a spelling of that node; where it begins with a node,
/// no refusal of nodes but out of memory holds for it, and else one refusal at most.
pub fn nodes_are_read_in_one_way()
    ensures one { (a b : Node) (text rest behind : List ℕ) → ReadsNode a text rest →
        ReadsNode b text behind → (a ≡ b) × (rest ≡ behind) }
    ensures spelled { (node : Node) (text rest : List ℕ) → ReadsNode node text rest →
        (spelled : List ℕ) × (text ≡ spelled ++ rest) × ReadsNode node spelled [] }
    ensures read { (node : Node) (text rest : List ℕ) (error : TextError) →
        ReadsNode node text rest → HasNodeFault text error → IsMemory error }
    ensures refused { (text : List ℕ) (error other : TextError) → HasNodeFault text error →
        HasNodeFault text other → AreOne error other }
{}

/// A printed node is read back, where neither a letter, a digit nor an open parenthesis follows.
pub fn printed_nodes_are_read()
    ensures { (node : Node) (rest : List ℕ) → IsName node.name → AllByRecursion HasForm node.subs →
        AllByRecursion HasBytes node.subs → IsWithinLimit (key_of node) →
        BeginsOtherwise extends_name rest → ReadsNode node (node_text node ++ rest) rest }
{}
