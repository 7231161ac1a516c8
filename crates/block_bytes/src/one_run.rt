ghost use Rattle.std.specs.Prelude.{◌≡◌, List, ℕ};
ghost use Rattle.subscript_keys.specs.declared.run.Run.{Run};
ghost use Rattle.block_bytes.specs.Blocks.{IsBlockOf};

/// A block is the block of one run.
pub fn blocks_have_one_run()
    ensures { (a b : Run) (bytes : List ℕ) → IsBlockOf a bytes → IsBlockOf b bytes → a ≡ b }
{}
