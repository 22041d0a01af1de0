//! Laws of what is read. Each function does nothing: its contract is the law.

ghost use Rattle.std.specs.Prelude.{◌≡◌, ℕ, List, Result, Some, IfOk, IfErr, drop};
ghost use Rattle.smith_tree.specs.Generates.{Generates};
ghost use Rattle.smith_tree.specs.Grammar.{Spells};
ghost use Rattle.smith_tree.specs.Tree.{Tree};
ghost use Rattle.smith_format.specs.Consistency.{IsConsistent};
ghost use Rattle.smith_format.specs.declared.config.Config.{Config};
ghost use Rattle.smith_read.specs.Framed.{Framed};
ghost use Rattle.smith_read.specs.PartNodes.{shown_tree};
ghost use Rattle.smith_read.specs.Places.{IsAtFront, item_text, offset_in};
ghost use Rattle.smith_read.specs.Reads.{Reads};
ghost use Rattle.smith_read.specs.declared.error.ReadError.{ReadError};
ghost use Rattle.smith_read.specs.declared.error.ReadError.TheVariants.{OutOfMemory};
ghost use Rattle.smith_read.specs.declared.nodes.ComponentTree.{ComponentTree};

/// What `generate` returns is read back as the component that it is, allocation failure aside.
pub fn answers_are_read_back()
    ensures { (config : Config) (component : Tree) (bytes : List ℕ) (result : Result ComponentTree ReadError)
        → IsConsistent config → Generates config component bytes → Reads result bytes
        → IfOk result (λ t. shown_tree t ≡ component) × IfErr result (λ e. e ≡ OutOfMemory) }
{}

/// What begins at the offset of an item is that item.
#[tactic(auto, using(crate::proofs::Places::there))]
pub fn items_are_at_their_offsets()
    ensures { (component : Tree) (bytes : List ℕ) (item offset : ℕ) → Spells component bytes
        → offset_in item component ≡ Some offset
        → IsAtFront (item_text item component) (drop offset bytes) }
{}

/// The bytes of a component are framed.
#[tactic(auto, using(crate::proofs::Spelled::spelled_framed))]
pub fn spelled_components_are_framed()
    ensures { (tree : Tree) (bytes : List ℕ) → Spells tree bytes → Framed bytes }
{}
