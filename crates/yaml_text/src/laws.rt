//! Laws of the profile. Each is the contract of a function that does nothing.

ghost use Rattle.std.specs.Prelude.{◌≡◌, ◌≢◌, List, ℕ, true};
ghost use Rattle.yaml_text.specs.Blocks.{reading};
ghost use Rattle.yaml_text.specs.Flow.{is_flow, scalar_at, value};
ghost use Rattle.yaml_text.specs.Lines.{is_empty};
ghost use Rattle.yaml_text.specs.Outcomes.{refuse};
ghost use Rattle.yaml_text.specs.Laws.{IsSettled, is_word};
ghost use Rattle.yaml_text.specs.declared.fault.YamlKind.TheVariants.{Flow};
ghost use Rattle.yaml_text.specs.declared.tree.Tree.{Tree};

/// A text has at most one tree, and each text has a tree or a fault.
pub fn one_reading()
    ensures one_tree { (bytes : List ℕ) (tree other : Tree) → reading bytes ≡ Ok tree → reading bytes ≡ Ok other → tree ≡ other }
    ensures tree_or_fault { (bytes : List ℕ) → IsSettled (reading bytes) }
{}

/// A text without a byte that means something to the profile is one scalar, its own text on line 1.
pub fn word_is_scalar()
    ensures { (bytes : List ℕ) → is_word bytes ≡ true → reading bytes ≡ Ok (scalar_at 1 bytes) }
{}

/// The grammar stands twice in the definitions: once to say whether a text is a value as a whole, and
/// once to read it. Where a value is read from the front of a text, the text is a value as a whole
/// exactly if nothing is left behind it; and a text that is a value as a whole is never refused as none
/// while it is read.
pub fn one_grammar()
    ensures read { (line depth : ℕ) (text rest : List ℕ) (tree : Tree) → value line depth text ≡ Ok (tree, rest) → is_flow text ≡ is_empty rest }
    ensures refused { (line depth : ℕ) (text : List ℕ) → is_flow text ≡ true → value line depth text ≢ refuse line Flow }
{}
