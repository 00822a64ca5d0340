//! Which trees have the core of a program. There is no code here: the laws bind what parser_checks and lower_outside find
//! in a tree, and which names are known in it, to what ir_core asks of the core of a program.
//!
//! - `specs::Fits`: a tree fits where each `break`, `next`, `retry`, `return`, `yield` and `super` has where to go, and
//!   each local that is named is known: a parameter or a variable of the text around it
//! - `specs::Knows`: the part of it that is about names, in a tree with nothing outside the language
//!
//! Every form of tree has a rule there. A construct outside the language always fits: its core is `nil`, and a source
//! that has one is refused. That the trees which the parser makes name no local but those that are known isn't proved.
#![tactic(auto)]

ghost use Rattle.std.specs.Prelude.{◌≡◌, List, [], None, true, false};
ghost use Rattle.parser_tree.specs.Node.{Name, Node};
ghost use Rattle.parser_checks.specs.Places.{misplaced};
ghost use Rattle.lower_outside.specs.Search.{found};
ghost use Rattle.ir_core.specs.Program.{IsProgram, is_program};
ghost use Rattle.lower_table.specs.Lowering.{program};
ghost use Rattle.program_laws.specs.Example as example;
ghost use Rattle.program_laws.specs.Fits.{IsFitting};
ghost use Rattle.program_laws.specs.Knows.{knows};

/// A tree that fits, with the variables of its text, has the core of a program, and so has one in which no word is
/// misplaced, nothing is outside the language and each local that is named is known.
#[tactic(auto, using(crate::proofs::Programs::fitting_is_program, crate::proofs::Programs::placed_is_program))]
pub fn laws_of_programs()
    ensures fitting { (ls : List Name) (n : Node) → IsFitting ls n → IsProgram (program ls n) }
    ensures placed { (ls : List Name) (n : Node) → misplaced n ≡ None → found None n ≡ None → knows ls n ≡ true
        → IsProgram (program ls n) }
{}

/// A program with a method, a block, a clause and a loop has such a tree. The core of a word that is misplaced is that
/// of no program, and so is that of a local that isn't known.
pub fn a_tree_fits()
    ensures placed { misplaced example.tree ≡ None }
    ensures within_language { found None example.tree ≡ None }
    ensures known { knows example.variables example.tree ≡ true }
    ensures stray_word { is_program (program [] example.stray_word) ≡ false }
    ensures stray_name { is_program (program [] example.stray_name) ≡ false }
{}
