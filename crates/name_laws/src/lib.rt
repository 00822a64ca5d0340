//! The trees of the parser name no local but those that are known where it is named: parameters, and variables of the
//! text around it. There is no code here: the laws bind the definition that the parser is proved to meet to what
//! program_laws asks of a tree.
//!
//! The rules of the grammar pass on the names known so far, and a tree with a local comes only of a name among them.
//! That the names known grow by variables alone, and that those of a block, a lambda, a method, a class or a module are
//! its parameters, its other variables and, in the first two, those around it, stands in proofs/ rule by rule. What
//! stands in a definition with a parameter outside the language isn't asked, since it may name that; a source with one
//! is refused.
//!
//! With what program_laws says, the core of each tree that is placed and within the language is that of a program.
#![tactic(auto)]

ghost use Rattle.std.specs.Prelude.{◌≡◌, ℕ, [], None, Ok, true, false};
ghost use Rattle.parser_tree.specs.Parts.{PlainNode};
ghost use Rattle.parser_forms.specs.Reading.{Tokens};
ghost use Rattle.parser_checks.specs.Places.{misplaced};
ghost use Rattle.rb_parser.specs.Program.{program, tree_of};
ghost use Rattle.lower_outside.specs.Search.{found};
ghost use Rattle.lower_table.specs.Lowering as lowering;
ghost use Rattle.ir_core.specs.Program.{IsProgram};
ghost use Rattle.program_laws.specs.Knows.{knows};
ghost use Rattle.name_laws.specs.Example as example;

/// A tree that is read of tokens, with the variables of its text, names no local but those that are known. Where no
/// word of it is misplaced and nothing in it is outside the language, its core is that of a program.
#[tactic(auto, using(crate::proofs::Laws::reads, crate::proofs::Laws::tree_knows, crate::proofs::Laws::is_program))]
pub fn laws_of_names()
    ensures read { (ts : Tokens) (n : PlainNode) → program ts ≡ Ok n → knows n.0 n.1 ≡ true }
    ensures known { (ts : Tokens) (size : ℕ) (n : PlainNode) → tree_of ts size ≡ Ok n → knows n.0 n.1 ≡ true }
    ensures core { (ts : Tokens) (size : ℕ) (n : PlainNode) → tree_of ts size ≡ Ok n → misplaced n.1 ≡ None
        → found None n.1 ≡ None → IsProgram (lowering.program n.0 n.1) }
{}

/// The tokens of `x = 1; f { |a| a + x }` are read, and the variable that their tree names must be known.
#[tactic(auto, using(crate::proofs::Witness::example_read))]
pub fn a_text_is_read()
    ensures read { program example.tokens ≡ Ok (example.variables, example.tree) }
    ensures known { knows example.variables example.tree ≡ true }
    ensures unknown { knows [] example.tree ≡ false }
{}
