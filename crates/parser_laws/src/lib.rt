//! What nodes the tokens of a text stand for, as a relation: the grammar, one rule for each form. There is no code
//! here: the laws bind the rules to the definitions that the parser is proved to meet.
//!
//! `specs::Derives::Derives` relates a rule of the grammar, the names known as locals and the tokens before it with
//! those behind it. The rules and the node that each reads are those of `specs::Rules::Rule`.
//!
//! These forms have rules: statements with separators; the modifiers `if`, `unless`, `while`, `until` and `rescue`; `and`,
//! `or`, `not`; assignments to variables, constants, indices and methods of a value, and to what is outside the language
//! (class variables, special global variables, names that aren't of ASCII, a method behind `&.`), plain and abbreviated,
//! with `rescue` behind the value too, of a list, of a command, also behind `!`, and to several targets with stars and
//! groups; conditionals with `?` and `:`; `defined?`; the operators of the table between operands and before them, ranges
//! among them; `nil`, `true`, `false`, `self`; integers, with their sign and wide ones; strings with pieces, side by side,
//! and characters; symbols, also in quotes; `%w` and `%i`; locals, `@name`, `$name`, constants, `::` before a constant,
//! constants of a value; calls of a name, of `super` and of a method behind `.`, `::` and `&.`, alone, with a list in
//! parentheses, and with a block in braces or behind `do`; the same with a list without parentheses, as commands, also
//! behind `!`, and postfixes behind the block of a command; `.()` and `&.()`; indices, with a list in brackets; statements
//! in parentheses; lists of values, with `*`, keys, `**` and what follows `&`, and of a command; arrays and hashes; tokens
//! outside the language that are primaries or pieces, and names that aren't of ASCII, also behind a value; `return`,
//! `break`, `next` and `yield`, with a list and alone; `retry`, `redo`; lambdas; `alias`, `undef`, `BEGIN` and `END`; `if`
//! with `elsif`, `unless`, `while`, `until`, `for`, `case` with `when` and `in`, `begin` with `rescue`, `else` and
//! `ensure`; parameters of methods and of blocks; `def`, plain, on an object and without an end; `class`, `class <<` and
//! `module`.
//!
//! What the rules ask of the parser's tables has words of its own in `specs::Arguments` ([`tables_agree`]).
//!
//! All that is derived the definitions of the parser read ([`derived_is_read`]), so [`at_most_one`] node is derived. An
//! expression that they read is derived ([`expressions_are_derived`]); `specs::Expressions` says which nodes are those of
//! expressions, strings and symbols with what is put in them, `%w` and `%i`, arrays and hashes, and an assignment of several
//! values among these. Calls are not, since the node of a command is that of a call with parentheses too; nor is a node whose
//! branch of a conditional, or what stands before a modifier with a test, is in parentheses: a form with sections has the
//! same.
//!
//! Going through the definitions branch by branch found one reading of a part that is not derived, and no other: a command
//! directly before `{`, behind which no program goes on. That no program has it, and that there is no other, is by reading;
//! no theorem says it.
#![tactic(auto)]

ghost use Rattle.std.specs.Prelude.{◌≡◌, ◌≤◌, ℕ, List, [], length, true, Ok};
ghost use Rattle.parser_tree.specs.Node.{Name, Node};
ghost use Rattle.parser_ahead.specs.Names.{locals_from};
ghost use Rattle.parser_tokens.specs.Tokens.{first};
ghost use Rattle.parser_ahead.specs.declared.primary.DoOwner.{DoOwner};
ghost use Rattle.parser_ahead.specs.declared.primary.Place.TheVariants as places;
ghost use Rattle.parser_forms.specs.Reading.{Names, Tokens};
ghost use Rattle.parser_operands.specs.Operators.{operation};
ghost use Rattle.parser_phrases.specs.Phrases.{argument};
ghost use Rattle.parser_statements.specs.Statements.{statements};
ghost use Rattle.rb_parser.specs.Levels.{levels};
ghost use Rattle.rb_parser.specs.Program.{is_finish, program};
ghost use Rattle.parser_tokens.specs.Starts.{begins_argument, makes_call};
ghost use Rattle.parser_nodes.specs.Calls.{OperandNode, is_target};
ghost use Rattle.parser_laws.specs.Arguments.{BeginsArgument, IsTarget, MakesCall};
ghost use Rattle.parser_laws.specs.Rules.{Argument, Operation, Statements, is_inner};
ghost use Rattle.parser_laws.specs.Derives.{Derives};
ghost use Rattle.parser_laws.specs.Example.{known, method_tokens, method_tree, tokens, tree};
ghost use Rattle.parser_laws.specs.ListExample as lists;
ghost use Rattle.parser_laws.specs.CommandExample as commands;
ghost use Rattle.parser_laws.specs.ChainExample as chains;
ghost use Rattle.parser_laws.specs.JumpExample as jumps;
ghost use Rattle.parser_laws.specs.Expressions.{is_expression};

/// What the definitions of the parser read as an expression is derived: a value, an assignment among them, operators with
/// their operands, statements, and a whole program, behind which no token stands.
pub fn expressions_are_derived()
    ensures argument { (d : ℕ) (names known : Names) (ts rest : Tokens) (owner : DoOwner) (n : Node)
        → argument (levels d) names ts owner ≡ Ok (n, known, rest) → is_expression n ≡ true
        → Derives (Argument places.Argument owner n) names ts known rest }
    ensures operation { (d : ℕ) (names known : Names) (ts rest : Tokens) (loosest : ℕ) (owner : DoOwner) (n : Node)
        → is_inner loosest ≡ true → operation (levels d) names ts loosest owner ≡ Ok (n, known, rest)
        → is_expression n ≡ true → Derives (Operation places.Argument loosest owner n) names ts known rest }
    ensures statements { (d : ℕ) (names known : Names) (ts rest : Tokens) (n : Node)
        → statements (levels d) names ts ≡ Ok (n, known, rest) → is_expression n ≡ true
        → Derives (Statements n) names ts known rest }
    ensures program { (ts : Tokens) (xs : List Name) (n : Node) → program ts ≡ Ok (xs, n) → is_expression n ≡ true
        → (known : Names) × (rest : Tokens) × Derives (Statements n) [] ts known rest × (is_finish (first rest) ≡ true)
        × (xs ≡ locals_from 0 known) }
{}

/// What is derived the definitions of the parser read, with as many levels as there are tokens.
pub fn derived_is_read()
    ensures argument { (d : ℕ) (names known : Names) (ts rest : Tokens) (owner : DoOwner) (n : Node)
        → Derives (Argument places.Argument owner n) names ts known rest → length ts ≤ d
        → argument (levels d) names ts owner ≡ Ok (n, known, rest) }
    ensures operation { (d : ℕ) (names known : Names) (ts rest : Tokens) (loosest : ℕ) (owner : DoOwner) (n : Node)
        → is_inner loosest ≡ true → Derives (Operation places.Argument loosest owner n) names ts known rest
        → length ts ≤ d → operation (levels d) names ts loosest owner ≡ Ok (n, known, rest) }
    ensures statements { (d : ℕ) (names known : Names) (ts rest : Tokens) (n : Node)
        → Derives (Statements n) names ts known rest → length ts ≤ d
        → statements (levels d) names ts ≡ Ok (n, known, rest) }
    ensures program { (ts : Tokens) (n : Node) (known : Names) (rest : Tokens) → Derives (Statements n) [] ts known rest
        → is_finish (first rest) ≡ true → program ts ≡ Ok (locals_from 0 known, n) }
{}

/// At most one node is derived, with the same tokens left and the same names known.
pub fn at_most_one()
    ensures argument { (names known later : Names) (ts rest more : Tokens) (owner : DoOwner) (n m : Node)
        → Derives (Argument places.Argument owner n) names ts known rest
        → Derives (Argument places.Argument owner m) names ts later more → (n ≡ m) × (known ≡ later) × (rest ≡ more) }
    ensures statements { (names known later : Names) (ts rest more : Tokens) (n m : Node)
        → Derives (Statements n) names ts known rest → Derives (Statements m) names ts later more → (n ≡ m)
        × (known ≡ later) × (rest ≡ more) }
{}

/// What begins an argument behind a name, what makes a call of it and what may stand before an assignment: the rules ask it
/// of the tables of the parser, which answer as the grammar says in `specs::Arguments`.
pub fn tables_agree()
    ensures argument { (ts : Tokens) → (begins_argument ts ≡ true → BeginsArgument ts)
        × (BeginsArgument ts → begins_argument ts ≡ true) }
    ensures call { (ts : Tokens) → (makes_call ts ≡ true → MakesCall ts) × (MakesCall ts → makes_call ts ≡ true) }
    ensures target { (o : OperandNode) → (is_target o ≡ true → IsTarget o) × (IsTarget o → is_target o ≡ true) }
{}

/// The tokens of `x = 1` are derived as an assignment, behind which `x` is known as a local, and those of
/// `def f(a) if a then end end` as a method, behind which `a` isn't, those of `a, *b = ["x", 1]` as one to several
/// targets, those of `f 1 do |x| x end` as a command with a block, those of `!a&.b = f 1 do end.c` as the negated assignment
/// of a command that a postfix follows, and those of `!yield[0]` as the negated element of what a `yield` alone gives.
pub fn a_text_is_derived()
    ensures assignment { Derives (Statements tree) [] tokens known [] }
    ensures method { Derives (Statements method_tree) [] method_tokens [] [] }
    ensures several { Derives (Statements lists.tree) [] lists.tokens lists.known [] }
    ensures command { Derives (Statements commands.tree) [] commands.tokens [] [] }
    ensures chain { Derives (Statements chains.tree) [] chains.tokens [] [] }
    ensures jump { Derives (Statements jumps.tree) [] jumps.tokens [] [] }
{}
