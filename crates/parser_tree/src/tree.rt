ghost use Rattle.std.specs.Prelude.{◌≡◌, IfOk, IfSome, is_some};
ghost use Rattle.std.specs.Option.{option_map};

use crate::operator::{AssignmentOperator, BinaryOperator, UnaryOperator};
use rb_base::{Bytes, List};
use rb_syntax::{Branch, Item, Outside, Pair};
use std::alloc::{AllocError, Global};

/// A piece of a literal: bytes as they stand, or statements whose value is put in (ISO/IEC 30170:2012, 8.7.6.3).
#[derive(Drop)]
pub enum Piece<T> {
    Text(Bytes),
    Interpolation(T),
}

/// The arguments of a call: items, the pairs of a list being one Hash among them, and what follows `&`.
#[derive(Drop)]
pub struct Arguments<T> {
    pub items: Vec<Item<T>>,
    pub block: Option<T>,
}

/// A required parameter: a name, or a pattern, which is a [`TreeForm::Targets`] of names.
#[derive(Drop)]
pub enum Parameter<T> {
    Name(Bytes),
    Pattern(T),
}

/// An optional parameter and its default.
#[derive(Drop)]
pub struct OptionalParameter<T> {
    pub name: Bytes,
    pub value: T,
}

/// The parameter that takes what is left.
#[derive(Drop)]
pub enum RestParameter {
    Absent,
    Unnamed,
    Named(Bytes),
}

/// The parameters of a method, a block or a lambda, in order. `outside` has the parameters that are outside the
/// language.
#[derive(Drop)]
pub struct ParameterList<T> {
    pub required: Vec<Parameter<T>>,
    pub optional: Vec<OptionalParameter<T>>,
    pub rest: RestParameter,
    pub post: Vec<Parameter<T>>,
    pub block: Option<Bytes>,
    pub outside: Vec<T>,
}

/// The parameters and the body of a method, a block or a lambda. `locals` are the variables that its own text
/// begins, without the parameters, in the order of the text; `at` is the place of its opening word.
#[derive(Drop)]
pub struct Definition<T> {
    pub parameters: ParameterList<T>,
    pub locals: List<Bytes>,
    pub body: T,
    pub at: u32,
}

/// The body of the main program, a class or a module, which has no parameters. `locals` are the variables that its own
/// text begins, in the order of the text.
#[derive(Drop)]
pub struct PlainBody<T> {
    pub locals: List<Bytes>,
    pub body: T,
}

/// A rescue clause. No classes stand for StandardError; the exception is assigned to the target.
#[derive(Drop)]
pub struct RescueClause<T> {
    pub classes: Vec<T>,
    pub target: Option<T>,
    pub body: T,
}

/// Statements with rescue clauses, a part for where nothing was raised, and an ensure part.
#[derive(Drop)]
pub struct RescueBody<T> {
    pub body: T,
    pub clauses: Vec<RescueClause<T>>,
    pub otherwise: Option<T>,
    pub ensure: Option<T>,
}

/// A `when` clause.
#[derive(Drop)]
pub struct WhenClause<T> {
    pub tests: Vec<T>,
    pub body: T,
}

/// The targets of a multiple assignment: those before the star, the one with the star (`*` alone has a star
/// without a target), and those behind it.
#[derive(Drop)]
pub struct TargetList<T> {
    pub before: Vec<T>,
    pub star: bool,
    pub rest: Option<T>,
    pub after: Vec<T>,
}

/// Where the constant of a class or module stands: in the class around it, in Object (`::C`), or in a value.
#[derive(Drop)]
pub enum Scope<T> {
    Innermost,
    Top,
    In(T),
}

/// A tree of the grammar.
pub type Tree = Box<TreeForm>;

/// The tree of a whole source: the body of its main program.
pub type Source = PlainBody<Tree>;

/// What a tree of the grammar is, one variant for each rule. Places count the bytes of the text before the word that
/// they name. A target of an assignment is one of `Local`, `InstanceVariable`, `GlobalVariable`, `Constant`,
/// `ScopedConstant`, `Index`, `Targets`, `Outside`, and `Call` with a receiver and a name alone.
pub enum TreeForm {
    Nil,
    True,
    False,
    SelfReference,
    Integer(i64),
    /// A string of any spelling, neighbouring strings joined.
    Text(Vec<Piece<Tree>>),
    Symbol(Bytes),
    /// A symbol in quotes.
    SymbolText(Vec<Piece<Tree>>),
    /// `%w`
    Words(List<Bytes>),
    /// `%i`
    Symbols(List<Bytes>),
    Local(Bytes),
    /// With its `@`.
    InstanceVariable(Bytes),
    /// With its `$`.
    GlobalVariable(Bytes),
    Constant(Bytes),
    /// `::C`
    TopConstant(Bytes),
    /// `e::C`
    ScopedConstant(Tree, Bytes),
    Array(Vec<Item<Tree>>),
    Hash(Vec<Pair<Tree>>),
    /// A list of statements, and whatever stands in parentheses.
    Statements(Vec<Tree>),
    /// `!a`, `not a`
    Not(Tree),
    Unary(UnaryOperator, Tree),
    Operation(Tree, BinaryOperator, Tree),
    /// `a && b`, `a and b`
    And(Tree, Tree),
    /// `a || b`, `a or b`
    Or(Tree, Tree),
    /// `at` is the place of the dots.
    Range {
        from: Tree,
        to: Tree,
        exclusive: bool,
        at: u32,
    },
    /// `if` with `elsif`, the modifier, and `a ? b : c`.
    If {
        branches: Vec<Branch<Tree>>,
        otherwise: Option<Tree>,
    },
    Unless {
        test: Tree,
        body: Tree,
        otherwise: Option<Tree>,
    },
    /// `while` and `until`; the body of `begin .. end while` is done first.
    While {
        until: bool,
        body_first: bool,
        test: Tree,
        body: Tree,
    },
    For {
        targets: Vec<Tree>,
        items: Tree,
        body: Tree,
    },
    Case {
        subject: Option<Tree>,
        clauses: Vec<WhenClause<Tree>>,
        otherwise: Option<Tree>,
    },
    /// `begin .. end`, and a body with clauses.
    Begin(RescueBody<Tree>),
    /// `a rescue b`
    RescueModifier(Tree, Tree),
    /// No arguments stand for a name without parentheses and arguments.
    Call {
        receiver: Option<Tree>,
        name: Bytes,
        arguments: Option<Arguments<Tree>>,
        block: Option<Definition<Tree>>,
    },
    /// `a[i]`
    Index(Tree, Vec<Item<Tree>>),
    Super {
        arguments: Option<Arguments<Tree>>,
        block: Option<Definition<Tree>>,
        at: u32,
    },
    Yield {
        items: Vec<Item<Tree>>,
        at: u32,
    },
    Defined(Tree),
    /// `->(x) { }`
    Lambda(Definition<Tree>),
    Return {
        items: Vec<Item<Tree>>,
        at: u32,
    },
    Break {
        items: Vec<Item<Tree>>,
        at: u32,
    },
    Next {
        items: Vec<Item<Tree>>,
        at: u32,
    },
    Retry {
        at: u32,
    },
    /// A target and its value.
    Assign(Tree, Tree),
    /// `x += v` and its kin.
    OperatorAssign(Tree, AssignmentOperator, Tree),
    /// Several targets and one value; a list on the right is an Array.
    MultipleAssign(TargetList<Tree>, Tree),
    /// Targets in parentheses.
    Targets(TargetList<Tree>),
    Define {
        singleton: Option<Tree>,
        name: Bytes,
        definition: Definition<Tree>,
    },
    Class {
        scope: Scope<Tree>,
        name: Bytes,
        parent: Option<Tree>,
        body: PlainBody<Tree>,
    },
    /// `class << e`
    SingletonClass(Tree, PlainBody<Tree>),
    Module {
        scope: Scope<Tree>,
        name: Bytes,
        body: PlainBody<Tree>,
    },
    /// The new name, and the old one.
    Alias(Bytes, Bytes),
    Undef(List<Bytes>),
    /// A construct outside the language, at the place of the word that names it, with the trees of its parts.
    Outside {
        what: Outside,
        at: u32,
        parts: Vec<Tree>,
    },
}

impl TreeForm {
    /// The tree of this form.
    pub fn into_tree(self, alloc: Global) -> Result<Tree, AllocError>
        ensures { IfOk result (λ t. t.value ≡ self) }
    {
        Ok(Box::new(alloc, self)?)
    }
}

impl TreeForm {
    ghost use Rattle.parser_tree.specs.Parts.{class_path, is_group, path_node, targets_node};
    ghost use Rattle.parser_tree.specs.View.{form_view};

    /// The targets of a group of targets; none of another form.
    #[tactic(auto, using(crate::proofs::Views::views), unfolding(crate::specs::Parts::is_group))]
    pub fn into_targets(self) -> Option<TargetList<Tree>>
        ensures which { is_some result ≡ is_group (form_view self) }
        ensures group { IfSome result (λ list. targets_node list ≡ form_view self) }
    {
        match self {
            TreeForm::Targets(list) => Some(list),
            other => {
                drop(other);
                None
            }
        }
    }

    /// Where a class or module stands, and its name; none where this is no path of constants.
    #[tactic(auto, using(crate::proofs::Views::views), unfolding(crate::specs::Parts::class_path))]
    pub fn into_path(self) -> Option<(Scope<Tree>, Bytes)>
        ensures { option_map path_node result ≡ class_path (form_view self) }
    {
        match self {
            TreeForm::Constant(name) => Some((Scope::Innermost, name)),
            TreeForm::TopConstant(name) => Some((Scope::Top, name)),
            TreeForm::ScopedConstant(scope, name) => Some((Scope::In(scope), name)),
            other => {
                drop(other);
                None
            }
        }
    }
}

// Written out, so that letting go of a tree is one call wherever it is done.
impl Drop for TreeForm {
    fn drop(self) {
        match self {
            TreeForm::Nil => {}
            TreeForm::True => {}
            TreeForm::False => {}
            TreeForm::SelfReference => {}
            TreeForm::Integer(_a) => {}
            TreeForm::Text(_a) => {}
            TreeForm::Symbol(_a) => {}
            TreeForm::SymbolText(_a) => {}
            TreeForm::Words(_a) => {}
            TreeForm::Symbols(_a) => {}
            TreeForm::Local(_a) => {}
            TreeForm::InstanceVariable(_a) => {}
            TreeForm::GlobalVariable(_a) => {}
            TreeForm::Constant(_a) => {}
            TreeForm::TopConstant(_a) => {}
            TreeForm::ScopedConstant(_a, _b) => {}
            TreeForm::Array(_a) => {}
            TreeForm::Hash(_a) => {}
            TreeForm::Statements(_a) => {}
            TreeForm::Not(_a) => {}
            TreeForm::Unary(_a, _b) => {}
            TreeForm::Operation(_a, _b, _c) => {}
            TreeForm::And(_a, _b) => {}
            TreeForm::Or(_a, _b) => {}
            TreeForm::Range {
                from: _from,
                to: _to,
                exclusive: _exclusive,
                at: _at,
            } => {}
            TreeForm::If {
                branches: _branches,
                otherwise: _otherwise,
            } => {}
            TreeForm::Unless {
                test: _test,
                body: _body,
                otherwise: _otherwise,
            } => {}
            TreeForm::While {
                until: _until,
                body_first: _body_first,
                test: _test,
                body: _body,
            } => {}
            TreeForm::For {
                targets: _targets,
                items: _items,
                body: _body,
            } => {}
            TreeForm::Case {
                subject: _subject,
                clauses: _clauses,
                otherwise: _otherwise,
            } => {}
            TreeForm::Begin(_a) => {}
            TreeForm::RescueModifier(_a, _b) => {}
            TreeForm::Call {
                receiver: _receiver,
                name: _name,
                arguments: _arguments,
                block: _block,
            } => {}
            TreeForm::Index(_a, _b) => {}
            TreeForm::Super {
                arguments: _arguments,
                block: _block,
                at: _at,
            } => {}
            TreeForm::Yield {
                items: _items,
                at: _at,
            } => {}
            TreeForm::Defined(_a) => {}
            TreeForm::Lambda(_a) => {}
            TreeForm::Return {
                items: _items,
                at: _at,
            } => {}
            TreeForm::Break {
                items: _items,
                at: _at,
            } => {}
            TreeForm::Next {
                items: _items,
                at: _at,
            } => {}
            TreeForm::Retry { at: _at } => {}
            TreeForm::Assign(_a, _b) => {}
            TreeForm::OperatorAssign(_a, _b, _c) => {}
            TreeForm::MultipleAssign(_a, _b) => {}
            TreeForm::Targets(_a) => {}
            TreeForm::Define {
                singleton: _singleton,
                name: _name,
                definition: _definition,
            } => {}
            TreeForm::Class {
                scope: _scope,
                name: _name,
                parent: _parent,
                body: _body,
            } => {}
            TreeForm::SingletonClass(_a, _b) => {}
            TreeForm::Module {
                scope: _scope,
                name: _name,
                body: _body,
            } => {}
            TreeForm::Alias(_a, _b) => {}
            TreeForm::Undef(_a) => {}
            TreeForm::Outside {
                what: _what,
                at: _at,
                parts: _parts,
            } => {}
        }
    }
}
