//! Core forms.
ghost use Rattle.std.specs.Prelude.{◌≡◌, IfOk};

use crate::local::{Local, Parameters};
use rb_base::Bytes;
use rb_syntax::{Branch, DefinedKind, Item, Pair};
use std::alloc::{AllocError, Global};

/// What a call is sent to.
#[derive(Drop)]
pub enum Receiver<T> {
    To(T),
    /// A call on self with arguments or parentheses.
    OnSelf,
    /// A name alone.
    Bare,
}

/// A rescue clause. No classes stand for StandardError; `target` assigns the exception.
#[derive(Drop)]
pub struct Clause<T> {
    pub classes: Vec<T>,
    pub target: Option<T>,
    pub body: T,
}

/// A body with rescue clauses, a part for where nothing was raised, and an ensure part.
#[derive(Drop)]
pub struct BeginForm<T> {
    pub body: T,
    pub clauses: Vec<Clause<T>>,
    pub otherwise: Option<T>,
    pub ensure: Option<T>,
}

/// What stands in a function, a class, a module or the main program: its parameters, its locals besides them, and its
/// form. Only functions have parameters.
#[derive(Drop)]
pub struct Body<T> {
    pub parameters: Parameters,
    pub locals: Vec<Local>,
    pub form: T,
}

/// A core form.
pub type Core = Box<Term>;

/// The core of a whole source: the body of its main program.
pub type Program = Body<Core>;

/// What a core form is. What few forms have stands after a pointer, so that a form takes at most 80 bytes.
pub enum Term {
    Nil,
    True,
    False,
    SelfRef,
    Int(i64),
    Str(Bytes),
    Sym(Bytes),
    Local(Local),
    /// A parameter of the method around the text, whatever the blocks between name theirs.
    Own(Local),
    /// The exception of the rescue clause whose target is assigned.
    Exception,
    SetLocal(Local, Core),
    Ivar(Bytes),
    SetIvar(Bytes, Core),
    Gvar(Bytes),
    SetGvar(Bytes, Core),
    Const(Bytes),
    TopConst(Bytes),
    InConst(Core, Bytes),
    SetConst(Bytes, Core),
    /// The scope, the name and the value.
    SetInConst(Core, Bytes, Core),
    Array(Vec<Item<Core>>),
    Hash(Vec<Pair<Core>>),
    Range {
        from: Core,
        to: Core,
        exclusive: bool,
    },
    Text(Vec<Core>),
    Intern(Core),
    Seq(Vec<Core>),
    /// Branches, and the form that is done where no test is true.
    Cond(Vec<Branch<Core>>, Core),
    And(Core, Core),
    Or(Core, Core),
    While {
        body_first: bool,
        test: Core,
        body: Core,
    },
    /// A call without a block.
    Call {
        receiver: Receiver<Core>,
        name: Bytes,
        items: Vec<Item<Core>>,
    },
    /// A call with a block, or with what follows `&`.
    BlockCall {
        receiver: Receiver<Core>,
        name: Bytes,
        items: Vec<Item<Core>>,
        block: Core,
    },
    Yield(Vec<Item<Core>>),
    Super(Vec<Item<Core>>, Option<Core>),
    Fn(Box<Body<Core>>),
    Lambda(Box<Body<Core>>),
    Begin(Box<BeginForm<Core>>),
    Return(Core),
    Break(Core),
    Next(Core),
    Retry,
    Def(Bytes, Box<Body<Core>>),
    DefOn(Core, Bytes, Box<Body<Core>>),
    Class {
        scope: Option<Core>,
        name: Bytes,
        parent: Option<Core>,
        body: Box<Body<Core>>,
    },
    Module {
        scope: Option<Core>,
        name: Bytes,
        body: Box<Body<Core>>,
    },
    SingletonClass(Core, Box<Body<Core>>),
    /// The new name, and the old one.
    Alias(Bytes, Bytes),
    Undef(Bytes),
    Defined(DefinedKind, Bytes, Option<Core>),
    /// Element k of an Array, from the end where k is negative.
    Item(Core, i32),
    /// The new Array of the elements from `from` up to the last `post`.
    Rest {
        of: Core,
        from: u8,
        post: u8,
    },
    /// The new Array of the last `count` elements, but of none before `from`.
    Tail {
        of: Core,
        from: u8,
        count: u8,
    },
}

const _: () = prove!(size_of::<Term>() <= 80);

impl Term {
    /// The core of this form.
    pub fn into_core(self, alloc: Global) -> Result<Core, AllocError>
        ensures { IfOk result (λ c. c.value ≡ self) }
    {
        Ok(Box::new(alloc, self)?)
    }
}

// Written out, so that letting go of a core is one call wherever it is done.
impl Drop for Term {
    fn drop(self) {
        match self {
            Term::Nil => {}
            Term::True => {}
            Term::False => {}
            Term::SelfRef => {}
            Term::Int(_a) => {}
            Term::Str(_a) => {}
            Term::Sym(_a) => {}
            Term::Local(_a) => {}
            Term::Own(_a) => {}
            Term::Exception => {}
            Term::SetLocal(_a, _b) => {}
            Term::Ivar(_a) => {}
            Term::SetIvar(_a, _b) => {}
            Term::Gvar(_a) => {}
            Term::SetGvar(_a, _b) => {}
            Term::Const(_a) => {}
            Term::TopConst(_a) => {}
            Term::InConst(_a, _b) => {}
            Term::SetConst(_a, _b) => {}
            Term::SetInConst(_a, _b, _c) => {}
            Term::Array(_a) => {}
            Term::Hash(_a) => {}
            Term::Range {
                from: _from,
                to: _to,
                exclusive: _exclusive,
            } => {}
            Term::Text(_a) => {}
            Term::Intern(_a) => {}
            Term::Seq(_a) => {}
            Term::Cond(_a, _b) => {}
            Term::And(_a, _b) => {}
            Term::Or(_a, _b) => {}
            Term::While {
                body_first: _body_first,
                test: _test,
                body: _body,
            } => {}
            Term::Call {
                receiver: _receiver,
                name: _name,
                items: _items,
            } => {}
            Term::BlockCall {
                receiver: _receiver,
                name: _name,
                items: _items,
                block: _block,
            } => {}
            Term::Yield(_a) => {}
            Term::Super(_a, _b) => {}
            Term::Fn(_a) => {}
            Term::Lambda(_a) => {}
            Term::Begin(_a) => {}
            Term::Return(_a) => {}
            Term::Break(_a) => {}
            Term::Next(_a) => {}
            Term::Retry => {}
            Term::Def(_a, _b) => {}
            Term::DefOn(_a, _b, _c) => {}
            Term::Class {
                scope: _scope,
                name: _name,
                parent: _parent,
                body: _body,
            } => {}
            Term::Module {
                scope: _scope,
                name: _name,
                body: _body,
            } => {}
            Term::SingletonClass(_a, _b) => {}
            Term::Alias(_a, _b) => {}
            Term::Undef(_a) => {}
            Term::Defined(_a, _b, _c) => {}
            Term::Item(_a, _b) => {}
            Term::Rest {
                of: _of,
                from: _from,
                post: _post,
            } => {}
            Term::Tail {
                of: _of,
                from: _from,
                count: _count,
            } => {}
        }
    }
}
