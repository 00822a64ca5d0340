//! What an object holds, in the least room.
ghost use Rattle.std.specs.Prelude.{◌≡◌, [], None, Some, true, false, OnOk, OnErr};
ghost use Rattle.rb_value.specs.Held.{kind_of, singleton_of, variables_of, is_rich};
ghost use Rattle.rb_value.specs.KindRef as refs;
ghost use Rattle.rb_value.specs.Contents.{elements_in, bytes_in};
ghost use Rattle.rb_value.specs.Sort.{sort_of};
ghost use Rattle.rb_value.specs.Items as lists;
ghost use Rattle.rb_value.specs.Variables.{with_variable};
ghost use Rattle.rb_value.specs.declared.kind.Kind.TheVariants as kinds;

use crate::boxed::Boxed;
use crate::hash::HashContents;
use crate::items::{Form, Items};
use crate::kind::{ClassContents, EnumeratorContents, Kind, KindRef, RangeContents, Sort};
use crate::pair::Pair;
use crate::procs::ProcContents;
use crate::value::{ObjId, SymId, Value};
use crate::variables::Variables;
use list_queue::Queue;
use small_bytes::SmallBytes;
use std::alloc::{AllocError, Global};
use std::{mem, slice};

/// What few objects have, beside what they hold.
#[derive(Drop)]
pub(crate) struct Rich {
    pub(crate) singleton: Option<ObjId>,
    pub(crate) variables: Variables,
    pub(crate) kind: Kind,
}

/// What an object holds, with its variables and its singleton class. A short String and one or two elements of an Array
/// stand within. Variables beside other contents, and a singleton class, stand apart together with these.
#[derive(Drop)]
pub(crate) enum Held {
    Plain,
    Varied(Variables),
    Class(Boxed<ClassContents>),
    String(SmallBytes),
    Empty,
    One(Value),
    Two(Pair),
    Array(Queue<Value>),
    Hash(Boxed<HashContents>),
    Range(RangeContents),
    Proc(Boxed<ProcContents>),
    CoreProc { row: u16, kept: Value },
    Fiber { block: ObjId, ended: bool },
    Exception { message: Value, detail: Value },
    Enumerator(Boxed<EnumeratorContents>),
    Yielder { block: ObjId },
    Rich(Boxed<Rich>),
}

/// The elements of an Array.
pub(crate) fn held_items(form: Form) -> Held
    ensures kind { kind_of result ≡ kinds.Array (lists.seen form) }
    ensures singleton { singleton_of result ≡ None }
    ensures variables { variables_of result ≡ [] }
    ensures bare { is_rich result ≡ false }
{
    match form {
        Form::Empty => Held::Empty,
        Form::One(value) => Held::One(value),
        Form::Two(pair) => Held::Two(pair),
        Form::Apart(queue) => Held::Array(queue),
    }
}

/// Puts what an object holds into new parts.
fn fill(parts: &mut Rich, held: Held)
    requires bare { is_rich held ≡ false }
    requires alone { parts.old.singleton ≡ None }
    requires unnamed { parts.old.variables ≡ [] }
    requires plain { parts.old.kind ≡ kinds.Plain }
    ensures kind { parts.new.kind ≡ kind_of held }
    ensures singleton { parts.new.singleton ≡ singleton_of held }
    ensures variables { parts.new.variables ≡ variables_of held }
{
    match held {
        Held::Varied(variables) => parts.variables = variables,
        bare => parts.kind = bare.into_kind(),
    }
}

impl Held {
    /// What an object holds that has no variables and no singleton class. It takes no memory.
    pub(crate) fn of(kind: Kind) -> Held
        ensures kind { kind_of result ≡ kind }
        ensures singleton { singleton_of result ≡ None }
        ensures variables { variables_of result ≡ [] }
    {
        match kind {
            Kind::Plain => Held::Plain,
            Kind::Class(contents) => Held::Class(contents),
            Kind::String(bytes) => Held::String(bytes),
            Kind::Array(items) => held_items(items.into_form()),
            Kind::Hash(contents) => Held::Hash(contents),
            Kind::Range(contents) => Held::Range(contents),
            Kind::Proc(contents) => Held::Proc(contents),
            Kind::CoreProc { row, kept } => Held::CoreProc { row, kept },
            Kind::Fiber { block, ended } => Held::Fiber { block, ended },
            Kind::Exception { message, detail } => Held::Exception { message, detail },
            Kind::Enumerator(contents) => Held::Enumerator(contents),
            Kind::Yielder { block } => Held::Yielder { block },
        }
    }

    /// What it holds, without its variables and its singleton class. It takes no memory.
    fn into_kind(self) -> Kind
        ensures { result ≡ kind_of self }
    {
        match self {
            Held::Plain => Kind::Plain,
            Held::Varied(_) => Kind::Plain,
            Held::Class(contents) => Kind::Class(contents),
            Held::String(bytes) => Kind::String(bytes),
            Held::Empty => Kind::Array(Items::of(Form::Empty)),
            Held::One(value) => Kind::Array(Items::of(Form::One(value))),
            Held::Two(pair) => Kind::Array(Items::of(Form::Two(pair))),
            Held::Array(queue) => Kind::Array(Items::of(Form::Apart(queue))),
            Held::Hash(contents) => Kind::Hash(contents),
            Held::Range(contents) => Kind::Range(contents),
            Held::Proc(contents) => Kind::Proc(contents),
            Held::CoreProc { row, kept } => Kind::CoreProc { row, kept },
            Held::Fiber { block, ended } => Kind::Fiber { block, ended },
            Held::Exception { message, detail } => Kind::Exception { message, detail },
            Held::Enumerator(contents) => Kind::Enumerator(contents),
            Held::Yielder { block } => Kind::Yielder { block },
            Held::Rich(mut rich) => mem::replace(&mut rich.get_mut().kind, Kind::Plain),
        }
    }

    /// The same, to be read.
    #[inline(always)]
    pub(crate) fn as_ref(&self) -> KindRef<'_>
        ensures { refs.seen result ≡ kind_of self.now }
    {
        match self {
            Held::Plain => KindRef::Plain,
            Held::Varied(_) => KindRef::Plain,
            Held::Class(contents) => KindRef::Class(contents),
            Held::String(bytes) => KindRef::String(bytes.as_slice()),
            Held::Empty => KindRef::Array(&[]),
            Held::One(value) => KindRef::Array(slice::from_ref(value)),
            Held::Two(pair) => KindRef::Array(pair.as_slice()),
            Held::Array(queue) => KindRef::Array(queue.as_slice()),
            Held::Hash(contents) => KindRef::Hash(contents),
            Held::Range(contents) => KindRef::Range(*contents),
            Held::Proc(contents) => KindRef::Proc(contents),
            Held::CoreProc { row, kept } => KindRef::CoreProc {
                row: *row,
                kept: *kept,
            },
            Held::Fiber { block, ended } => KindRef::Fiber {
                block: *block,
                ended: *ended,
            },
            Held::Exception { message, detail } => KindRef::Exception {
                message: *message,
                detail: *detail,
            },
            Held::Enumerator(contents) => KindRef::Enumerator(contents),
            Held::Yielder { block } => KindRef::Yielder { block: *block },
            Held::Rich(rich) => rich.get().kind.as_ref(),
        }
    }

    /// What it is.
    #[inline(always)]
    pub(crate) fn sort(&self) -> Sort
        ensures { result ≡ sort_of (kind_of self.now) }
    {
        match self {
            Held::Plain | Held::Varied(_) => Sort::Plain,
            Held::Class(contents) => contents.get().form.sort(),
            Held::String(_) => Sort::String,
            Held::Empty | Held::One(_) | Held::Two(_) | Held::Array(_) => Sort::Array,
            Held::Hash(_) => Sort::Hash,
            Held::Range(_) => Sort::Range,
            Held::Proc(_) => Sort::Proc,
            Held::CoreProc { row: _, kept: _ } => Sort::Proc,
            Held::Fiber { block: _, ended: _ } => Sort::Fiber,
            Held::Exception {
                message: _,
                detail: _,
            } => Sort::Exception,
            Held::Enumerator(_) => Sort::Enumerator,
            Held::Yielder { block: _ } => Sort::Yielder,
            Held::Rich(rich) => rich.get().kind.sort(),
        }
    }

    /// The elements of an Array; none of any other object.
    #[inline(always)]
    pub(crate) fn items(&self) -> &[Value]
        ensures { result.now ≡ elements_in (kind_of self.now) }
    {
        match self {
            Held::Array(queue) => queue.as_slice(),
            Held::One(value) => slice::from_ref(value),
            Held::Two(pair) => pair.as_slice(),
            Held::Rich(rich) => match &rich.get().kind {
                Kind::Array(items) => items.as_slice(),
                _ => &[],
            },
            _ => &[],
        }
    }

    /// The bytes of a String; none of any other object.
    #[inline(always)]
    pub(crate) fn text(&self) -> &[u8]
        ensures { result.now ≡ bytes_in (kind_of self.now) }
    {
        match self {
            Held::String(bytes) => bytes.as_slice(),
            Held::Rich(rich) => match &rich.get().kind {
                Kind::String(bytes) => bytes.as_slice(),
                _ => &[],
            },
            _ => &[],
        }
    }

    /// Whether what it holds stands apart.
    fn is_apart(&self) -> bool
        ensures { result ≡ is_rich self.now }
    {
        matches!(self, Held::Rich(_))
    }

    /// Puts what it holds apart, where a singleton class and variables stand beside it. Where memory runs out all is as
    /// before.
    fn set_apart(&mut self, alloc: Global) -> Result<(), AllocError>
        ensures kind { kind_of self.new ≡ kind_of self.old }
        ensures singleton { singleton_of self.new ≡ singleton_of self.old }
        ensures variables { variables_of self.new ≡ variables_of self.old }
        ensures rich { OnOk result (is_rich self.new ≡ true) }
    {
        if self.is_apart() {
            return Ok(());
        }
        let parts = Rich {
            singleton: None,
            variables: Variables::new(alloc),
            kind: Kind::Plain,
        };
        let mut rich = Boxed::new(alloc, parts)?;
        fill(rich.get_mut(), mem::replace(self, Held::Plain));
        *self = Held::Rich(rich);
        Ok(())
    }

    /// Sets a variable: one that was set before keeps its place. Where memory runs out all is as before.
    pub(crate) fn set_variable(
        &mut self,
        alloc: Global,
        name: SymId,
        value: Value,
    ) -> Result<(), AllocError>
        ensures kind { kind_of self.new ≡ kind_of self.old }
        ensures singleton { singleton_of self.new ≡ singleton_of self.old }
        ensures ok { OnOk result (variables_of self.new ≡ with_variable (variables_of self.old) name value) }
        ensures err { OnErr result (variables_of self.new ≡ variables_of self.old) }
    {
        match self {
            Held::Varied(variables) => variables.set(name, value),
            Held::Plain => {
                let mut variables = Variables::new(alloc);
                variables.set(name, value)?;
                *self = Held::Varied(variables);
                Ok(())
            }
            _ => {
                self.set_apart(alloc)?;
                self.set_variable_apart(name, value)
            }
        }
    }

    /// Sets a variable where variables stand apart. Where memory runs out all is as before.
    fn set_variable_apart(&mut self, name: SymId, value: Value) -> Result<(), AllocError>
        requires { is_rich self.old ≡ true }
        ensures kind { kind_of self.new ≡ kind_of self.old }
        ensures singleton { singleton_of self.new ≡ singleton_of self.old }
        ensures ok { OnOk result (variables_of self.new ≡ with_variable (variables_of self.old) name value) }
        ensures err { OnErr result (variables_of self.new ≡ variables_of self.old) }
    {
        match self {
            Held::Rich(rich) => rich.get_mut().variables.set(name, value),
            _ => unreachable!(),
        }
    }

    /// Sets the singleton class. Where memory runs out all is as before.
    pub(crate) fn set_singleton(
        &mut self,
        alloc: Global,
        singleton: ObjId,
    ) -> Result<(), AllocError>
        ensures kind { kind_of self.new ≡ kind_of self.old }
        ensures variables { variables_of self.new ≡ variables_of self.old }
        ensures ok { OnOk result (singleton_of self.new ≡ Some singleton) }
        ensures err { OnErr result (singleton_of self.new ≡ singleton_of self.old) }
    {
        self.set_apart(alloc)?;
        self.set_singleton_apart(singleton);
        Ok(())
    }

    /// Sets the singleton class where it stands apart.
    fn set_singleton_apart(&mut self, singleton: ObjId)
        requires { is_rich self.old ≡ true }
        ensures kind { kind_of self.new ≡ kind_of self.old }
        ensures variables { variables_of self.new ≡ variables_of self.old }
        ensures singleton { singleton_of self.new ≡ Some singleton }
    {
        match self {
            Held::Rich(rich) => rich.get_mut().singleton = Some(singleton),
            _ => unreachable!(),
        }
    }
}
