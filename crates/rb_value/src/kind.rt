//! What objects hold.
ghost use Rattle.std.specs.Prelude.{◌≡◌};
ghost use Rattle.rb_value.specs.KindRef.{seen};
ghost use Rattle.rb_value.specs.Sort.{sort_of, sort_of_form};

use crate::boxed::Boxed;
use crate::hash::HashContents;
use crate::items::Items;
use crate::method::Visibility;
use crate::method_table::MethodTable;
use crate::procs::ProcContents;
use crate::value::{ObjId, SymId, Value};
use pair_table::PairTable;
use rb_base::List;
use small_bytes::SmallBytes;

/// What a class object is: a class, the singleton class of an object, or a module.
#[derive(Clone, Copy, Debug, PartialEq, Eq)]
pub enum ClassForm {
    Class,
    Singleton,
    Module,
}

/// The contents of a class or module (ISO/IEC 30170:2012, 13.1 to 13.4).
#[derive(Drop)]
pub struct ClassContents {
    pub form: ClassForm,
    /// None of an anonymous one and of a singleton class.
    pub name: Option<SymId>,
    /// None of a module, of Object and of a copy of Object.
    pub superclass: Option<ObjId>,
    /// The included modules, in the order in which look-up goes through them.
    pub included: List<ObjId>,
    /// Its constants by the numbers of their names, in the order in which the names came.
    pub constants: PairTable<u64, Value>,
    /// The visibility of the next method that is defined.
    pub visibility: Visibility,
    pub methods: MethodTable,
}

/// The ends of a Range: Integers, or the bytes of Strings of one byte.
#[derive(Clone, Copy, Debug, PartialEq, Eq)]
pub enum RangeEnds {
    Integers { first: i64, last: i64 },
    Bytes { first: u8, last: u8 },
}

/// The contents of a Range. Where it is exclusive, its last end isn't in it.
#[derive(Clone, Copy, Debug, PartialEq, Eq)]
pub struct RangeContents {
    pub ends: RangeEnds,
    pub exclusive: bool,
}

/// Where the items of an Enumerator come from: a call with a block, or a Proc that is called with a Yielder.
#[derive(Debug, Drop)]
pub enum EnumeratorSource {
    Call {
        receiver: Value,
        name: SymId,
        args: List<Value>,
    },
    Block(ObjId),
}

/// The contents of an Enumerator: its source; the fiber that gives the items, where one has begun; the Array of the
/// items that came since the making or the last `rewind`; how many of them were given; and the result, where the
/// end was reached.
#[derive(Debug, Drop)]
pub struct EnumeratorContents {
    pub source: EnumeratorSource,
    pub fiber: Option<ObjId>,
    pub items: ObjId,
    pub position: u64,
    pub result: Option<Value>,
}

/// What an object is made to hold, by what it is. Contents that are long stand apart.
#[derive(Drop)]
pub enum Kind {
    /// Nothing but its instance variables.
    Plain,
    Class(Boxed<ClassContents>),
    String(SmallBytes),
    Array(Items),
    Hash(Boxed<HashContents>),
    Range(RangeContents),
    Proc(Boxed<ProcContents>),
    /// A Proc whose call enters the row, with the kept value as the receiver.
    CoreProc { row: u16, kept: Value },
    /// A fiber: the Proc that it runs, and whether it has ended.
    Fiber { block: ObjId, ended: bool },
    Exception { message: Value, detail: Value },
    Enumerator(Boxed<EnumeratorContents>),
    /// What the Proc of an Enumerator is called with: the Proc that takes each item.
    Yielder { block: ObjId },
}

/// What an object holds, to be read, by what it is.
#[derive(Clone, Copy)]
pub enum KindRef<'a> {
    Plain,
    Class(&'a Boxed<ClassContents>),
    String(&'a [u8]),
    Array(&'a [Value]),
    Hash(&'a Boxed<HashContents>),
    Range(RangeContents),
    Proc(&'a Boxed<ProcContents>),
    CoreProc { row: u16, kept: Value },
    Fiber { block: ObjId, ended: bool },
    Exception { message: Value, detail: Value },
    Enumerator(&'a Boxed<EnumeratorContents>),
    Yielder { block: ObjId },
}

/// What an object is, without what it holds.
#[derive(Clone, Copy, Debug, PartialEq, Eq)]
pub enum Sort {
    Plain,
    Class,
    Singleton,
    Module,
    String,
    Array,
    Hash,
    Range,
    Proc,
    Fiber,
    Exception,
    Enumerator,
    Yielder,
}

impl ClassForm {
    /// The sort of a class object of this form.
    pub fn sort(self) -> Sort
        ensures { result ≡ sort_of_form self }
    {
        match self {
            ClassForm::Class => Sort::Class,
            ClassForm::Singleton => Sort::Singleton,
            ClassForm::Module => Sort::Module,
        }
    }
}

impl Kind {
    /// The sort of an object of this kind.
    pub fn sort(&self) -> Sort
        ensures { result ≡ sort_of self.now }
    {
        match self {
            Kind::Plain => Sort::Plain,
            Kind::Class(contents) => contents.get().form.sort(),
            Kind::String(_) => Sort::String,
            Kind::Array(_) => Sort::Array,
            Kind::Hash(_) => Sort::Hash,
            Kind::Range(_) => Sort::Range,
            Kind::Proc(_) => Sort::Proc,
            Kind::CoreProc { row: _, kept: _ } => Sort::Proc,
            Kind::Fiber { block: _, ended: _ } => Sort::Fiber,
            Kind::Exception {
                message: _,
                detail: _,
            } => Sort::Exception,
            Kind::Enumerator(_) => Sort::Enumerator,
            Kind::Yielder { block: _ } => Sort::Yielder,
        }
    }

    /// The same, to be read.
    pub fn as_ref(&self) -> KindRef<'_>
        ensures { seen result ≡ self.now }
    {
        match self {
            Kind::Plain => KindRef::Plain,
            Kind::Class(contents) => KindRef::Class(contents),
            Kind::String(bytes) => KindRef::String(bytes.as_slice()),
            Kind::Array(items) => KindRef::Array(items.as_slice()),
            Kind::Hash(contents) => KindRef::Hash(contents),
            Kind::Range(contents) => KindRef::Range(*contents),
            Kind::Proc(contents) => KindRef::Proc(contents),
            Kind::CoreProc { row, kept } => KindRef::CoreProc {
                row: *row,
                kept: *kept,
            },
            Kind::Fiber { block, ended } => KindRef::Fiber {
                block: *block,
                ended: *ended,
            },
            Kind::Exception { message, detail } => KindRef::Exception {
                message: *message,
                detail: *detail,
            },
            Kind::Enumerator(contents) => KindRef::Enumerator(contents),
            Kind::Yielder { block } => KindRef::Yielder { block: *block },
        }
    }
}
