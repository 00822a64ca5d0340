//! New classes and modules, and new objects of a class.
ghost use Rattle.std.specs.Prelude.{◌≡◌};
ghost use Rattle.rows_object.specs.Follows.{Follows};
ghost use Rattle.rows_class.specs.Making as defined;

use core_calls::heap::{Blank, Given, Heap};
use def_core::Cause;
use rb_value::{CoreClass, ObjId, Sort, Value};
use std::alloc::AllocError;

/// The classes of whose values the language makes all itself, so that there is no `new` of them.
const WITHOUT_NEW: [CoreClass; 5] = [
    CoreClass::Numeric,
    CoreClass::NilClass,
    CoreClass::TrueClass,
    CoreClass::FalseClass,
    CoreClass::Symbol,
];

/// The classes whose objects are made by a `new` of their own.
const WITHOUT_ALLOCATE: [CoreClass; 6] = [
    CoreClass::Module,
    CoreClass::Proc,
    CoreClass::Fiber,
    CoreClass::Range,
    CoreClass::Enumerator,
    CoreClass::Yielder,
];

/// Whether a class is one of some core classes or below one.
fn is_below_any(heap: &Heap, class: ObjId, among: &[CoreClass]) -> bool
    ensures { result ≡ defined.is_below_any heap.now.store class among.now }
{
    'classes: for core in among {
        if heap.is_below(class, *core) {
            return true;
        }
    }
    false
}

/// What a new object of a class holds; none where the class has no objects that a program makes without a value.
pub fn blank_of(heap: &Heap, class: ObjId) -> Option<Blank>
    ensures { result ≡ defined.blank_of heap.now.store class }
{
    if heap.is_below(class, CoreClass::Exception) {
        return Some(Blank::Exception);
    }
    if heap.is_below(class, CoreClass::Array) {
        return Some(Blank::Array);
    }
    if heap.is_below(class, CoreClass::String) {
        return Some(Blank::String);
    }
    if heap.is_below(class, CoreClass::Hash) {
        return Some(Blank::Hash);
    }
    if is_below_any(heap, class, &WITHOUT_NEW) || is_below_any(heap, class, &WITHOUT_ALLOCATE) {
        return None;
    }
    Some(Blank::Plain)
}

/// `allocate`: an object of a class with nothing in it.
pub(crate) fn allocate(heap: &mut Heap, class: ObjId) -> Result<Given, AllocError>
    ensures { Follows heap.old heap.new result (defined.allocate class) }
{
    match blank_of(heap, class) {
        Some(blank) => Ok(Given::Gives(heap.make_blank(class, blank)?)),
        None => {
            let name = heap.intern(b"allocate")?;
            let of = heap.plain_class_of(Value::Obj(class));
            heap.fail(Cause::UndefinedMethod { name, class: of })
        }
    }
}

/// The class that a value is, and no singleton class.
fn a_class(heap: &Heap, value: Value) -> Option<ObjId>
    ensures { result ≡ defined.class_in heap.now.store value }
{
    match heap.sort(value) {
        Some(Sort::Class) => heap.space_in(value),
        _ => None,
    }
}

/// `new` of Class: a class without a name under another, and under Object where none is given.
pub(crate) fn new_class(heap: &mut Heap, args: &[Value]) -> Result<Given, AllocError>
    ensures { Follows heap.old heap.new result (defined.new_class args.now) }
{
    let superclass = match args.first() {
        Some(value) => a_class(heap, *value),
        None => Some(heap.class_object(CoreClass::Object)),
    };
    match superclass {
        Some(superclass) => Ok(Given::Gives(Value::Obj(heap.make_class(superclass)?))),
        None => heap.fail(Cause::SuperclassNotClass),
    }
}

/// `new` of Module: a module without a name.
pub(crate) fn new_module(heap: &mut Heap) -> Result<Given, AllocError>
    ensures { Follows heap.old heap.new result defined.new_module }
{
    Ok(Given::Gives(Value::Obj(heap.make_module()?)))
}
