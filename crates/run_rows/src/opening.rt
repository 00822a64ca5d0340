//! The heap in which a program starts.
ghost use Rattle.std.specs.Prelude.{◌≡◌, List, map, length, nat_eq, not, IfOk, OnOk};
ghost use Rattle.rb_value.specs.declared.value.Value.TheVariants.{Obj};
ghost use Rattle.run_rows.specs.Named as named;
ghost use Rattle.run_rows.specs.Opening as opening;
ghost use Rattle.run_rows.specs.Opening.{Holds, at};

use crate::naming::{kernel_rows, visit_rows};
use iter_items::core_calls::hidden::HIDDEN;
use iter_items::heap::{Given, Heap};
use rb_value::{CoreClass, Method, ObjId, Value, Visibility};
use row_table::names;
use std::alloc::{AllocError, Global};

/// The class objects that have no `new` and no `allocate`.
const WITHOUT_NEW: [CoreClass; 6] = [
    CoreClass::Numeric,
    CoreClass::Integer,
    CoreClass::NilClass,
    CoreClass::TrueClass,
    CoreClass::FalseClass,
    CoreClass::Symbol,
];

/// The class objects that have no `allocate`.
const WITHOUT_ALLOCATE: [CoreClass; 7] = [
    CoreClass::Class,
    CoreClass::Module,
    CoreClass::Proc,
    CoreClass::Fiber,
    CoreClass::Range,
    CoreClass::Enumerator,
    CoreClass::Yielder,
];

/// The segment of the methods of Object, and that of Kernel.
const OBJECT: u16 = 0;

const KERNEL: u16 = 2;

/// The segment of the main object's own methods: its number is the next after those of the core classes.
const MAIN: u16 = 77;

/// The object that is given, or else this class.
fn given_or(class: ObjId, given: Given) -> ObjId
    ensures { result ≡ opening.given_or class given }
{
    match given {
        Given::Gives(Value::Obj(own)) => own,
        _ => class,
    }
}

/// The singleton class of a class object, or of the main object, which is made where it isn't there.
fn singleton(heap: &mut Heap, class: ObjId) -> Result<ObjId, AllocError>
    ensures { IfOk result (λ own. Holds (opening.own_class heap.old.store class) own heap.new.store) }
{
    let given = heap.singleton_class(Value::Obj(class))?;
    Ok(given_or(class, given))
}

/// The segment of the class or module that has the methods of a segment: Kernel holds those that every object has, so that
/// what Object itself is given comes before them.
fn home(segment: u16) -> u16
    ensures { result ≡ opening.home segment }
{
    if segment == OBJECT { KERNEL } else { segment }
}

/// The class or module that has the methods of a segment: the singleton class of the object where the number is odd.
fn holder(heap: &mut Heap, segment: u16) -> Result<ObjId, AllocError>
    ensures { IfOk result (λ class. Holds (opening.holder heap.old.store segment) class heap.new.store) }
{
    let class = ObjId(u64::from(home(segment) / 2));
    if segment % 2 == 0 {
        Ok(class)
    } else {
        singleton(heap, class)
    }
}

/// Where the next method of a segment goes.
#[derive(Clone, Copy)]
struct Places {
    class: ObjId,
    number: u16,
}

impl Places {
    /// Adds a method.
    fn add(&mut self, heap: &mut Heap, name: &[u8]) -> Result<(), AllocError>
        ensures class { self.new.class ≡ self.old.class }
        ensures added { OnOk result (opening.with_next self.old.class (at heap.old.store self.old.number) name.now
            ≡ at heap.new.store self.new.number) }
    {
        let name = heap.intern(name)?;
        let method = Method::Core(self.number);
        heap.set_method(self.class, name, method, Visibility::Public)?;
        self.number = self.number.saturating_add(1);
        Ok(())
    }

    /// Adds methods of these names.
    fn add_all<R>(&mut self, heap: &mut Heap, rows: &[(&[u8], R)]) -> Result<(), AllocError>
        ensures class { self.new.class ≡ self.old.class }
        ensures added { OnOk result (opening.with_names self.old.class (at heap.old.store self.old.number)
            (opening.names_of (map (λ r. (r.0.now, r.1)) rows.now))
            ≡ at heap.new.store self.new.number) }
    {
        'rows: for row in rows {
            self.add(heap, row.0)?;
        }
        Ok(())
    }

    /// Adds the methods of a segment that give their outcome at once.
    fn add_plain(&mut self, heap: &mut Heap, segment: u16) -> Result<(), AllocError>
        ensures class { self.new.class ≡ self.old.class }
        ensures added { OnOk result (opening.with_names self.old.class (at heap.old.store self.old.number)
            (opening.names_of (named.plain segment)) ≡ at heap.new.store self.new.number) }
    {
        self.add_all(heap, rows_object::rows_of(segment))?;
        self.add_all(heap, rows_class::rows_of(segment))?;
        self.add_all(heap, iter_items::rows_items::rows_of(segment))?;
        self.add_all(heap, rows_array::rows_of(segment))?;
        self.add_all(heap, rows_hash::rows_of(segment))?;
        Ok(())
    }

    /// Adds the methods of a segment that call others.
    fn add_star(&mut self, heap: &mut Heap, segment: u16) -> Result<(), AllocError>
        ensures class { self.new.class ≡ self.old.class }
        ensures added { OnOk result (opening.with_names self.old.class (at heap.old.store self.old.number)
            (opening.names_of (named.star segment)) ≡ at heap.new.store self.new.number) }
    {
        self.add_all(heap, kernel_rows(segment))?;
        self.add_all(heap, visit_rows(segment))?;
        self.add_all(heap, iter_items::rows_of(segment))?;
        Ok(())
    }
}

/// Whether a segment has no methods that give their outcome at once.
fn has_no_plain(segment: u16) -> bool
    ensures { result ≡ nat_eq (length (named.plain segment)) 0 }
{
    rows_object::rows_of(segment).is_empty()
        && rows_class::rows_of(segment).is_empty()
        && iter_items::rows_items::rows_of(segment).is_empty()
        && rows_array::rows_of(segment).is_empty()
        && rows_hash::rows_of(segment).is_empty()
}

/// Whether a segment has no methods that call others.
fn has_no_star(segment: u16) -> bool
    ensures { result ≡ nat_eq (length (named.star segment)) 0 }
{
    kernel_rows(segment).is_empty()
        && visit_rows(segment).is_empty()
        && iter_items::rows_of(segment).is_empty()
}

/// Whether a segment has no methods beyond the table.
fn has_none(segment: u16) -> bool
    ensures { result ≡ nat_eq (length (named.beyond segment)) 0 }
{
    has_no_plain(segment) && has_no_star(segment)
}

/// The number of the first method of a segment beyond the table.
fn first_number(segment: u16) -> u16
    ensures { result ≡ opening.first_number segment }
{
    let first = usize::from(segment) * 256 + names(segment).len();
    match u16::try_from(first) {
        Ok(number) => number,
        Err(_) => u16::MAX,
    }
}

/// Adds the methods of a segment beyond the table.
fn add_segment(heap: &mut Heap, segment: u16) -> Result<(), AllocError>
    ensures { OnOk result (heap.new.store ≡ opening.with_segment heap.old.store segment) }
{
    if has_none(segment) {
        return Ok(());
    }
    let mut places = Places {
        class: holder(heap, segment)?,
        number: first_number(segment),
    };
    places.add_plain(heap, segment)?;
    places.add_star(heap, segment)?;
    Ok(())
}

/// Adds the methods of all segments of classes beyond the table.
fn add_segments(heap: &mut Heap) -> Result<(), AllocError>
    ensures { OnOk result (heap.new.store ≡ opening.with_segments heap.old.store named.hidden) }
{
    'segments: for segment in 0..HIDDEN {
        add_segment(heap, segment)?;
    }
    Ok(())
}

/// Ends the search for a method of these class objects with nothing.
fn undefine(heap: &mut Heap, classes: &[CoreClass], name: &[u8]) -> Result<(), AllocError>
    ensures { OnOk result (heap.new.store ≡ opening.without heap.old.store name.now classes.now) }
{
    let name = heap.intern(name)?;
    'classes: for class in classes {
        let class = heap.class_object(*class);
        let own = singleton(heap, class)?;
        heap.undefine_method(own, name)?;
    }
    Ok(())
}

/// Takes the `new` of String itself away, so that of Class is found, which calls `initialize`: a class of the program
/// below String may have its own.
fn let_strings_initialize(heap: &mut Heap) -> Result<(), AllocError>
    ensures { OnOk result (heap.new.store ≡ opening.with_strings heap.old.store) }
{
    let class = heap.class_object(CoreClass::String);
    let own = singleton(heap, class)?;
    let name = heap.intern(b"new")?;
    heap.remove_method(own, name)
}

/// The heap in which a program starts.
#[tactic(auto, unfolding(crate::specs::Opening::opening, crate::specs::Opening::have_no_new, crate::specs::Opening::have_no_allocate))]
pub fn opening_heap(alloc: Global) -> Result<Heap, AllocError>
    ensures { IfOk result (λ heap. heap.store ≡ opening.opening) }
{
    let mut heap = Heap::new(alloc)?;
    add_segments(&mut heap)?;
    add_segment(&mut heap, MAIN)?;
    let_strings_initialize(&mut heap)?;
    undefine(&mut heap, &WITHOUT_NEW, b"new")?;
    undefine(&mut heap, &WITHOUT_NEW, b"allocate")?;
    undefine(&mut heap, &WITHOUT_ALLOCATE, b"allocate")?;
    Ok(heap)
}
