//! The store at the start: the core classes and modules, the main object, and the core methods.
ghost use Rattle.std.specs.Prelude.{◌≡◌, ◌<◌, ◌+◌, ◌^◌, ◌++◌, ◌∷◌, [], map, length, true, IfOk, OnOk};
ghost use Rattle.def_core.specs.Store.{sort_at};
ghost use Rattle.def_core.specs.Sound.{plays, ClassOrModule, sorts_of, AllAre, Sound};
ghost use Rattle.rb_value.specs.CoreClass.{name_of};
ghost use Rattle.rb_store.specs.Opening as opening;

use crate::store::Store;
use crate::symbols::Symbols;
use chunk_list::ChunkList;
use pair_table::PairTable;
use rb_base::List;
use rb_value::{
    Boxed, ClassContents, ClassForm, CoreClass, Kind, Method, MethodTable, ObjId, Object, SymId,
    Value, Visibility,
};
use row_table::SEGMENTS;
use std::alloc::{AllocError, Global};

/// In the order of their numbers.
const CORE_CLASSES: [CoreClass; 38] = [
    CoreClass::Object,
    CoreClass::Kernel,
    CoreClass::Module,
    CoreClass::Class,
    CoreClass::Comparable,
    CoreClass::Enumerable,
    CoreClass::Numeric,
    CoreClass::Integer,
    CoreClass::NilClass,
    CoreClass::TrueClass,
    CoreClass::FalseClass,
    CoreClass::String,
    CoreClass::Symbol,
    CoreClass::Array,
    CoreClass::Hash,
    CoreClass::Range,
    CoreClass::Proc,
    CoreClass::Fiber,
    CoreClass::Enumerator,
    CoreClass::Yielder,
    CoreClass::Exception,
    CoreClass::ScriptError,
    CoreClass::NotImplementedError,
    CoreClass::SystemExit,
    CoreClass::SystemStackError,
    CoreClass::StandardError,
    CoreClass::ArgumentError,
    CoreClass::FiberError,
    CoreClass::IndexError,
    CoreClass::KeyError,
    CoreClass::StopIteration,
    CoreClass::LocalJumpError,
    CoreClass::NameError,
    CoreClass::NoMethodError,
    CoreClass::RangeError,
    CoreClass::RuntimeError,
    CoreClass::TypeError,
    CoreClass::ZeroDivisionError,
];

/// The number of the symbol `Yielder`.
const YIELDER: u64 = 38;

/// The numbers of the singleton classes of Object, Range and String.
const OBJECT_SINGLETON: u64 = 39;

const RANGE_SINGLETON: u64 = 40;

const STRING_SINGLETON: u64 = 41;

/// The constants of a class or module by the numbers of their names.
type Constants = PairTable<u64, Value>;

/// Puts the constant of a class, where it isn't Enumerator::Yielder.
fn put_constant_for(constants: &mut Constants, class: CoreClass) -> Result<(), AllocError>
    ensures { OnOk result (constants.new ≡ opening.with_constant_for constants.old class) }
{
    let number = class.number();
    if number != 19 {
        constants.insert(number, Value::Obj(ObjId(number)))?;
    }
    Ok(())
}

/// The constants of these classes.
fn constants_for(alloc: Global, classes: &[CoreClass]) -> Result<Constants, AllocError>
    ensures { IfOk result (λ constants. constants ≡ opening.with_constants_for [] classes.now) }
{
    let mut constants = PairTable::new(alloc);
    'classes: for class in classes {
        put_constant_for(&mut constants, *class)?;
    }
    Ok(constants)
}

#[tactic(auto, unfolding(rb_value::specs::CoreClass::core_classes, crate::specs::Opening::object_constants))]
fn constants_of(alloc: Global, class: CoreClass) -> Result<Constants, AllocError>
    ensures { IfOk result (λ constants. constants ≡ opening.constants_of class) }
{
    if class.number() == 0 {
        return constants_for(alloc, &CORE_CLASSES);
    }
    let mut constants = PairTable::new(alloc);
    if class.number() == 18 {
        constants.insert(YIELDER, Value::Obj(ObjId(19)))?;
    }
    Ok(constants)
}

fn included_in(alloc: Global, class: CoreClass) -> Result<List<ObjId>, AllocError>
    ensures { IfOk result (λ list. list ≡ opening.included_in class) }
{
    let mut list = List::new(alloc);
    if class.number() == 0 {
        list.push(ObjId(1))?;
    }
    Ok(list)
}

fn superclass_of(class: CoreClass) -> Option<ObjId>
    ensures { result ≡ opening.superclass_of class }
{
    match class.superclass() {
        Some(above) => Some(ObjId(above.number())),
        None => None,
    }
}

/// The singleton class of a core class, which Object, Range and String have.
fn singleton_of(class: CoreClass) -> Option<ObjId>
    ensures { result ≡ opening.singleton_of class }
{
    if class.number() == 0 {
        Some(ObjId(OBJECT_SINGLETON))
    } else if class.number() == 15 {
        Some(ObjId(RANGE_SINGLETON))
    } else if class.number() == 11 {
        Some(ObjId(STRING_SINGLETON))
    } else {
        None
    }
}

#[tactic(auto, unfolding(crate::specs::Opening::core_contents))]
fn core_contents(alloc: Global, class: CoreClass) -> Result<ClassContents, AllocError>
    ensures { IfOk result (λ contents. contents ≡ opening.core_contents class) }
{
    let included = included_in(alloc, class)?;
    let constants = constants_of(alloc, class)?;
    Ok(ClassContents {
        form: if class.is_module() {
            ClassForm::Module
        } else {
            ClassForm::Class
        },
        name: Some(SymId(class.number())),
        superclass: superclass_of(class),
        included,
        constants,
        visibility: Visibility::Public,
        methods: MethodTable::new(alloc),
    })
}

/// An object with a class, contents and maybe a singleton class.
fn object_with(
    alloc: Global,
    class: ObjId,
    singleton: Option<ObjId>,
    kind: Kind,
) -> Result<Object, AllocError>
    ensures { IfOk result (λ object. object ≡
        record { class = class; singleton = singleton; variables = []; kind = kind }) }
{
    let mut object = Object::new(class, kind);
    match singleton {
        Some(singleton) => {
            object.set_singleton(alloc, singleton)?;
            Ok(object)
        }
        None => Ok(object),
    }
}

#[tactic(auto, unfolding(crate::specs::Opening::core_object))]
fn core_object(alloc: Global, class: CoreClass) -> Result<Object, AllocError>
    ensures { IfOk result (λ object. object ≡ opening.core_object class) }
{
    let contents = core_contents(alloc, class)?;
    let kind = Kind::Class(Boxed::new(alloc, contents)?);
    let own_class = ObjId(if class.is_module() { 2 } else { 3 });
    object_with(alloc, own_class, singleton_of(class), kind)
}

fn core_objects(alloc: Global, classes: &[CoreClass]) -> Result<ChunkList<Object>, AllocError>
    ensures { IfOk result (λ objects. objects ≡ map opening.core_object classes.now) }
{
    let mut objects = ChunkList::new(alloc);
    'classes: for class in classes {
        objects.push(core_object(alloc, *class)?)?;
    }
    Ok(objects)
}

/// A singleton class without methods.
fn singleton_object(alloc: Global, superclass: ObjId) -> Result<Object, AllocError>
    ensures { IfOk result (λ object. object ≡ opening.singleton_object superclass) }
{
    let contents = ClassContents {
        form: ClassForm::Singleton,
        name: None,
        superclass: Some(superclass),
        included: List::new(alloc),
        constants: PairTable::new(alloc),
        visibility: Visibility::Public,
        methods: MethodTable::new(alloc),
    };
    let kind = Kind::Class(Boxed::new(alloc, contents)?);
    Ok(Object::new(ObjId(3), kind))
}

/// Whose own methods stand in a segment of the table of core methods.
fn holder(segment: u16) -> ObjId
    ensures { result ≡ opening.holder segment }
{
    if segment == 31 {
        ObjId(RANGE_SINGLETON)
    } else if segment == 23 {
        ObjId(STRING_SINGLETON)
    } else {
        ObjId(u64::from(segment / 2))
    }
}

impl Store {
    /// The store of the core classes and the main object, without methods and symbols.
    #[tactic(auto, unfolding(rb_value::specs::CoreClass::core_classes, crate::specs::Opening::nameless))]
    fn nameless(alloc: Global) -> Result<Store, AllocError>
        ensures { IfOk result (λ store. store.store ≡ opening.nameless) }
    {
        let mut objects = core_objects(alloc, &CORE_CLASSES)?;
        objects.push(Object::new(ObjId(0), Kind::Plain))?;
        objects.push(singleton_object(alloc, ObjId(3))?)?;
        objects.push(singleton_object(alloc, ObjId(OBJECT_SINGLETON))?)?;
        objects.push(singleton_object(alloc, ObjId(OBJECT_SINGLETON))?)?;
        Ok(Store {
            alloc,
            objects,
            symbols: Symbols::new(alloc),
            changes: 0,
        })
    }

    /// Interns the names of the classes in their order.
    fn add_names(&mut self, classes: &[CoreClass]) -> Result<(), AllocError>
        ensures ok { OnOk result (self.new.store ≡ opening.with_names self.old.store (map name_of classes.now)) }
        ensures objects { OnOk result (self.new.store.objects ≡ self.old.store.objects) }
    {
        'classes: for class in classes {
            self.intern(class.name())?;
        }
        Ok(())
    }

    /// Adds the core methods of a class, whose rows have the numbers from `first` on.
    fn add_rows(&mut self, class: ObjId, first: u16, names: &[&[u8]]) -> Result<(), AllocError>
        requires there { class.0 < length self.old.store.objects }
        requires is_class { plays ClassOrModule (sort_at self.old.store.objects class) ≡ true }
        requires rows { first + length names.now < 2 ^ 16 }
        ensures ok { OnOk result (self.new.store ≡
            opening.with_rows self.old.store class first (map (λ name. name.now) names.now)) }
        ensures objects { OnOk result (sorts_of self.new.store.objects ≡ sorts_of self.old.store.objects) }
    {
        'rows: for (i, name) in names.iter().enumerate() {
            let symbol = self.intern(name)?;
            let row = Method::Core(first + i as u16);
            self.put_method(class, symbol, row, Visibility::Public)?;
        }
        Ok(())
    }

    /// Adds the core methods of a segment of the table.
    fn add_segment(&mut self, segment: u16) -> Result<(), AllocError>
        requires { opening.IsHeld self.old.store.objects segment }
        ensures ok { OnOk result (self.new.store ≡ opening.with_segment self.old.store segment) }
        ensures objects { OnOk result (sorts_of self.new.store.objects ≡ sorts_of self.old.store.objects) }
    {
        self.add_rows(holder(segment), segment * 256, row_table::names(segment))
    }

    /// Adds the core methods of segments of the table, in their order.
    fn add_segments(&mut self, segments: &[u16]) -> Result<(), AllocError>
        requires { AllAre (opening.IsHeld self.old.store.objects) segments.now }
        ensures { OnOk result (self.new.store ≡ opening.with_segments self.old.store segments.now) }
    {
        'segments: for segment in segments {
            self.add_segment(*segment)?;
        }
        Ok(())
    }

    /// The store at the start: the core classes and modules, the main object, and the core methods. No change of a
    /// class or module is counted yet.
    pub fn new(alloc: Global) -> Result<Store, AllocError>
        ensures store { IfOk result (λ store. store.store ≡ opening.opening) }
        ensures changes { IfOk result (λ store. store.changes ≡ 0) }
        ensures sound { IfOk result (λ store. Sound store.store) }
    {
        let mut store = Store::nameless(alloc)?;
        store.add_names(&CORE_CLASSES)?;
        store.intern(b"Yielder")?;
        store.add_segments(&SEGMENTS)?;
        store.changes = 0;
        Ok(store)
    }

    /// The main object. It takes no memory.
    pub fn main_object(&self) -> ObjId
        ensures { result ≡ opening.main_object }
    {
        ObjId(38)
    }
}
