//! Methods of Integer that are defined as a program goes on, found with and without the cache.
ghost use Rattle.def_core.specs.Sound.{Sound, census, Is, ClassOrModule, OptionIs};
ghost use Rattle.rb_store.specs.Counted.{IsCounted};
ghost use Rattle.method_lookup.specs.Cache.{GoesWith};

use Step::{Body, Finds, FindsAbove, Ticks, Undefined};
use class_model::{find, set_method};
use def_core::Found;
use method_lookup::{Cache, find_cached, find_super, new_cache};
use rb_base::Steps;
use rb_store::Store;
use rb_value::CoreClass::{Integer, Numeric, Object, Range};
use rb_value::{CoreClass, Method, ObjId, SymId, Visibility};
use std::alloc::{AllocError, Global};

/// A definition, or a question about Integer with its answer.
#[derive(Clone, Copy)]
enum Step {
    /// A class gets a method with the body of that number.
    Body(CoreClass, &'static [u8], u32),
    Undefined(CoreClass, &'static [u8]),
    /// The body that is found under a name.
    Finds(&'static [u8], Option<u32>),
    /// The body that `super` finds in a method of that class.
    FindsAbove(CoreClass, &'static [u8], Option<u32>),
    /// How many steps the look-up of a name ticks.
    Ticks(&'static [u8], u64),
}

static STEPS: [Step; 22] = [
    Ticks(b"succ", 1),
    Ticks(b"succ", 0),
    Body(Object, b"x", 1),
    // Integer, Numeric and Object are asked.
    Ticks(b"x", 3),
    Ticks(b"x", 0),
    Ticks(b"succ", 1),
    Ticks(b"x", 0),
    Finds(b"x", Some(1)),
    Body(Numeric, b"x", 2),
    Body(Integer, b"x", 3),
    Finds(b"x", Some(3)),
    Ticks(b"x", 1),
    FindsAbove(Integer, b"x", Some(2)),
    FindsAbove(Numeric, b"x", Some(1)),
    FindsAbove(Object, b"x", None),
    // Range isn't an ancestor of Integer.
    FindsAbove(Range, b"x", None),
    Undefined(Numeric, b"x"),
    Finds(b"x", Some(3)),
    FindsAbove(Integer, b"x", None),
    FindsAbove(Numeric, b"x", Some(1)),
    Undefined(Integer, b"x"),
    Finds(b"x", None),
];

/// The object of a core class that is no module.
#[tactic(auto, using(class_model::proofs::Lineages::core_is_class))]
fn class_of(st: &Store, class: CoreClass) -> Option<ObjId>
    requires { Sound st.now.store }
    ensures { OptionIs (Is (census st.now.store) ClassOrModule) result }
{
    if class.is_module() {
        return None;
    }
    Some(st.class_object(class))
}

/// Gives a class a method: of the body of a number, or one that is undefined.
#[tactic(auto, using(rb_store::proofs::Counted::counted_then))]
fn define(
    st: &mut Store,
    class: CoreClass,
    name: &[u8],
    code: Option<u32>,
) -> Result<bool, AllocError>
    requires { Sound st.old.store }
    ensures sound { Sound st.new.store }
    ensures counted { IsCounted st.old st.new }
{
    let name = st.intern(name)?;
    let Some(class) = class_of(st, class) else {
        return Ok(false);
    };
    let method = match code {
        Some(code) => Method::Body { code, scope: 0 },
        None => Method::Undefined,
    };
    set_method(st, class, name, method, Visibility::Public)?;
    Ok(true)
}

/// The number of the body that was found.
fn body_of(found: Option<Found>) -> Option<u32> {
    match found {
        Some(found) => match found.method {
            Method::Body { code, scope: _ } => Some(code),
            _ => None,
        },
        None => None,
    }
}

/// The body that Integer has under a name: behind the class, where there is one.
fn found_body(st: &Store, name: SymId, owner: Option<CoreClass>) -> Option<u32>
    requires { Sound st.now.store }
{
    let class = class_of(st, Integer)?;
    match owner {
        Some(owner) => body_of(find_super(st, class, st.class_object(owner), name)),
        None => body_of(find(st, class, name)),
    }
}

/// How many steps the look-up of a name in Integer ticks.
fn ticks(cache: &mut Cache, st: &Store, name: SymId) -> Result<Option<u64>, AllocError>
    requires sound { Sound st.now.store }
    requires goes_with { GoesWith cache.old st.now }
    ensures goes_with { GoesWith cache.new st.now }
{
    let mut steps = Steps::new();
    let Some(class) = class_of(st, Integer) else {
        return Ok(None);
    };
    find_cached(cache, st, class, name, &mut steps)?;
    Ok(Some(steps.count()))
}

/// Whether a step gives what it is to.
#[tactic(auto, using(method_lookup::proofs::Goes::goes_on))]
fn is_right(st: &mut Store, cache: &mut Cache, step: Step) -> Result<bool, AllocError>
    requires sound { Sound st.old.store }
    requires goes_with { GoesWith cache.old st.old }
    ensures sound { Sound st.new.store }
    ensures goes_with { GoesWith cache.new st.new }
{
    match step {
        Body(class, name, code) => define(st, class, name, Some(code)),
        Undefined(class, name) => define(st, class, name, None),
        Finds(name, code) => {
            let name = st.intern(name)?;
            Ok(found_body(st, name, None) == code)
        }
        FindsAbove(owner, name, code) => {
            let name = st.intern(name)?;
            Ok(found_body(st, name, Some(owner)) == code)
        }
        Ticks(name, count) => {
            let name = st.intern(name)?;
            Ok(ticks(cache, st, name)? == Some(count))
        }
    }
}

/// The number of the first step that gives something else; none where all give what they are to.
fn first_wrong(alloc: Global, steps: &[Step]) -> Result<Option<usize>, AllocError> {
    let mut st = Store::new(alloc)?;
    let mut cache = new_cache(alloc);
    'steps: for (i, step) in steps.iter().enumerate() {
        if !is_right(&mut st, &mut cache, *step)? {
            return Ok(Some(i));
        }
    }
    Ok(None)
}

#[test]
fn methods_as_they_are_defined(rt: HostRuntime) -> Result<(), AllocError> {
    assert_eq!(rt; first_wrong(rt.alloc(), &STEPS)?, None);
    Ok(())
}
