//! The arguments as the parameters take them.
ghost use Rattle.std.specs.Prelude.{◌≡◌, ◌+◌, ◌-◌, ◌<◌, ◌≤◌, ◌++◌, length, take, drop, replicate};
ghost use Rattle.rb_value.specs.declared.value.Value.TheVariants.{Nil};
ghost use Rattle.def_core.specs.Bind as defined;
ghost use Rattle.def_core.specs.Sound.{Sound, census, IsValue, AllAre};
ghost use Rattle.method_lookup.specs.Given.{all_of, PadsToLeast};

use def_core::BindKind;
use rb_store::Store;
use rb_value::{KindRef, Shape, Value};

/// Arguments: those of a slice, and after them nil for so many that are missing.
#[derive(Clone, Copy)]
pub(crate) struct Given<'a> {
    values: &'a [Value],
    missing: u16,
}

/// How many arguments have to be given.
pub(crate) fn least(shape: Shape) -> usize
    ensures { result ≡ defined.least shape }
{
    usize::from(shape.required) + usize::from(shape.post)
}

/// How many arguments there may be where there is no parameter for the rest.
pub(crate) fn most(shape: Shape) -> usize
    ensures { result ≡ defined.most shape }
{
    usize::from(shape.required) + usize::from(shape.optional) + usize::from(shape.post)
}

/// Whether a Proc of that shape takes the elements of one Array as its arguments.
fn spreads(shape: Shape) -> bool
    ensures { result ≡ defined.spreads shape }
{
    let most = most(shape);
    most > 1 || (most == 1 && shape.rest)
}

/// The elements of an Array, and the other values where it is none.
fn elements_or<'a>(st: &'a Store, value: Value, others: &'a [Value]) -> &'a [Value]
    requires { IsValue (census st.now.store) value }
    ensures { result.now ≡ defined.elements_or (defined.elements_in st.now.store.objects value) others.now }
{
    match value {
        Value::Obj(id) => match st.get(id).kind() {
            KindRef::Array(elements) => elements,
            _ => others,
        },
        _ => others,
    }
}

/// The elements of one Array alone.
fn spread<'a>(st: &'a Store, args: &'a [Value]) -> &'a [Value]
    requires { AllAre (IsValue (census st.now.store)) args.now }
    ensures { result.now ≡ defined.spread st.now.store.objects args.now }
{
    if args.len() == 1 {
        elements_or(st, args[0], args)
    } else {
        args
    }
}

/// As many of the values as a Proc of that shape wants.
fn fitted<'a>(shape: Shape, values: &'a [Value]) -> Given<'a>
    ensures all { all_of result ≡ defined.fitted shape values.now }
    ensures missing { PadsToLeast result shape }
{
    let most = most(shape);
    let values = if shape.rest || values.len() <= most {
        values
    } else {
        &values[..most]
    };
    Given {
        values,
        missing: least(shape).saturating_sub(values.len()) as u16,
    }
}

impl<'a> Given<'a> {
    /// The arguments that a method, lambda or Proc of that shape takes from those of a call.
    pub(crate) fn of(st: &'a Store, shape: Shape, kind: BindKind, args: &'a [Value]) -> Given<'a>
        requires { AllAre (IsValue (census st.now.store)) args.now }
        ensures all { all_of result ≡ defined.arguments st.now.store.objects shape kind args.now }
        ensures missing { PadsToLeast result shape }
    {
        match kind {
            BindKind::Method | BindKind::Lambda => Given {
                values: args,
                missing: 0,
            },
            BindKind::Proc if spreads(shape) => fitted(shape, spread(st, args)),
            BindKind::Proc => fitted(shape, args),
        }
    }

    /// How many there are.
    pub(crate) fn len(&self) -> usize
        ensures { result ≡ length (all_of self.now) }
    {
        self.values.len() + usize::from(self.missing)
    }

    /// Those of the places from one up to another that are not missing.
    pub(crate) fn part(&self, from: usize, to: usize) -> &'a [Value]
        requires { from ≤ to }
        ensures { result.now ≡ drop from (take to self.now.values.now) }
    {
        let end = to.min(self.values.len());
        &self.values[from.min(end)..end]
    }

    /// How many of the places from one up to another are missing.
    pub(crate) fn nils(&self, from: usize, to: usize) -> usize
        requires order { from ≤ to }
        requires within { to ≤ length (all_of self.now) }
        ensures { drop from (take to (all_of self.now)) ≡
            drop from (take to self.now.values.now) ++ replicate result Nil }
    {
        to.saturating_sub(from.max(self.values.len()))
    }
}
