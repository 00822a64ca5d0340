//! Whether a call of a core method is refused: the number of arguments, a missing block, then what is wanted from left to
//! right.
ghost use Rattle.std.specs.Prelude.{◌≡◌, ◌∷◌, IfSome};
ghost use Rattle.def_core.specs.Classes.{plain_class_of};
ghost use Rattle.def_core.specs.Sound.{Sound, census, IsValue, AllAre};
ghost use Rattle.rb_raise.specs.Causes.{SoundCause};
ghost use Rattle.def_rows.specs.Checking as checking;

use def_core::Cause;
use rb_store::Store;
use rb_value::{CoreClass, ObjId, Sort, Value};
use row_table::{Marks, Signature, Wanted};

/// The core class whose instances have objects of that sort.
fn class_of_sort(sort: Sort) -> CoreClass
    ensures { result ≡ checking.class_of_sort sort }
{
    match sort {
        Sort::Plain => CoreClass::Object,
        Sort::Class | Sort::Singleton => CoreClass::Class,
        Sort::Module => CoreClass::Module,
        Sort::String => CoreClass::String,
        Sort::Array => CoreClass::Array,
        Sort::Hash => CoreClass::Hash,
        Sort::Range => CoreClass::Range,
        Sort::Proc => CoreClass::Proc,
        Sort::Fiber => CoreClass::Fiber,
        Sort::Exception => CoreClass::Exception,
        Sort::Enumerator => CoreClass::Enumerator,
        Sort::Yielder => CoreClass::Yielder,
    }
}

/// The core class whose instances have the contents of the value.
fn kind_class(st: &Store, value: Value) -> CoreClass
    ensures { result ≡ checking.kind_class st.now.store.objects value }
{
    match value {
        Value::Nil => CoreClass::NilClass,
        Value::True => CoreClass::TrueClass,
        Value::False => CoreClass::FalseClass,
        Value::Int(_) => CoreClass::Integer,
        Value::Sym(_) => CoreClass::Symbol,
        Value::Obj(id) => match st.sort(id) {
            Some(sort) => class_of_sort(sort),
            None => CoreClass::Object,
        },
    }
}

/// The class of a value without its singleton class.
pub fn plain_class(st: &Store, value: Value) -> ObjId
    ensures { result ≡ plain_class_of st.now.store.objects value }
{
    match value {
        Value::Nil => st.class_object(CoreClass::NilClass),
        Value::True => st.class_object(CoreClass::TrueClass),
        Value::False => st.class_object(CoreClass::FalseClass),
        Value::Int(_) => st.class_object(CoreClass::Integer),
        Value::Sym(_) => st.class_object(CoreClass::Symbol),
        Value::Obj(id) => {
            if st.has(id) {
                st.get(id).class()
            } else {
                ObjId(0)
            }
        }
    }
}

/// Whether a value has the contents of an instance of the class.
fn has_contents(st: &Store, class: CoreClass, value: Value) -> bool
    ensures { result ≡ checking.has_contents class st.now.store.objects value }
{
    class.number() == kind_class(st, value).number()
}

/// The cause for a value that isn't what is wanted.
pub fn unfit(st: &Store, wanted: Wanted, value: Value) -> Option<Cause>
    ensures { result ≡ checking.unfit wanted st.now.store.objects value }
{
    match wanted {
        Wanted::Any => None,
        Wanted::Of(class) => {
            if has_contents(st, class, value) {
                return None;
            }
            Some(Cause::Expected {
                class: st.class_object(class),
                got: plain_class(st, value),
            })
        }
        Wanted::Comparable(class) => {
            if has_contents(st, class, value) {
                return None;
            }
            Some(Cause::Incomparable {
                left: st.class_object(class),
                right: plain_class(st, value),
            })
        }
    }
}

/// Whether so many arguments are taken.
fn takes(signature: Signature, given: u64) -> bool
    ensures { result ≡ checking.takes signature given }
{
    if given < signature.least {
        return false;
    }
    match signature.most {
        Some(most) => given <= most,
        None => true,
    }
}

/// What is wanted of the argument at a place.
fn wanted_at(signature: Signature, place: usize) -> Wanted
    ensures { result ≡ checking.wanted_at signature place }
{
    if place == 0 {
        signature.first
    } else {
        signature.second
    }
}

/// The cause for the first argument that isn't what is wanted.
#[tactic(auto, using(crate::proofs::Checked::next_argument), unfolding(def_rows::specs::Checking::first_unfit))]
fn first_unfit(st: &Store, signature: Signature, args: &[Value]) -> Option<Cause>
    ensures { result ≡ checking.first_unfit signature st.now.store.objects 0 args.now }
{
    'places: for place in 0..args.len() {
        let cause = unfit(st, wanted_at(signature, place), args[place]);
        if cause.is_some() {
            return cause;
        }
    }
    None
}

fn needs_block(marks: Marks) -> bool
    ensures { result ≡ checking.needs_block marks }
{
    match marks {
        Marks::Plain | Marks::Star => false,
        Marks::Block | Marks::StarBlock => true,
    }
}

/// The cause for what the receiver or an argument is.
fn unfit_values(st: &Store, signature: Signature, recv: Value, args: &[Value]) -> Option<Cause>
    ensures { result ≡ checking.unfit_values signature st.now.store.objects recv args.now }
{
    match unfit(st, signature.receiver, recv) {
        Some(cause) => Some(cause),
        None => first_unfit(st, signature, args),
    }
}

/// The cause for which a call is refused, which names classes of the store.
pub fn check(
    st: &Store,
    signature: Signature,
    recv: Value,
    args: &[Value],
    block: Option<ObjId>,
) -> Option<Cause>
    requires sound { Sound st.now.store }
    requires values { AllAre (IsValue (census st.now.store)) (recv ∷ args.now) }
    ensures cause { result ≡ checking.check signature st.now.store.objects recv args.now block }
    ensures sound { IfSome result (SoundCause (census st.now.store)) }
{
    let given = args.len() as u64;
    if !takes(signature, given) {
        return Some(Cause::WrongCount {
            given,
            least: signature.least,
            most: signature.most,
        });
    }
    if needs_block(signature.marks) && block.is_none() {
        return Some(Cause::NoBlockGiven);
    }
    unfit_values(st, signature, recv, args)
}
