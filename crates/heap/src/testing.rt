//! Tests of operands.
ghost use Rattle.std.specs.Prelude.{◌≡◌, true, false, IfSome, MatchOption};
ghost use Rattle.rb_value.specs.declared.kind.Sort.TheVariants as sorts;
ghost use Rattle.def_core.specs.Store.{sort_at};
ghost use Rattle.def_core.specs.Changes.{is_class_sort};
ghost use Rattle.def_core.specs.Sound.{census, has_object, plays, Is, IsGood, Any, Class, ClassOrModule, Module, Proc, Array, String, Fiber, IsSymbol, IsValue, OptionIs, AllAre, Sound, SoundMethod, SoundProc};
ghost use Rattle.rb_raise.specs.Causes.{SoundCause};
ghost use Rattle.heap.specs.Operands as operands;
ghost use Rattle.heap.specs.Told as causes;

use def_core::Cause;
use rb_store::Store;
use rb_value::{CoreClass, Method, ObjId, ProcContents, Sort, SymId, Value};

/// The value, or nil where it names nothing of the store.
#[inline(always)]
#[tactic(auto, using(def_core::proofs::Good::has_role))]
pub(crate) fn own(st: &Store, value: Value) -> Value
    ensures belongs { IsValue (census st.now.store) result }
    ensures own { result ≡ operands.own st.now.store value }
{
    match value {
        Value::Obj(id) => match object(st, id) {
            Some(id) => Value::Obj(id),
            None => Value::Nil,
        },
        Value::Sym(name) => match symbol(st, name) {
            Some(name) => Value::Sym(name),
            None => Value::Nil,
        },
        other => other,
    }
}

/// The object, where the store has one of that number.
#[inline(always)]
#[tactic(auto, using(def_core::proofs::Good::has_role))]
pub(crate) fn object(st: &Store, id: ObjId) -> Option<ObjId>
    ensures there { OptionIs (Is (census st.now.store) Any) result }
    ensures within { IfSome result (IsGood st.now.store) }
    ensures found { MatchOption result (has_object st.now.store.objects id ≡ false)
        (λ found. (found ≡ id) × (has_object st.now.store.objects id ≡ true)) }
{
    if st.has(id) { Some(id) } else { None }
}

/// The symbol, where the store has one of that number.
#[inline(always)]
pub(crate) fn symbol(st: &Store, name: SymId) -> Option<SymId>
    ensures there { OptionIs (IsSymbol (census st.now.store)) result }
    ensures found { MatchOption result (operands.has_symbol st.now.store name ≡ false)
        (λ found. (found ≡ name) × (operands.has_symbol st.now.store name ≡ true)) }
{
    if name.0 < st.symbol_count() {
        Some(name)
    } else {
        None
    }
}

/// The class or module of that number.
#[inline(always)]
#[tactic(auto, using(def_core::proofs::Good::has_role))]
pub(crate) fn space(st: &Store, id: ObjId) -> Option<ObjId>
    ensures there { OptionIs (Is (census st.now.store) ClassOrModule) result }
    ensures found { MatchOption result (operands.has_space st.now.store id ≡ false)
        (λ found. (found ≡ id) × (operands.has_space st.now.store id ≡ true)) }
{
    match st.sort(id)? {
        Sort::Class | Sort::Singleton | Sort::Module => Some(id),
        _ => None,
    }
}

/// The class of that number, which is no singleton class.
#[tactic(auto, using(def_core::proofs::Good::has_role))]
pub(crate) fn class(st: &Store, id: ObjId) -> Option<ObjId>
    ensures there { OptionIs (Is (census st.now.store) Class) result }
    ensures found { MatchOption result (is_class_sort (sort_at st.now.store.objects id) ≡ false)
        (λ found. (found ≡ id) × (is_class_sort (sort_at st.now.store.objects id) ≡ true)) }
{
    match st.sort(id)? {
        Sort::Class => Some(id),
        _ => None,
    }
}

/// The class of that number, and Object where there is none.
#[tactic(auto, using(def_core::proofs::Grows::core_is_class))]
pub(crate) fn class_or_object(st: &Store, id: ObjId) -> ObjId
    requires { Sound st.now.store }
    ensures there { Is (census st.now.store) Class result }
    ensures own { result ≡ operands.own_class st.now.store id }
{
    match class(st, id) {
        Some(id) => id,
        None => st.class_object(CoreClass::Object),
    }
}

/// The Proc of that number.
#[inline(always)]
#[tactic(auto, using(def_core::proofs::Good::has_role))]
pub(crate) fn proc(st: &Store, id: ObjId) -> Option<ObjId>
    ensures there { OptionIs (Is (census st.now.store) Proc) result }
    ensures found { MatchOption result (plays Proc (sort_at st.now.store.objects id) ≡ false)
        (λ found. (found ≡ id) × (plays Proc (sort_at st.now.store.objects id) ≡ true)) }
{
    match st.sort(id)? {
        Sort::Proc => Some(id),
        _ => None,
    }
}

/// The Proc, where there is one of that number.
#[inline(always)]
pub(crate) fn block(st: &Store, block: Option<ObjId>) -> Option<ObjId>
    ensures there { OptionIs (Is (census st.now.store) Proc) result }
    ensures own { result ≡ operands.own_block st.now.store block }
{
    match block {
        Some(id) => proc(st, id),
        None => None,
    }
}

/// The Array of that number.
#[tactic(auto, using(def_core::proofs::Good::has_role))]
pub(crate) fn array(st: &Store, id: ObjId) -> Option<ObjId>
    ensures there { OptionIs (Is (census st.now.store) Array) result }
    ensures sort { IfSome result (λ id. sort_at st.now.store.objects id ≡ sorts.Array) }
    ensures found { MatchOption result (operands.is_array (sort_at st.now.store.objects id) ≡ false)
        (λ found. found ≡ id) }
{
    match st.sort(id)? {
        Sort::Array => Some(id),
        _ => None,
    }
}

/// The fiber of that number.
#[tactic(auto, using(def_core::proofs::Good::has_role))]
pub(crate) fn fiber(st: &Store, id: ObjId) -> Option<ObjId>
    ensures there { OptionIs (Is (census st.now.store) Fiber) result }
    ensures sort { IfSome result (λ id. sort_at st.now.store.objects id ≡ sorts.Fiber) }
    ensures found { MatchOption result (operands.is_fiber (sort_at st.now.store.objects id) ≡ false)
        (λ found. found ≡ id) }
{
    match st.sort(id)? {
        Sort::Fiber => Some(id),
        _ => None,
    }
}

/// The Hash of that number.
#[tactic(auto, using(def_core::proofs::Good::has_role))]
pub(crate) fn hash(st: &Store, id: ObjId) -> Option<ObjId>
    ensures there { IfSome result (IsGood st.now.store) }
    ensures sort { IfSome result (λ id. sort_at st.now.store.objects id ≡ sorts.Hash) }
    ensures found { MatchOption result (operands.is_hash (sort_at st.now.store.objects id) ≡ false)
        (λ found. found ≡ id) }
{
    match st.sort(id)? {
        Sort::Hash => Some(id),
        _ => None,
    }
}

/// The exception of that number.
pub(crate) fn exception(st: &Store, id: ObjId) -> Option<ObjId>
    ensures there { IfSome result (IsGood st.now.store) }
    ensures sort { IfSome result (λ id. sort_at st.now.store.objects id ≡ sorts.Exception) }
    ensures found { MatchOption result (operands.is_exception (sort_at st.now.store.objects id) ≡ false)
        (λ found. found ≡ id) }
{
    match st.sort(id)? {
        Sort::Exception => Some(id),
        _ => None,
    }
}

/// The Enumerator of that number.
pub(crate) fn enumerator(st: &Store, id: ObjId) -> Option<ObjId>
    ensures there { IfSome result (IsGood st.now.store) }
    ensures sort { IfSome result (λ id. sort_at st.now.store.objects id ≡ sorts.Enumerator) }
    ensures found { MatchOption result (operands.is_enumerator (sort_at st.now.store.objects id) ≡ false)
        (λ found. found ≡ id) }
{
    match st.sort(id)? {
        Sort::Enumerator => Some(id),
        _ => None,
    }
}

/// Whether the store has all of the values.
#[tactic(auto, using(crate::proofs::Scanned::one_more, crate::proofs::Scanned::has_one_more, crate::proofs::Scanned::has_not_all))]
pub(crate) fn are_own(st: &Store, values: &[Value]) -> bool
    ensures belong { result ≡ true → AllAre (IsValue (census st.now.store)) values.now }
    ensures all { result ≡ operands.has_all st.now.store values.now }
{
    let mut at = 0;
    'values: while at < values.len() {
        if own(st, values[at]) != values[at] {
            return false;
        }
        at += 1;
    }
    true
}

/// The String of that number.
#[tactic(auto, using(def_core::proofs::Good::has_role))]
pub(crate) fn string(st: &Store, id: ObjId) -> Option<ObjId>
    ensures there { OptionIs (Is (census st.now.store) String) result }
    ensures sort { IfSome result (λ id. sort_at st.now.store.objects id ≡ sorts.String) }
    ensures found { MatchOption result (operands.is_string (sort_at st.now.store.objects id) ≡ false)
        (λ found. found ≡ id) }
{
    match st.sort(id)? {
        Sort::String => Some(id),
        _ => None,
    }
}

/// Whether the store has a symbol and a class or module.
fn has_names(st: &Store, name: SymId, class: ObjId) -> bool
    ensures names { result ≡ causes.has_names st.now.store name class }
    ensures symbol { result ≡ true → IsSymbol (census st.now.store) name }
    ensures class { result ≡ true → Is (census st.now.store) ClassOrModule class }
{
    symbol(st, name).is_some() && space(st, class).is_some()
}

/// Whether the store has two classes or modules.
fn has_both(st: &Store, left: ObjId, right: ObjId) -> bool
    ensures both { result ≡ causes.has_both st.now.store left right }
    ensures left { result ≡ true → Is (census st.now.store) ClassOrModule left }
    ensures right { result ≡ true → Is (census st.now.store) ClassOrModule right }
{
    space(st, left).is_some() && space(st, right).is_some()
}

/// Whether the store has all that a cause names.
#[tactic(auto, unfolding(crate::specs::Told::has_cause))]
fn has_cause(st: &Store, cause: Cause) -> bool
    ensures known { result ≡ causes.has_cause st.now.store cause }
    ensures sound { result ≡ true → SoundCause (census st.now.store) cause }
{
    match cause {
        Cause::UndefinedMethod { name, class }
        | Cause::PrivateMethod { name, class }
        | Cause::ProtectedMethod { name, class }
        | Cause::NoSuperMethod { name, class }
        | Cause::UndefinedName { name, class }
        | Cause::UndefinedInClass { name, class } => has_names(st, name, class),
        Cause::UninitializedConstant { scope, name } => match scope {
            Some(scope) => has_names(st, name, scope),
            None => symbol(st, name).is_some(),
        },
        Cause::WrongValue(name)
        | Cause::SuperclassMismatch(name)
        | Cause::NotClass(name)
        | Cause::NotModule(name) => symbol(st, name).is_some(),
        Cause::Incomparable { left, right } => has_both(st, left, right),
        Cause::Expected { class, got } => has_both(st, class, got),
        Cause::KeyNotFound(key) => string(st, key).is_some(),
        Cause::IterationEnd { result } => own(st, result) == result,
        _ => true,
    }
}

/// A cause that names only what is of the store: this one, or that an exception is raised without a reason.
#[tactic(auto, unfolding(crate::specs::Told::told, crate::specs::Told::has_cause))]
pub(crate) fn told(st: &Store, cause: Cause) -> Cause
    ensures sound { SoundCause (census st.now.store) result }
    ensures told { result ≡ causes.told st.now.store cause }
{
    match cause {
        Cause::IterationEnd { result } => Cause::IterationEnd {
            result: own(st, result),
        },
        other => if has_cause(st, other) {
            other
        } else {
            Cause::Unhandled
        },
    }
}

/// The class or module, where there is one of that number.
fn owner(st: &Store, owner: Option<ObjId>) -> Option<ObjId>
    ensures there { OptionIs (Is (census st.now.store) ClassOrModule) result }
    ensures own { result ≡ operands.own_space st.now.store owner }
{
    match owner {
        Some(id) => space(st, id),
        None => None,
    }
}

/// The symbol, where there is one of that number.
fn maybe_symbol(st: &Store, name: Option<SymId>) -> Option<SymId>
    ensures there { OptionIs (IsSymbol (census st.now.store)) result }
    ensures own { result ≡ operands.own_symbol st.now.store name }
{
    match name {
        Some(name) => symbol(st, name),
        None => None,
    }
}

/// The contents of a Proc without what isn't of the store.
pub(crate) fn own_proc(st: &Store, contents: ProcContents) -> ProcContents
    ensures sound { SoundProc (census st.now.store) result }
    ensures own { result ≡ operands.own_proc st.now.store contents }
{
    ProcContents {
        receiver: own(st, contents.receiver),
        owner: owner(st, contents.owner),
        name: maybe_symbol(st, contents.name),
        block: block(st, contents.block),
        ..contents
    }
}

/// The method, where what it names is of the store.
pub(crate) fn own_method(st: &Store, method: Method) -> Option<Method>
    ensures sound { OptionIs (SoundMethod (census st.now.store)) result }
    ensures own { result ≡ operands.own_method st.now.store method }
{
    match method {
        Method::Reader(name) => {
            let name = symbol(st, name)?;
            Some(Method::Reader(name))
        }
        Method::Writer(name) => {
            let name = symbol(st, name)?;
            Some(Method::Writer(name))
        }
        Method::Block(id) => {
            let id = proc(st, id)?;
            Some(Method::Block(id))
        }
        Method::Body { code, scope } => Some(Method::Body { code, scope }),
        Method::Core(row) => Some(Method::Core(row)),
        Method::Undefined => Some(Method::Undefined),
    }
}
