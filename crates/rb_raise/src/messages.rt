//! The texts of the exceptions that the language itself raises.
ghost use Rattle.std.specs.Prelude.{◌≡◌, ◌++◌, IfOk, codes};
ghost use Rattle.def_core.specs.Store.{name_at};
ghost use Rattle.def_core.specs.Sound.{Sound, census, Is, ClassOrModule, String, IsSymbol, OptionIs};
ghost use Rattle.def_core.specs.Texts as texts;
ghost use Rattle.rb_raise.specs.Causes.{SoundCause};

use crate::text::Text;
use def_core::Cause;
use rb_store::Store;
use rb_value::{ClassForm, KindRef, ObjId, SymId};
use std::alloc::AllocError;

/// What is shown of a class or module without a name.
fn anonymous(form: ClassForm) -> &'static [u8]
    ensures { result.now ≡ texts.anonymous form }
{
    match form {
        ClassForm::Class | ClassForm::Singleton => b"#<Class>",
        ClassForm::Module => b"#<Module>",
    }
}

/// What texts show of a class or module: its name, or `#<Class>` or `#<Module>` where it has none. It takes no memory.
#[tactic(auto, unfolding(def_core::specs::Texts::class_name), using(def_core::proofs::Good::is_good, crate::proofs::Names::named_by_symbol))]
pub fn class_name(st: &Store, class: ObjId) -> &[u8]
    requires sound { Sound st.now.store }
    requires class { Is (census st.now.store) ClassOrModule class }
    ensures { result.now ≡ texts.class_name st.now.store class }
{
    match st.get(class).kind() {
        KindRef::Class(contents) => match contents.get().name {
            Some(name) => st.symbol_name(name),
            None => anonymous(contents.get().form),
        },
        _ => anonymous(ClassForm::Module),
    }
}

/// The name of a symbol.
fn name(st: &Store, symbol: SymId) -> &[u8]
    requires { IsSymbol (census st.now.store) symbol }
    ensures { result.now ≡ name_at st.now.store symbol }
{
    st.symbol_name(symbol)
}

/// The bytes of a String.
#[tactic(auto, using(def_core::proofs::Good::is_good, def_core::proofs::Roles::is_plays))]
fn bytes_of(st: &Store, string: ObjId) -> &[u8]
    requires { Is (census st.now.store) String string }
    ensures { result.now ≡ texts.bytes_at st.now.store.objects string }
{
    match st.get(string).kind() {
        KindRef::String(bytes) => bytes,
        _ => unreachable!(),
    }
}

/// A text with the name of a symbol and that of a class.
fn about(
    st: &Store,
    before: &[u8],
    symbol: SymId,
    between: &[u8],
    class: ObjId,
) -> Result<Text, AllocError>
    requires sound { Sound st.now.store }
    requires symbol { IsSymbol (census st.now.store) symbol }
    requires class { Is (census st.now.store) ClassOrModule class }
    ensures { IfOk result (λ text. text ≡ texts.about before.now st.now.store symbol between.now class) }
{
    Text::of(st.alloc(), before)?
        .with(name(st, symbol))?
        .with(between)?
        .with(class_name(st, class))
}

/// A text that ends with the name of a symbol.
fn named(st: &Store, before: &[u8], symbol: SymId) -> Result<Text, AllocError>
    requires { IsSymbol (census st.now.store) symbol }
    ensures { IfOk result (λ text. text ≡ before.now ++ name_at st.now.store symbol) }
{
    Text::of(st.alloc(), before)?.with(name(st, symbol))
}

/// A text with the names of two classes.
fn between_classes(
    st: &Store,
    before: &[u8],
    left: ObjId,
    between: &[u8],
    right: ObjId,
) -> Result<Text, AllocError>
    requires sound { Sound st.now.store }
    requires left { Is (census st.now.store) ClassOrModule left }
    requires right { Is (census st.now.store) ClassOrModule right }
    ensures { IfOk result (λ text.
        text ≡ before.now ++ texts.class_name st.now.store left ++ between.now ++ texts.class_name st.now.store right) }
{
    Text::of(st.alloc(), before)?
        .with(class_name(st, left))?
        .with(between)?
        .with(class_name(st, right))
}

/// The text of a constant that isn't found.
#[tactic(auto, using(std::proofs::Common::append_assoc))]
fn constant(st: &Store, scope: Option<ObjId>, symbol: SymId) -> Result<Text, AllocError>
    requires sound { Sound st.now.store }
    requires scope { OptionIs (Is (census st.now.store) ClassOrModule) scope }
    requires symbol { IsSymbol (census st.now.store) symbol }
    ensures { IfOk result (λ text.
        text ≡ codes "uninitialized constant " ++ texts.scope_text st.now.store scope ++ name_at st.now.store symbol) }
{
    let before = Text::of(st.alloc(), b"uninitialized constant ")?;
    let scoped = match scope {
        Some(class) => before.with(class_name(st, class))?.with(b"::")?,
        None => before,
    };
    scoped.with(name(st, symbol))
}

/// A text with the number of arguments that is expected after it.
#[tactic(auto, using(std::proofs::Common::append_assoc))]
fn with_expected(text: Text, least: u64, most: Option<u64>) -> Result<Text, AllocError>
    ensures { IfOk result (λ longer. longer ≡ text ++ texts.expected_text least most) }
{
    match most {
        None => text.with_number(least)?.with(b"+"),
        Some(most) => {
            if least == most {
                text.with_number(least)
            } else {
                text.with_number(least)?.with(b"..")?.with_number(most)
            }
        }
    }
}

/// The text of a wrong number of arguments.
#[tactic(auto, unfolding(def_core::specs::Texts::text_of))]
fn wrong_count(st: &Store, given: u64, least: u64, most: Option<u64>) -> Result<Text, AllocError>
    ensures { IfOk result (λ text. text ≡ texts.text_of st.now.store (Cause.WrongCount given least most)) }
{
    let before = Text::of(st.alloc(), b"wrong number of arguments (given ")?
        .with_number(given)?
        .with(b", expected ")?;
    with_expected(before, least, most)?.with(b")")
}

/// The text of a cause.
#[tactic(auto, unfolding(def_core::specs::Texts::text_of))]
pub(crate) fn text_of(st: &Store, cause: Cause) -> Result<Text, AllocError>
    requires sound { Sound st.now.store }
    requires cause { SoundCause (census st.now.store) cause }
    ensures { IfOk result (λ text. text ≡ texts.text_of st.now.store cause) }
{
    match cause {
        Cause::UndefinedMethod { name, class } => about(
            st,
            b"undefined method '",
            name,
            b"' for ",
            class,
        ),
        Cause::PrivateMethod { name, class } => about(
            st,
            b"private method '",
            name,
            b"' called for ",
            class,
        ),
        Cause::ProtectedMethod { name, class } => about(
            st,
            b"protected method '",
            name,
            b"' called for ",
            class,
        ),
        Cause::NoSuperMethod { name, class } => about(
            st,
            b"super: no superclass method '",
            name,
            b"' for ",
            class,
        ),
        Cause::UndefinedName { name, class } => about(
            st,
            b"undefined local variable or method '",
            name,
            b"' for ",
            class,
        ),
        Cause::UndefinedInClass { name, class } => about(
            st,
            b"undefined method '",
            name,
            b"' for class '",
            class,
        )?.with(b"'"),
        Cause::UninitializedConstant { scope, name } => constant(st, scope, name),
        Cause::WrongCount { given, least, most } => wrong_count(st, given, least, most),
        Cause::Incomparable { left, right } => between_classes(
            st,
            b"comparison of ",
            left,
            b" with ",
            right,
        )?.with(b" failed"),
        Cause::Expected { class, got } => between_classes(st, b"expected ", class, b", got ", got),
        Cause::WrongValue(symbol) => named(st, b"wrong value for ", symbol),
        Cause::SuperclassMismatch(symbol) => named(st, b"superclass mismatch for class ", symbol),
        Cause::NotClass(symbol) => Text::of(st.alloc(), name(st, symbol))?.with(b" is not a class"),
        Cause::NotModule(symbol) => Text::of(st.alloc(), name(st, symbol))?.with(
            b" is not a module",
        ),
        Cause::IndexOutOfRange(index) => Text::of(st.alloc(), b"index ")?
            .with_signed(index)?
            .with(b" out of range"),
        Cause::CharOutOfRange(number) => Text::of(st.alloc(), b"")?
            .with_signed(number)?
            .with(b" out of char range"),
        Cause::KeyNotFound(key) => Text::of(st.alloc(), b"key not found: ")?.with(bytes_of(
            st, key,
        )),
        Cause::SuperOutside => Text::of(st.alloc(), b"super called outside of method"),
        Cause::NegativeExponent => Text::of(st.alloc(), b"negative exponent"),
        Cause::NoBlockGiven => Text::of(st.alloc(), b"no block given"),
        Cause::ComparisonFailed => Text::of(st.alloc(), b"comparison failed"),
        Cause::BadRange => Text::of(st.alloc(), b"bad value for range"),
        Cause::InvalidInteger => Text::of(st.alloc(), b"invalid value for Integer"),
        Cause::StatusOutOfRange => Text::of(st.alloc(), b"status out of range"),
        Cause::ArrayTooBig => Text::of(st.alloc(), b"array size too big"),
        Cause::NegativeCount => Text::of(st.alloc(), b"negative count"),
        Cause::BadBase => Text::of(st.alloc(), b"bad base"),
        Cause::TooFewItems => Text::of(st.alloc(), b"too few items"),
        Cause::RescueNotClass => Text::of(
            st.alloc(),
            b"class or module required for rescue clause",
        ),
        Cause::NotException => Text::of(st.alloc(), b"exception class or object expected"),
        Cause::SuperclassNotClass => Text::of(st.alloc(), b"superclass must be a Class"),
        Cause::NoSingleton => Text::of(st.alloc(), b"can't define singleton"),
        Cause::NoVariable => Text::of(st.alloc(), b"can't set instance variable"),
        Cause::IntegerOverflow => Text::of(st.alloc(), b"integer overflow"),
        Cause::StringTooLong => Text::of(st.alloc(), b"string too long"),
        Cause::DividedByZero => Text::of(st.alloc(), b"divided by 0"),
        Cause::UnexpectedReturn => Text::of(st.alloc(), b"unexpected return"),
        Cause::BreakFromProc => Text::of(st.alloc(), b"break from proc-closure"),
        Cause::NoBlockToYield => Text::of(st.alloc(), b"no block given (yield)"),
        Cause::DeadFiber => Text::of(st.alloc(), b"dead fiber called"),
        Cause::DoubleResume => Text::of(st.alloc(), b"double resume"),
        Cause::RootYield => Text::of(st.alloc(), b"can't yield from root fiber"),
        Cause::IterationEnd { result: _ } => Text::of(st.alloc(), b"iteration reached an end"),
        Cause::StackTooDeep => Text::of(st.alloc(), b"stack level too deep"),
        Cause::Exit { status: _ } => Text::of(st.alloc(), b"exit"),
        Cause::Unhandled => Text::of(st.alloc(), b"unhandled exception"),
    }
}
