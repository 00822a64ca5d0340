//! Calls of methods of Symbol, nil, true and false, and of `String.new`.
ghost use Rattle.std.specs.Prelude.{◌≡◌};
ghost use Rattle.def_core.specs.Sound.{Sound};

use super::*;
use core_methods::call;
use row_table::line_at;

/// The class String.
const STRING: Value = Obj(ObjId(11));

/// The row of `String.new`.
const NEW_STRING: u16 = 23 * 256;

/// A call of nil, true or false: the class, the name of the method, the receiver, the arguments, and what it gives.
type PlainCase = (CoreClass, &'static [u8], Value, &'static [Value], Wanted);

/// A call of a Symbol without arguments: the name of the method, that of the Symbol, and what it gives.
type SymbolCase = (&'static [u8], &'static [u8], Wanted);

const GIVEN_0_FOR_1: Wanted = Raises(
    CoreClass::ArgumentError,
    b"wrong number of arguments (given 0, expected 1)",
);

static PLAIN: [PlainCase; 30] = [
    (CoreClass::NilClass, b"to_s", Nil, &[], Text(b"")),
    (CoreClass::NilClass, b"inspect", Nil, &[], Text(b"nil")),
    (CoreClass::NilClass, b"&", Nil, &[True], NO),
    (CoreClass::NilClass, b"|", Nil, &[Int(0)], YES),
    (CoreClass::NilClass, b"|", Nil, &[False], NO),
    (CoreClass::NilClass, b"^", Nil, &[True], YES),
    (CoreClass::NilClass, b"^", Nil, &[Nil], NO),
    (CoreClass::NilClass, b"to_a", Nil, &[], Texts(&[])),
    (CoreClass::NilClass, b"to_i", Nil, &[], Gives(Int(0))),
    (CoreClass::NilClass, b"&", Nil, &[], GIVEN_0_FOR_1),
    (CoreClass::TrueClass, b"to_s", True, &[], Text(b"true")),
    (CoreClass::TrueClass, b"inspect", True, &[], Text(b"true")),
    (CoreClass::TrueClass, b"&", True, &[Int(1)], YES),
    (CoreClass::TrueClass, b"&", True, &[Nil], NO),
    (CoreClass::TrueClass, b"|", True, &[False], YES),
    (CoreClass::TrueClass, b"^", True, &[True], NO),
    (CoreClass::TrueClass, b"^", True, &[False], YES),
    (CoreClass::TrueClass, b"^", True, &[], GIVEN_0_FOR_1),
    (CoreClass::FalseClass, b"to_s", False, &[], Text(b"false")),
    (
        CoreClass::FalseClass,
        b"inspect",
        False,
        &[],
        Text(b"false"),
    ),
    (CoreClass::FalseClass, b"&", False, &[True], NO),
    (CoreClass::FalseClass, b"|", False, &[True], YES),
    (CoreClass::FalseClass, b"|", False, &[Nil], NO),
    (CoreClass::FalseClass, b"^", False, &[Int(1)], YES),
    (CoreClass::FalseClass, b"^", False, &[False], NO),
    (CoreClass::FalseClass, b"|", False, &[], GIVEN_0_FOR_1),
    (
        CoreClass::NilClass,
        b"to_s",
        Int(1),
        &[],
        Raises(CoreClass::TypeError, b"expected NilClass, got Integer"),
    ),
    (
        CoreClass::TrueClass,
        b"&",
        False,
        &[True],
        Raises(CoreClass::TypeError, b"expected TrueClass, got FalseClass"),
    ),
    (
        CoreClass::String,
        b"length",
        Nil,
        &[],
        Raises(CoreClass::TypeError, b"expected String, got NilClass"),
    ),
    (
        CoreClass::Symbol,
        b"length",
        Int(1),
        &[],
        Raises(CoreClass::TypeError, b"expected Symbol, got Integer"),
    ),
];

static SYMBOLS: [SymbolCase; 33] = [
    (b"to_s", b"abc", Text(b"abc")),
    (b"to_s", b"", Text(b"")),
    (b"to_sym", b"abc", Name(b"abc")),
    (b"length", b"abc", Gives(Int(3))),
    (b"size", b"\xc3\xa9", Gives(Int(2))),
    (b"inspect", b"abc", Text(b":abc")),
    (b"inspect", b"Abc9", Text(b":Abc9")),
    (b"inspect", b"_", Text(b":_")),
    (b"inspect", b"nil", Text(b":nil")),
    (b"inspect", b"empty?", Text(b":empty?")),
    (b"inspect", b"map!", Text(b":map!")),
    (b"inspect", b"name=", Text(b":name=")),
    (b"inspect", b"@name", Text(b":@name")),
    (b"inspect", b"$name", Text(b":$name")),
    (b"inspect", b"@name=", Text(b":\"@name=\"")),
    (b"inspect", b"@", Text(b":\"@\"")),
    (b"inspect", b"$", Text(b":\"$\"")),
    (b"inspect", b"a?=", Text(b":\"a?=\"")),
    (b"inspect", b"9a", Text(b":\"9a\"")),
    (b"inspect", b"a b", Text(b":\"a b\"")),
    (b"inspect", b"a-b", Text(b":\"a-b\"")),
    (b"inspect", b"", Text(b":\"\"")),
    (b"inspect", b"?", Text(b":\"?\"")),
    (b"inspect", b"=", Text(b":\"=\"")),
    (b"inspect", b"!", Text(b":!")),
    (b"inspect", b"<=>", Text(b":<=>")),
    (b"inspect", b"[]=", Text(b":[]=")),
    (b"inspect", b"+@", Text(b":+@")),
    (b"inspect", b"&&", Text(b":\"&&\"")),
    (b"inspect", b"a\"b", Text(b":\"a\\\"b\"")),
    (b"inspect", b"a\n", Text(b":\"a\\n\"")),
    (b"inspect", b"#{", Text(b":\"\\#{\"")),
    (b"inspect", b"\xc3\xa9", Text(b":\"\\xC3\\xA9\"")),
];

/// The row that a class has under a name in the store at the start.
fn found(alloc: Global, class: CoreClass, name: &[u8]) -> Result<Option<u16>, AllocError> {
    let mut names = opened(alloc)?;
    let symbol = names.intern(name)?;
    Ok(row_of(&names, class, symbol))
}

/// Whether a call of nil, true or false gives what it is to.
fn is_plain_right(alloc: Global, case: &PlainCase) -> Result<bool, AllocError> {
    let (class, name, receiver, args, wanted) = *case;
    let Some(row) = found(alloc, class, name)? else {
        return Ok(false);
    };
    let mut st = opened(alloc)?;
    match called(&mut st, row, receiver, args)? {
        Some(outcome) => is_wanted(&mut st, outcome, receiver, Nil, wanted),
        None => Ok(false),
    }
}

/// The number of the first call of nil, true or false that gives something else.
fn first_wrong_plain(alloc: Global, cases: &[PlainCase]) -> Result<Option<usize>, AllocError> {
    'cases: for (i, case) in cases.iter().enumerate() {
        if !is_plain_right(alloc, case)? {
            return Ok(Some(i));
        }
    }
    Ok(None)
}

#[test]
fn nil_true_and_false_give_what_ruby_gives(rt: HostRuntime) -> Result<(), AllocError> {
    assert_eq!(rt; first_wrong_plain(rt.alloc(), &PLAIN)?, None);
    Ok(())
}

/// Whether a call of a Symbol gives what it is to.
fn is_symbol_right(alloc: Global, case: &SymbolCase) -> Result<bool, AllocError> {
    let (name, symbol, wanted) = *case;
    let Some(row) = found(alloc, CoreClass::Symbol, name)? else {
        return Ok(false);
    };
    if line_at(row).is_none() {
        return Ok(false);
    }
    let mut st = opened(alloc)?;
    let receiver = Sym(st.intern(symbol)?);
    let outcome = call(&mut st, row, receiver, &[], None)?;
    is_wanted(&mut st, outcome, receiver, Nil, wanted)
}

/// The number of the first call of a Symbol that gives something else.
fn first_wrong_symbol(alloc: Global, cases: &[SymbolCase]) -> Result<Option<usize>, AllocError> {
    'cases: for (i, case) in cases.iter().enumerate() {
        if !is_symbol_right(alloc, case)? {
            return Ok(Some(i));
        }
    }
    Ok(None)
}

#[test]
fn symbols_give_what_ruby_gives(rt: HostRuntime) -> Result<(), AllocError> {
    assert_eq!(rt; first_wrong_symbol(rt.alloc(), &SYMBOLS)?, None);
    Ok(())
}

/// `symbol <=> other`, where there are such Symbols.
fn order(alloc: Global, symbol: &[u8], other: &[u8]) -> Result<Option<Outcome>, AllocError> {
    let Some(row) = found(alloc, CoreClass::Symbol, b"<=>")? else {
        return Ok(None);
    };
    if line_at(row).is_none() {
        return Ok(None);
    }
    let mut st = opened(alloc)?;
    let first = st.intern(symbol)?;
    let second = st.intern(other)?;
    Ok(Some(call(&mut st, row, Sym(first), &[Sym(second)], None)?))
}

#[test]
fn symbols_are_in_the_order_of_their_names(rt: HostRuntime) -> Result<(), AllocError> {
    let alloc = rt.alloc();
    assert!(rt; order(alloc, b"a", b"b")? == Some(Outcome::Value(Int(-1))));
    assert!(rt; order(alloc, b"b", b"a")? == Some(Outcome::Value(Int(1))));
    assert!(rt; order(alloc, b"a", b"a")? == Some(Outcome::Value(Int(0))));
    Ok(())
}

/// Whether `String.new` with these arguments gives what it is to.
fn is_new(alloc: Global, operands: &[Operand], wanted: Wanted) -> Result<bool, AllocError> {
    let mut st = opened(alloc)?;
    let args = values_of(&mut st, operands)?;
    match called(&mut st, NEW_STRING, STRING, args.as_slice())? {
        Some(outcome) => is_wanted(&mut st, outcome, STRING, Nil, wanted),
        None => Ok(false),
    }
}

#[test]
fn new_strings_have_the_bytes_of_the_argument(rt: HostRuntime) -> Result<(), AllocError> {
    let alloc = rt.alloc();
    let given_nil = Raises(CoreClass::TypeError, b"expected String, got NilClass");
    assert!(rt; is_new(alloc, &[], Text(b""))?);
    assert!(rt; is_new(alloc, &[Letters(b"abc")], Text(b"abc"))?);
    assert!(rt; is_new(alloc, &[Nothing], given_nil)?);
    Ok(())
}
