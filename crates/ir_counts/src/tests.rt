use crate::counts::{Counts, counts_of};
use crate::excess::{Excess, first_past_limit};
use ir_core::{Body, Core, Local, Parameters, Program, Receiver, Term};
use rb_base::Bytes;
use rb_syntax::{Count, Item};
use std::alloc::{AllocError, Global};
use std::test::Fail;

fn integer(alloc: Global, n: i64) -> Result<Core, AllocError> {
    Term::Int(n).into_core(alloc)
}

/// A call with one item.
fn call(alloc: Global, name: &[u8], item: Item<Core>) -> Result<Core, AllocError> {
    let mut items = Vec::new(alloc);
    items.push(item)?;
    Term::Call {
        receiver: Receiver::OnSelf,
        name: Bytes::from_slice(alloc, name)?,
        items,
    }
    .into_core(alloc)
}

/// A call with one item and a block.
fn block_call(
    alloc: Global,
    name: &[u8],
    item: Item<Core>,
    block: Core,
) -> Result<Core, AllocError> {
    let mut items = Vec::new(alloc);
    items.push(item)?;
    Term::BlockCall {
        receiver: Receiver::OnSelf,
        name: Bytes::from_slice(alloc, name)?,
        items,
        block,
    }
    .into_core(alloc)
}

fn named(alloc: Global, name: &[u8]) -> Result<Local, AllocError> {
    Ok(Local::Named(Bytes::from_slice(alloc, name)?))
}

/// A body with these parameters and locals.
fn body_of(alloc: Global, required: Vec<Local>, locals: Vec<Local>, form: Core) -> Body<Core> {
    let parameters = Parameters {
        required,
        optional: Vec::new(alloc),
        rest: None,
        post: Vec::new(alloc),
        block: None,
    };
    Body {
        parameters,
        locals,
        form,
    }
}

/// A program without locals.
fn program(alloc: Global, form: Core) -> Program {
    body_of(alloc, Vec::new(alloc), Vec::new(alloc), form)
}

/// So many symbols of four bytes each.
fn symbols(alloc: Global, count: u32) -> Result<Core, AllocError> {
    let mut list = Vec::new(alloc);
    for i in 0..count {
        let name = Bytes::from_slice(alloc, &i.to_be_bytes())?;
        list.push(Term::Sym(name).into_core(alloc)?)?;
    }
    Term::Seq(list).into_core(alloc)
}

#[test]
fn counts_of_a_call(rt: HostRuntime) -> Result<(), Fail> {
    // puts 1
    let item = Item::Plain(integer(rt.alloc(), 1)?);
    let program = program(rt.alloc(), call(rt.alloc(), b"puts", item)?);
    let expected = Counts {
        parameters: 0,
        registers: 7,
        pool: 0,
        symbols: 1,
        children: 0,
        code: 48,
        bytes: 124,
    };
    assert_eq!(rt; counts_of(rt.alloc(), &program)?, expected);
    assert_eq!(rt; first_past_limit(rt.alloc(), &program)?, None);
    Ok(())
}

#[test]
fn locals_of_a_program_and_hidden_ones_take_registers(rt: HostRuntime) -> Result<(), Fail> {
    // f(*2147483648) { |x| %0 = y }, where y is a local of the program
    let alloc = rt.alloc();
    let inner = Term::Local(named(alloc, b"y")?).into_core(alloc)?;
    let kept = Term::SetLocal(Local::Hidden(0), inner).into_core(alloc)?;
    let mut required = Vec::new(alloc);
    required.push(named(alloc, b"x")?)?;
    let block = body_of(alloc, required, Vec::new(alloc), kept);
    let expected = Counts {
        parameters: 1,
        registers: 8,
        pool: 0,
        symbols: 0,
        children: 0,
        code: 80,
        bytes: 144,
    };
    assert_eq!(rt; counts_of(alloc, &block)?, expected);
    let block = Term::Fn(Box::new(alloc, block)?).into_core(alloc)?;
    let item = Item::Splat(integer(alloc, 2147483648)?);
    let form = block_call(alloc, b"f", item, block)?;
    let mut locals = Vec::new(alloc);
    locals.push(named(alloc, b"y")?)?;
    let program = body_of(alloc, Vec::new(alloc), locals, form);
    let expected = Counts {
        parameters: 0,
        registers: 10,
        pool: 1,
        symbols: 1,
        children: 1,
        code: 72,
        bytes: 154,
    };
    assert_eq!(rt; counts_of(alloc, &program)?, expected);
    Ok(())
}

#[test]
fn symbols_have_a_limit(rt: HostRuntime) -> Result<(), Fail> {
    let most = program(rt.alloc(), symbols(rt.alloc(), 65535)?);
    assert_eq!(rt; first_past_limit(rt.alloc(), &most)?, None);
    let more = program(rt.alloc(), symbols(rt.alloc(), 65536)?);
    let excess = Excess {
        what: Count::Symbols,
        count: 65536,
    };
    assert_eq!(rt; first_past_limit(rt.alloc(), &more)?, Some(excess));
    Ok(())
}
