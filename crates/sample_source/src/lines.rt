//! The lines of a sample.
ghost use Rattle.std.specs.Prelude.{◌≡◌, ◌++◌, ◌≤◌, decimal, OnOk, IfOk};
ghost use Rattle.sample_source.specs.Sample as sample;

use itoa::Buffer;
use std::alloc::{AllocError, Global};

/// How many methods a sample may have.
pub const LARGEST: u64 = 200;

/// Puts a number behind a text, in decimal digits.
fn add_number(text: &mut Vec<u8>, number: u64) -> Result<(), AllocError>
    ensures { OnOk result (text.new.items ≡ text.old.items ++ decimal number) }
{
    let mut digits = Buffer::new();
    text.extend_from_slice(digits.format(number).as_bytes())
}

/// Puts the factors for a number behind a text.
#[tactic(auto, unfolding(crate::specs::Sample::factors))]
fn add_factors(text: &mut Vec<u8>, number: u64) -> Result<(), AllocError>
    requires { number ≤ 200 }
    ensures { OnOk result (text.new.items ≡ text.old.items ++ sample.factors number) }
{
    add_number(text, 3 * number + 1)?;
    text.extend_from_slice(b", ")?;
    add_number(text, 5 * number + 2)?;
    text.extend_from_slice(b", ")?;
    add_number(text, 7 * number + 3)
}

/// Puts the head of the method of a number behind a text.
#[tactic(auto, unfolding(crate::specs::Sample::head))]
fn add_head(text: &mut Vec<u8>, number: u64) -> Result<(), AllocError>
    requires { number ≤ 200 }
    ensures { OnOk result (text.new.items ≡ text.old.items ++ sample.head number) }
{
    text.extend_from_slice(b"def m")?;
    add_number(text, number)?;
    text.extend_from_slice(b"(a); [")?;
    add_factors(text, number)
}

/// Puts the block that takes the factors behind a text, up to the number that it adds.
#[tactic(auto, unfolding(crate::specs::Sample::block_begin))]
fn add_block_begin(text: &mut Vec<u8>) -> Result<(), AllocError>
    ensures { OnOk result (text.new.items ≡ text.old.items ++ sample.block_begin) }
{
    text.extend_from_slice(b"].each { |v| ")?;
    text.extend_from_slice(b"a = (a * v + ")
}

/// Puts the end of that block and of its method behind a text.
#[tactic(auto, unfolding(crate::specs::Sample::block_end))]
fn add_block_end(text: &mut Vec<u8>) -> Result<(), AllocError>
    ensures { OnOk result (text.new.items ≡ text.old.items ++ sample.block_end) }
{
    text.extend_from_slice(b") % 65536 }")?;
    text.extend_from_slice(b"; a; end\n")
}

/// Puts what stands behind the factors of the method of a number behind a text.
#[tactic(auto, unfolding(crate::specs::Sample::body))]
fn add_body(text: &mut Vec<u8>, number: u64) -> Result<(), AllocError>
    ensures { OnOk result (text.new.items ≡ text.old.items ++ sample.body number) }
{
    add_block_begin(text)?;
    add_number(text, number)?;
    add_block_end(text)
}

/// Puts the method of a number behind a text.
#[tactic(auto, unfolding(crate::specs::Sample::method_line))]
fn add_method(text: &mut Vec<u8>, number: u64) -> Result<(), AllocError>
    requires { number ≤ 200 }
    ensures { OnOk result (text.new.items ≡ text.old.items ++ sample.method_line number) }
{
    add_head(text, number)?;
    add_body(text, number)
}

/// Puts the call of the method of a number behind a text.
#[tactic(auto, unfolding(crate::specs::Sample::call_line))]
fn add_call(text: &mut Vec<u8>, number: u64) -> Result<(), AllocError>
    ensures { OnOk result (text.new.items ≡ text.old.items ++ sample.call_line number) }
{
    text.extend_from_slice(b"  s = m")?;
    add_number(text, number)?;
    text.extend_from_slice(b"(s)\n")
}

/// Puts the methods of the numbers from 1 on behind a text.
fn add_methods(text: &mut Vec<u8>, count: u64) -> Result<(), AllocError>
    requires { count ≤ 200 }
    ensures { OnOk result (text.new.items ≡ text.old.items ++ sample.lines sample.method_line count) }
{
    'methods: for before in 0..count {
        add_method(text, before + 1)?;
    }
    Ok(())
}

/// Puts their calls behind a text.
fn add_calls(text: &mut Vec<u8>, count: u64) -> Result<(), AllocError>
    requires { count ≤ 200 }
    ensures { OnOk result (text.new.items ≡ text.old.items ++ sample.lines sample.call_line count) }
{
    'calls: for before in 0..count {
        add_call(text, before + 1)?;
    }
    Ok(())
}

/// The source of a sample with so many methods, at most [`LARGEST`]. The error is that memory ran out.
pub fn sample_source(alloc: Global, count: u64) -> Result<Vec<u8>, AllocError>
    requires { count ≤ 200 }
    ensures { IfOk result (λ source. source.items ≡ sample.source count) }
{
    let mut text = Vec::new(alloc);
    add_methods(&mut text, count)?;
    text.extend_from_slice(b"s = 1\n")?;
    add_number(&mut text, count)?;
    text.extend_from_slice(b".times do\n")?;
    add_calls(&mut text, count)?;
    text.extend_from_slice(b"end\nputs s\n")?;
    Ok(text)
}
