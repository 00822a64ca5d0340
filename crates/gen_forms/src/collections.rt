//! Arrays, Hashes and interpolated Strings, which are filled part by part.
ghost use Rattle.std.specs.Prelude.{◌≡◌, OnOk};
ghost use Rattle.ir_core.specs.CoreForm as form;
ghost use Rattle.ir_core.specs.PartsBy as by;
ghost use Rattle.gen_parts.specs.Emission.{with_piece, here};
ghost use Rattle.gen_forms.specs.Gen as gens;
ghost use Rattle.gen_forms.specs.Open as opened;
ghost use Rattle.gen_forms.specs.Gen.{gen};
ghost use Rattle.gen_forms.specs.Around.{context_of};

use crate::context::{Context, text_entry};
use crate::emits::{Emits, Emitted, then_do};
use crate::leaves::two;
use crate::numbers::after;
use gen_parts::Emitter;
use rb_syntax::{Item, Pair};
use rite_code::Operation;

fn gather_item<'s, T: Emits>(
    code: &mut Emitter,
    context: &Context<'_, 's>,
    a: u16,
    item: &'s Item<Box<T>>,
) -> Emitted
    ensures { OnOk result (code.new ≡ with_piece code.old
        (gens.gather (context_of context.now) (here code.old) a (by.item_by T.form item.now form.no_items))) }
{
    let register = after(a, 1)?;
    match item {
        Item::Plain(core) => then_do(
            code,
            context,
            register,
            core,
            Operation::AryPush { a, b: 1 },
        ),
        Item::Splat(core) => then_do(code, context, register, core, Operation::AryCat { a }),
    }
}

/// The Array in a register gets each item.
#[tactic(auto, using(gen_parts::proofs::Laws::piece_laws, crate::proofs::Items::item_laws))]
pub fn gather<'s, T: Emits>(
    code: &mut Emitter,
    context: &Context<'_, 's>,
    a: u16,
    items: &'s Vec<Item<Box<T>>>,
) -> Emitted
    ensures { OnOk result (code.new ≡ with_piece code.old
        (gens.gather (context_of context.now) (here code.old) a (by.items_by T.form items.now.items))) }
{
    for item in items {
        gather_item(code, context, a, item)?;
    }
    Ok(())
}

/// A new Array of the items.
pub fn array<'s, T: Emits>(
    code: &mut Emitter,
    context: &Context<'_, 's>,
    a: u16,
    items: &'s Vec<Item<Box<T>>>,
) -> Emitted
    ensures { OnOk result (code.new ≡ with_piece code.old
        (gen (context_of context.now) (here code.old) a (form.array (by.items_by T.form items.now.items)))) }
{
    code.does(Operation::Array { a, b: 0 })?;
    gather(code, context, a, items)
}

fn gather_pair<'s, T: Emits>(
    code: &mut Emitter,
    context: &Context<'_, 's>,
    a: u16,
    pair: &'s Pair<Box<T>>,
) -> Emitted
    ensures { OnOk result (code.new ≡ with_piece code.old
        (opened.gathered_pair (context_of context.now) (here code.old) a (by.core_by T.form pair.now.key)
        (by.core_by T.form pair.now.value))) }
{
    two(code, context, after(a, 1)?, &pair.key, &pair.value)?;
    code.does(Operation::HashAdd { a, b: 1 })
}

#[tactic(auto, using(gen_parts::proofs::Laws::piece_laws, crate::proofs::Items::turn_laws))]
fn gather_pairs<'s, T: Emits>(
    code: &mut Emitter,
    context: &Context<'_, 's>,
    a: u16,
    pairs: &'s Vec<Pair<Box<T>>>,
) -> Emitted
    ensures { OnOk result (code.new ≡ with_piece code.old
        (gens.gather_pairs (context_of context.now) (here code.old) a (by.pairs_by T.form pairs.now.items))) }
{
    for pair in pairs {
        gather_pair(code, context, a, pair)?;
    }
    Ok(())
}

/// A new Hash of the pairs.
pub fn hash<'s, T: Emits>(
    code: &mut Emitter,
    context: &Context<'_, 's>,
    a: u16,
    pairs: &'s Vec<Pair<Box<T>>>,
) -> Emitted
    ensures { OnOk result (code.new ≡ with_piece code.old
        (gen (context_of context.now) (here code.old) a (form.hash (by.pairs_by T.form pairs.now.items)))) }
{
    code.does(Operation::Hash { a, b: 0 })?;
    gather_pairs(code, context, a, pairs)
}

#[tactic(auto, using(gen_parts::proofs::Laws::piece_laws, crate::proofs::Items::turn_laws))]
fn gather_text<'s, T: Emits>(
    code: &mut Emitter,
    context: &Context<'_, 's>,
    a: u16,
    list: &'s Vec<Box<T>>,
) -> Emitted
    ensures { OnOk result (code.new ≡ with_piece code.old
        (gens.gather_text (context_of context.now) (here code.old) a (by.cores_by T.form list.now.items))) }
{
    let register = after(a, 1)?;
    for core in list {
        then_do(code, context, register, core, Operation::StrCat { a })?;
    }
    Ok(())
}

/// A new String of the bytes of the values.
pub fn text<'s, T: Emits>(
    code: &mut Emitter,
    context: &Context<'_, 's>,
    a: u16,
    list: &'s Vec<Box<T>>,
) -> Emitted
    ensures { OnOk result (code.new ≡ with_piece code.old
        (gen (context_of context.now) (here code.old) a (form.text (by.cores_by T.form list.now.items)))) }
{
    let b = text_entry(context, b"")?;
    code.does(Operation::String { a, b })?;
    gather_text(code, context, a, list)
}

/// The elements of an Array from a place on, but for so many at its end.
pub fn rest_of<'s, T: Emits>(
    code: &mut Emitter,
    context: &Context<'_, 's>,
    a: u16,
    array: &'s Box<T>,
    from: u8,
    post: u8,
) -> Emitted
    ensures { OnOk result (code.new ≡ with_piece code.old (gen (context_of context.now) (here code.old) a
        (form.rest_of (by.core_by T.form array.now) from post))) }
{
    let operation = Operation::APost {
        a,
        b: u16::from(from),
        c: i32::from(post),
    };
    then_do(code, context, a, array, operation)
}

/// The last elements of an Array.
pub fn tail_of<'s, T: Emits>(
    code: &mut Emitter,
    context: &Context<'_, 's>,
    a: u16,
    array: &'s Box<T>,
    from: u8,
    count: u8,
) -> Emitted
    ensures { OnOk result (code.new ≡ with_piece code.old (gen (context_of context.now) (here code.old) a
        (form.tail_of (by.core_by T.form array.now) from count))) }
{
    let operation = Operation::APost {
        a,
        b: u16::from(from),
        c: -i32::from(count),
    };
    then_do(code, context, a, array, operation)
}
