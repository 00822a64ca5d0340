//! Strings and Symbols with what is put in them.
ghost use Rattle.std.specs.Prelude.{◌≡◌, ◌++◌, IfOk, OnOk};
ghost use Rattle.parser_tree.specs.Node as node;
ghost use Rattle.ir_core.specs.View.{core_view};
ghost use Rattle.ir_core.specs.CoreForm as form;
ghost use Rattle.lower_table.specs.Lowering as table;
ghost use Rattle.lower_table.specs.Parts as read;
ghost use Rattle.lower_table.specs.Pieces.{piece_core};
ghost use Rattle.parser_tree.specs.PartsBy.{piece_by, pieces_by};
ghost use Rattle.ir_core.specs.Parts as part;

use crate::lower::Lower;
use ir_builder::calls::text_item;
use ir_builder::control::text;
use ir_builder::leaf::{string, symbol};
use ir_core::{Core, Local, Term};
use parser_tree::Piece;
use rb_syntax::Item;
use std::alloc::{AllocError, Global};

/// Whether a piece is no bytes of the text.
fn puts_in<T: Lower>(piece: &Piece<Box<T>>) -> bool
    ensures { result ≡ read.is_tree (piece_by T.node piece.now) }
{
    match piece {
        Piece::Text(_) => false,
        Piece::Interpolation(_) => true,
    }
}

/// Whether nothing is put in.
fn is_literal<T: Lower>(pieces: &[Piece<Box<T>>]) -> bool
    ensures { result ≡ read.is_literal (pieces_by T.node pieces.now) }
{
    for piece in pieces {
        if puts_in(piece) {
            return false;
        }
    }
    true
}

#[tactic(auto, using(crate::proofs::Wholes::wholes))]
fn add_bytes<T: Lower>(bytes: &mut Vec<u8>, piece: &Piece<Box<T>>) -> Result<(), AllocError>
    ensures { OnOk result (bytes.new.items ≡ bytes.old.items ++ read.bytes_of (piece_by T.node piece.now)) }
{
    match piece {
        Piece::Text(text) => {
            bytes.extend_from_slice(text.as_slice())?;
            Ok(())
        }
        Piece::Interpolation(_) => Ok(()),
    }
}

/// The bytes of pieces.
#[tactic(auto, using(crate::proofs::Turns::list_turns))]
fn joined<T: Lower>(alloc: Global, pieces: &[Piece<Box<T>>]) -> Result<Vec<u8>, AllocError>
    ensures { IfOk result (λ v. v.items ≡ read.joined (pieces_by T.node pieces.now)) }
{
    let mut bytes = Vec::new(alloc);
    for piece in pieces {
        add_bytes(&mut bytes, piece)?;
    }
    Ok(bytes)
}

fn lower_piece<T: Lower>(
    alloc: Global,
    passed: &[Item<Local>],
    depth: usize,
    piece: &Piece<Box<T>>,
) -> Result<Core, AllocError>
    ensures { IfOk result (λ c. core_view c ≡ piece_core (table.passes passed.now) depth (piece_by T.node piece.now)) }
{
    match piece {
        Piece::Text(bytes) => string(alloc, bytes.as_slice()),
        Piece::Interpolation(e) => {
            let value = e.lower(alloc, passed, depth)?;
            text_item(alloc, value)
        }
    }
}

#[tactic(auto, using(ir_core::proofs::Lists::form_turns))]
fn lower_pieces<T: Lower>(
    alloc: Global,
    passed: &[Item<Local>],
    depth: usize,
    pieces: &[Piece<Box<T>>],
) -> Result<Vec<Core>, AllocError>
    ensures { IfOk result (λ v. part.cores v.items ≡
        table.pieces (table.passes passed.now) depth (pieces_by T.node pieces.now)) }
{
    let mut all = Vec::new(alloc);
    for piece in pieces {
        let core = lower_piece(alloc, passed, depth, piece)?;
        all.push(core)?;
    }
    Ok(all)
}

/// The text of pieces.
fn lower_put_in<T: Lower>(
    alloc: Global,
    passed: &[Item<Local>],
    depth: usize,
    pieces: &[Piece<Box<T>>],
) -> Result<Core, AllocError>
    ensures { IfOk result (λ c. core_view c ≡
        form.text (table.pieces (table.passes passed.now) depth (pieces_by T.node pieces.now))) }
{
    let pieces = lower_pieces(alloc, passed, depth, pieces)?;
    text(alloc, pieces)
}

/// A String: its bytes where nothing is put in.
pub fn lower_text<T: Lower>(
    alloc: Global,
    passed: &[Item<Local>],
    depth: usize,
    pieces: &Vec<Piece<Box<T>>>,
) -> Result<Core, AllocError>
    ensures { IfOk result (λ c. core_view c ≡
        table.core (table.passes passed.now) depth (node.text (pieces_by T.node pieces.now.items))) }
{
    if is_literal(pieces) {
        let bytes = joined(alloc, pieces)?;
        string(alloc, &bytes)
    } else {
        lower_put_in(alloc, passed, depth, pieces)
    }
}

/// A Symbol in quotes.
pub fn lower_symbol_text<T: Lower>(
    alloc: Global,
    passed: &[Item<Local>],
    depth: usize,
    pieces: &Vec<Piece<Box<T>>>,
) -> Result<Core, AllocError>
    ensures { IfOk result (λ c. core_view c ≡
        table.core (table.passes passed.now) depth (node.symbol_text (pieces_by T.node pieces.now.items))) }
{
    if is_literal(pieces) {
        let name = joined(alloc, pieces)?;
        symbol(alloc, &name)
    } else {
        let text = lower_put_in(alloc, passed, depth, pieces)?;
        Term::Intern(text).into_core(alloc)
    }
}
