//! Printing a scheme.

ghost use Rattle.std.specs.Prelude.{◌≡◌, ◌++◌, ◌&&◌, IfOk, codes};
ghost use Rattle.fl_encode.specs.SchemeShapes.{shape};
ghost use Rattle.fl_encode.specs.Shapes.{in_parentheses, is_plain, order_text, packing_text, scheme_text, width_text};

use crate::scheme::{Child, Packing, Scheme};
use fl_codec::for_::ItemOrder;
use std::alloc::AllocError;

/// Appends the digits of a width.
fn push_width(text: &mut Vec<u8>, width: u8) -> Result<(), AllocError>
    ensures { IfOk result (λ _. text.new.items ≡ text.old.items ++ width_text width) }
{
    if width >= 100 {
        text.push(b'0' + width / 100)?;
    }
    if width >= 10 {
        text.push(b'0' + width / 10 % 10)?;
    }
    text.push(b'0' + width % 10)?;
    Ok(())
}

/// Appends the word for a packing.
fn push_packing(text: &mut Vec<u8>, packing: Packing) -> Result<(), AllocError>
    ensures { IfOk result (λ _. text.new.items ≡ text.old.items ++ packing_text packing) }
{
    match packing {
        Packing::BestWidth => text.extend_from_slice(b"bitpacked"),
        Packing::Width(width) => {
            text.extend_from_slice(b"bitpacked:")?;
            push_width(text, width)
        }
        Packing::BestWidths => text.extend_from_slice(b"blocked"),
    }
}

/// Appends what the word for a frame of reference ends in.
fn push_order(text: &mut Vec<u8>, order: ItemOrder) -> Result<(), AllocError>
    ensures { IfOk result (λ _. text.new.items ≡ text.old.items ++ order_text order) }
{
    match order {
        ItemOrder::Natural => Ok(()),
        ItemOrder::Signed => text.extend_from_slice(b"w"),
    }
}

/// Appends the text of a child.
#[cycle(push)]
fn push_child(text: &mut Vec<u8>, child: &Child) -> Result<(), AllocError>
    ensures { IfOk result (λ _. text.new.items ≡ text.old.items ++ scheme_text child.now) }
{
    match child.scheme() {
        None => text.extend_from_slice(b"_"),
        Some(scheme) => push_scheme(text, scheme),
    }
}

/// Appends the one child in parentheses, unless it is plain.
#[cycle(push)]
fn push_one(text: &mut Vec<u8>, child: &Child) -> Result<(), AllocError>
    ensures { IfOk result (λ _. text.new.items ≡ text.old.items ++ in_parentheses (is_plain child.now) (scheme_text child.now)) }
{
    if child.is_plain() {
        return Ok(());
    }
    text.push(b'(')?;
    push_child(text, child)?;
    text.push(b')')?;
    Ok(())
}

/// Appends the two children in parentheses, unless both are plain.
#[cycle(push)]
fn push_two(text: &mut Vec<u8>, first: &Child, second: &Child) -> Result<(), AllocError>
    ensures { IfOk result (λ _. text.new.items ≡ text.old.items ++ in_parentheses (is_plain first.now && is_plain second.now) (scheme_text first.now ++ (codes "," ++ scheme_text second.now))) }
{
    if first.is_plain() && second.is_plain() {
        return Ok(());
    }
    text.push(b'(')?;
    push_child(text, first)?;
    text.push(b',')?;
    push_child(text, second)?;
    text.push(b')')?;
    Ok(())
}

/// Appends the three children in parentheses, unless all are plain.
#[cycle(push)]
fn push_three(
    text: &mut Vec<u8>,
    first: &Child,
    second: &Child,
    third: &Child,
) -> Result<(), AllocError>
    ensures { IfOk result (λ _. text.new.items ≡ text.old.items ++ in_parentheses (is_plain first.now && (is_plain second.now && is_plain third.now)) (scheme_text first.now ++ (codes "," ++ (scheme_text second.now ++ (codes "," ++ scheme_text third.now))))) }
{
    if first.is_plain() && second.is_plain() && third.is_plain() {
        return Ok(());
    }
    text.push(b'(')?;
    push_child(text, first)?;
    text.push(b',')?;
    push_child(text, second)?;
    text.push(b',')?;
    push_child(text, third)?;
    text.push(b')')?;
    Ok(())
}

/// Appends the text of a scheme.
#[cycle(push)]
pub(crate) fn push_scheme(text: &mut Vec<u8>, scheme: &Scheme) -> Result<(), AllocError>
    ensures { IfOk result (λ _. text.new.items ≡ text.old.items ++ scheme_text (shape scheme.now)) }
{
    match scheme {
        Scheme::Primitive => text.extend_from_slice(b"primitive"),
        Scheme::Constant => text.extend_from_slice(b"constant"),
        Scheme::BitPacked(packing) => push_packing(text, *packing),
        Scheme::FoR { order, encoded } => {
            text.extend_from_slice(b"for")?;
            push_order(text, *order)?;
            push_one(text, encoded)
        }
        Scheme::FoRChunked {
            order,
            encoded,
            references,
        } => {
            text.extend_from_slice(b"forc")?;
            push_order(text, *order)?;
            push_two(text, encoded, references)
        }
        Scheme::Delta { bases, deltas } => {
            text.extend_from_slice(b"delta")?;
            push_two(text, bases, deltas)
        }
        Scheme::RLE {
            values,
            indices,
            offsets,
        } => {
            text.extend_from_slice(b"rle")?;
            push_three(text, values, indices, offsets)
        }
        Scheme::Dict {
            values,
            indices,
            offsets,
        } => {
            text.extend_from_slice(b"dict")?;
            push_three(text, values, indices, offsets)
        }
    }
}
