//! Reading a scheme.

ghost use Rattle.std.specs.Prelude.{◌≡◌, ◌+◌, ◌≤◌, IfOk, Ok, false, is_some, length, codes};
ghost use Rattle.std.specs.Option.{option_copied};
ghost use Rattle.fl_encode.specs.declared.text.reading.Stop.TheVariants.{OutOfMemory};
ghost use Rattle.fl_encode.specs.SchemeShapes.{shape};
ghost use Rattle.fl_encode.specs.Shapes.{max_levels};
ghost use Rattle.fl_encode.specs.Texts.{Finds, RunsOutIf, after, child_by, common, digits_behind, expected, frame_in, furthest, head_in, nested_head_in, one_by, order_in, packing_behind, rest_behind, says_children, scheme_by, scheme_in, tail_behind, three_by, two_by, whole, width_in};

use crate::scheme::{Child, Packing, Scheme};
use crate::text::MAX_LEVELS;
use fl_codec::for_::ItemOrder;
use std::alloc::{AllocError, Global};

/// Where reading stopped.
#[derive(Clone, Copy, Debug, PartialEq, Eq)]
pub(crate) enum Stop {
    /// Memory ran out.
    OutOfMemory,
    /// At a wrong byte. The number is that of the bytes from it to the end.
    Left(usize),
}

impl From<AllocError> for Stop {
    ghost from_gives = { λ _ e. e ≡ OutOfMemory };

    fn from(_e: AllocError) -> Stop {
        Stop::OutOfMemory
    }
}

/// The word for an encoding.
#[derive(Clone, Copy, Debug, PartialEq, Eq)]
pub(crate) enum Head {
    /// `primitive`.
    Primitive,
    /// `constant`.
    Constant,
    /// `bitpacked`, with a width or none, or `blocked`.
    BitPacked(Packing),
    /// `for` or `forw`.
    FoR(ItemOrder),
    /// `forc` or `forcw`.
    FoRChunked(ItemOrder),
    /// `delta`.
    Delta,
    /// `rle`.
    RLE,
    /// `dict`.
    Dict,
}

/// What follows a byte, if the text begins with it.
fn tail_behind(byte: u8, text: &[u8]) -> Option<&[u8]>
    ensures { option_copied result ≡ tail_behind byte text.now }
{
    match text {
        [x, rest @ ..] => { if *x == byte { Some(rest) } else { None } }
        _ => None,
    }
}

/// What follows a word, if the text begins with it.
fn rest_behind<'a>(word: &[u8], text: &'a [u8]) -> Option<&'a [u8]>
    ensures { option_copied result ≡ rest_behind word.now text.now }
{
    match word {
        [] => Some(text),
        [w, others @ ..] => match tail_behind(*w, text) {
            Some(rest) => rest_behind(others, rest),
            None => None,
        },
    }
}

/// The length of the longest prefix that a word and the text have in common.
fn common(word: &[u8], text: &[u8]) -> usize
    ensures value { result ≡ common word.now text.now }
    ensures within { result ≤ length text.now }
{
    match word {
        [] => 0,
        [w, others @ ..] => match tail_behind(*w, text) {
            Some(rest) => common(others, rest) + 1,
            None => 0,
        },
    }
}

/// Reads a byte that has to come next, and returns what follows it.
fn expected(byte: u8, text: &[u8]) -> Result<&[u8], Stop>
    ensures { Finds (λ rest. rest.now) result (expected byte text.now) }
{
    match tail_behind(byte, text) {
        Some(rest) => Ok(rest),
        None => Err(Stop::Left(text.len())),
    }
}

/// The number with the digits that follow it, as far as it is at most 255, and what follows them.
fn digits_behind(number: u8, text: &[u8]) -> (u8, &[u8])
    ensures number { result.0 ≡ (digits_behind number text.now).0 }
    ensures rest { result.1.now ≡ (digits_behind number text.now).1 }
{
    match text {
        [x @ b'0'..=b'9', rest @ ..] => {
            let longer = 10 * u16::from(number) + u16::from(*x - b'0');
            if longer <= 255 {
                digits_behind(longer as u8, rest)
            } else {
                (number, text)
            }
        }
        _ => (number, text),
    }
}

/// A width, and what follows it.
fn read_width(text: &[u8]) -> Result<(u8, &[u8]), Stop>
    ensures found { Finds (λ w. (w.0, w.1.now)) result (width_in text.now) }
    ensures memory { RunsOutIf false result }
{
    match text {
        [x @ b'0'..=b'9', rest @ ..] => Ok(digits_behind(*x - b'0', rest)),
        _ => Err(Stop::Left(text.len())),
    }
}

/// The packing after `bitpacked`, and what follows it.
fn read_packing(text: &[u8]) -> Result<(Packing, &[u8]), Stop>
    ensures found { Finds (λ p. (p.0, p.1.now)) result (packing_behind text.now) }
    ensures memory { RunsOutIf false result }
{
    match tail_behind(b':', text) {
        None => Ok((Packing::BestWidth, text)),
        Some(digits) => {
            let (width, rest) = read_width(digits)?;
            Ok((Packing::Width(width), rest))
        }
    }
}

/// The length of the longest prefix that the text has in common with a word.
fn furthest(text: &[u8]) -> usize
    ensures value { result ≡ furthest text.now }
    ensures within { result ≤ length text.now }
{
    let plain = common(b"primitive", text).max(common(b"constant", text));
    let packed = common(b"bitpacked", text).max(common(b"blocked", text));
    let frames = common(b"forcw", text).max(common(b"forw", text));
    let nested = common(b"delta", text).max(common(b"dict", text));
    let nested = nested.max(common(b"rle", text));
    plain.max(packed).max(frames.max(nested))
}

/// The order of references, from where the word for a frame of reference may end in `w`, and what follows it.
fn read_order(text: &[u8]) -> (ItemOrder, &[u8])
    ensures order { result.0 ≡ (order_in text.now).0 }
    ensures rest { result.1.now ≡ (order_in text.now).1 }
{
    match tail_behind(b'w', text) {
        Some(rest) => (ItemOrder::Signed, rest),
        None => (ItemOrder::Natural, text),
    }
}

/// The word for a frame of reference, from the bytes after its `for`, and what follows it.
fn read_frame(text: &[u8]) -> (Head, &[u8])
    ensures frame { result.0 ≡ (frame_in text.now).0 }
    ensures rest { result.1.now ≡ (frame_in text.now).1 }
{
    match tail_behind(b'c', text) {
        Some(rest) => {
            let (order, rest) = read_order(rest);
            (Head::FoRChunked(order), rest)
        }
        None => {
            let (order, rest) = read_order(text);
            (Head::FoR(order), rest)
        }
    }
}

/// The word for an encoding that has children, and what follows it.
fn read_nested_head(text: &[u8]) -> Result<(Head, &[u8]), Stop>
    ensures found { Finds (λ h. (h.0, h.1.now)) result (nested_head_in text.now) }
    ensures memory { RunsOutIf false result }
{
    if let Some(rest) = rest_behind(b"for", text) {
        return Ok(read_frame(rest));
    }
    if let Some(rest) = rest_behind(b"delta", text) {
        return Ok((Head::Delta, rest));
    }
    if let Some(rest) = rest_behind(b"dict", text) {
        return Ok((Head::Dict, rest));
    }
    match rest_behind(b"rle", text) {
        Some(rest) => Ok((Head::RLE, rest)),
        None => Err(Stop::Left(text.len() - furthest(text))),
    }
}

/// The word for an encoding, and what follows it.
fn read_head(text: &[u8]) -> Result<(Head, &[u8]), Stop>
    ensures found { Finds (λ h. (h.0, h.1.now)) result (head_in text.now) }
    ensures memory { RunsOutIf false result }
{
    if let Some(rest) = rest_behind(b"primitive", text) {
        return Ok((Head::Primitive, rest));
    }
    if let Some(rest) = rest_behind(b"constant", text) {
        return Ok((Head::Constant, rest));
    }
    if let Some(rest) = rest_behind(b"bitpacked", text) {
        let (packing, rest) = read_packing(rest)?;
        return Ok((Head::BitPacked(packing), rest));
    }
    match rest_behind(b"blocked", text) {
        Some(rest) => Ok((Head::BitPacked(Packing::BestWidths), rest)),
        None => read_nested_head(text),
    }
}

/// A child: an underscore, or a scheme.
#[cycle(read)]
fn read_child(alloc: Global, depth: usize, text: &[u8]) -> Result<(Child, &[u8]), Stop>
    ensures { Finds (λ c. (c.0, c.1.now)) result (child_by (scheme_in depth) text.now) }
{
    if let Some(rest) = tail_behind(b'_', text) {
        return Ok((Child::plain(), rest));
    }
    let (scheme, rest) = read_scheme(alloc, depth, text)?;
    let child = Child::new(alloc, scheme)?;
    Ok((child, rest))
}

/// The one child in parentheses, or none.
#[cycle(read)]
fn read_one(alloc: Global, depth: usize, text: &[u8]) -> Result<(Child, &[u8]), Stop>
    ensures found { Finds (λ c. (c.0, c.1.now)) result (one_by (scheme_in depth) text.now) }
    ensures memory { RunsOutIf (is_some (tail_behind 40 text.now)) result }
{
    let Some(inner) = tail_behind(b'(', text) else {
        return Ok((Child::plain(), text));
    };
    let (child, rest) = read_child(alloc, depth, inner)?;
    let rest = expected(b')', rest)?;
    Ok((child, rest))
}

/// The two children in parentheses, or none.
#[cycle(read)]
fn read_two(alloc: Global, depth: usize, text: &[u8]) -> Result<(Child, Child, &[u8]), Stop>
    ensures found { Finds (λ c. (c.0, c.1, c.2.now)) result (two_by (scheme_in depth) text.now) }
    ensures memory { RunsOutIf (is_some (tail_behind 40 text.now)) result }
{
    let Some(inner) = tail_behind(b'(', text) else {
        return Ok((Child::plain(), Child::plain(), text));
    };
    let (first, rest) = read_child(alloc, depth, inner)?;
    let rest = expected(b',', rest)?;
    let (second, rest) = read_child(alloc, depth, rest)?;
    let rest = expected(b')', rest)?;
    Ok((first, second, rest))
}

/// The three children in parentheses, or none.
#[cycle(read)]
fn read_three(
    alloc: Global,
    depth: usize,
    text: &[u8],
) -> Result<(Child, Child, Child, &[u8]), Stop>
    ensures found { Finds (λ c. (c.0, c.1, c.2, c.3.now)) result (three_by (scheme_in depth) text.now) }
    ensures memory { RunsOutIf (is_some (tail_behind 40 text.now)) result }
{
    let Some(inner) = tail_behind(b'(', text) else {
        return Ok((Child::plain(), Child::plain(), Child::plain(), text));
    };
    let (first, rest) = read_child(alloc, depth, inner)?;
    let rest = expected(b',', rest)?;
    let (second, rest) = read_child(alloc, depth, rest)?;
    let rest = expected(b',', rest)?;
    let (third, rest) = read_child(alloc, depth, rest)?;
    let rest = expected(b')', rest)?;
    Ok((first, second, third, rest))
}

/// The scheme of an encoding's word and of the children after it.
#[cycle(read)]
fn read_children(
    alloc: Global,
    depth: usize,
    head: Head,
    text: &[u8],
) -> Result<(Scheme, &[u8]), Stop>
    ensures found { Finds (λ s. (shape s.0, s.1.now)) result (scheme_by (scheme_in depth) head text.now) }
    ensures memory { RunsOutIf (is_some (tail_behind 40 text.now)) result }
{
    match head {
        Head::Primitive => Ok((Scheme::Primitive, text)),
        Head::Constant => Ok((Scheme::Constant, text)),
        Head::BitPacked(packing) => Ok((Scheme::BitPacked(packing), text)),
        Head::FoR(order) => {
            let (encoded, rest) = read_one(alloc, depth, text)?;
            Ok((Scheme::FoR { order, encoded }, rest))
        }
        Head::FoRChunked(order) => {
            let (encoded, references, rest) = read_two(alloc, depth, text)?;
            let scheme = Scheme::FoRChunked {
                order,
                encoded,
                references,
            };
            Ok((scheme, rest))
        }
        Head::Delta => {
            let (bases, deltas, rest) = read_two(alloc, depth, text)?;
            Ok((Scheme::Delta { bases, deltas }, rest))
        }
        Head::RLE => {
            let (values, indices, offsets, rest) = read_three(alloc, depth, text)?;
            let scheme = Scheme::RLE {
                values,
                indices,
                offsets,
            };
            Ok((scheme, rest))
        }
        Head::Dict => {
            let (values, indices, offsets, rest) = read_three(alloc, depth, text)?;
            let scheme = Scheme::Dict {
                values,
                indices,
                offsets,
            };
            Ok((scheme, rest))
        }
    }
}

/// A scheme of at most `depth` levels, and what follows it.
#[cycle(read)]
fn read_scheme(alloc: Global, depth: usize, text: &[u8]) -> Result<(Scheme, &[u8]), Stop>
    ensures found { Finds (λ s. (shape s.0, s.1.now)) result (scheme_in depth text.now) }
    ensures memory { RunsOutIf (says_children text.now) result }
{
    if depth == 0 {
        return Err(Stop::Left(text.len()));
    }
    let (head, rest) = read_head(text)?;
    read_children(alloc, depth - 1, head, rest)
}

/// The scheme whose text is the whole text.
pub(crate) fn read_whole(alloc: Global, text: &[u8]) -> Result<Scheme, Stop>
    ensures found { Finds shape result (after (scheme_in max_levels text.now) whole) }
    ensures memory { RunsOutIf (says_children text.now) result }
{
    let (scheme, rest) = read_scheme(alloc, MAX_LEVELS, text)?;
    if rest.is_empty() {
        Ok(scheme)
    } else {
        Err(Stop::Left(rest.len()))
    }
}
