//! What holds of every scheme.

ghost use Rattle.std.specs.Prelude.{◌≡◌, ◌<◌, ◌≤◌, ℕ, List, Ok, Err, true};
ghost use Rattle.fl_encode.specs.Grammar.{IsFirstWrong, IsSchemeText};
ghost use Rattle.fl_encode.specs.Shapes.{Shape, levels, max_levels, scheme_text};
ghost use Rattle.fl_encode.specs.SchemeShapes.{shape};
ghost use Rattle.fl_encode.specs.Shapes as shapes;
ghost use Rattle.fl_encode.specs.Texts.{has_widths, scheme_of_text};
ghost use Rattle.fl_encode.specs.TreeShapes.{Shows, part_shape};
ghost use Rattle.fl_encode.specs.Encodings.{IsEncodedAs};
ghost use Rattle.fl_array.specs.Trees.{Tree};
ghost use Rattle.fl_column.specs.Columns.{PrimitiveParts};

use crate::scheme::{Child, Packing, Scheme};

/// Each width of a child's scheme is at most 255.
#[cycle(widths)]
fn prove_child_widths(child: &Child)
    ensures { has_widths child.now ≡ true }
{
    match child.scheme() {
        None => (),
        Some(scheme) => prove_widths(scheme),
    }
}

/// Each width of a scheme is at most 255.
#[cycle(widths)]
fn prove_widths(scheme: &Scheme)
    ensures { has_widths (shape scheme.now) ≡ true }
{
    match scheme {
        Scheme::Primitive | Scheme::Constant => (),
        Scheme::BitPacked(packing) => prove_width(*packing),
        Scheme::FoR { order: _, encoded } => prove_child_widths(encoded),
        Scheme::FoRChunked {
            order: _,
            encoded,
            references,
        } => {
            prove_child_widths(encoded);
            prove_child_widths(references);
        }
        Scheme::Delta { bases, deltas } => {
            prove_child_widths(bases);
            prove_child_widths(deltas);
        }
        Scheme::RLE {
            values,
            indices,
            offsets,
        }
        | Scheme::Dict {
            values,
            indices,
            offsets,
        } => {
            prove_child_widths(values);
            prove_child_widths(indices);
            prove_child_widths(offsets);
        }
    }
}

/// The width of a packing is at most 255.
fn prove_width(packing: Packing)
    ensures { has_widths (shapes.BitPacked packing) ≡ true }
{
    match packing {
        Packing::Width(width) => {
            let _ = width;
        }
        Packing::BestWidth | Packing::BestWidths => (),
    }
}

/// The text that is printed for a scheme is parsed as that scheme. If it has more words in one another than a text may have,
/// it is the text of no scheme.
pub fn printed_is_read(scheme: &Scheme)
    ensures read { levels (shape scheme.now) ≤ max_levels → scheme_of_text (scheme_text (shape scheme.now)) ≡ Ok (shape scheme.now) }
    ensures deep { max_levels < levels (shape scheme.now) → (position : ℕ) × (scheme_of_text (scheme_text (shape scheme.now)) ≡ Err position) }
{
    prove_widths(scheme);
}

/// A text is parsed as a scheme if and only if the grammar says that it is a text of that scheme.
pub fn grammar_is_read()
    ensures read { (text : List ℕ) (scheme : Shape) → scheme_of_text text ≡ Ok scheme → IsSchemeText scheme text }
    ensures all { (text : List ℕ) (scheme : Shape) → IsSchemeText scheme text → scheme_of_text text ≡ Ok scheme }
{}

/// The byte that an error names is the first wrong one: the bytes before it begin the text of some scheme, and together with
/// it they begin none. At the text's length, the text ends too early.
pub fn wrong_byte_is_the_first()
    ensures { (text : List ℕ) (position : ℕ) → scheme_of_text text ≡ Err position → IsFirstWrong text position }
{}

/// An array shows the scheme that it was encoded by: each encoding in its place, as far as arrays tell them apart. For the
/// best width stands that width; one reference stands for those of chunks if they are equal, a constant for the differences
/// of nothing but nulls, and `rle` for `dict`.
pub fn encoded_shows_scheme()
    ensures { (scheme : Shape) (p : PrimitiveParts) (t : Tree) → IsEncodedAs scheme p t → Shows scheme p (part_shape t) }
{}
