//! The patches of the items that a width leaves out.

use crate::asked::Asked;
use crate::columns::width_of;
use crate::names::named;
use crate::parts::part;
use crate::shown;
use crate::text::Text;
use fl_column::PrimitiveArray;
use fl_patches::{Patches, gather_blocked_patches, gather_patches};
use fl_types::*;
use std::alloc::Global;

/// Adds the form of a validity.
fn show_validity(answer: &mut Text, validity: &Validity) {
    match validity {
        Validity::NonNullable => answer.word("NonNullable"),
        Validity::AllValid => answer.word("AllValid"),
        Validity::AllInvalid => answer.word("AllInvalid"),
        Validity::Array(_) => answer.word("Array"),
    }
}

/// Adds the parts of patches, and the patch at each place.
fn show(answer: &mut Text, patches: &Patches) {
    answer.count(patches.num_patches());
    part(answer, patches.indices());
    part(answer, patches.values());
    show_validity(answer, patches.values().validity());
    if let Some(offsets) = patches.chunk_offsets() {
        part(answer, offsets);
    }
    answer.word("|");
    for i in 0..patches.array_len() {
        answer.item(patches.get_patched(i).map(shown::integer));
    }
}

/// Adds patches that were gathered, `none`, or why there are none.
fn gathered(answer: &mut Text, patches: Result<Option<Patches>, FastLanesError>) {
    match patches {
        Ok(Some(patches)) => show(answer, &patches),
        Ok(None) => answer.word("none"),
        Err(refusal) => answer.refusal(refusal),
    }
}

/// Adds the patches at a width for each block, where there are as many.
fn gather_blocks(asked: Asked, array: &PrimitiveArray, widths: &[u8], answer: &mut Text) {
    if array.len().div_ceil(1024) == widths.len() {
        let hint = asked.count(1);
        gathered(
            answer,
            gather_blocked_patches(asked.alloc, array, widths, hint),
        );
    }
}

#[derive(Clone, Copy)]
enum Question {
    Gather,
    GatherBlocked,
}

const QUESTIONS: &[(&str, Question)] = &[
    ("gather", Question::Gather),
    ("gather_blocked", Question::GatherBlocked),
];

pub fn ask(asked: Asked, answer: &mut Text) -> bool {
    let Some(question) = named(QUESTIONS, asked.word(0)) else {
        return false;
    };
    let (alloc, array, widths) = (asked.alloc, asked.column(0), asked.column(1));
    match question {
        Question::Gather => {
            let width = width_of(asked.word(1));
            gathered(answer, gather_patches(alloc, array, width, asked.count(2)));
        }
        Question::GatherBlocked => {
            if widths.ptype() == PType::U8 {
                gather_blocks(asked, array, widths.as_slice::<u8>(), answer);
            }
        }
    }
    true
}
