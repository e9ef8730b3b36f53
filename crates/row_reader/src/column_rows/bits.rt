//! Lists of bits: how they are made, cut, copied and compared.

use crate::asked::Asked;
use crate::column_rows::types;
use crate::names::named;
use crate::shown;
use crate::text::Text;
use fl_column::PrimitiveArray;
use fl_types::*;
use std::alloc::Global;

/// What makes a list of bits.
type Listed = Result<BitList, FastLanesError>;

/// Whether an item of a column is this position.
fn names(positions: &PrimitiveArray, position: usize) -> bool {
    for i in 0..positions.len() {
        if positions.get(i).map(shown::integer) == Some(position as i128) {
            return true;
        }
    }
    false
}

/// This many bits, of which those are set whose positions a column names.
fn set_at(alloc: Global, len: usize, positions: &PrimitiveArray) -> Listed {
    BitList::from_fn(alloc, len, |i| names(positions, i))
}

/// The same bits, one pushed after the other.
fn pushed_at(alloc: Global, len: usize, positions: &PrimitiveArray) -> Listed {
    let mut bits = BitList::new(alloc);
    for i in 0..len {
        bits.push(names(positions, i))?;
    }
    Ok(bits)
}

/// A bit for each stored integer of a column of `u8`, set where it is 1.
pub fn ones(alloc: Global, column: &PrimitiveArray) -> Listed {
    if column.ptype() != PType::U8 {
        return Err(FastLanesError::TypeMismatch);
    }
    let integers = column.as_slice::<u8>();
    BitList::from_fn(alloc, integers.len(), |i| integers[i] == 1)
}

/// Answers a question of a list, and of the positions of another one.
fn ask_list(asked: Asked, bits: &BitList, answer: &mut Text) {
    let alloc = asked.alloc;
    match asked.word(0) {
        "" => shown::bits(answer, bits),
        "count" => {
            answer.count(bits.len());
            answer.count(bits.count_true());
        }
        "copy" => types::compare_made("equal", bits, bits.try_clone(alloc), answer),
        relation => {
            let other = set_at(alloc, asked.count(1), asked.column(1));
            types::compare_made(relation, bits, other, answer);
        }
    }
}

/// Answers a question of a part of a list.
fn ask_part(asked: Asked, bits: &BitList, answer: &mut Text) {
    let (start, end) = (asked.count(1), asked.count(2));
    if start <= end && end <= bits.len() {
        match bits.slice(asked.alloc, start, end) {
            Ok(part) => ask_list(asked.from(3), &part, answer),
            Err(refusal) => answer.refusal(refusal),
        }
    }
}

/// Answers a question of a list that was made, or of what is cut from it.
fn ask_made(asked: Asked, made: &Listed, answer: &mut Text) {
    match made {
        Ok(bits) if asked.word(0) == "slice" => ask_part(asked, bits, answer),
        Ok(bits) => ask_list(asked, bits, answer),
        Err(refusal) => answer.refusal(*refusal),
    }
}

/// How a list is made.
#[derive(Clone, Copy)]
enum Making {
    SetAt,
    PushedAt,
}

const MAKINGS: &[(&str, Making)] = &[("bits", Making::SetAt), ("pushed", Making::PushedAt)];

pub fn ask(asked: Asked, answer: &mut Text) -> bool {
    let Some(making) = named(MAKINGS, asked.word(0)) else {
        return false;
    };
    let (len, positions) = (asked.count(1), asked.column(0));
    let made = match making {
        Making::SetAt => set_at(asked.alloc, len, positions),
        Making::PushedAt => pushed_at(asked.alloc, len, positions),
    };
    ask_made(asked.from(2), &made, answer);
    true
}
