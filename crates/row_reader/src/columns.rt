//! Columns from text: a type, and items behind it.

use crate::names::named;
use fl_column::PrimitiveArray;
use fl_types::*;
use std::alloc::Global;

/// What makes a column.
pub type Made = Result<PrimitiveArray, FastLanesError>;

/// How the integers of a range go on: by a step, modulo a number where it isn't 0, each `nth` of them a null where
/// that isn't 0.
#[derive(Clone, Copy)]
struct Rise {
    step: i128,
    modulus: i128,
    nth: usize,
}

/// Integers, and which of them are valid.
#[derive(Drop)]
struct Items {
    integers: Vec<i128>,
    valid: BitList,
}

impl Items {
    fn push(&mut self, integer: i128, valid: bool) -> Result<(), FastLanesError> {
        self.integers.push(integer)?;
        self.valid.push(valid)
    }

    /// Puts an integer, or a null over one, in place of an item, where there is one at this place.
    fn put(&mut self, place: usize, integer: i128, valid: bool) {
        if place < self.integers.len() && place < self.valid.len() {
            self.integers[place] = integer;
            self.valid.set(place, valid);
        }
    }

    /// Adds this many items, which begin here.
    fn rise(&mut self, first: i128, count: usize, by: Rise) -> Result<(), FastLanesError> {
        let mut integer = first;
        for i in 0..count {
            let item = integer.checked_rem_euclid(by.modulus).unwrap_or(integer);
            self.push(item, by.nth == 0 || i % by.nth != 0)?;
            integer = integer.saturating_add(by.step);
        }
        Ok(())
    }
}

/// A number of text, or 0.
pub fn number(text: &str) -> i128 {
    text.parse::<i128>().unwrap_or(0)
}

/// A count of text, or 0.
pub fn count(text: &str) -> usize {
    text.parse::<usize>().unwrap_or(0)
}

/// A width of text, 0 where it is none and 255 where it is greater.
pub fn width_of(text: &str) -> u8 {
    u8::try_from(count(text)).unwrap_or(u8::MAX)
}

/// How many numbers from one to below another there are, by a step.
fn steps(first: i128, end: i128, step: i128) -> usize {
    let distance = end
        .saturating_sub(first)
        .saturating_add(step)
        .saturating_sub(1);
    if step > 0 {
        usize::try_from(distance / step).unwrap_or(0)
    } else {
        0
    }
}

/// Adds the items of a range: `0..9`, `0..9/3` by threes, `0..9%4` modulo 4, `0..9!3` with a null in each third place.
fn add_range(items: &mut Items, first: &str, rest: &str) -> Result<(), FastLanesError> {
    let (rest, nth) = rest.split_once('!').unwrap_or((rest, "0"));
    let (rest, modulus) = rest.split_once('%').unwrap_or((rest, "0"));
    let (end, step) = rest.split_once('/').unwrap_or((rest, "1"));
    let (first, step) = (number(first), number(step));
    let by = Rise {
        step,
        modulus: number(modulus),
        nth: count(nth),
    };
    items.rise(first, steps(first, number(end), step), by)
}

/// Puts integers that rise, or nulls, in place of items at rising places.
fn replace_by(
    items: &mut Items,
    start: usize,
    step: usize,
    first: i128,
    rise: i128,
    is_valid: bool,
) {
    let mut integer = first;
    for place in start..items.integers.len() {
        if (place - start).checked_rem(step) == Some(0) {
            items.put(place, integer, is_valid);
            integer = integer.saturating_add(rise);
        }
    }
}

/// Replaces items: `@1/9=7/2` puts 7, 9, 11 and so on in place of each ninth item from item 1 on, `@1/9=null` nulls.
fn replace(items: &mut Items, places: &str, given: &str) {
    let (start, step) = places.split_once('/').unwrap_or((places, "1"));
    let (first, rise) = given.split_once('/').unwrap_or((given, "0"));
    let is_valid = !matches!(given, "null");
    let (first, rise) = (number(first), number(rise));
    replace_by(items, count(start), count(step), first, rise, is_valid);
}

/// Adds an item: an integer, `null`, or a null over an integer in brackets.
fn add_item(items: &mut Items, item: &str) -> Result<(), FastLanesError> {
    let bare = item.trim_matches(|c| c == '(' || c == ')');
    let is_null = item == "null" || bare.len() != item.len();
    items.push(number(bare), !is_null)
}

/// Adds a group of items this many times: `5*100`, or `0,1*512` for 0 and 1 in turn.
fn add_group(items: &mut Items, group: &str, times: usize) -> Result<(), FastLanesError> {
    for _ in 0..times {
        for item in group.split(',') {
            add_item(items, item)?;
        }
    }
    Ok(())
}

/// Adds the items that a word names.
fn add_items(items: &mut Items, word: &str) -> Result<(), FastLanesError> {
    match word.split_once("..") {
        Some((first, rest)) => add_range(items, first, rest),
        None => match word.split_once('*') {
            Some((group, times)) => add_group(items, group, count(times)),
            None => add_item(items, word),
        },
    }
}

/// Adds the items that a word names, or replaces some of those before it.
fn add_word(items: &mut Items, word: &str) -> Result<(), FastLanesError> {
    match word.strip_prefix("@") {
        Some(rest) => {
            let (places, given) = rest.split_once('=').unwrap_or((rest, ""));
            replace(items, places, given);
            Ok(())
        }
        None => add_items(items, word),
    }
}

fn add_words(items: &mut Items, words: &[&str]) -> Result<(), FastLanesError> {
    for word in words {
        add_word(items, word)?;
    }
    Ok(())
}

/// A column of integers of a type.
fn typed<T: NativePType>(alloc: Global, integers: &[i128], validity: Validity) -> Made {
    let mut items = Vec::new(alloc);
    for integer in integers {
        items.push(T::from_i128(*integer).unwrap_or(T::zero()))?;
    }
    PrimitiveArray::new(items, validity)
}

const TYPES: &[(&str, PType)] = &[
    ("u8", PType::U8),
    ("u16", PType::U16),
    ("u32", PType::U32),
    ("u64", PType::U64),
    ("i8", PType::I8),
    ("i16", PType::I16),
    ("i32", PType::I32),
    ("i64", PType::I64),
];

/// A type by its name.
pub fn type_of(name: &str) -> PType {
    named(TYPES, name).unwrap_or(PType::U8)
}

/// A type by its name, with the mark `?` where items may be null.
pub fn dtype_of(name: &str) -> DType {
    let (bare, nullability) = match name.strip_suffix("?") {
        Some(bare) => (bare, Nullability::Nullable),
        None => (name, Nullability::NonNullable),
    };
    if bare == "bool" {
        DType::Bool(nullability)
    } else {
        DType::Primitive(type_of(bare), nullability)
    }
}

/// The validity that a type's mark asks for: none where it has no mark.
fn validity_of(mark: &str, valid: BitList) -> Validity {
    match mark {
        "?" => Validity::Array(valid),
        "+" => Validity::AllValid,
        "-" => Validity::AllInvalid,
        _ => Validity::NonNullable,
    }
}

/// The column of a type's name, with its mark, and of items.
fn column_of(alloc: Global, name: &str, words: &[&str]) -> Made {
    let mut items = Items {
        integers: Vec::new(alloc),
        valid: BitList::new(alloc),
    };
    add_words(&mut items, words)?;
    let Items { integers, valid } = items;
    let bare = name.trim_end_matches(|c| c == '?' || c == '+' || c == '-');
    let mark = name.strip_prefix(bare).unwrap_or("");
    let validity = validity_of(mark, valid);
    match_each_integer_ptype!(type_of(bare), typed(alloc, &integers, validity))
}

/// The column that words name.
pub fn read_words(alloc: Global, words: &[&str]) -> Made {
    match words {
        [name, items @ ..] => column_of(alloc, name, items),
        [] => Err(FastLanesError::UnknownType),
    }
}

/// The column that a text names.
pub fn read(alloc: Global, text: &str) -> Made {
    let words: Vec<&str> = text.split_whitespace().collect(alloc)?;
    read_words(alloc, &words)
}

/// The columns that texts name.
pub fn read_all(alloc: Global, texts: &[&str]) -> Result<Vec<PrimitiveArray>, FastLanesError> {
    let mut columns = Vec::new(alloc);
    for text in texts {
        columns.push(read(alloc, text)?)?;
    }
    Ok(columns)
}
