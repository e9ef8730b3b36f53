//! Text of columns and values.

use crate::text::Text;
use bytes::Bytes;
use fl_column::{BoolArray, PrimitiveArray};
use fl_types::*;

/// What an answer can show.
pub trait Show {
    /// Adds this to an answer.
    fn show(&self, answer: &mut Text);
}

/// Adds what was made, or why nothing was.
pub fn made<T: Show + Drop>(answer: &mut Text, made: Result<T, FastLanesError>) {
    match made {
        Ok(value) => value.show(answer),
        Err(refusal) => answer.refusal(refusal),
    }
}

/// The integer that a value is.
pub fn integer(value: PValue) -> i128 {
    value.as_i128()
}

/// The name of a type, without the mark of nulls.
fn bare_name(dtype: DType) -> &'static str {
    match dtype.ptype() {
        Some(PType::U8) => "u8",
        Some(PType::U16) => "u16",
        Some(PType::U32) => "u32",
        Some(PType::U64) => "u64",
        Some(PType::I8) => "i8",
        Some(PType::I16) => "i16",
        Some(PType::I32) => "i32",
        Some(PType::I64) => "i64",
        None => "bool",
    }
}

/// Adds a type, as a piece of a word.
pub fn dtype_piece(answer: &mut Text, dtype: DType) {
    answer.piece(bare_name(dtype));
    if dtype.nullability() == Nullability::Nullable {
        answer.piece("?");
    }
}

/// Adds a type.
pub fn dtype(answer: &mut Text, dtype: DType) {
    dtype_piece(answer, dtype);
    answer.word("");
}

/// The integer that a scalar is, or its boolean as 1 or 0.
pub fn integer_in(scalar: Scalar) -> Option<i128> {
    match scalar.as_bool() {
        Some(bool_answer) => Some(i128::from(bool_answer)),
        None => scalar.as_pvalue().map(integer),
    }
}

/// Adds a scalar: its type, and its value or `null`.
pub fn scalar(answer: &mut Text, scalar: Scalar) {
    dtype(answer, scalar.dtype());
    answer.item(integer_in(scalar));
}

/// Adds a column: its type and its items.
pub fn column(answer: &mut Text, array: &PrimitiveArray) {
    dtype(answer, array.dtype());
    for i in 0..array.len() {
        answer.item(array.get(i).map(integer));
    }
}

/// Adds integers.
pub fn integers<T: NativePType>(answer: &mut Text, integers: &[T]) {
    for integer in integers {
        answer.item(Some(integer.as_i128()));
    }
}

/// Adds the stored integers of a column, those under nulls too.
pub fn slots(answer: &mut Text, array: &PrimitiveArray) {
    match array.ptype() {
        PType::U8 => integers(answer, array.as_slice::<u8>()),
        PType::U16 => integers(answer, array.as_slice::<u16>()),
        PType::U32 => integers(answer, array.as_slice::<u32>()),
        PType::U64 => integers(answer, array.as_slice::<u64>()),
        PType::I8 => integers(answer, array.as_slice::<i8>()),
        PType::I16 => integers(answer, array.as_slice::<i16>()),
        PType::I32 => integers(answer, array.as_slice::<i32>()),
        PType::I64 => integers(answer, array.as_slice::<i64>()),
    }
}

/// Adds booleans, as 1 and 0.
pub fn bools(answer: &mut Text, array: &BoolArray) {
    dtype(answer, array.dtype());
    for i in 0..array.len() {
        answer.item(array.get(i).map(i128::from));
    }
}

/// Adds bits, as 1 and 0.
pub fn bits(answer: &mut Text, bits: &BitList) {
    for i in 0..bits.len() {
        answer.item(Some(i128::from(bits.get(i))));
    }
}

/// Adds bytes, as a column of them.
pub fn bytes(answer: &mut Text, bytes: &[u8]) {
    answer.word("u8");
    integers(answer, bytes);
}

impl Show for PrimitiveArray {
    fn show(&self, answer: &mut Text) {
        column(answer, self);
    }
}

impl Show for (PrimitiveArray, PrimitiveArray) {
    fn show(&self, answer: &mut Text) {
        column(answer, &self.0);
        answer.word("|");
        column(answer, &self.1);
    }
}

impl Show for BoolArray {
    fn show(&self, answer: &mut Text) {
        bools(answer, self);
    }
}

impl Show for BitList {
    fn show(&self, answer: &mut Text) {
        bits(answer, self);
    }
}

impl Show for Validity {
    fn show(&self, answer: &mut Text) {
        match self {
            Validity::Array(valid) => bits(answer, valid),
            validity => answer.debug(validity),
        }
    }
}

impl Show for Mask {
    fn show(&self, answer: &mut Text) {
        match self {
            Mask::Values(kept) => bits(answer, kept),
            mask => answer.debug(mask),
        }
    }
}

impl Show for Scalar {
    fn show(&self, answer: &mut Text) {
        scalar(answer, *self);
    }
}

impl Show for bool {
    fn show(&self, answer: &mut Text) {
        answer.bool_answer(*self);
    }
}

impl Show for u8 {
    fn show(&self, answer: &mut Text) {
        answer.count(usize::from(*self));
    }
}

impl Show for usize {
    fn show(&self, answer: &mut Text) {
        answer.count(*self);
    }
}

impl Show for Vec<usize> {
    fn show(&self, answer: &mut Text) {
        for number in self {
            answer.item(Some(*number as i128));
        }
    }
}

impl Show for Vec<Option<usize>> {
    fn show(&self, answer: &mut Text) {
        for position in self {
            answer.item(position.map(|position| position as i128));
        }
    }
}

impl Show for Vec<u8> {
    fn show(&self, answer: &mut Text) {
        bytes(answer, self);
    }
}

impl Show for Bytes {
    fn show(&self, answer: &mut Text) {
        bytes(answer, self.as_slice());
    }
}

/// The widths of blocks, and how many exceptions they leave.
impl Show for (Vec<u8>, usize) {
    fn show(&self, answer: &mut Text) {
        integers(answer, &self.0);
        answer.word("|");
        answer.count(self.1);
    }
}
