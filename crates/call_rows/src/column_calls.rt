//! Calls on plain and constant columns, and on histograms of their bits.

ghost use Rattle.std.specs.Prelude.{◌≡◌, length};
ghost use Rattle.fl_column.specs.Chunks.{chunk_count};

use crate::inputs::Inputs;
use crate::{came, came_patches};
use fl_column::{BoolArray, ConstantArray, PrimitiveArray, chunk_count};
use fl_ops::Op;
use fl_patches::{
    bit_width_histogram, count_exceptions, find_best_bit_width, find_best_bit_widths,
    gather_blocked_patches, gather_patches,
};
use fl_types::{FastLanesError, PType};
use row_reader::arrays::queries::{operator, options};
use row_reader::asked::Asked;
use row_reader::column_rows::patches::Selected;
use row_reader::column_rows::types::value_of;
use row_reader::column_rows::widths;
use row_reader::columns::{Made, type_of, width_of};
use row_reader::names::named;
use row_reader::text::Text;

/// What a comparison gives.
type Tests = Result<BoolArray, FastLanesError>;

/// Calls the operation that the words name.
fn op(asked: Asked, column: &PrimitiveArray, inputs: &Inputs) -> Made {
    let alloc = asked.alloc;
    match inputs.ops.first() {
        Some(Op::Slice(range)) if range.start <= range.end && range.end <= column.len() => {
            column.slice(alloc, range.start, range.end)
        }
        Some(Op::Filter(mask)) if mask.len() == column.len() => column.filter(alloc, mask),
        Some(Op::Take(_)) => column.take(alloc, asked.column(1)),
        Some(Op::TakeRanges(ranges)) => column.take_ranges(alloc, ranges),
        Some(Op::Cast(target)) => column.cast(alloc, *target),
        _ => column.try_clone(alloc),
    }
}

/// Compares with a constant: `column_compare lt 7`.
fn compare(asked: Asked, column: &PrimitiveArray) -> Tests {
    let constant = value_of(column.ptype(), asked.word(2));
    column.compare(asked.alloc, operator(asked.word(1)), constant)
}

/// Tests whether items are from one integer up to below another: `column_between 3 7`.
fn between(asked: Asked, column: &PrimitiveArray) -> Tests {
    let (lower, upper) = (
        value_of(column.ptype(), asked.word(1)),
        value_of(column.ptype(), asked.word(2)),
    );
    column.between(asked.alloc, lower, upper, options("gte", "lt"))
}

/// The patches at a width for each block, by the numbers of another column.
fn gather_blocked(asked: Asked, column: &PrimitiveArray, widths: &PrimitiveArray) -> Selected {
    if widths.ptype() != PType::U8 {
        return Err(FastLanesError::TypeMismatch);
    }
    let widths = widths.as_slice::<u8>();
    if widths.len() != chunk_count(column.len()) {
        return Err(FastLanesError::BlockCount);
    }
    gather_blocked_patches(asked.alloc, column, widths, 0)
}

/// Counts the numbers above a width.
fn exceptions(width: u8, histogram: &[usize]) -> Result<usize, FastLanesError> {
    if widths::sum_above(width, histogram).is_none() {
        return Err(FastLanesError::LengthOverflow);
    }
    Ok(count_exceptions(width, histogram))
}

/// Calls the operation that the words name on a constant array, or decodes it.
fn constant_op(asked: Asked, constant: &ConstantArray, inputs: &Inputs) -> Made {
    let alloc = asked.alloc;
    match inputs.ops.first() {
        Some(Op::Take(_)) => constant.take(alloc, asked.column(1)),
        Some(Op::TakeRanges(ranges)) => constant.take_ranges(alloc, ranges),
        Some(Op::Filter(mask)) if mask.len() == constant.len() => constant.filter(alloc, mask),
        Some(Op::Cast(target)) => constant.cast(alloc, *target),
        _ => constant.decode(alloc),
    }
}

fn constant_compare(asked: Asked, constant: &ConstantArray) -> Tests {
    let value = value_of(constant.ptype(), asked.word(2));
    constant.compare(asked.alloc, operator(asked.word(1)), value)
}

fn constant_between(asked: Asked, constant: &ConstantArray) -> Tests {
    let (lower, upper) = (
        value_of(constant.ptype(), asked.word(1)),
        value_of(constant.ptype(), asked.word(2)),
    );
    constant.between(asked.alloc, lower, upper, options("gte", "lt"))
}

#[derive(Clone, Copy)]
enum Call {
    Op,
    Compare,
    Between,
    Positions,
    Options,
    Histogram,
    BestWidths,
    BestWidth,
    Exceptions,
    Gather,
    GatherBlocked,
}

const CALLS: &[(&str, Call)] = &[
    ("column_op", Call::Op),
    ("column_compare", Call::Compare),
    ("column_between", Call::Between),
    ("positions", Call::Positions),
    ("options", Call::Options),
    ("histogram", Call::Histogram),
    ("best_widths", Call::BestWidths),
    ("best_width", Call::BestWidth),
    ("exceptions", Call::Exceptions),
    ("gather", Call::Gather),
    ("gather_blocked", Call::GatherBlocked),
];

/// Makes a call on the first column.
fn on_column(asked: Asked, call: Call, inputs: &Inputs, answer: &mut Text) {
    let (alloc, column) = (asked.alloc, asked.column(0));
    match call {
        Call::Op => came(answer, op(asked, column, inputs)),
        Call::Compare => came(answer, compare(asked, column)),
        Call::Between => came(answer, between(asked, column)),
        Call::Positions => came(answer, column.positions(alloc, asked.count(1))),
        Call::Options => came(
            answer,
            PrimitiveArray::from_options::<u16>(alloc, &inputs.items),
        ),
        Call::Histogram => came(answer, bit_width_histogram(alloc, column)),
        Call::BestWidths => came(answer, find_best_bit_widths(alloc, column)),
        Call::BestWidth => {
            let ptype = type_of(asked.word(1));
            came(answer, find_best_bit_width(ptype, &inputs.numbers));
        }
        Call::Exceptions => {
            let width = width_of(asked.word(1));
            came(answer, exceptions(width, &inputs.numbers));
        }
        Call::Gather => {
            let width = width_of(asked.word(1));
            came_patches(answer, gather_patches(alloc, column, width, 0));
        }
        Call::GatherBlocked => came_patches(answer, gather_blocked(asked, column, asked.column(1))),
    }
}

#[derive(Clone, Copy)]
enum ConstantCall {
    Op,
    Compare,
    Between,
}

const CONSTANT_CALLS: &[(&str, ConstantCall)] = &[
    ("constant_op", ConstantCall::Op),
    ("constant_compare", ConstantCall::Compare),
    ("constant_between", ConstantCall::Between),
];

/// Makes a call on a constant array.
fn on_constant(
    asked: Asked,
    call: ConstantCall,
    constant: &ConstantArray,
    inputs: &Inputs,
    answer: &mut Text,
) {
    match call {
        ConstantCall::Op => came(answer, constant_op(asked, constant, inputs)),
        ConstantCall::Compare => came(answer, constant_compare(asked, constant)),
        ConstantCall::Between => came(answer, constant_between(asked, constant)),
    }
}

pub(crate) fn make(asked: Asked, inputs: &Inputs, answer: &mut Text) -> bool {
    if let Some(call) = named(CALLS, asked.word(0)) {
        on_column(asked, call, inputs, answer);
        return true;
    }
    match (
        named(CONSTANT_CALLS, asked.word(0)),
        inputs.array.as_constant(),
    ) {
        (Some(call), Some(constant)) => {
            on_constant(asked, call, constant, inputs, answer);
            true
        }
        _ => false,
    }
}
