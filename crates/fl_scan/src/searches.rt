//! Whether items are among given ones, and where a value stands in a sorted array.

ghost use Rattle.std.specs.Prelude.{◌≡◌, All, IfErr, IfOk, IsTrue, Ok, map};
ghost use Rattle.fl_types.specs.declared.error.FastLanesError.TheVariants.{OutOfMemory};
ghost use Rattle.fl_types.specs.Refusals.{Answers};
ghost use Rattle.fl_types.specs.Types.{has_ptype};
ghost use Rattle.fl_types.specs.Values.{integer_of, ptype_of_value, scalar_parts};
ghost use Rattle.fl_column.specs.Columns.{column_of_bools};
ghost use Rattle.fl_column.specs.Queries.{are_sorted, tested};
ghost use Rattle.fl_array.specs.Reads.{IsValidityOf};
ghost use Rattle.fl_array.specs.Trees.{column};
ghost use Rattle.fl_scan.specs.Blocks.{Marks};
ghost use Rattle.fl_scan.specs.Bounds.{lower_bound_of};
ghost use Rattle.fl_scan.specs.Constants.{integer_in, is_comparable};
ghost use Rattle.fl_scan.specs.Membership.{are_comparable, is_one_of};
ghost use Rattle.fl_scan.specs.Selections.{passing_marks};
ghost use Rattle.fl_scan.specs.Totals.{of_integers};

use crate::blocks::MOST_ITEMS;
use crate::bounds::position_of;
use crate::membership::keep_listed;
use crate::queries::integer_for;
use fl_array::{ArrayRef, IntoArray, Reader};
use fl_bitpacking::unpack_iter::BitPacked;
use fl_column::{
    BitList, BoolArray, DType, FastLanesError, PType, PValue, PhysicalPType, Scalar, Validity,
};
use fl_types::match_each_integer_ptype;
use num_traits::WrappingAdd;
use std::alloc::Global;

/// The marks of the items that are one of a list, by a column's integer type.
fn keep_typed(
    alloc: Global,
    reader: &Reader,
    marks: &Validity,
    ptype: PType,
    list: &[PValue],
) -> Result<BitList, FastLanesError>
    requires typed { IsTrue (has_ptype ptype reader.now.column.dtype) }
    requires marks { Marks marks.now reader.now.column }
    requires constants { All (λ value. ptype_of_value value ≡ ptype) list.now }
    ensures marks { IfOk result (λ bits. bits ≡ passing_marks (is_one_of (map integer_of list.now)) marks.now reader.now.column) }
    ensures memory { IfErr result (λ e. e ≡ OutOfMemory) }
{
    match_each_integer_ptype!(ptype, keep_listed(alloc, reader, marks, list))
}

/// Whether each item of an array is one of a list, null at a null.
fn is_in_read(
    alloc: Global,
    array: &ArrayRef,
    ptype: PType,
    list: &[PValue],
) -> Result<BoolArray, FastLanesError>
    requires typed { IsTrue (has_ptype ptype (column array.now).dtype) }
    requires constants { All (λ value. ptype_of_value value ≡ ptype) list.now }
    ensures { Answers column_of_bools result (Ok (tested (is_one_of (map integer_of list.now)) (column array.now))) }
{
    let validity = array.validity(alloc)?;
    let reader = Reader::try_new(alloc, array)?;
    let answers = keep_typed(alloc, &reader, &validity, ptype, list)?;
    BoolArray::new(answers, validity)
}

/// Whether each item is one of a list of constants of the array's type; the answer for a null is null.
///
/// # Errors
/// `NotInteger`.
pub fn is_in(alloc: Global, array: &ArrayRef, list: &[PValue]) -> Result<BoolArray, FastLanesError>
    requires { IsTrue (are_comparable (column array.now) list.now) }
    ensures { Answers column_of_bools result (of_integers (column array.now) (tested (is_one_of (map integer_of list.now)) (column array.now))) }
{
    let DType::Primitive(ptype, _) = array.dtype() else {
        return Err(FastLanesError::NotInteger);
    };
    if array.len() <= MOST_ITEMS {
        return is_in_read(alloc, array, ptype, list);
    }
    let plain = array.to_primitive(alloc)?.into_array();
    is_in_read(alloc, &plain, ptype, list)
}

/// The first position whose item is not below a value, of a column of the value's type.
fn position_of_value<T: BitPacked + PhysicalPType + WrappingAdd>(
    reader: &Reader,
    validity: &Validity,
    value: PValue,
) -> usize
    requires typed { IsTrue (has_ptype T.PTYPE reader.now.column.dtype) }
    requires value { ptype_of_value value ≡ T.PTYPE }
    requires validity { IsValidityOf validity.now reader.now.column }
    requires sorted { IsTrue (are_sorted reader.now.column.items) }
    ensures { result ≡ lower_bound_of (integer_of value) reader.now.column }
{
    position_of(reader, validity, T::from_pvalue(value).unwrap())
}

/// The same, by the column's integer type.
fn position_typed(reader: &Reader, validity: &Validity, ptype: PType, value: PValue) -> usize
    requires typed { IsTrue (has_ptype ptype reader.now.column.dtype) }
    requires value { ptype_of_value value ≡ ptype }
    requires validity { IsValidityOf validity.now reader.now.column }
    requires sorted { IsTrue (are_sorted reader.now.column.items) }
    ensures { result ≡ lower_bound_of (integer_of value) reader.now.column }
{
    match_each_integer_ptype!(ptype, position_of_value(reader, validity, value))
}

/// The first position whose item is not below a value of the array's type that is not null, or the number of items. The
/// array is sorted; a null is below every value. One item of each of some blocks is read, at most log2 of their number
/// and one, and then one block.
///
/// # Errors
/// `NotInteger`.
pub fn lower_bound(alloc: Global, array: &ArrayRef, value: &Scalar) -> Result<usize, FastLanesError>
    requires comparable { IsTrue (is_comparable (column array.now) (scalar_parts value.now)) }
    requires sorted { IsTrue (are_sorted (column array.now).items) }
    ensures { Answers (λ n. n) result (of_integers (column array.now) (lower_bound_of (integer_in (scalar_parts value.now)) (column array.now))) }
{
    let DType::Primitive(ptype, _) = array.dtype() else {
        return Err(FastLanesError::NotInteger);
    };
    let integer = integer_for(array, value);
    let validity = array.validity(alloc)?;
    let reader = Reader::try_new(alloc, array)?;
    Ok(position_typed(&reader, &validity, ptype, integer))
}
