//! Operations and queries of arrays.

ghost use Rattle.std.specs.Prelude.{◌*◌, ◌≡◌, ◌≤◌, Err, IfOk, IfSome, IsTrue, Ok, length, ℕ};
ghost use Rattle.fl_types.specs.declared.error.FastLanesError.{FastLanesError};
ghost use Rattle.fl_types.specs.declared.mask.Mask.TheVariants.{AllTrue};
ghost use Rattle.fl_types.specs.Masks.{mask_len};
ghost use Rattle.fl_types.specs.Refusals.{Answers};
ghost use Rattle.fl_types.specs.Types.{has_ptype, is_integer};
ghost use Rattle.fl_types.specs.Values.{scalar_parts, integer_of, ptype_of_value};
ghost use Rattle.fl_column.specs.Columns.{column_of_bools};
ghost use Rattle.fl_column.specs.Operations.{cast_column, filter_column, ranges_column, ranges_of, take_column, take_of};
ghost use Rattle.fl_column.specs.Queries.{holds, is_between, is_constant_column, is_sorted_column};
ghost use Rattle.fl_array.specs.Trees.{Tree, column};
ghost use Rattle.fl_ops.specs.Normalized.{SameShown};
ghost use Rattle.fl_ops.specs.Results.{IsFiltered, cast_to, picked};
ghost use Rattle.fl_ops.specs.Takes.{has_block_widths};
ghost use Rattle.fl_ops.specs.Unpacked.{IsTestOfArray};
ghost use Rattle.fl_ops.specs.Queries.{between_scalars, compare_scalar, integer_in, is_comparable, nullable_with};

use crate::encoded_tests::{
    between_plain, compare_plain, encoded_between, encoded_comparison, test_packed,
};
use crate::selection::{Selection, select};
use crate::takes::take_packed_counted;
use crate::{casting, constancy, sorting};
use fastlanes::Work;
use fl_array::ArrayRef;
use fl_column::{
    BetweenOptions, BoolArray, CompareOperator, DType, FastLanesError, Mask, Nullability, PValue,
    Scalar, ranges_total,
};
use std::alloc::Global;

/// Operations and queries of arrays of integers. Each returns `NotInteger` for a Bool array.
/// Takes and filters of a FoR array of one reference give such an array over the encoded array's
/// result; those of all other kinds give plain arrays.
pub trait ArrayOps {
    /// The tree of the array.
    ghost tree: { Self → Tree };

    /// The items that the indices name, null where an index is null. The integer under a null index
    /// is never read.
    ///
    /// # Errors
    /// `NotInteger` if one of the arrays is not of integers, then `IndexOutOfBounds` if an
    /// index is negative or not below the length.
    fn take(&self, alloc: Global, indices: &ArrayRef) -> Result<ArrayRef, FastLanesError>
        ensures column { Answers column result (take_column (column indices.now) (column (tree self.now))) }
        ensures tree { IfOk result (λ a. SameShown a (picked (take_of (column indices.now)) (tree self.now))) };

    /// As `take`, and what was read of packed bytes for it, if this is a bit-packed array; of any other
    /// the count says nothing. Where each block has a width of its own, a block is unpacked for seventeen
    /// indices at least, and at most two words are read for an index.
    ///
    /// # Errors
    /// Those of `take`.
    fn take_counted(
        &self,
        alloc: Global,
        indices: &ArrayRef,
    ) -> Result<(ArrayRef, Work), FastLanesError>
        ensures column { Answers (λ r. column r.0) result (take_column (column indices.now) (column (tree self.now))) }
        ensures tree { IfOk result (λ r. SameShown r.0 (picked (take_of (column indices.now)) (tree self.now))) }
        ensures blocks { IsTrue (has_block_widths (tree self.now)) → IfOk result (λ r. 17 * r.1.blocks ≤ length (column indices.now).items) }
        ensures words { IsTrue (has_block_widths (tree self.now)) → IfOk result (λ r. r.1.words ≤ 2 * length (column indices.now).items) };

    /// The items of the ranges, each a start and a length, one range after another. A range without
    /// items is skipped, wherever it starts. An error allocates nothing.
    ///
    /// # Errors
    /// `NotInteger`, then `RangeOutOfBounds` if a range with items reaches beyond the length,
    /// then `LengthOverflow` if the lengths' sum is above `usize::MAX`.
    fn take_ranges(
        &self,
        alloc: Global,
        ranges: &[(usize, usize)],
    ) -> Result<ArrayRef, FastLanesError>
        ensures column { Answers column result (ranges_column ranges.now (column (tree self.now))) }
        ensures tree { IfOk result (λ a. SameShown a (picked (ranges_of ranges.now) (tree self.now))) }
        ensures refused { (e : FastLanesError) → ranges_column ranges.now (column (tree self.now)) ≡ Err e → result ≡ Err e };

    /// The items whose bit of the mask is true, in order. The mask has the array's length; one that
    /// keeps all items by its form returns a copy.
    ///
    /// # Errors
    /// `NotInteger`.
    fn filter(&self, alloc: Global, mask: &Mask) -> Result<ArrayRef, FastLanesError>
        requires { mask_len mask.now ≡ length (column (tree self.now)).items }
        ensures column { Answers column result (filter_column mask.now (column (tree self.now))) }
        ensures tree { IfOk result (λ a. IsFiltered mask.now (tree self.now) a) }
        ensures copy { (len : ℕ) → mask.now ≡ AllTrue len → IsTrue (is_integer (column (tree self.now)).dtype) → Answers (λ a. a) result (Ok (tree self.now)) };

    /// The same integers in another type. If the integer type stays, a bit-packed array of one
    /// width keeps its packed bytes and a delta array its bases and deltas, unless it may have
    /// nulls and the target may not; a FoR array keeps its references, over the encoded array's
    /// cast. A run-length encoded array stays one if all its run values and run indices have a
    /// cast. Every other array becomes a plain one.
    ///
    /// # Errors
    /// `NotInteger` if the array or the target is not of integers, then `CastNull` if an item
    /// is null and the target is not nullable, then `CastOutOfRange` if the target does not have an
    /// item.
    fn cast(&self, alloc: Global, target: DType) -> Result<ArrayRef, FastLanesError>
        ensures column { Answers column result (cast_column target (column (tree self.now))) }
        ensures tree { IfOk result (λ a. SameShown a (cast_to target (tree self.now))) };

    /// How each item compares with a constant of the array's type that is not null; the answer for a
    /// null is null. The answers are nullable if the array or the constant is.
    ///
    /// # Errors
    /// `NotInteger`.
    fn compare(
        &self,
        alloc: Global,
        operator: CompareOperator,
        constant: &Scalar,
    ) -> Result<BoolArray, FastLanesError>
        requires { IsTrue (is_comparable (column (tree self.now)) (scalar_parts constant.now)) }
        ensures { Answers column_of_bools result (compare_scalar operator (scalar_parts constant.now) (column (tree self.now))) };

    /// Whether each item is between two bounds of the array's type that are not null; the answer for
    /// a null is null. If the lower bound is greater than the upper one, no item is. The answers are
    /// nullable if the array or one of the bounds is.
    ///
    /// # Errors
    /// `NotInteger`.
    fn between(
        &self,
        alloc: Global,
        lower: &Scalar,
        upper: &Scalar,
        options: &BetweenOptions,
    ) -> Result<BoolArray, FastLanesError>
        requires lower { IsTrue (is_comparable (column (tree self.now)) (scalar_parts lower.now)) }
        requires upper { IsTrue (is_comparable (column (tree self.now)) (scalar_parts upper.now)) }
        ensures { Answers column_of_bools result (between_scalars (scalar_parts lower.now) (scalar_parts upper.now) options.now (column (tree self.now))) };

    /// As `compare`, and also returns what was unpacked of a bit-packed array. An array of one width unpacks each block, or none
    /// if there is no item or the width decides the comparison; an array with a width for each block unpacks those whose own width
    /// does not decide it. A FoR array of one reference returns the count of its encoded array: there a width decides the
    /// comparison if it has one answer for the sums of the reference and each integer of so many bits. A FoR array whose chunks
    /// are the blocks of a bit-packed child returns the count of that child, each block with its own reference. Of any other
    /// array the count says nothing.
    ///
    /// # Errors
    /// `NotInteger`.
    fn compare_counted(
        &self,
        alloc: Global,
        operator: CompareOperator,
        constant: &Scalar,
    ) -> Result<(BoolArray, Work), FastLanesError>
        requires { IsTrue (is_comparable (column (tree self.now)) (scalar_parts constant.now)) }
        ensures answer { Answers (λ r. column_of_bools r.0) result (compare_scalar operator (scalar_parts constant.now) (column (tree self.now))) }
        ensures work { IfOk result (λ r. IsTestOfArray (tree self.now) (holds operator (integer_in (scalar_parts constant.now))) r.1) };

    /// As `between`, and also returns what was unpacked, as `compare_counted` does.
    ///
    /// # Errors
    /// `NotInteger`.
    fn between_counted(
        &self,
        alloc: Global,
        lower: &Scalar,
        upper: &Scalar,
        options: &BetweenOptions,
    ) -> Result<(BoolArray, Work), FastLanesError>
        requires lower { IsTrue (is_comparable (column (tree self.now)) (scalar_parts lower.now)) }
        requires upper { IsTrue (is_comparable (column (tree self.now)) (scalar_parts upper.now)) }
        ensures answer { Answers (λ r. column_of_bools r.0) result (between_scalars (scalar_parts lower.now) (scalar_parts upper.now) options.now (column (tree self.now))) }
        ensures work { IfOk result (λ r. IsTestOfArray (tree self.now) (is_between options.now (integer_in (scalar_parts lower.now)) (integer_in (scalar_parts upper.now))) r.1) };

    /// Whether all items are equal; a null equals a null. An empty array is constant.
    ///
    /// # Errors
    /// `NotInteger`.
    fn is_constant(&self, alloc: Global) -> Result<bool, FastLanesError>
        ensures { Answers (λ b. b) result (is_constant_column (column (tree self.now))) };

    /// Whether no item is greater than the next or, if `strict`, each item is less than the next; a null is
    /// below every integer. An empty array is sorted.
    ///
    /// # Errors
    /// `NotInteger`.
    fn is_sorted(&self, alloc: Global, strict: bool) -> Result<bool, FastLanesError>
        ensures { Answers (λ b. b) result (is_sorted_column strict (column (tree self.now))) };
}

/// The integer of a constant of the array's type.
fn integer_for(array: &ArrayRef, constant: &Scalar) -> PValue
    requires integers { IsTrue (is_integer (column array.now).dtype) }
    requires comparable { IsTrue (is_comparable (column array.now) (scalar_parts constant.now)) }
    ensures value { integer_of result ≡ integer_in (scalar_parts constant.now) }
    ensures typed { IsTrue (has_ptype (ptype_of_value result) (column array.now).dtype) }
{
    match constant.as_pvalue() {
        Some(value) => value,
        None => unreachable!(),
    }
}

/// The answers of a comparison with a constant, nullable also if the constant is.
#[tactic(auto, using(crate::proofs::NullableLaws::as_they_are, crate::proofs::NullableLaws::made_nullable))]
fn nullable_with(answers: BoolArray, constant: &Scalar) -> BoolArray
    ensures { column_of_bools result ≡ nullable_with (scalar_parts constant.now) (column_of_bools answers) }
{
    match constant.dtype().nullability() {
        Nullability::NonNullable => answers,
        Nullability::Nullable => answers.into_nullable(),
    }
}

impl ArrayOps for ArrayRef {
    ghost tree = { λ a. a };

    fn take(&self, alloc: Global, indices: &ArrayRef) -> Result<ArrayRef, FastLanesError> {
        select(alloc, self, Selection::Indices(indices))
    }

    fn take_counted(
        &self,
        alloc: Global,
        indices: &ArrayRef,
    ) -> Result<(ArrayRef, Work), FastLanesError> {
        match self.as_bitpacked() {
            Some(packed) => take_packed_counted(alloc, packed, indices),
            None => Ok((self.take(alloc, indices)?, Work::new())),
        }
    }

    fn take_ranges(
        &self,
        alloc: Global,
        ranges: &[(usize, usize)],
    ) -> Result<ArrayRef, FastLanesError> {
        let DType::Primitive(_, _) = self.dtype() else {
            return Err(FastLanesError::NotInteger);
        };
        ranges_total(ranges, self.len())?;
        select(alloc, self, Selection::Ranges(ranges))
    }

    #[tactic(auto, using(crate::proofs::Filters::all_kept))]
    fn filter(&self, alloc: Global, mask: &Mask) -> Result<ArrayRef, FastLanesError> {
        let DType::Primitive(_, _) = self.dtype() else {
            return Err(FastLanesError::NotInteger);
        };
        match mask {
            Mask::AllTrue(_) => self.try_clone(alloc),
            _ => select(alloc, self, Selection::Mask(mask)),
        }
    }

    fn cast(&self, alloc: Global, target: DType) -> Result<ArrayRef, FastLanesError> {
        casting::cast(alloc, self, target)
    }

    fn compare(
        &self,
        alloc: Global,
        operator: CompareOperator,
        constant: &Scalar,
    ) -> Result<BoolArray, FastLanesError> {
        let (answers, _work) = self.compare_counted(alloc, operator, constant)?;
        Ok(answers)
    }

    fn between(
        &self,
        alloc: Global,
        lower: &Scalar,
        upper: &Scalar,
        options: &BetweenOptions,
    ) -> Result<BoolArray, FastLanesError> {
        let (answers, _work) = self.between_counted(alloc, lower, upper, options)?;
        Ok(answers)
    }

    #[tactic(auto, using(crate::proofs::NullableLaws::comparisons))]
    fn compare_counted(
        &self,
        alloc: Global,
        operator: CompareOperator,
        constant: &Scalar,
    ) -> Result<(BoolArray, Work), FastLanesError> {
        let DType::Primitive(_, _) = self.dtype() else {
            return Err(FastLanesError::NotInteger);
        };
        let integer = integer_for(self, constant);
        let (encoded, range) = encoded_comparison(self, operator, integer);
        match test_packed(alloc, encoded, range)? {
            Some((answers, work)) => Ok((nullable_with(answers, constant), work)),
            None => {
                let answers = compare_plain(alloc, self, operator, integer)?;
                Ok((nullable_with(answers, constant), Work::new()))
            }
        }
    }

    #[tactic(auto, using(crate::proofs::NullableLaws::comparisons))]
    fn between_counted(
        &self,
        alloc: Global,
        lower: &Scalar,
        upper: &Scalar,
        options: &BetweenOptions,
    ) -> Result<(BoolArray, Work), FastLanesError> {
        let DType::Primitive(_, _) = self.dtype() else {
            return Err(FastLanesError::NotInteger);
        };
        let (low, high) = (integer_for(self, lower), integer_for(self, upper));
        let (encoded, range) = encoded_between(self, low, high, *options);
        match test_packed(alloc, encoded, range)? {
            Some((answers, work)) => Ok((
                nullable_with(nullable_with(answers, lower), upper),
                work,
            )),
            None => {
                let answers = between_plain(alloc, self, low, high, *options)?;
                Ok((
                    nullable_with(nullable_with(answers, lower), upper),
                    Work::new(),
                ))
            }
        }
    }

    fn is_constant(&self, alloc: Global) -> Result<bool, FastLanesError> {
        constancy::is_constant(alloc, self)
    }

    fn is_sorted(&self, alloc: Global, strict: bool) -> Result<bool, FastLanesError> {
        sorting::is_sorted(alloc, self, strict)
    }
}
