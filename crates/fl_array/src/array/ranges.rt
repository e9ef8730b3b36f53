//! Every item of an array is in the range of the column's type.

ghost use Rattle.std.specs.Prelude.{◌≡◌, IfSome, IsTrue};
ghost use Rattle.std.specs.List.{list_all};
ghost use Rattle.std.specs.Option.{option_copied};
ghost use Rattle.fl_types.specs.Integers.{fits};
ghost use Rattle.fl_types.specs.Values.{fits_in};
ghost use Rattle.fl_column.specs.Columns.{column_of_bools, column_of_constant, column_of_primitive, option_all};
ghost use Rattle.fl_array.specs.BitPackedArrays.{tree_of_bitpacked};
ghost use Rattle.fl_array.specs.DeltaArrays.{tree_of_delta};
ghost use Rattle.fl_array.specs.FoRArrays.{tree_of_for};
ghost use Rattle.fl_array.specs.Ranges.{items_fit};
ghost use Rattle.fl_array.specs.RLEArrays.{tree_of_rle};
ghost use Rattle.fl_array.specs.Trees.{column};

use crate::array::{ArrayRef, Node};
use crate::bitpacking::BitPackedArray;
use crate::delta::DeltaArray;
use crate::for_::FoRArray;
use crate::rle::RLEArray;
use fl_bitpacking::laws::parts_are_consistent;
use fl_column::laws::stored_integers_are_in_range;
use fl_column::{BoolArray, ConstantArray, PrimitiveArray};
use fl_patches::Patches;
use fl_types::laws::value_is_in_range;

/// The items of a plain array are integers of its type, or nulls.
#[tactic(auto, using(crate::proofs::RangeLaws::plain_fits))]
fn prove_primitive_in_range(array: &PrimitiveArray)
    ensures { IsTrue (items_fit (column_of_primitive array.now)) }
{
    stored_integers_are_in_range(array);
}

/// The scalar of a constant array is an integer of its type, or a null.
#[tactic(auto, using(crate::proofs::RangeLaws::scalar_fits))]
fn prove_scalar_in_range(array: &ConstantArray)
    ensures { IsTrue (option_all (fits_in array.now.scalar.dtype) array.now.scalar.value) }
{
    match array.value() {
        Some(value) => value_is_in_range(value),
        None => {}
    }
}

/// The items of a constant array are integers of its type, or nulls.
#[tactic(auto, using(crate::proofs::RangeLaws::constant_fits))]
fn prove_constant_in_range(array: &ConstantArray)
    ensures { IsTrue (items_fit (column_of_constant array.now)) }
{
    prove_scalar_in_range(array);
}

/// The items of a boolean array are 0 and 1, or nulls.
#[tactic(auto, using(crate::proofs::RangeLaws::bools_fit))]
fn prove_bools_in_range(array: &BoolArray)
    ensures { IsTrue (items_fit (column_of_bools array.now)) }
{
    let _ = array;
}

/// The values of patches are integers of their type.
fn prove_patches_in_range(patches: Option<&Patches>)
    ensures { IfSome (option_copied patches.entry) (λ p. IsTrue (list_all (fits p.values.ptype) p.values.slots)) }
{
    match patches {
        Some(patches) => stored_integers_are_in_range(patches.values()),
        None => {}
    }
}

impl BitPackedArray {
    /// Every item is in the range of the column's type.
    #[tactic(auto, using(crate::proofs::RangeLaws::bitpacked_fits))]
    pub(crate) fn prove_in_range(&self)
        ensures { IsTrue (items_fit (column (tree_of_bitpacked self.now))) }
    {
        let data = self.packed_data();
        parts_are_consistent(data);
        prove_patches_in_range(data.patches());
    }
}

impl FoRArray {
    /// Every item is in the range of the column's type.
    #[tactic(auto, using(crate::proofs::RangeLaws::for_fits))]
    pub(crate) fn prove_in_range(&self)
        ensures { IsTrue (items_fit (column (tree_of_for self.now))) }
    {
        self.prove_well_formed();
    }
}

impl DeltaArray {
    /// Every item is in the range of the column's type.
    #[tactic(auto, using(crate::proofs::RangeLaws::delta_array_fits))]
    pub(crate) fn prove_in_range(&self)
        ensures { IsTrue (items_fit (column (tree_of_delta self.now))) }
    {
        self.prove_well_formed();
    }
}

impl RLEArray {
    /// Every item lies in the range of the column's type, where every run value does.
    #[tactic(auto, using(crate::proofs::RangeLaws::rle_fits))]
    pub(crate) fn prove_in_range(&self)
        requires { IsTrue (items_fit (column self.now.values)) }
        ensures { IsTrue (items_fit (column (tree_of_rle self.now))) }
    {
        self.prove_integers();
    }
}

impl ArrayRef {
    /// Every item is in the range of the column's type.
    pub(crate) fn prove_in_range(&self)
        ensures { IsTrue (items_fit (column self.now)) }
    {
        match &self.node {
            Node::Primitive(array) => prove_primitive_in_range(array),
            Node::Constant(array) => prove_constant_in_range(array),
            Node::Bool(array) => prove_bools_in_range(array),
            Node::BitPacked(array) => array.prove_in_range(),
            Node::FoR(array) => array.prove_in_range(),
            Node::Delta(array) => array.prove_in_range(),
            Node::RLE(array) => {
                array.values().prove_in_range();
                array.prove_in_range();
            }
        }
    }
}
