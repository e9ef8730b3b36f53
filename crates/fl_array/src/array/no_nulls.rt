//! Columns that may have no nulls, and have none.

ghost use Rattle.fl_column.specs.Columns.{column_of_bools, column_of_constant, column_of_primitive};
ghost use Rattle.fl_array.specs.BitPackedArrays.{tree_of_bitpacked};
ghost use Rattle.fl_array.specs.DeltaArrays.{tree_of_delta};
ghost use Rattle.fl_array.specs.FoRArrays.{tree_of_for};
ghost use Rattle.fl_array.specs.NoNulls.{HasNoNulls};
ghost use Rattle.fl_array.specs.RLEArrays.{tree_of_rle};
ghost use Rattle.fl_array.specs.Trees.{column};

use crate::array::{ArrayRef, Node};
use crate::bitpacking::BitPackedArray;
use crate::delta::DeltaArray;
use crate::for_::FoRArray;
use crate::rle::RLEArray;
use crate::validities::constant_validity;
use fl_bitpacking::laws::parts_are_consistent;
use fl_column::{BoolArray, ConstantArray, PrimitiveArray};

#[tactic(auto, using(crate::proofs::NoNulls::primitive_has_no_nulls))]
fn prove_primitive(array: &PrimitiveArray)
    ensures { HasNoNulls (column_of_primitive array.now) }
{
    let _validity = array.validity();
}

#[tactic(auto, using(crate::proofs::NoNulls::none_shown))]
fn prove_constant(array: &ConstantArray)
    ensures { HasNoNulls (column_of_constant array.now) }
{
    let _validity = constant_validity(array);
}

#[tactic(auto, using(crate::proofs::NoNulls::bools_have_no_nulls))]
fn prove_bools(array: &BoolArray)
    ensures { HasNoNulls (column_of_bools array.now) }
{
    let _validity = array.validity();
}

#[tactic(auto, using(crate::proofs::NoNulls::bitpacked_has_no_nulls))]
fn prove_bitpacked(array: &BitPackedArray)
    ensures { HasNoNulls (column (tree_of_bitpacked array.now)) }
{
    parts_are_consistent(array.packed_data());
}

#[tactic(auto, using(crate::proofs::NoNulls::for_has_no_nulls))]
fn prove_sums(array: &FoRArray)
    requires { HasNoNulls (column array.now.encoded) }
    ensures { HasNoNulls (column (tree_of_for array.now)) }
{
    let _encoded = array.encoded();
}

#[tactic(auto, using(crate::proofs::NoNulls::delta_has_no_nulls))]
fn prove_deltas(array: &DeltaArray)
    ensures { HasNoNulls (column (tree_of_delta array.now)) }
{
    array.prove_well_formed();
}

#[tactic(auto, using(crate::proofs::NoNulls::rle_has_no_nulls))]
fn prove_runs(array: &RLEArray)
    requires { HasNoNulls (column array.now.indices) }
    ensures { HasNoNulls (column (tree_of_rle array.now)) }
{
    array.prove_well_formed();
}

impl ArrayRef {
    /// A column that may have no nulls has none.
    pub(crate) fn prove_no_nulls(&self)
        ensures { HasNoNulls (column self.now) }
    {
        match &self.node {
            Node::Primitive(array) => prove_primitive(array),
            Node::Constant(array) => prove_constant(array),
            Node::Bool(array) => prove_bools(array),
            Node::BitPacked(array) => prove_bitpacked(array),
            Node::FoR(array) => {
                array.encoded().prove_no_nulls();
                prove_sums(array)
            }
            Node::Delta(array) => prove_deltas(array),
            Node::RLE(array) => {
                array.indices().prove_no_nulls();
                prove_runs(array)
            }
        }
    }
}
