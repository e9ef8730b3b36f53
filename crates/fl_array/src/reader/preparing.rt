//! Readers that are made of arrays.

ghost use Rattle.std.specs.Prelude.{◌≡◌, IfSome, Ok};
ghost use Rattle.std.specs.Option.{option_copied};
ghost use Rattle.fl_types.specs.Refusals.{Answers};
ghost use Rattle.fl_types.specs.Values.{integer_of, ptype_of_value, scalar_parts};
ghost use Rattle.fl_column.specs.Columns.{column_of_constant, column_of_primitive, ptype_of_column};
ghost use Rattle.fl_codec.specs.FoRColumns.{chunked_for, global_for};
ghost use Rattle.fl_bitpacking.specs.Columns.{block_count};
ghost use Rattle.fl_array.specs.BitPackedArrays.{tree_of_bitpacked};
ghost use Rattle.fl_array.specs.BlockWidths.{AreBlockWidths};
ghost use Rattle.fl_array.specs.DeltaArrays.{tree_of_delta};
ghost use Rattle.fl_array.specs.FoRArrays.{ChunkReferences, GlobalReference, offset_of_references, tree_of_for};
ghost use Rattle.fl_array.specs.PackedSums.{AreHeldReferences, plus_held};
ghost use Rattle.fl_array.specs.PrimitiveCows.{primitive_of_cow};
ghost use Rattle.fl_array.specs.ReaderParts.{AreDeltaParts, AreReferences};
ghost use Rattle.fl_array.specs.ReaderSources.{AreRunParts};
ghost use Rattle.fl_array.specs.Reads.{integer_column};
ghost use Rattle.fl_array.specs.RLEArrays.{tree_of_rle};
ghost use Rattle.fl_array.specs.Trees.{column};

use crate::array::primitive_cow::PrimitiveCow;
use crate::array::{ArrayRef, Node};
use crate::bitpacking::BitPackedArray;
use crate::bitpacking::block_widths::BlockWidths;
use crate::delta::DeltaArray;
use crate::for_::{FoRArray, FoRReferences};
use crate::reader::direct::{DirectReader, Part};
use crate::reader::packed::{HeldReferences, PackedSums};
use crate::reader::runs::RunReader;
use crate::reader::{Reader, Source};
use crate::rle::RLEArray;
use fl_column::{ConstantArray, FastLanesError, PValue, PrimitiveArray, Scalar};
use std::alloc::Global;

/// The column of a constant array is of integers.
fn prove_integers(constant: &ConstantArray)
    ensures { integer_column (column_of_constant constant.now) ≡ Ok (column_of_constant constant.now) }
{
    let _ptype = constant.ptype();
}

/// A FoR array of one reference, and its encoded items, are of integers of the reference's type.
fn reference_of(array: &FoRArray, reference: &Scalar) -> PValue
    requires { GlobalReference (scalar_parts reference.now) ≡ array.now.references }
    ensures typed { ptype_of_value result ≡ ptype_of_column (column array.now.encoded) }
    ensures sums { global_for (integer_of result) (column array.now.encoded) ≡ column (tree_of_for array.now) }
    ensures integers { integer_column (column array.now.encoded) ≡ Ok (column array.now.encoded) }
{
    array.prove_well_formed();
    match reference.as_pvalue() {
        Some(value) => value,
        None => unreachable!(),
    }
}

/// The decoded references are those of the chunks of the encoded items.
fn prove_references(array: &FoRArray, references: &ArrayRef, plain: &PrimitiveArray)
    requires same { ChunkReferences references.now (offset_of_references array.now.references) ≡ array.now.references }
    requires plain { Ok (column_of_primitive plain.now) ≡ integer_column (column references.now) }
    ensures chunks { AreReferences plain.now (offset_of_references array.now.references) (column array.now.encoded) }
    ensures sums { chunked_for plain.now.slots (offset_of_references array.now.references) (column array.now.encoded) ≡ column (tree_of_for array.now) }
    ensures integers { integer_column (column array.now.encoded) ≡ Ok (column array.now.encoded) }
{
    array.prove_well_formed();
    let _count = plain.len();
}

/// The decoded bases, and a reader of the deltas, are the parts of a reader of a delta array.
fn prove_deltas(array: &DeltaArray, bases: &PrimitiveArray, deltas: &DirectReader)
    requires bases { Ok (column_of_primitive bases.now) ≡ integer_column (column array.now.bases) }
    requires deltas { Ok deltas.now.column ≡ integer_column (column array.now.deltas) }
    ensures { AreDeltaParts array.now bases.now deltas.now.column }
{
    array.prove_integers();
    array.deltas().prove_no_nulls();
}

/// What is read of a run-length encoded array is made of it.
fn prove_runs(runs: &RunReader)
    requires values { Ok (column_of_primitive (primitive_of_cow runs.now.values)) ≡ integer_column (column runs.now.array.now.values) }
    requires offsets { Ok (column_of_primitive (primitive_of_cow runs.now.offsets)) ≡ integer_column (column runs.now.array.now.offsets) }
    requires indices { Ok runs.now.indices.column ≡ integer_column (column runs.now.array.now.indices) }
    requires index_type { runs.now.index_type ≡ (column runs.now.array.now.indices).dtype }
    ensures { AreRunParts runs.now }
{
    runs.array.prove_integers();
    runs.array.indices().prove_no_nulls();
}

impl<'a> DirectReader<'a> {
    /// The reader of packed items, plus references, if there are any.
    fn packed(
        array: &'a BitPackedArray,
        widths: BlockWidths<'a>,
        references: HeldReferences<'a>,
    ) -> DirectReader<'a>
        requires widths { AreBlockWidths array.now widths }
        requires references { AreHeldReferences array.now.parts.ptype (block_count array.now.parts) references }
        ensures { result.column ≡ plus_held references.entry array.now.parts.offset (column (tree_of_bitpacked array.now)) }
    {
        DirectReader {
            part: Part::Packed(PackedSums {
                array,
                widths,
                added: references,
            }),
        }
    }

    /// The reader that adds a reference to the items of another one.
    fn plus(
        alloc: Global,
        encoded: DirectReader<'a>,
        reference: PValue,
    ) -> Result<DirectReader<'a>, FastLanesError>
        requires { ptype_of_value reference ≡ ptype_of_column encoded.column }
        ensures { Answers (λ r. r.column) result (Ok (global_for (integer_of reference) encoded.entry.column)) }
    {
        let encoded = Box::new(alloc, encoded)?;
        Ok(DirectReader {
            part: Part::FoR(reference, encoded),
        })
    }

    /// The reader that adds the references of chunks to the items of another one.
    fn plus_chunked(
        alloc: Global,
        encoded: DirectReader<'a>,
        references: PrimitiveCow<'a>,
        offset: usize,
    ) -> Result<DirectReader<'a>, FastLanesError>
        requires { AreReferences (primitive_of_cow references) offset encoded.column }
        ensures { Answers (λ r. r.column) result (Ok (chunked_for (primitive_of_cow references.entry).slots offset encoded.entry.column)) }
    {
        let encoded = Box::new(alloc, encoded)?;
        Ok(DirectReader {
            part: Part::FoRChunked(references, offset, encoded),
        })
    }

    /// The reader of a delta array.
    fn summed(
        alloc: Global,
        array: &'a DeltaArray,
        bases: PrimitiveCow<'a>,
        deltas: DirectReader<'a>,
    ) -> Result<DirectReader<'a>, FastLanesError>
        requires { AreDeltaParts array.now (primitive_of_cow bases) deltas.column }
        ensures { Answers (λ r. r.column) result (Ok (column (tree_of_delta array.now))) }
    {
        let deltas = Box::new(alloc, deltas)?;
        Ok(DirectReader {
            part: Part::Delta(array, bases, deltas),
        })
    }

    /// The reader of a bit-packed array, to whose items one reference is added.
    fn packed_for(
        sums: &FoRArray,
        packed: &'a BitPackedArray,
        widths: BlockWidths<'a>,
        reference: &Scalar,
    ) -> DirectReader<'a>
        requires same { GlobalReference (scalar_parts reference.now) ≡ sums.now.references }
        requires packed { tree_of_bitpacked packed.now ≡ sums.now.encoded }
        requires widths { AreBlockWidths packed.now widths }
        ensures { result.column ≡ column (tree_of_for sums.now) }
    {
        let reference = sums.reference_of_packed(packed, reference);
        DirectReader::packed(packed, widths, HeldReferences::Global(reference))
    }

    /// The reader of a bit-packed array, to the items of whose blocks their decoded references are added.
    fn packed_chunks(
        sums: &FoRArray,
        packed: &'a BitPackedArray,
        widths: BlockWidths<'a>,
        references: &ArrayRef,
        plain: PrimitiveCow<'a>,
    ) -> DirectReader<'a>
        requires same { ChunkReferences references.now (offset_of_references sums.now.references) ≡ sums.now.references }
        requires packed { tree_of_bitpacked packed.now ≡ sums.now.encoded }
        requires offset { packed.now.parts.offset ≡ offset_of_references sums.now.references }
        requires widths { AreBlockWidths packed.now widths }
        requires plain { Ok (column_of_primitive (primitive_of_cow plain)) ≡ integer_column (column references.now) }
        ensures { result.column ≡ column (tree_of_for sums.now) }
    {
        sums.prove_references_of_blocks(packed, references, plain.array());
        DirectReader::packed(packed, widths, HeldReferences::PerBlock(plain))
    }

    /// The reader of a FoR array.
    #[cycle(decoding)]
    pub(crate) fn of_for(
        alloc: Global,
        sums: &'a FoRArray,
    ) -> Result<DirectReader<'a>, FastLanesError>
        ensures { Answers (λ r. r.column) result (Ok (column (tree_of_for sums.now))) }
    {
        match sums.references() {
            FoRReferences::Global(reference) => match sums.encoded().as_bitpacked() {
                Some(packed) => {
                    packed.prove_smaller();
                    let widths = packed.widths(alloc)?;
                    Ok(DirectReader::packed_for(sums, packed, widths, reference))
                }
                None => {
                    let reference = reference_of(sums, reference);
                    let encoded = DirectReader::try_new(alloc, sums.encoded())?;
                    DirectReader::plus(alloc, encoded, reference)
                }
            },
            FoRReferences::Blocked(references) => {
                sums.prove_references_are_integers(references);
                let plain = references.primitive_cow(alloc)?;
                match sums.packed_in_chunks() {
                    Some(packed) => {
                        packed.prove_smaller();
                        let widths = packed.widths(alloc)?;
                        Ok(DirectReader::packed_chunks(sums, packed, widths, references, plain))
                    }
                    None => {
                        prove_references(sums, references, plain.array());
                        let encoded = DirectReader::try_new(alloc, sums.encoded())?;
                        DirectReader::plus_chunked(alloc, encoded, plain, sums.offset())
                    }
                }
            }
        }
    }

    /// The reader of a delta array: its bases are decoded, and its deltas have a reader.
    #[cycle(decoding)]
    pub(crate) fn of_deltas(
        alloc: Global,
        array: &'a DeltaArray,
    ) -> Result<DirectReader<'a>, FastLanesError>
        ensures { Answers (λ r. r.column) result (Ok (column (tree_of_delta array.now))) }
    {
        array.prove_integers();
        let bases = array.bases().primitive_cow(alloc)?;
        let deltas = DirectReader::try_new(alloc, array.deltas())?;
        prove_deltas(array, bases.array(), &deltas);
        DirectReader::summed(alloc, array, bases, deltas)
    }

    /// The reader of the decoded items of a run-length encoded array.
    #[cycle(decoding)]
    fn decoded(alloc: Global, runs: &RLEArray) -> Result<DirectReader<'a>, FastLanesError>
        ensures { Answers (λ r. r.column) result (Ok (column (tree_of_rle runs.now))) }
    {
        let reader = Reader::of_runs(alloc, runs)?;
        let plain = runs.read_all(alloc, &reader)?;
        Ok(DirectReader {
            part: Part::Decoded(plain),
        })
    }

    /// A reader of an array of integers.
    ///
    /// # Errors
    /// `NotInteger` if the array is of booleans.
    #[cycle(decoding)]
    pub(crate) fn try_new(
        alloc: Global,
        array: &'a ArrayRef,
    ) -> Result<DirectReader<'a>, FastLanesError>
        ensures { Answers (λ r. r.column) result (integer_column (column array.now)) }
    {
        match array.node() {
            Node::Primitive(plain) => Ok(DirectReader {
                part: Part::Primitive(plain),
            }),
            Node::Constant(constant) => {
                prove_integers(constant);
                Ok(DirectReader {
                    part: Part::Constant(constant),
                })
            }
            Node::Bool(_) => Err(FastLanesError::NotInteger),
            Node::BitPacked(packed) => {
                packed.prove_integers();
                packed.prove_smaller();
                let widths = packed.widths(alloc)?;
                Ok(DirectReader::packed(packed, widths, HeldReferences::None))
            }
            Node::FoR(sums) => {
                sums.prove_integers();
                sums.prove_smaller();
                DirectReader::of_for(alloc, sums)
            }
            Node::Delta(deltas) => {
                deltas.prove_integers();
                DirectReader::of_deltas(alloc, deltas)
            }
            Node::RLE(runs) => {
                runs.prove_integers();
                DirectReader::decoded(alloc, runs)
            }
        }
    }
}

impl<'a> Reader<'a> {
    /// The reader of an array that is not run-length encoded.
    pub(crate) fn direct(reader: DirectReader<'a>) -> Reader<'a>
        ensures { result ≡ reader.entry }
    {
        Reader {
            source: Source::Direct(reader),
        }
    }

    /// The reader of a run-length encoded array: its run values and run offsets are decoded, and its run indices have a
    /// reader.
    #[cycle(decoding)]
    pub(crate) fn of_runs(alloc: Global, array: &'a RLEArray) -> Result<Reader<'a>, FastLanesError>
        ensures { Answers (λ r. r.column) result (Ok (column (tree_of_rle array.now))) }
    {
        array.prove_integers();
        let values = array.values().primitive_cow(alloc)?;
        let offsets = array.offsets().primitive_cow(alloc)?;
        let indices = DirectReader::try_new(alloc, array.indices())?;
        let index_type = array.indices().dtype();
        let runs = RunReader {
            array,
            values,
            offsets,
            indices,
            index_type,
        };
        prove_runs(&runs);
        Ok(Reader {
            source: Source::RLE(runs),
        })
    }

    /// A reader of an array of integers. This alone allocates: what the encodings need beside the stored items.
    ///
    /// # Errors
    /// `NotInteger` if the array is of booleans.
    #[cycle(decoding)]
    pub fn try_new(alloc: Global, array: &'a ArrayRef) -> Result<Reader<'a>, FastLanesError>
        ensures { Answers (λ r. r.column) result (integer_column (column array.now)) }
    {
        match array.node() {
            Node::RLE(runs) => {
                runs.prove_integers();
                Reader::of_runs(alloc, runs)
            }
            _ => Ok(Reader::direct(DirectReader::try_new(alloc, array)?)),
        }
    }
}
