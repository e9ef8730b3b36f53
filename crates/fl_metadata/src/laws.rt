//! Laws of messages.

ghost use Rattle.std.specs.Prelude.{◌≡◌, ◌<◌, ◌≤◌, ◌^◌, ℕ, ℤ, List, Option, Some, IfSome, Ok, Err, length};
ghost use Rattle.fl_types.specs.declared.error.FastLanesError.{FastLanesError};
ghost use Rattle.fl_types.specs.declared.error.FastLanesError.TheVariants.{BadMetadata};
ghost use Rattle.fl_types.specs.declared.dtype.PType.{PType};
ghost use Rattle.fl_types.specs.Integers.{FitsIn};
ghost use Rattle.fl_metadata.specs.Wire.{Payload, Field, IsVarint, IsRow};
ghost use Rattle.fl_metadata.specs.WireReading.{fields_of};
ghost use Rattle.fl_metadata.specs.Schemas.{Says, values_of};
ghost use Rattle.fl_metadata.specs.WrittenText.{varint_text, message_text, fields_in, AreBytes, IsOneText};
ghost use Rattle.fl_metadata.specs.Messages.{delta_metadata_of, delta_slots, for_chunked_of, for_chunked_slots, rle_of, rle_slots, patches_of, patches_slots, bit_packed_of, bit_packed_slots, bit_packed_blocked_of, bit_packed_blocked_slots};
ghost use Rattle.fl_metadata.specs.Scalars.{scalar_of, scalar_slots};
ghost use Rattle.fl_metadata.specs.Fits.{DeltaFits, FoRChunkedFits, RLEFits, PatchesFit, BitPackedFits, BitPackedBlockedFits};
ghost use Rattle.fl_metadata.specs.declared.schema.Kind.{Kind};
ghost use Rattle.fl_metadata.specs.declared.delta.DeltaMetadata.{DeltaMetadata};
ghost use Rattle.fl_metadata.specs.declared.for_chunked.FoRChunkedMetadata.{FoRChunkedMetadata};
ghost use Rattle.fl_metadata.specs.declared.rle.RLEMetadata.{RLEMetadata};
ghost use Rattle.fl_metadata.specs.declared.patches.PatchesMetadata.{PatchesMetadata};
ghost use Rattle.fl_metadata.specs.declared.bit_packed.BitPackedMetadata.{BitPackedMetadata};
ghost use Rattle.fl_metadata.specs.declared.bit_packed.BitPackedBlockedMetadata.{BitPackedBlockedMetadata};

/// Reading finds the fields of a text if and only if it is a row of them.
pub fn row_is_read()
    ensures found { (bytes : List ℕ) (fs : List Field) → fields_of bytes ≡ Some fs → IsRow fs bytes }
    ensures only { (bytes : List ℕ) (fs : List Field) → IsRow fs bytes → fields_of bytes ≡ Some fs }
{}

/// The values of a text are those of a row of its fields; otherwise it is not a message of the schema.
pub fn row_is_said()
    ensures found { (schema : List Kind) (bytes : List ℕ) (values : List (Option Payload))
        → values_of schema bytes ≡ Ok values → (fs : List Field) × IsRow fs bytes × Says schema fs values }
    ensures only { (schema : List Kind) (bytes : List ℕ) (values : List (Option Payload)) (fs : List Field)
        → IsRow fs bytes → Says schema fs values → values_of schema bytes ≡ Ok values }
    ensures refused { (schema : List Kind) (bytes : List ℕ) (e : FastLanesError)
        → values_of schema bytes ≡ Err e → e ≡ BadMetadata }
{}

/// The varint that is written is the only shortest one of its number.
pub fn varint_is_shortest()
    ensures spelled { (n : ℕ) → n < 2 ^ 64 → IsVarint (varint_text n) n }
    ensures shortest { (n : ℕ) (bytes : List ℕ)
        → AreBytes bytes → IsVarint bytes n → length (varint_text n) ≤ length bytes }
    ensures only { (n : ℕ) (bytes : List ℕ)
        → AreBytes bytes → IsVarint bytes n → length bytes ≤ length (varint_text n) → bytes ≡ varint_text n }
{}

/// A message that is written is read as the same value.
pub fn written_is_read()
    ensures bit_packed { (m : BitPackedMetadata) → BitPackedFits m → bit_packed_of (message_text (bit_packed_slots m)) ≡ Ok m }
    ensures bit_packed_blocked { (m : BitPackedBlockedMetadata)
        → BitPackedBlockedFits m → bit_packed_blocked_of (message_text (bit_packed_blocked_slots m)) ≡ Ok m }
    ensures patches { (m : PatchesMetadata) → PatchesFit m → patches_of (message_text (patches_slots m)) ≡ Ok m }
    ensures for_chunked { (m : FoRChunkedMetadata) → FoRChunkedFits m → for_chunked_of (message_text (for_chunked_slots m)) ≡ Ok m }
    ensures delta { (m : DeltaMetadata) → DeltaFits m → delta_metadata_of (message_text (delta_slots m)) ≡ Ok m }
    ensures rle { (m : RLEMetadata) → RLEFits m → rle_of (message_text (rle_slots m)) ≡ Ok m }
    ensures scalar { (ptype : PType) (value : Option ℤ)
        → IfSome value (FitsIn ptype) → scalar_of ptype (message_text (scalar_slots ptype value)) ≡ Ok value }
{}

/// A message that is written is the canonical encoding of its fields: rising tags and shortest varints.
pub fn written_is_one_text()
    ensures bit_packed { (m : BitPackedMetadata)
        → BitPackedFits m → IsOneText (fields_in (bit_packed_slots m)) (message_text (bit_packed_slots m)) }
    ensures bit_packed_blocked { (m : BitPackedBlockedMetadata)
        → BitPackedBlockedFits m → IsOneText (fields_in (bit_packed_blocked_slots m)) (message_text (bit_packed_blocked_slots m)) }
    ensures patches { (m : PatchesMetadata) → PatchesFit m → IsOneText (fields_in (patches_slots m)) (message_text (patches_slots m)) }
    ensures for_chunked { (m : FoRChunkedMetadata)
        → FoRChunkedFits m → IsOneText (fields_in (for_chunked_slots m)) (message_text (for_chunked_slots m)) }
    ensures delta { (m : DeltaMetadata) → DeltaFits m → IsOneText (fields_in (delta_slots m)) (message_text (delta_slots m)) }
    ensures rle { (m : RLEMetadata) → RLEFits m → IsOneText (fields_in (rle_slots m)) (message_text (rle_slots m)) }
    ensures scalar { (ptype : PType) (value : Option ℤ)
        → IfSome value (FitsIn ptype) → IsOneText (fields_in (scalar_slots ptype value)) (message_text (scalar_slots ptype value)) }
{}

/// A scalar that is read fits its type.
pub fn scalar_fits()
    ensures { (ptype : PType) (bytes : List ℕ) (z : ℤ) → scalar_of ptype bytes ≡ Ok (Some z) → FitsIn ptype z }
{}
