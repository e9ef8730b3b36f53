//! The ids of the kinds of serialized arrays.

ghost use Rattle.std.specs.Prelude.{◌≡◌};
ghost use Rattle.fl_serialized.specs.Nodes as ids;

/// The id of a primitive array.
pub fn primitive_id() -> &'static str
    ensures { result.now ≡ ids.primitive_id }
{
    "vortex.primitive"
}

/// The id of a constant array.
pub fn constant_id() -> &'static str
    ensures { result.now ≡ ids.constant_id }
{
    "vortex.constant"
}

/// The id of a boolean array.
pub fn bool_id() -> &'static str
    ensures { result.now ≡ ids.bool_id }
{
    "vortex.bool"
}

/// The id of a global bit-packed array.
pub fn bitpacked_v1_id() -> &'static str
    ensures { result.now ≡ ids.bitpacked_v1_id }
{
    "fastlanes.bitpacked"
}

/// The id of a blocked bit-packed array.
pub fn bitpacked_v2_id() -> &'static str
    ensures { result.now ≡ ids.bitpacked_v2_id }
{
    "fastlanes.bitpacked.v2"
}

/// The id of a global FoR array.
pub fn for_v1_id() -> &'static str
    ensures { result.now ≡ ids.for_v1_id }
{
    "fastlanes.for"
}

/// The id of a chunked FoR array.
pub fn for_v2_id() -> &'static str
    ensures { result.now ≡ ids.for_v2_id }
{
    "fastlanes.for.v2"
}

/// The id of a delta array.
pub fn delta_id() -> &'static str
    ensures { result.now ≡ ids.delta_id }
{
    "fastlanes.delta"
}

/// The id of a run-length encoded array.
pub fn rle_id() -> &'static str
    ensures { result.now ≡ ids.rle_id }
{
    "fastlanes.rle"
}
