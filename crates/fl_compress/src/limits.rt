//! What may be chosen from.

ghost use Rattle.std.specs.Prelude.{◌≡◌};
ghost use Rattle.fl_compress.specs.Candidates.{default_limits, has_level};

/// How deep encodings may be nested, and which ones may be used.
#[derive(Clone, Copy, Debug, PartialEq, Eq)]
pub struct Limits {
    /// How many encodings may stand in one another. 0 leaves plain and constant arrays, 1 allows packed ones,
    /// 2 frames of reference over packed ones, 3 deltas, runs and dictionaries over those. Run values and run indices may be
    /// deltas, and so may the bases of these, so that 5 is the most that makes a difference.
    pub depth: u8,
    /// Whether there may be constant arrays.
    pub constant: bool,
    /// Whether there may be bit-packed arrays.
    pub bitpacked: bool,
    /// Whether there may be FoR arrays.
    pub for_: bool,
    /// Whether there may be delta arrays.
    pub delta: bool,
    /// Whether there may be run-length encoded arrays.
    pub rle: bool,
    /// Whether there may be run-length encoded arrays with a dictionary for each chunk.
    pub dict: bool,
}

/// Three levels of all encodings.
impl Default for Limits {
    ghost is_default = { λ limits. limits ≡ default_limits };

    fn default() -> Limits {
        Limits {
            depth: 3,
            constant: true,
            bitpacked: true,
            for_: true,
            delta: true,
            rle: true,
            dict: true,
        }
    }
}

/// Whether an encoding may be used that is allowed or not, where so many levels are left.
pub(crate) fn has_level(allowed: bool, depth: u8) -> bool
    ensures { result ≡ has_level allowed depth }
{
    allowed && depth > 0
}
