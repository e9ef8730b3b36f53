//! The call that encodes an array.

ghost use Rattle.std.specs.Prelude.{◌≡◌, ◌≢◌, pos};
ghost use Rattle.fl_encode.specs.Texts.{scheme_of_text};
ghost use Rattle.flcol_c.specs.Encoding.{IsEncodingOf, IsEncodingStatus};
ghost use Rattle.flcol_c.specs.Held.{HoldsFrom, IsKept};

use crate::encoding::encode_by;
use crate::fault::Fault;
use crate::handle::ArrayHandle;
use crate::kept::keep;
use std::alloc::Global;

/// Makes an array of the same column in the encoding that the text of a scheme names.
#[tactic(auto, using(crate::proofs::EncodeLaws::encoding_held))]
#[unsafe(no_mangle)]
pub extern "C" fn flcol_encode(
    alloc: Global,
    array: &mut ArrayHandle,
    scheme: &[u8],
    out: &mut ArrayHandle,
) -> i32
    ensures kept { IsKept array.old array.new }
    ensures status { IsEncodingStatus scheme.now array.old.tree result }
    ensures made { result ≡ pos 0 → HoldsFrom (IsEncodingOf (scheme_of_text scheme.now)) array.old.tree out.new.tree }
    ensures unmade { result ≢ pos 0 → out.new ≡ out.old }
{
    let Some(source) = array.array() else {
        return Fault::NoArray.status();
    };
    keep(out, alloc, encode_by(alloc, source, scheme))
}
