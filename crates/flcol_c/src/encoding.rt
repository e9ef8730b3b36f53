//! Arrays encoded by the text of a scheme.

ghost use Rattle.std.specs.Prelude.{◌≡◌, Err, Ok};
ghost use Rattle.fl_encode.specs.SchemeShapes.{shape};
ghost use Rattle.fl_encode.specs.Texts.{scheme_of_text};
ghost use Rattle.flcol_c.specs.declared.fault.Fault.TheVariants.{BadScheme};
ghost use Rattle.flcol_c.specs.Encoding.{GivesEncoding, IsWrongAtOnce};

use crate::fault::Fault;
use crate::plain::simplest_of;
use fl_array::ArrayRef;
use fl_encode::text::{SchemeError, parse};
use fl_encode::{Scheme, encode};
use fl_types::FastLanesError;
use std::alloc::Global;

/// An array of the same column, by a scheme.
///
/// # Errors
/// `NotInteger` of booleans, then those of the scheme.
#[tactic(auto, using(crate::proofs::EncodeLaws::encoding_given, crate::proofs::EncodeLaws::scheme_refused, crate::proofs::EncodeLaws::booleans_refused))]
fn encode_as(alloc: Global, array: &ArrayRef, scheme: &Scheme) -> Result<ArrayRef, Fault>
    ensures { GivesEncoding (Ok (shape scheme.now)) array.now result }
{
    let plain = simplest_of(alloc, array)?;
    Ok(encode(alloc, &plain, scheme)?)
}

/// An array of the same column, by the scheme of a text.
///
/// # Errors
/// `BadScheme` where the text says none, `NotInteger` of booleans, then those of the scheme. A text that says no
/// children either is refused before memory is asked for.
pub(crate) fn encode_by(alloc: Global, array: &ArrayRef, text: &[u8]) -> Result<ArrayRef, Fault>
    ensures given { GivesEncoding (scheme_of_text text.now) array.now result }
    ensures at_once { IsWrongAtOnce text.now → result ≡ Err BadScheme }
{
    match parse(alloc, text) {
        Ok(scheme) => encode_as(alloc, array, &scheme),
        Err(SchemeError::OutOfMemory) => Err(Fault::Refused(FastLanesError::OutOfMemory)),
        Err(SchemeError::WrongByte(_)) => Err(Fault::BadScheme),
    }
}
