//! The scheme of an array as text.

ghost use Rattle.std.specs.Prelude.{◌≡◌, OnErr, length};
ghost use Rattle.flcol_c.specs.Schemes.{scheme_fault, text_fault, text_of};
ghost use Rattle.flcol_c.specs.Statuses.{Gives};

use crate::fault::Fault;
use fl_array::ArrayRef;
use fl_encode::scheme_of;
use fl_encode::text::print;
use std::alloc::Global;

/// The text of an array's scheme.
///
/// # Errors
/// `NotInteger` of booleans.
pub(crate) fn text_of(alloc: Global, array: &ArrayRef) -> Result<Vec<u8>, Fault>
    ensures { Gives (scheme_fault array.now) (λ text. text.items ≡ text_of array.now) result }
{
    let scheme = scheme_of(alloc, array)?;
    Ok(print(alloc, &scheme)?)
}

/// Writes the text of an array's scheme to exactly its bytes.
///
/// # Errors
/// `NotInteger` of booleans, then `WrongLength`.
pub(crate) fn write_text(alloc: Global, array: &ArrayRef, text: &mut [u8]) -> Result<(), Fault>
    ensures written { Gives (text_fault (length text.old) array.now) (λ _. text.new ≡ text_of array.now) result }
    ensures unwritten { OnErr result (text.new ≡ text.old) }
{
    let scheme = text_of(alloc, array)?;
    if scheme.len() != text.len() {
        return Err(Fault::WrongLength);
    }
    text.copy_from_slice(&scheme);
    Ok(())
}
