//! The text of schemes: the word for an encoding, and in parentheses the schemes of its children in the order
//! of their slots, all or none, with `_` for a plain one, as in `rle(for(bitpacked),bitpacked:7,_)`. At most 14 words stand
//! in one another.

mod printing;
mod reading;

ghost use Rattle.std.specs.Prelude.{◌≡◌, ◌++◌, Err, IfOk, true};
ghost use Rattle.fl_encode.specs.declared.text.SchemeError.TheVariants.{OutOfMemory};
ghost use Rattle.fl_encode.specs.Grammar.{FollowsGrammar};
ghost use Rattle.fl_encode.specs.SchemeShapes.{shape};
ghost use Rattle.fl_encode.specs.Shapes.{scheme_text};
ghost use Rattle.fl_encode.specs.Texts.{IsParsed, says_children, scheme_of_text};

use crate::scheme::Scheme;
use crate::text::printing::push_scheme;
use crate::text::reading::{Stop, read_whole};
use std::alloc::{AllocError, Global};

/// The greatest number of words in one another in a text. In the last one plain integers may stand, and in these their
/// nulls: so a scheme that has a text makes at most 16 arrays in one another, which is what a container holds.
pub const MAX_LEVELS: usize = 14;

/// Why a text is not the text of a scheme.
#[derive(Clone, Copy, Debug, PartialEq, Eq)]
pub enum SchemeError {
    /// Memory ran out.
    OutOfMemory,
    /// The position of the first wrong byte, from 0. At the text's length, the text ends too early.
    WrongByte(usize),
}

/// Parses the text of a scheme. The words are `primitive`, `constant`, `bitpacked`, `bitpacked:7` (a width up to
/// 255), `blocked`, `for`, `forc`, `forw`, `forcw`, `delta`, `rle` and `dict`.
///
/// At most `MAX_LEVELS` words stand in one another: the byte with which another one begins is wrong.
///
/// # Errors
/// `WrongByte` with the position of the first byte that is wrong; `OutOfMemory`, which a text without children never gives.
pub fn parse(alloc: Global, text: &[u8]) -> Result<Scheme, SchemeError>
    ensures grammar { FollowsGrammar text.now result }
    ensures read { IsParsed result (scheme_of_text text.now) }
    ensures memory { result ≡ Err OutOfMemory → says_children text.now ≡ true }
{
    match read_whole(alloc, text) {
        Ok(scheme) => Ok(scheme),
        Err(Stop::OutOfMemory) => Err(SchemeError::OutOfMemory),
        Err(Stop::Left(left)) => Err(SchemeError::WrongByte(text.len() - left)),
    }
}

/// The text of a scheme, without parentheses if all children are plain. It is parsed as the scheme if at most `MAX_LEVELS`
/// words stand in one another in it.
pub fn print(alloc: Global, scheme: &Scheme) -> Result<Vec<u8>, AllocError>
    ensures { IfOk result (λ text. text.items ≡ scheme_text (shape scheme.now)) }
{
    let mut text = Vec::new(alloc);
    push_scheme(&mut text, scheme)?;
    Ok(text)
}
