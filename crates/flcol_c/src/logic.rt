//! The statuses of bitmaps that are joined, turned and counted.

ghost use Rattle.std.specs.Prelude.{◌≡◌, Option};
ghost use Rattle.fl_bitmaps.specs.declared.error.BitmapError.{BitmapError};
ghost use Rattle.fl_bitmaps.specs.Errors.{unless};
ghost use Rattle.flcol_c.specs.Logic.{bitmaps_status, of_bitmaps};

use crate::fault::{DONE, Fault};
use fl_bitmaps::BitmapError;
use fl_types::FastLanesError;

impl From<BitmapError> for Fault {
    ghost from_gives = { λ error fault. fault ≡ of_bitmaps error };

    fn from(error: BitmapError) -> Fault {
        match error {
            BitmapError::WrongLength => Fault::WrongLength,
            BitmapError::ValidityLength => Fault::Refused(FastLanesError::ValidityLength),
        }
    }
}

/// The status of what was answered on bitmaps.
pub(crate) fn status_of_bitmaps(answer: Result<(), BitmapError>) -> i32
    ensures { (error : Option BitmapError) → answer ≡ unless error tt → result ≡ bitmaps_status error }
{
    match answer {
        Ok(()) => DONE,
        Err(error) => Fault::from(error).status(),
    }
}
