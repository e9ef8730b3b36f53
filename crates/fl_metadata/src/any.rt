//! Messages of no schema.

ghost use Rattle.std.specs.Prelude.{◌≡◌, ◌↔◌, IsTrue};
ghost use Rattle.fl_metadata.specs.Wire.{IsMessage};

use super::schema::Values;

/// Whether the bytes are a message of any schema: a row of fields, or nothing.
pub fn is_message(bytes: &[u8]) -> bool
    ensures { IsTrue result ↔ IsMessage bytes.now }
{
    Values::read(&[], bytes).is_ok()
}
