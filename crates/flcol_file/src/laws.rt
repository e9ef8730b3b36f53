//! What holds of every file of columns.

ghost use Rattle.flcol_file.specs.Files.{FileIsHeld};

/// A file that is read as chunks of columns, as `append` writes them, holds these columns: so what is written needs no `verify`.
pub fn file_is_held()
    ensures { FileIsHeld }
{}
