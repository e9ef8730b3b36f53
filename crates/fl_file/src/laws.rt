//! What holds of every foot, and of the statistics of every column.

ghost use Rattle.fl_column.specs.Columns.{Column};
ghost use Rattle.fl_file.specs.FileLaws.{CutIsFound, EndsAligned, FileIsRead, ResumedIsRead};
ghost use Rattle.fl_file.specs.FootLaws.{FootIsRead};
ghost use Rattle.fl_file.specs.Statistics.{AreStatisticsOf, statistics_of_column};

/// What is written of a foot is read as the same foot, behind any bytes that the file has before it.
pub fn foot_is_read()
    ensures { FootIsRead }
{}

/// The statistics of a column say of its items what their names mean.
pub fn statistics_are_exact()
    ensures { (c : Column) → AreStatisticsOf (statistics_of_column c) c }
{}

/// The file of chunks is read as these chunks: what a `Writer` wrote, a `Reader` gives.
pub fn file_is_read()
    ensures { FileIsRead }
{}

/// A file that was gone on with behind its foot is read as the chunks that it had, and those that came; also where a write that
/// failed has left bytes between.
pub fn resumed_is_read()
    ensures { ResumedIsRead }
{}

/// The foot of a file is found where other bytes stand behind it, as after a write that failed, and no foot is among these.
pub fn cut_is_found()
    ensures { CutIsFound }
{}

/// A finished file ends at a multiple of 64 bytes, where `Reader::recover` looks for its foot.
pub fn ends_aligned()
    ensures { EndsAligned }
{}
