use super::*;
use fl_array::{ArrayRef, IntoArray};
use fl_column::{
    BetweenOptions, CompareOperator, FastLanesError, Nullability, PType, PrimitiveArray,
    StrictComparison,
};
use fl_file::{ChunkStatistics, Extremes, FileError, Reader, Test, Writer};
use std::alloc::Global;
use std::test::*;

fn integers(alloc: Global) -> Result<ArrayRef, FastLanesError> {
    Ok(PrimitiveArray::from_options(alloc, &[Some(3i8), None, Some(-4), Some(9)])?.into_array())
}

#[test]
fn counts(rt: HostRuntime) -> Result<(), FastLanesError> {
    let array = integers(rt.alloc())?;
    for (operator, constant, count) in [
        (CompareOperator::Lt, 1000, 3),
        (CompareOperator::Eq, 3, 1),
        (CompareOperator::NotEq, 3, 2),
        (CompareOperator::NotEq, -1000, 3),
        (CompareOperator::Gte, 9, 1),
        (CompareOperator::Gt, 9, 0),
    ] {
        let test = Test::Compare { operator, constant };
        assert_eq!(rt; count_passing(rt.alloc(), &array, &test)?, count);
    }
    let options = BetweenOptions {
        lower_strict: StrictComparison::Strict,
        upper_strict: StrictComparison::NonStrict,
    };
    let test = Test::Between {
        lower: -4,
        upper: 1 << 70,
        options,
    };
    assert_eq!(rt; count_passing(rt.alloc(), &array, &test)?, 2);
    Ok(())
}

/// A file of two chunks: 3, null, -4, 9 and 100, 101.
fn file(alloc: Global) -> Result<Vec<u8>, ColumnFileError> {
    let mut writer = Writer::try_new(alloc, Vec::new(alloc), PType::I8, Nullability::Nullable)?;
    let first = PrimitiveArray::from_options(alloc, &[Some(3i8), None, Some(-4), Some(9)])?;
    append(alloc, &mut writer, &first)?;
    let second = PrimitiveArray::from_options(alloc, &[Some(100i8), Some(101)])?;
    append(alloc, &mut writer, &second)?;
    let wide = PrimitiveArray::from_options(alloc, &[Some(3i16)])?;
    match append(alloc, &mut writer, &wide) {
        Err(ColumnFileError::Array(FastLanesError::TypeMismatch)) => Ok(writer.finish(alloc)?),
        _ => Err(ColumnFileError::BadContainer),
    }
}

#[test]
fn what_the_foot_knows(rt: HostRuntime) -> Result<(), ColumnFileError> {
    let reader = Reader::open(rt.alloc(), file(rt.alloc())?)?;
    assert_eq!(rt; len_trusting(&reader), 6);
    assert_eq!(rt; null_count_trusting(&reader), 1);
    assert_eq!(rt; sum_trusting(&reader)?, 209);
    let extremes = Extremes {
        least: -4,
        greatest: 101,
    };
    assert_eq!(rt; min_max_trusting(&reader), Some(extremes));
    Ok(())
}

#[test]
fn chunks_are_read_where_it_does_not(rt: HostRuntime) -> Result<(), ColumnFileError> {
    let mut reader = Reader::open(rt.alloc(), file(rt.alloc())?)?;
    let below = Test::Compare {
        operator: CompareOperator::Lt,
        constant: 9,
    };
    assert_eq!(rt; count_trusting(rt.alloc(), &mut reader, &below)?, 2);
    let equal = Test::Compare {
        operator: CompareOperator::Eq,
        constant: 101,
    };
    assert_eq!(rt; count_trusting(rt.alloc(), &mut reader, &equal)?, 1);
    Ok(())
}

#[test]
fn written_file_is_verified(rt: HostRuntime) -> Result<(), ColumnFileError> {
    let mut reader = Reader::open(rt.alloc(), file(rt.alloc())?)?;
    verify(rt.alloc(), &mut reader)?;
    assert_eq!(rt; len_trusting(&reader), 6);
    Ok(())
}

/// What `verify` answers of a file whose chunk has 3 and 5, and whose foot says the type and the statistics of another array.
fn verdict(alloc: Global, claim: &PrimitiveArray) -> Result<(), ColumnFileError> {
    let array = PrimitiveArray::from_options(alloc, &[Some(3i8), Some(5)])?.into_array();
    let chunk = write_chunk(alloc, &array)?;
    let mut writer = Writer::try_new(alloc, Vec::new(alloc), claim.ptype(), Nullability::Nullable)?;
    writer.append(chunk.as_slice(), ChunkStatistics::of(claim))?;
    let mut reader = Reader::open(alloc, writer.finish(alloc)?)?;
    verify(alloc, &mut reader)
}

#[test]
fn statistics_that_lie_are_found(rt: HostRuntime) -> Result<(), ColumnFileError> {
    let alloc = rt.alloc();
    let same = PrimitiveArray::from_options(alloc, &[Some(3i8), Some(5)])?;
    verdict(alloc, &same)?;
    let bad = Err(ColumnFileError::BadStatistics);
    let longer = PrimitiveArray::from_options(alloc, &[Some(3i8), Some(5), None])?;
    assert!(rt; verdict(alloc, &longer) == bad);
    let turned = PrimitiveArray::from_options(alloc, &[Some(5i8), Some(3)])?;
    assert!(rt; verdict(alloc, &turned) == bad);
    let wider = PrimitiveArray::from_options(alloc, &[Some(3i16), Some(5)])?;
    let other = Err(ColumnFileError::Array(FastLanesError::TypeMismatch));
    assert!(rt; verdict(alloc, &wider) == other);
    Ok(())
}

#[test]
fn container_is_one_chunk(rt: HostRuntime) -> Result<(), ColumnFileError> {
    let mut chunks = OneChunk::try_new(rt.alloc(), integers(rt.alloc())?)?;
    assert_eq!(rt; len_trusting(&chunks), 4);
    assert_eq!(rt; sum_trusting(&chunks)?, 8);
    let test = Test::Compare {
        operator: CompareOperator::Gte,
        constant: 3,
    };
    assert_eq!(rt; count_trusting(rt.alloc(), &mut chunks, &test)?, 2);
    Ok(())
}

/// The first byte of the first chunk, at the first multiple of 64, is another one: what does not read the chunk does not see it.
#[test]
fn damaged_chunk_is_read_or_not(rt: HostRuntime) -> Result<(), ColumnFileError> {
    let mut bytes = file(rt.alloc())?;
    if bytes.len() <= 64 {
        return Err(ColumnFileError::BadContainer);
    }
    bytes[64] = 0;
    let mut reader = Reader::open(rt.alloc(), bytes)?;
    let second = Test::Compare {
        operator: CompareOperator::Gt,
        constant: 100,
    };
    assert_eq!(rt; count_trusting(rt.alloc(), &mut reader, &second)?, 1);
    let first = Test::Compare {
        operator: CompareOperator::Gt,
        constant: 4,
    };
    let error = ColumnFileError::File(FileError::BadChunk);
    assert!(rt; count_trusting(rt.alloc(), &mut reader, &first) == Err(error));
    Ok(())
}
