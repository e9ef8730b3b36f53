use super::*;
use fl_column::{
    BetweenOptions, CompareOperator, Nullability, PType, PrimitiveArray, StrictComparison,
};
use std::alloc::Global;
use std::test::*;

#[test]
fn checksums(rt: HostRuntime) {
    assert_eq!(rt; crc32c(b"123456789"), 0xe306_9283);
    assert_eq!(rt; crc32c(&[0; 32]), 0x8a91_36aa);
    assert_eq!(rt; crc32c(&[0xff; 32]), 0x62a8_ab43);
    assert_eq!(rt; crc32c(b""), 0);
    let mut parts = Crc32cHasher::new();
    parts.update(b"12345");
    parts.update(b"6789");
    assert_eq!(rt; parts.finalize(), 0xe306_9283);
}

fn statistics() -> ChunkStatistics {
    ChunkStatistics {
        len: 5,
        null_count: 1,
        extremes: Some(Extremes {
            least: -3,
            greatest: 7,
        }),
        is_sorted: true,
        sum: -4,
    }
}

fn compared(operator: CompareOperator, constant: i128) -> Pruning {
    prune(&statistics(), &Test::Compare { operator, constant })
}

#[test]
fn prunings(rt: HostRuntime) {
    assert_eq!(rt; compared(CompareOperator::Eq, 8), Pruning::Skip);
    assert_eq!(rt; compared(CompareOperator::Eq, 7), Pruning::Some);
    assert_eq!(rt; compared(CompareOperator::NotEq, 8), Pruning::All);
    assert_eq!(rt; compared(CompareOperator::Gt, 7), Pruning::Skip);
    assert_eq!(rt; compared(CompareOperator::Gt, -4), Pruning::All);
    assert_eq!(rt; compared(CompareOperator::Gt, i128::MAX), Pruning::Skip);
    assert_eq!(rt; compared(CompareOperator::Gte, -3), Pruning::All);
    assert_eq!(rt; compared(CompareOperator::Lt, -3), Pruning::Skip);
    assert_eq!(rt; compared(CompareOperator::Lte, 7), Pruning::All);
    let options = BetweenOptions {
        lower_strict: StrictComparison::Strict,
        upper_strict: StrictComparison::Strict,
    };
    let none = Test::Between {
        lower: 2,
        upper: 3,
        options,
    };
    assert_eq!(rt; prune(&statistics(), &none), Pruning::Skip);
}

#[test]
fn feet(rt: HostRuntime) -> Result<(), Fail> {
    let entry = ChunkEntry {
        offset: 64,
        size: 100,
        checksum: 0xe306_9283,
        statistics: statistics(),
    };
    let foot = Foot {
        ptype: PType::I8,
        nullability: Nullability::Nullable,
        chunks: Vec::from_slice(rt.alloc(), &[entry])?,
    };
    let bytes = write_foot(rt.alloc(), &foot)?;
    assert_eq!(rt; bytes.len(), 124);
    let again = read_foot(rt.alloc(), &bytes, 400)
        .ok()
        .ok_or("the foot is read")?;
    assert_eq!(rt; again.chunks.len(), 1);
    assert_eq!(rt; again.chunks[0], entry);
    assert!(rt; matches!(read_foot(rt.alloc(), &bytes, 200), Err(FileError::BadPlace)));
    assert!(rt;
        matches!(
            read_foot(rt.alloc(), &bytes[..100], 200),
            Err(FileError::BadMark)
        )
    );
    Ok(())
}

#[test]
fn statistics_of_arrays(rt: HostRuntime) -> Result<(), Fail> {
    let options = [Some(3i8), None, Some(-5)];
    let array = PrimitiveArray::from_options(rt.alloc(), &options)
        .ok()
        .ok_or("the array is made")?;
    let statistics = ChunkStatistics::of(&array);
    assert_eq!(rt; statistics.len, 3);
    assert_eq!(rt; statistics.null_count, 1);
    assert_eq!(rt;
        statistics.extremes,
        Some(Extremes {
            least: -5,
            greatest: 3
        })
    );
    assert!(rt; !statistics.is_sorted);
    assert_eq!(rt; statistics.sum, -2);
    let large = PrimitiveArray::non_nullable(Vec::from_slice(rt.alloc(), &[u64::MAX; 3])?);
    let statistics = ChunkStatistics::of(&large);
    assert_eq!(rt; statistics.sum, 3 * i128::from(u64::MAX));
    assert!(rt; statistics.is_sorted);
    Ok(())
}

/// A chunk and the foot behind what a writer has written.
fn add_one<S: Append + Drop>(alloc: Global, mut writer: Writer<S>) -> Result<S, FileError> {
    let array = PrimitiveArray::non_nullable(Vec::from_slice(alloc, &[1i8, 5])?);
    if writer.ptype() == PType::I8 {
        writer.append(b"a chunk", ChunkStatistics::of(&array))?;
    }
    writer.finish(alloc)
}

#[test]
fn files(rt: HostRuntime) -> Result<(), Fail> {
    let alloc = rt.alloc();
    let writer = Writer::try_new(alloc, Vec::new(alloc), PType::I8, Nullability::NonNullable)
        .ok()
        .ok_or("a writer is made")?;
    let file = add_one(alloc, writer).ok().ok_or("a file is written")?;
    assert_eq!(rt; file.len(), 256);
    assert_eq!(rt; &file[64..71], b"a chunk".as_slice());
    assert_eq!(rt; &file[156..160], [0x9e, 0x2c, 0x3c, 0x1e].as_slice());
    assert_eq!(rt; &file[236..240], [0xed, 0xf6, 0xa4, 0x34].as_slice());
    let mut reader = Reader::open(alloc, file.as_slice())
        .ok()
        .ok_or("the file is read")?;
    assert_eq!(rt; reader.ptype(), PType::I8);
    assert_eq!(rt; reader.chunks().len(), 1);
    assert_eq!(rt; reader.chunks()[0].statistics.sum, 6);
    let chunk = reader.chunk(alloc, 0).ok().ok_or("the chunk is read")?;
    assert_eq!(rt; chunk.as_slice(), b"a chunk".as_slice());
    let foot = reader.into_foot();
    let longer = Writer::resume(Vec::from_slice(alloc, &file)?, foot, file.len() as u64);
    let longer = add_one(alloc, longer)
        .ok()
        .ok_or("the file is gone on with")?;
    assert_eq!(rt; longer.len(), 512);
    let all = Reader::open(alloc, longer.as_slice())
        .ok()
        .ok_or("the longer file is read")?;
    assert_eq!(rt; all.chunks().len(), 2);
    assert!(rt; first_foot_is_found(alloc, &longer, 257));
    assert!(rt; first_foot_is_found(alloc, &longer, 400));
    assert!(rt; first_foot_is_found(alloc, &longer, 511));
    Ok(())
}

/// Whether a cut file has no foot, and that of one chunk is found.
fn first_foot_is_found(alloc: Global, file: &[u8], cut: usize) -> bool {
    let (front, _) = file.split_at(cut.min(file.len()));
    if Reader::open(alloc, front).is_ok() {
        return false;
    }
    match Reader::recover(alloc, front) {
        Ok(reader) => reader.chunks().len() == 1,
        Err(_) => false,
    }
}

/// A sink with room for so many bytes.
#[derive(Drop)]
struct Room {
    left: usize,
}

impl Append for Room {
    ghost use Rattle.std.specs.Prelude.{None, true};

    ghost written = { λ s. None };

    ghost can_fail = { λ s. true };

    fn write_all(&mut self, bytes: &[u8]) -> Result<(), WriteFault> {
        if bytes.len() > self.left {
            return Err(WriteFault);
        }
        self.left -= bytes.len();
        Ok(())
    }
}

#[test]
fn writes_that_fail(rt: HostRuntime) {
    let alloc = rt.alloc();
    for left in [0, 4, 70, 100, 255] {
        let written = match Writer::try_new(
            alloc,
            Room { left },
            PType::I8,
            Nullability::Nullable,
        ) {
            Ok(writer) => add_one(alloc, writer).is_ok(),
            Err(error) => {
                assert_eq!(rt; error, FileError::WriteFault);
                false
            }
        };
        assert!(rt; !written);
    }
}
