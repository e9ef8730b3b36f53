//! Long runs over ends of std: three million bytes in and as many out, at once and a byte a call; and long lists of words.

use crate::memory::ByBytes;
use crate::runs::ends_well_over_std;
use std::alloc::Global;

/// As many items as 1465 blocks hold. Of `u16` they have three million bytes, and as digits in lines too.
const ITEMS: usize = 1_500_160;

/// How many entries a long list has.
const ENTRIES: usize = 50_000;

/// The digits in lines.
const DIGITS: &[u8] = b"0\n1\n2\n3\n4\n5\n6\n7\n8\n9\n";

/// A piece of text this many times.
fn repeated(alloc: Global, piece: &[u8], times: usize) -> Option<Vec<u8>> {
    let mut all = Vec::new(alloc);
    for _ in 0..times {
        all.extend_from_slice(piece).ok()?;
    }
    Some(all)
}

/// What a run that ends well writes, over a slice and a list.
fn written(alloc: Global, line: &[&str], input: &[u8]) -> Option<Vec<u8>> {
    let mut bytes = Vec::new(alloc);
    if ends_well_over_std(alloc, line, input, &mut bytes) {
        Some(bytes)
    } else {
        None
    }
}

/// What a run that ends well writes, over a reader and a writer of a byte a call. It flushes once.
fn written_by_bytes(alloc: Global, line: &[&str], input: &[u8]) -> Option<Vec<u8>> {
    let reader = ByBytes::new(Vec::from_slice(alloc, input).ok()?, false);
    let mut writer = ByBytes::new(Vec::new(alloc), false);
    if ends_well_over_std(alloc, line, reader, &mut writer) && writer.flushes == 1 {
        Some(writer.bytes)
    } else {
        None
    }
}

fn run(alloc: Global, line: &[&str], input: &[u8], by_bytes: bool) -> Option<Vec<u8>> {
    if by_bytes {
        written_by_bytes(alloc, line, input)
    } else {
        written(alloc, line, input)
    }
}

/// Whether a column of ones packs at width 16 into a byte 1 and a byte 0 for each.
fn ones_are_packed(alloc: Global, by_bytes: bool) -> Option<bool> {
    let text = repeated(alloc, b"1\n", ITEMS)?;
    let packed = run(alloc, &["pack", "u16", "16"], &text, by_bytes)?;
    Some(packed.as_slice() == repeated(alloc, &[1, 0], ITEMS)?.as_slice())
}

/// Whether a column of digits is encoded into a container of two bytes for each, and decoded into its lines.
fn digits_come_back(alloc: Global, by_bytes: bool) -> Option<bool> {
    let text = repeated(alloc, DIGITS, ITEMS / 10)?;
    let container = run(alloc, &["encode", "u16", "primitive"], &text, by_bytes)?;
    let lines = run(alloc, &["run", "decode"], &container, by_bytes)?;
    Some(container.len() > 2 * ITEMS && lines.as_slice() == text.as_slice())
}

/// Whether each digit is found to be below ten.
fn digits_are_compared(alloc: Global) -> Option<bool> {
    let text = repeated(alloc, DIGITS, ITEMS / 10)?;
    let container = written(alloc, &["encode", "u16", "primitive"], &text)?;
    let tests = written(alloc, &["run", "lt:10"], &container)?;
    Some(tests.as_slice() == repeated(alloc, b"true\n", ITEMS)?.as_slice())
}

/// An operation with a long list, whose entries are equal.
fn long_word(alloc: Global, name: &str, entry: &str, separator: &str) -> Option<String> {
    let mut word = String::from_str(alloc, name).ok()?;
    for i in 0..ENTRIES {
        if i > 0 {
            word.push_str(separator).ok()?;
        }
        word.push_str(entry).ok()?;
    }
    Some(word)
}

/// What an operation with a long list makes of digits.
fn picked(alloc: Global, name: &str, entry: &str, separator: &str) -> Option<Vec<u8>> {
    let text = repeated(alloc, DIGITS, ENTRIES / 10)?;
    let container = written(alloc, &["encode", "u16", "bitpacked"], &text)?;
    let word = long_word(alloc, name, entry, separator)?;
    written(alloc, &["run", word.as_str(), "decode"], &container)
}

/// Whether an operation with a long list gives a piece of text this many times.
fn picks(alloc: Global, op: (&str, &str, &str), piece: &[u8], times: usize) -> Option<bool> {
    let lines = picked(alloc, op.0, op.1, op.2)?;
    Some(lines.as_slice() == repeated(alloc, piece, times)?.as_slice())
}

#[test]
fn packs_three_million_bytes(rt: HostRuntime) {
    assert!(rt; ones_are_packed(rt.alloc(), false) == Some(true));
}

#[test]
fn packs_three_million_bytes_one_by_one(rt: HostRuntime) {
    assert!(rt; ones_are_packed(rt.alloc(), true) == Some(true));
}

#[test]
fn encodes_and_decodes_three_million_bytes(rt: HostRuntime) {
    assert!(rt; digits_come_back(rt.alloc(), false) == Some(true));
}

#[test]
fn encodes_and_decodes_three_million_bytes_one_by_one(rt: HostRuntime) {
    assert!(rt; digits_come_back(rt.alloc(), true) == Some(true));
}

#[test]
fn compares_three_million_bytes(rt: HostRuntime) {
    assert!(rt; digits_are_compared(rt.alloc()) == Some(true));
}

#[test]
fn reads_long_lists(rt: HostRuntime) {
    let alloc = rt.alloc();
    assert!(rt; picks(alloc, ("filter:", "1", ""), DIGITS, ENTRIES / 10) == Some(true));
    assert!(rt; picks(alloc, ("take:", "9", ","), b"9\n", ENTRIES) == Some(true));
    assert!(rt; picks(alloc, ("ranges:", "9+1", ","), b"9\n", ENTRIES) == Some(true));
}
