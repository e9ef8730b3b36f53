//! Faults of nodes: which of two comes first, and what bytes of metadata answer when they are changed.

use bytes::Bytes;
use fl_serde::deserialize;
use fl_serialized::SerializedArray;
use fl_types::FastLanesError;
use row_reader::columns::{count, dtype_of};
use row_reader::names::named;
use row_reader::nodes::{self as text};
use row_reader::text::Text;
use std::alloc::Global;

/// Adds bytes to a node's metadata: `08,02`.
fn add_metadata(node: &mut SerializedArray, bytes: &str) -> Result<(), FastLanesError> {
    for byte in bytes.split(',') {
        node.metadata
            .push(u8::from_str_radix(byte, 16).unwrap_or(0))?;
    }
    Ok(())
}

/// Makes bytes a node's one buffer: `u16,0,256`.
fn set_buffer(
    alloc: Global,
    node: &mut SerializedArray,
    words: &str,
) -> Result<(), FastLanesError> {
    let words: Vec<&str> = words.split(',').collect(alloc)?;
    let buffer = text::buffer_of(alloc, &words)?;
    node.buffers = Vec::new(alloc);
    node.buffers.push(buffer)?;
    Ok(())
}

/// Adds a child to a node.
fn add_child(alloc: Global, node: &mut SerializedArray) -> Result<(), FastLanesError> {
    let child = text::read(alloc, &["constant:u8:0", "20", "00"])?;
    node.children.push(child)?;
    Ok(())
}

/// A change of a node. Some have words behind a colon.
#[derive(Clone, Copy)]
enum Edit {
    Id,
    Type,
    Len,
    Metadata,
    Bytes,
    Bare,
    Buffer,
    NoBuffer,
    Child,
    NoChild,
}

const EDITS: &[(&str, Edit)] = &[
    ("id", Edit::Id),
    ("type", Edit::Type),
    ("len", Edit::Len),
    ("metadata", Edit::Metadata),
    ("bytes", Edit::Bytes),
    ("bare", Edit::Bare),
    ("buffer", Edit::Buffer),
    ("unbuffer", Edit::NoBuffer),
    ("child", Edit::Child),
    ("unchild", Edit::NoChild),
];

/// Changes what a node says of itself by words.
fn change_words(
    alloc: Global,
    node: &mut SerializedArray,
    edit: Edit,
    words: &str,
) -> Result<(), FastLanesError> {
    match edit {
        Edit::Id => node.id = text::id_in(alloc, words)?,
        Edit::Type => node.dtype = dtype_of(words),
        Edit::Len => node.len = count(words),
        Edit::Metadata => add_metadata(node, words)?,
        _ => set_buffer(alloc, node, words)?,
    }
    Ok(())
}

/// Takes a part away from a node, or adds one.
fn change_parts(
    alloc: Global,
    node: &mut SerializedArray,
    edit: Edit,
) -> Result<(), FastLanesError> {
    match edit {
        Edit::Bare => node.metadata = Vec::new(alloc),
        Edit::Buffer => node.buffers.push(Bytes::new())?,
        Edit::NoBuffer => {
            let _ = node.buffers.pop();
        }
        Edit::Child => add_child(alloc, node)?,
        _ => {
            let _ = node.children.pop();
        }
    }
    Ok(())
}

/// Changes a node by a word: `id:NAME`, `type:u8?`, `len:3`, `metadata:08,02` (bytes that are added), `bytes:u16,0,256`
/// (the one buffer), `bare` (no metadata), `buffer` or `child` (one more), `unbuffer` or `unchild` (one less).
fn change(alloc: Global, node: &mut SerializedArray, edit: &str) -> Result<(), FastLanesError> {
    let (name, words) = edit.split_once(':').unwrap_or((edit, ""));
    match named(EDITS, name) {
        Some(edit @ (Edit::Id | Edit::Type | Edit::Len | Edit::Metadata | Edit::Bytes)) => {
            change_words(alloc, node, edit, words)
        }
        Some(edit) => change_parts(alloc, node, edit),
        None => Err(FastLanesError::UnknownId),
    }
}

/// Changes a node, or its child at a place: `0/len:3`.
fn apply(alloc: Global, node: &mut SerializedArray, edit: &str) -> Result<(), FastLanesError> {
    match edit.split_once('/') {
        Some((place, edit)) => match node.children.get_mut(count(place)) {
            Some(child) => change(alloc, child, edit),
            None => Ok(()),
        },
        None => change(alloc, node, edit),
    }
}

/// Makes a fault: the number of its refusal, and the changes behind it.
fn make(alloc: Global, node: &mut SerializedArray, fault: &[&str]) -> Result<(), FastLanesError> {
    for edit in fault.iter().skip(1) {
        apply(alloc, node, edit)?;
    }
    Ok(())
}

/// A node with faults, the last one made first.
fn faulty(
    alloc: Global,
    node: &SerializedArray,
    first: &[&str],
    second: &[&str],
) -> Result<SerializedArray, FastLanesError> {
    let mut node = node.try_clone(alloc)?;
    make(alloc, &mut node, second)?;
    make(alloc, &mut node, first)?;
    Ok(node)
}

/// The number of the refusal of a node, 0 where it is read.
fn number_of(alloc: Global, node: &Result<SerializedArray, FastLanesError>) -> usize {
    match node {
        Ok(node) => match deserialize(alloc, node) {
            Ok(_) => 0,
            Err(refusal) => usize::from(refusal.number()),
        },
        Err(refusal) => usize::from(refusal.number()),
    }
}

/// Adds what a node with faults answers, where it is not the refusal of the first.
fn ask_two(
    alloc: Global,
    node: &SerializedArray,
    first: &[&str],
    second: &[&str],
    answer: &mut Text,
) {
    let came = number_of(alloc, &faulty(alloc, node, first, second));
    let wanted = first.first().map(|word| count(word));
    if wanted != Some(came) {
        for word in first {
            answer.word(word);
        }
        answer.word("with");
        for word in second {
            answer.word(word);
        }
        answer.word("answers");
        answer.count(came);
    }
}

/// Adds which faults come in another order than they are named, and how many there are.
fn ask_each(alloc: Global, node: &SerializedArray, faults: &[Vec<&str>], answer: &mut Text) {
    let mut pairs = 0usize;
    for i in 0..faults.len() {
        ask_two(alloc, node, &faults[i], &[], answer);
        for second in faults.iter().skip(i + 1) {
            ask_two(alloc, node, &faults[i], second, answer);
            pairs = pairs.saturating_add(1);
        }
    }
    answer.count(faults.len());
    answer.word("faults");
    answer.count(pairs);
    answer.word("pairs");
}

/// The words of each part.
fn words_of<'a>(alloc: Global, parts: &[&'a str]) -> Result<Vec<Vec<&'a str>>, FastLanesError> {
    let mut all = Vec::new(alloc);
    for part in parts {
        all.push(part.split_whitespace().collect(alloc)?)?;
    }
    Ok(all)
}

/// Adds what a node answers, and each fault that parts name, alone and with each later one: the refusals of those
/// that another one goes before, and how many faults and pairs there are.
pub(crate) fn ask_pairs(alloc: Global, node: &SerializedArray, parts: &[&str], answer: &mut Text) {
    if let Err(refusal) = deserialize(alloc, node) {
        answer.refusal(refusal);
    }
    if let Ok(faults) = words_of(alloc, parts) {
        ask_each(alloc, node, &faults, answer);
    }
}

/// The metadata with the byte at a place left out, written twice or with all bits turned.
fn changed(alloc: Global, metadata: &[u8], at: usize, way: u8) -> Result<Vec<u8>, FastLanesError> {
    let mut bytes = Vec::new(alloc);
    for i in 0..metadata.len() {
        let byte = metadata[i];
        match way {
            0 if i == at => {}
            1 if i == at => bytes.extend_from_slice(&[byte, byte])?,
            2 if i == at => bytes.push(!byte)?,
            _ => bytes.push(byte)?,
        }
    }
    Ok(bytes)
}

/// Whether a node is refused for what it says, or read as an array of its type and its length.
fn is_answered(alloc: Global, node: &SerializedArray) -> bool {
    match deserialize(alloc, node) {
        Ok(array) => array.dtype() == node.dtype() && array.len() == node.len(),
        Err(refusal) => refusal != FastLanesError::OutOfMemory,
    }
}

/// Whether a node is answered with a byte of its metadata changed.
fn answers_change(alloc: Global, node: &SerializedArray, at: usize, way: u8) -> bool {
    let (Ok(mut node), Ok(metadata)) = (
        node.try_clone(alloc),
        changed(alloc, node.metadata(), at, way),
    ) else {
        return false;
    };
    node.metadata = metadata;
    is_answered(alloc, &node)
}

/// Adds how many changes of a byte of a node's metadata are answered, and how many there are.
pub(crate) fn count_changes(alloc: Global, node: &SerializedArray, answer: &mut Text) {
    let (mut answered, mut changes) = (0usize, 0usize);
    for at in 0..node.metadata().len() {
        for way in 0..3u8 {
            changes = changes.saturating_add(1);
            if answers_change(alloc, node, at, way) {
                answered = answered.saturating_add(1);
            }
        }
    }
    answer.count(answered);
    answer.word("of");
    answer.count(changes);
    answer.word("answered");
}
