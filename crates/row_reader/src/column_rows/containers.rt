//! Containers: what bytes hold, and how it is written.

use crate::asked::Asked;
use crate::columns::count;
use crate::names::named;
use crate::text::Text;
use bytes::Bytes;
use fl_serialized::SerializedArray;
use fl_serialized::ids::for_v1_id;
use fl_types::{DType, Nullability, PType};
use flcol_container::{ContainerError, read_container, write_container};
use std::alloc::Global;

/// The type of the arrays that are written.
const U8S: DType = DType::Primitive(PType::U8, Nullability::NonNullable);

/// Adds a serialized array.
fn shown(array: &SerializedArray, answer: &mut Text) {
    if !array.id().is_empty() {
        answer.word(array.id());
    }
    answer.debug(&array.dtype());
    answer.count(array.len());
    for byte in array.metadata() {
        answer.byte(*byte);
    }
    for buffer in array.buffers() {
        answer.word("buffer");
        for byte in buffer.as_slice() {
            answer.item(Some(i128::from(*byte)));
        }
    }
    for child in array.children() {
        answer.word("(");
        shown(child, answer);
        answer.word(")");
    }
}

fn refused(refusal: ContainerError, answer: &mut Text) {
    answer.debug(&refusal);
}

/// Whether an array's container is these bytes.
fn is_written(alloc: Global, array: &SerializedArray, bytes: &Bytes) -> bool {
    match write_container(alloc, array) {
        Ok(again) => again.as_slice() == bytes.as_slice(),
        Err(_) => false,
    }
}

fn read(alloc: Global, bytes: &Bytes, answer: &mut Text) {
    match read_container(alloc, bytes) {
        Ok(array) => {
            shown(&array, answer);
            if is_written(alloc, &array, bytes) {
                answer.word("back");
            }
        }
        Err(refusal) => refused(refusal, answer),
    }
}

/// Adds a byte so many times.
fn push_bytes(bytes: &mut Vec<u8>, byte: &str, times: usize) -> Result<(), ContainerError> {
    let byte = u8::from_str_radix(byte, 16).unwrap_or(0);
    for _ in 0..times {
        bytes.push(byte)?;
    }
    Ok(())
}

/// The bytes that words name: two hexadecimal digits, also so many times, or ASCII behind a `'`.
pub fn bytes_of(alloc: Global, words: &[&str]) -> Result<Vec<u8>, ContainerError> {
    let mut bytes = Vec::new(alloc);
    for word in words {
        if let Some(text) = word.strip_prefix('\'') {
            bytes.extend_from_slice(text.as_bytes())?;
        } else if let Some((byte, times)) = word.split_once('*') {
            push_bytes(&mut bytes, byte, count(times))?;
        } else {
            push_bytes(&mut bytes, word, 1)?;
        }
    }
    Ok(bytes)
}

/// The bytes of a FoR node round the bytes of another node.
fn framed(alloc: Global, node: &[u8]) -> Result<Vec<u8>, ContainerError> {
    let mut bytes = Vec::new(alloc);
    bytes.push(13)?;
    bytes.extend_from_slice(for_v1_id().as_bytes())?;
    bytes.extend_from_slice(&[0; 9])?;
    bytes.extend_from_slice(&[2, 0, 0, 0, 0x20, 0, 0, 1])?;
    bytes.extend_from_slice(&(node.len() as u64).to_le_bytes())?;
    bytes.extend_from_slice(node)?;
    Ok(bytes)
}

/// A container of the node that words name, with so many FoR nodes round it.
pub fn frames_of(alloc: Global, frames: usize, words: &[&str]) -> Result<Bytes, ContainerError> {
    let mut node = bytes_of(alloc, words)?;
    for _ in 0..frames {
        node = framed(alloc, &node)?;
    }
    let mut bytes = Vec::from_slice(alloc, b"FLC1")?;
    bytes.extend_from_slice(&node)?;
    Ok(Bytes::from_vec(bytes)?)
}

/// An array without items.
fn empty(alloc: Global) -> SerializedArray {
    SerializedArray {
        id: String::new(alloc),
        dtype: U8S,
        len: 0,
        metadata: Vec::new(alloc),
        buffers: Vec::new(alloc),
        children: Vec::new(alloc),
    }
}

/// An array with a part of so many: characters of its id, bytes of its metadata, buffers, children, or arrays in
/// one another.
fn array_of(alloc: Global, part: &str, many: usize) -> Result<SerializedArray, ContainerError> {
    let mut array = empty(alloc);
    for _ in 0..many {
        match part {
            "metadata" => array.metadata.push(0)?,
            "buffers" => array.buffers.push(Bytes::new())?,
            "children" => array.children.push(empty(alloc))?,
            "depth" => {
                let mut outer = empty(alloc);
                outer.children.push(array)?;
                array = outer;
            }
            name => array.id.push_str(name)?,
        }
    }
    Ok(array)
}

fn written(alloc: Global, array: &SerializedArray, answer: &mut Text) {
    match write_container(alloc, array) {
        Ok(bytes) => answer.count(bytes.len()),
        Err(refusal) => refused(refusal, answer),
    }
}

/// Answers what the container of a node in frames holds.
fn ask_framed(asked: Asked, answer: &mut Text) {
    match frames_of(asked.alloc, asked.count(1), asked.words_from(2)) {
        Ok(bytes) => read(asked.alloc, &bytes, answer),
        Err(refusal) => refused(refusal, answer),
    }
}

/// The bytes that words name, as a container's.
fn container_bytes(alloc: Global, words: &[&str]) -> Result<Bytes, ContainerError> {
    Ok(Bytes::from_vec(bytes_of(alloc, words)?)?)
}

/// Answers what bytes hold.
fn ask_bytes(asked: Asked, answer: &mut Text) {
    match container_bytes(asked.alloc, asked.words_from(1)) {
        Ok(bytes) => read(asked.alloc, &bytes, answer),
        Err(refusal) => refused(refusal, answer),
    }
}

/// Answers how many bytes an array's container has.
fn ask_written(asked: Asked, answer: &mut Text) {
    match array_of(asked.alloc, asked.word(1), asked.count(2)) {
        Ok(array) => written(asked.alloc, &array, answer),
        Err(refusal) => refused(refusal, answer),
    }
}

#[derive(Clone, Copy)]
enum Question {
    Framed,
    Bytes,
    Written,
}

const QUESTIONS: &[(&str, Question)] = &[
    ("container", Question::Framed),
    ("bytes", Question::Bytes),
    ("container_of", Question::Written),
];

pub fn ask(asked: Asked, answer: &mut Text) -> bool {
    let Some(question) = named(QUESTIONS, asked.word(0)) else {
        return false;
    };
    match question {
        Question::Framed => ask_framed(asked, answer),
        Question::Bytes => ask_bytes(asked, answer),
        Question::Written => ask_written(asked, answer),
    }
    true
}
