//! Nodes as text: `id:type:len`, the bytes of the metadata, each buffer in `[` and `]`, each child in `(` and `)`.

use crate::columns::{self, count, dtype_of};
use crate::names::named;
use crate::shown;
use crate::text::Text;
use bytes::Bytes;
use fl_column::PrimitiveArray;
use fl_serialized::SerializedArray;
use fl_serialized::ids::*;
use fl_types::{FastLanesError, PValue};
use std::alloc::Global;

/// A kind of arrays.
#[derive(Clone, Copy)]
enum Kind {
    Plain,
    Constant,
    Bools,
    BitPacked,
    Blocked,
    For,
    ForChunked,
    Delta,
    Rle,
}

const KINDS: &[(&str, Kind)] = &[
    ("plain", Kind::Plain),
    ("constant", Kind::Constant),
    ("bools", Kind::Bools),
    ("bitpacked", Kind::BitPacked),
    ("blocked", Kind::Blocked),
    ("for", Kind::For),
    ("forc", Kind::ForChunked),
    ("delta", Kind::Delta),
    ("rle", Kind::Rle),
];

/// The id of arrays of a kind.
fn id_of(kind: Kind) -> &'static str {
    match kind {
        Kind::Plain => primitive_id(),
        Kind::Constant => constant_id(),
        Kind::Bools => bool_id(),
        Kind::BitPacked => bitpacked_v1_id(),
        Kind::Blocked => bitpacked_v2_id(),
        Kind::For => for_v1_id(),
        Kind::ForChunked => for_v2_id(),
        Kind::Delta => delta_id(),
        Kind::Rle => rle_id(),
    }
}

/// The node that `id:type:len` names, without metadata, buffers and children.
fn bare(alloc: Global, word: &str) -> Result<SerializedArray, FastLanesError> {
    let (id, rest) = word.split_once(':').unwrap_or((word, ""));
    let (dtype, len) = rest.split_once(':').unwrap_or((rest, ""));
    Ok(SerializedArray {
        id: id_in(alloc, id)?,
        dtype: dtype_of(dtype),
        len: count(len),
        metadata: Vec::new(alloc),
        buffers: Vec::new(alloc),
        children: Vec::new(alloc),
    })
}

/// The id that the name of a kind stands for, or the id itself.
pub fn id_in(alloc: Global, name: &str) -> Result<String, FastLanesError> {
    let id = match named(KINDS, name) {
        Some(kind) => id_of(kind),
        None => name,
    };
    Ok(String::from_str(alloc, id)?)
}

/// Adds an integer's bytes, the low one first.
fn push_integer(bytes: &mut Vec<u8>, value: PValue) -> Result<(), FastLanesError> {
    match value {
        PValue::U8(x) => bytes.extend_from_slice(&x.to_le_bytes())?,
        PValue::U16(x) => bytes.extend_from_slice(&x.to_le_bytes())?,
        PValue::U32(x) => bytes.extend_from_slice(&x.to_le_bytes())?,
        PValue::U64(x) => bytes.extend_from_slice(&x.to_le_bytes())?,
        PValue::I8(x) => bytes.extend_from_slice(&x.to_le_bytes())?,
        PValue::I16(x) => bytes.extend_from_slice(&x.to_le_bytes())?,
        PValue::I32(x) => bytes.extend_from_slice(&x.to_le_bytes())?,
        PValue::I64(x) => bytes.extend_from_slice(&x.to_le_bytes())?,
    }
    Ok(())
}

/// The bytes of a column without nulls.
fn bytes_in(alloc: Global, column: &PrimitiveArray) -> Result<Vec<u8>, FastLanesError> {
    let mut bytes = Vec::new(alloc);
    for i in 0..column.len() {
        if let Some(value) = column.get(i) {
            push_integer(&mut bytes, value)?;
        }
    }
    Ok(bytes)
}

/// The buffer of a type and integers.
pub fn buffer_of(alloc: Global, words: &[&str]) -> Result<Bytes, FastLanesError> {
    match words {
        [] => Ok(Bytes::new()),
        words => {
            let column = columns::read_words(alloc, words)?;
            Ok(Bytes::from_vec(bytes_in(alloc, &column)?)?)
        }
    }
}

/// Nodes that are still open, from the outermost on, and the words of a buffer.
#[derive(Drop)]
struct Reader<'a> {
    open: Vec<SerializedArray>,
    words: Vec<&'a str>,
    in_buffer: bool,
}

impl<'a> Reader<'a> {
    /// Ends the innermost node, which is a child of the one round it.
    fn close(&mut self) -> Result<(), FastLanesError> {
        if let Some(child) = self.open.pop() {
            if let Some(node) = self.open.last_mut() {
                node.children.push(child)?;
            }
        }
        Ok(())
    }

    /// Ends a buffer of the innermost node.
    fn end_buffer(&mut self, alloc: Global) -> Result<(), FastLanesError> {
        let buffer = buffer_of(alloc, &self.words)?;
        self.words = Vec::new(alloc);
        self.in_buffer = false;
        if let Some(node) = self.open.last_mut() {
            node.buffers.push(buffer)?;
        }
        Ok(())
    }

    /// Adds a byte of the innermost node's metadata.
    fn push_metadata(&mut self, word: &str) -> Result<(), FastLanesError> {
        if let Some(node) = self.open.last_mut() {
            node.metadata
                .push(u8::from_str_radix(word, 16).unwrap_or(0))?;
        }
        Ok(())
    }

    /// Takes a word.
    fn take(&mut self, alloc: Global, word: &'a str) -> Result<(), FastLanesError> {
        match word {
            "]" => self.end_buffer(alloc)?,
            _ if self.in_buffer => self.words.push(word)?,
            "[" => self.in_buffer = true,
            "(" => {}
            ")" => self.close()?,
            _ if word.contains(':') => self.open.push(bare(alloc, word)?)?,
            _ => self.push_metadata(word)?,
        }
        Ok(())
    }
}

/// The node that words name.
pub fn read(alloc: Global, words: &[&str]) -> Result<SerializedArray, FastLanesError> {
    let mut reader = Reader {
        open: Vec::new(alloc),
        words: Vec::new(alloc),
        in_buffer: false,
    };
    for word in words {
        reader.take(alloc, word)?;
    }
    match reader.open.pop() {
        Some(node) => Ok(node),
        None => bare(alloc, ""),
    }
}

/// Adds a buffer.
fn show_buffer(buffer: &[u8], answer: &mut Text) {
    answer.word("[");
    if !buffer.is_empty() {
        answer.word("u8");
        shown::integers(answer, buffer);
    }
    answer.word("]");
}

/// Adds a node.
pub fn show(node: &SerializedArray, answer: &mut Text) {
    answer.piece(node.id());
    answer.piece(":");
    shown::dtype_piece(answer, node.dtype());
    answer.piece(":");
    answer.count(node.len());
    for byte in node.metadata() {
        answer.byte(*byte);
    }
    for buffer in node.buffers() {
        show_buffer(buffer.as_slice(), answer);
    }
    for child in node.children() {
        answer.word("(");
        show(child, answer);
        answer.word(")");
    }
}
