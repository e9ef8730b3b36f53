//! The words of a run: `pack TYPE WIDTH`, `encode TYPE ENCODING`, or `run OP.. QUERY`.

ghost use Rattle.std.specs.Prelude.{◌≡◌, IfErr, IsTrue, Ok, map, option_map, string_bytes};
ghost use Rattle.fl_types.specs.Refusals.{Answers};
ghost use Rattle.flcol_engine.specs.Words.{between_in_text, bound_in_letter, bounds_in_text, column_type_in_word, constant_in_text, encoding_in_word, mode_in_text, named_query, nested_encoding, operator_in_word, packing_in_word, plain_query, ptype_in_word, query_in_word, run_in_words, single_encoding, width_in_word};
ghost use Rattle.flcol_engine.specs.Command.{column_command, column_command_of, command_of, encode_in_words, is_run_line, pack_in_words, parts_of_command, parts_of_run, usage_line};

use crate::arg_parts::{number, split_once};
use crate::commands::{ColumnQuery, Command, Encode, Encoding, Pack, Packing, Query, Run};
use crate::operations::operations;
use crate::text;
use fl_column::{
    BetweenOptions, CompareOperator, FastLanesError, Nullability, PType, StrictComparison,
};
use std::alloc::Global;

/// The line that says how the program is called.
pub fn usage() -> &'static str
    ensures { result.now ≡ usage_line }
{
    "usage: flcol pack TYPE WIDTH | encode TYPE ENCODING | run OP.. QUERY\n"
}

fn ptype(word: &[u8]) -> Option<PType>
    ensures { result ≡ ptype_in_word word.now }
{
    if word == b"u8".as_slice() {
        Some(PType::U8)
    } else if word == b"u16".as_slice() {
        Some(PType::U16)
    } else if word == b"u32".as_slice() {
        Some(PType::U32)
    } else if word == b"u64".as_slice() {
        Some(PType::U64)
    } else if word == b"i8".as_slice() {
        Some(PType::I8)
    } else if word == b"i16".as_slice() {
        Some(PType::I16)
    } else if word == b"i32".as_slice() {
        Some(PType::I32)
    } else if word == b"i64".as_slice() {
        Some(PType::I64)
    } else {
        None
    }
}

/// The type of a column: an integer type, and a question mark behind it where nulls may stand.
pub(crate) fn column_type(word: &[u8]) -> Option<(PType, Nullability)>
    ensures { result ≡ column_type_in_word word.now }
{
    match word {
        [name @ .., b'?'] => Some((ptype(name)?, Nullability::Nullable)),
        _ => Some((ptype(word)?, Nullability::NonNullable)),
    }
}

fn width(word: &[u8]) -> Option<u8>
    ensures { result ≡ width_in_word word.now }
{
    let width = text::number(word, 255)?;
    Some(width as u8)
}

/// The packing that a word names, with its width behind a colon where one is given.
fn packing(word: &[u8]) -> Option<Packing>
    ensures { result ≡ packing_in_word word.now }
{
    if word == b"bitpacked".as_slice() {
        return Some(Packing::BestWidth);
    }
    if word == b"blocked".as_slice() {
        return Some(Packing::BestWidths);
    }
    let (name, digits) = split_once(word, b':')?;
    if name != b"bitpacked".as_slice() {
        return None;
    }
    Some(Packing::Width(width(digits)?))
}

/// The encoding with a child that a word names.
fn nested(word: &[u8], child: Option<Packing>) -> Option<Encoding>
    ensures { result ≡ nested_encoding word.now child }
{
    if word == b"for".as_slice() {
        Some(Encoding::FoR(child))
    } else if word == b"forc".as_slice() {
        Some(Encoding::ChunkedFoR(child))
    } else if word == b"delta".as_slice() {
        Some(Encoding::Delta(child))
    } else if word == b"rle".as_slice() {
        Some(Encoding::RLE(child))
    } else {
        None
    }
}

/// The encoding that a word without a plus sign names.
fn single(word: &[u8]) -> Option<Encoding>
    ensures { result ≡ single_encoding word.now }
{
    if word == b"primitive".as_slice() {
        return Some(Encoding::Primitive);
    }
    match packing(word) {
        Some(packing) => Some(Encoding::BitPacked(packing)),
        None => nested(word, None),
    }
}

/// The encoding that a word names; a plus sign stands before the packing of the child.
fn encoding(word: &[u8]) -> Option<Encoding>
    ensures { result ≡ encoding_in_word word.now }
{
    match split_once(word, b'+') {
        Some((outer, inner)) => {
            let packing = packing(inner)?;
            nested(outer, Some(packing))
        }
        None => single(word),
    }
}

fn operator(name: &[u8]) -> Option<CompareOperator>
    ensures { result ≡ operator_in_word name.now }
{
    if name == b"eq".as_slice() {
        Some(CompareOperator::Eq)
    } else if name == b"ne".as_slice() {
        Some(CompareOperator::NotEq)
    } else if name == b"gt".as_slice() {
        Some(CompareOperator::Gt)
    } else if name == b"ge".as_slice() {
        Some(CompareOperator::Gte)
    } else if name == b"lt".as_slice() {
        Some(CompareOperator::Lt)
    } else if name == b"le".as_slice() {
        Some(CompareOperator::Lte)
    } else {
        None
    }
}

/// A constant that items are compared with: an integer of any size, kept where it may be one of a type.
fn constant(text: &[u8]) -> Option<Option<i128>>
    ensures { result ≡ constant_in_text text.now }
{
    if text::is_integer(text) {
        Some(text::integer(text))
    } else {
        None
    }
}

/// Whether a bound is left out: `l`, or not: `e`.
fn bound(letter: u8) -> Option<StrictComparison>
    ensures { result ≡ bound_in_letter letter }
{
    match letter {
        b'l' => Some(StrictComparison::Strict),
        b'e' => Some(StrictComparison::NonStrict),
        _ => None,
    }
}

/// How the lower and the upper bound are meant, a letter each.
fn mode(text: &[u8]) -> Option<BetweenOptions>
    ensures { result ≡ mode_in_text text.now }
{
    let [lower, upper] = text else {
        return None;
    };
    let lower_strict = bound(*lower)?;
    let upper_strict = bound(*upper)?;
    Some(BetweenOptions {
        lower_strict,
        upper_strict,
    })
}

/// Two constants, with a colon between them.
fn bounds(text: &[u8]) -> Option<(Option<i128>, Option<i128>)>
    ensures { result ≡ bounds_in_text text.now }
{
    let (lower, upper) = split_once(text, b':')?;
    let lower = constant(lower)?;
    let upper = constant(upper)?;
    Some((lower, upper))
}

/// The range test that a text says: how the bounds are meant, a colon, and the bounds.
fn between(text: &[u8]) -> Option<ColumnQuery>
    ensures { result ≡ between_in_text text.now }
{
    let (letters, rest) = split_once(text, b':')?;
    let options = mode(letters)?;
    let (lower, upper) = bounds(rest)?;
    Some(ColumnQuery::Between(options, lower, upper))
}

/// The query that is a name alone.
fn plain(word: &[u8]) -> Option<Query>
    ensures { result ≡ plain_query word.now }
{
    if word == b"decode".as_slice() {
        Some(Query::Column(ColumnQuery::Decode))
    } else if word == b"constant".as_slice() {
        Some(Query::Column(ColumnQuery::IsConstant))
    } else if word == b"sorted".as_slice() {
        Some(Query::Column(ColumnQuery::IsSorted(false)))
    } else if word == b"strict".as_slice() {
        Some(Query::Column(ColumnQuery::IsSorted(true)))
    } else if word == b"id".as_slice() {
        Some(Query::Id)
    } else if word == b"store".as_slice() {
        Some(Query::Store)
    } else if word == b"migrate".as_slice() {
        Some(Query::Migrate)
    } else {
        None
    }
}

/// The query that a name and the text behind it say.
fn named(name: &[u8], text: &[u8]) -> Option<ColumnQuery>
    ensures { result ≡ named_query name.now text.now }
{
    if name == b"at".as_slice() {
        return Some(ColumnQuery::At(number(text)?));
    }
    if name == b"between".as_slice() {
        return between(text);
    }
    let operator = operator(name)?;
    let constant = constant(text)?;
    Some(ColumnQuery::Compare(operator, constant))
}

/// The query that a word says: a name, and where it needs more a colon and a text.
fn query(word: &[u8]) -> Option<Query>
    ensures { result ≡ query_in_word word.now }
{
    match split_once(word, b':') {
        Some((name, text)) => Some(Query::Column(named(name, text)?)),
        None => plain(word),
    }
}

/// What the words of a run say: the last is the query, and those before it are the operations.
fn run(alloc: Global, words: &[String]) -> Result<Option<Run>, FastLanesError>
    ensures { Answers (option_map parts_of_run) result (Ok (run_in_words (map string_bytes words.now))) }
{
    let [words @ .., last] = words else {
        return Ok(None);
    };
    let Some(query) = query(last.as_bytes()) else {
        return Ok(None);
    };
    let Some(ops) = operations(alloc, words)? else {
        return Ok(None);
    };
    Ok(Some(Run { ops, query }))
}

/// What the words of `pack` say.
fn pack(column: &[u8], size: &[u8]) -> Option<Pack>
    ensures { result ≡ pack_in_words column.now size.now }
{
    let (ptype, nullability) = column_type(column)?;
    let width = width(size)?;
    Some(Pack {
        ptype,
        nullability,
        width,
    })
}

/// What the words of `encode` say.
fn encode(column: &[u8], word: &[u8]) -> Option<Encode>
    ensures { result ≡ encode_in_words column.now word.now }
{
    let (ptype, nullability) = column_type(column)?;
    let encoding = encoding(word)?;
    Some(Encode {
        ptype,
        nullability,
        encoding,
    })
}

/// The command that a name and two words give: `pack` or `encode`.
fn column_command(name: &[u8], column: &[u8], last: &[u8]) -> Option<Command>
    ensures { option_map parts_of_command result ≡ column_command name.now column.now last.now }
{
    if name == b"pack".as_slice() {
        Some(Command::Pack(pack(column, last)?))
    } else if name == b"encode".as_slice() {
        Some(Command::Encode(encode(column, last)?))
    } else {
        None
    }
}

/// The command that three words give, where they give one.
fn column_command_of(words: &[String]) -> Option<Command>
    ensures { option_map parts_of_command result ≡ column_command_of (map string_bytes words.now) }
{
    let [name, column, last] = words else {
        return None;
    };
    column_command(name.as_bytes(), column.as_bytes(), last.as_bytes())
}

/// The command that these words give, where they give one. Only the lists of operations of `run` need
/// memory.
pub fn command(alloc: Global, words: &[String]) -> Result<Option<Command>, FastLanesError>
    ensures command { Answers (option_map parts_of_command) result (Ok (command_of (map string_bytes words.now))) }
    ensures memory { IfErr result (λ _. IsTrue (is_run_line (map string_bytes words.now))) }
{
    let [name, rest @ ..] = words else {
        return Ok(None);
    };
    if name.as_bytes() == b"run".as_slice() {
        return match run(alloc, rest)? {
            Some(run) => Ok(Some(Command::Run(run))),
            None => Ok(None),
        };
    }
    Ok(column_command_of(words))
}
