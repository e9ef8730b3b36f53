//! What a row asks.

use crate::columns::count;
use fl_column::PrimitiveArray;
use std::alloc::Global;

/// The words of a question, and the columns of its row.
#[derive(Clone, Copy)]
pub struct Asked<'a> {
    pub alloc: Global,
    pub words: &'a [&'a str],
    pub columns: &'a [PrimitiveArray],
    /// A column without items, in place of one that the row lacks.
    pub none: &'a PrimitiveArray,
}

impl<'a> Asked<'a> {
    /// The word at a place, empty where there is none.
    pub fn word(self, place: usize) -> &'a str {
        match self.words.get(place) {
            Some(word) => word,
            None => "",
        }
    }

    /// The number that the word at a place is, or 0.
    pub fn count(self, place: usize) -> usize {
        count(self.word(place))
    }

    /// The words from a place on.
    pub fn words_from(self, place: usize) -> &'a [&'a str] {
        self.words.get(place..).unwrap_or(&[])
    }

    /// The same with the words from a place on.
    pub fn from(self, place: usize) -> Asked<'a> {
        self.with_words(self.words_from(place))
    }

    /// The same with other words.
    pub fn with_words(self, words: &'a [&'a str]) -> Asked<'a> {
        Asked {
            alloc: self.alloc,
            words,
            columns: self.columns,
            none: self.none,
        }
    }

    /// The same with other columns.
    pub fn with_columns(self, columns: &'a [PrimitiveArray]) -> Asked<'a> {
        Asked {
            alloc: self.alloc,
            words: self.words,
            columns,
            none: self.none,
        }
    }

    /// The column at a place.
    pub fn column(self, place: usize) -> &'a PrimitiveArray {
        match self.columns.get(place) {
            Some(column) => column,
            None => self.none,
        }
    }

    /// The row's last column.
    pub fn last_column(self) -> &'a PrimitiveArray {
        match self.columns.last() {
            Some(column) => column,
            None => self.none,
        }
    }

    /// The columns from a place on.
    pub fn columns_from(self, place: usize) -> &'a [PrimitiveArray] {
        self.columns.get(place..).unwrap_or(&[])
    }
}
