//! Text that grows by pieces.

use fl_types::FastLanesError;
use std::alloc::Global;
use std::fmt::{Debug, Display};

/// Items that are equal, or rise by one, or a single one.
#[derive(Clone, Copy)]
struct Run {
    first: Option<i128>,
    last: Option<i128>,
    count: usize,
}

impl Run {
    fn of(item: Option<i128>) -> Run {
        Run {
            first: item,
            last: item,
            count: 1,
        }
    }

    fn with(self, item: Option<i128>) -> Run {
        Run {
            first: self.first,
            last: item,
            count: self.count.saturating_add(1),
        }
    }

    fn is_equal(self) -> bool {
        self.first == self.last
    }

    /// Whether an item behind them is one of them.
    fn takes(self, item: Option<i128>) -> bool {
        if self.count > 1 && self.is_equal() || item.is_none() {
            item == self.last && self.is_equal()
        } else {
            item == self.last.map(|last| last.saturating_add(1))
                || self.count == 1 && item == self.last
        }
    }
}

/// What a row answers, by its pieces. It lacks those that memory was refused for.
#[derive(Drop)]
pub struct Text {
    alloc: Global,
    text: String,
    run: Option<Run>,
}

impl Text {
    pub fn new(alloc: Global) -> Text {
        Text {
            alloc,
            text: String::new(alloc),
            run: None,
        }
    }

    /// The allocator that it grows by.
    pub fn alloc(&self) -> Global {
        self.alloc
    }

    /// The whole text.
    pub fn as_str(&mut self) -> &str {
        self.end();
        self.text.as_str().trim()
    }

    fn push(&mut self, piece: &str) {
        let _ = self.text.push_str(piece);
    }

    fn push_number(&mut self, number: i128) {
        let _ = write!(self.text, "{number}");
    }

    fn push_item(&mut self, item: Option<i128>) {
        match item {
            Some(integer) => self.push_number(integer),
            None => self.push("null"),
        }
    }

    /// Writes the items of a run: `7`, `7 8`, `7*3` or `7..10`.
    fn push_run(&mut self, run: Run) {
        self.push_item(run.first);
        if run.count > 1 && run.is_equal() {
            self.push("*");
            self.push_number(run.count as i128);
        } else if run.count == 2 {
            self.push(" ");
            self.push_item(run.last);
        } else if run.count > 2 {
            self.push("..");
            self.push_item(run.last.map(|last| last.saturating_add(1)));
        }
        self.push(" ");
    }

    /// Writes the items that are still to be written.
    fn end(&mut self) {
        let last = self.run;
        self.run = None;
        if let Some(run) = last {
            self.push_run(run);
        }
    }

    /// Adds an item of a list, or a null.
    pub fn item(&mut self, item: Option<i128>) {
        let last = self.run;
        self.run = match last {
            Some(run) if run.takes(item) => Some(run.with(item)),
            Some(run) if run.count == 2 && item == run.last => {
                self.push_run(Run::of(run.first));
                Some(Run::of(item).with(item))
            }
            _ => {
                self.end();
                Some(Run::of(item))
            }
        };
    }

    /// Adds a piece of a word.
    pub fn piece(&mut self, piece: &str) {
        self.end();
        self.push(piece);
    }

    /// Adds a word.
    pub fn word(&mut self, word: &str) {
        self.end();
        self.push(word);
        self.push(" ");
    }

    /// Adds the name of a type, with a mark where items may be null.
    pub fn name(&mut self, name: &str, is_nullable: bool) {
        self.end();
        self.push(name);
        if is_nullable {
            self.push("?");
        }
        self.push(" ");
    }

    /// Adds a number.
    pub fn count(&mut self, count: usize) {
        self.end();
        self.push_number(count as i128);
        self.push(" ");
    }

    /// Adds `yes` or `no`.
    pub fn bool_answer(&mut self, bool_answer: bool) {
        if bool_answer {
            self.word("yes");
        } else {
            self.word("no");
        }
    }

    /// Adds a byte, in two hexadecimal digits.
    pub fn byte(&mut self, byte: u8) {
        self.end();
        let _ = write!(self.text, "{byte:02x} ");
    }

    /// Adds a value as it is shown for debugging.
    pub fn debug<T: Debug>(&mut self, value: &T) {
        self.end();
        let _ = write!(self.text, "{value:?} ");
    }

    /// Adds a value as it is printed.
    pub fn printed<T: Display>(&mut self, value: &T) {
        self.end();
        let _ = write!(self.text, "{value} ");
    }

    /// Adds another text, where it is not the same.
    pub fn unless_same(&mut self, other: &mut Text) {
        self.end();
        other.end();
        if self.text.as_str() != other.text.as_str() {
            self.word("but");
            self.push(other.text.as_str());
        }
    }

    /// Adds a refusal.
    pub fn refusal(&mut self, refusal: FastLanesError) {
        self.end();
        let _ = write!(self.text, "error {} {refusal} ", refusal.number());
    }
}
