//! Counts of what kernels read, so that a caller can see which work was done.
#![tactic(auto)]

ghost use Rattle.std.specs.Prelude.{◌≡◌, ◌+◌, min};
ghost use Rattle.fastlanes.specs.Counts.{Counts};

use std::marker::Model;

/// The number of blocks that kernels unpacked whole, and the number of packed words that they read besides.
///
/// Both start at 0, and stay at `u64::MAX` once they reach it. Only this crate adds to them.
#[derive(Debug, Drop)]
pub struct Work {
    blocks: u64,
    words: u64,
}

impl Model for Work {
    ghost Value = { Counts };

    ghost view = { λ w. record { blocks = w.blocks; words = w.words } };
}

impl Work {
    /// Counts of 0.
    pub fn new() -> Self
        ensures { result ≡ record { blocks = 0; words = 0 } }
    {
        Work {
            blocks: 0,
            words: 0,
        }
    }

    /// The number of blocks that kernels unpacked whole.
    pub fn blocks(&self) -> u64
        ensures { result ≡ self.now.blocks }
    {
        self.blocks
    }

    /// The number of packed words that kernels read besides whole blocks.
    pub fn words(&self) -> u64
        ensures { result ≡ self.now.words }
    {
        self.words
    }

    /// Counts a word.
    pub(crate) fn add_word(&mut self)
        ensures words { self.new.words ≡ min (self.old.words + 1) u64.MAX }
        ensures blocks { self.new.blocks ≡ self.old.blocks }
    {
        self.words = self.words.saturating_add(1);
    }

    /// Counts a block.
    pub(crate) fn add_block(&mut self)
        ensures blocks { self.new.blocks ≡ min (self.old.blocks + 1) u64.MAX }
        ensures words { self.new.words ≡ self.old.words }
    {
        self.blocks = self.blocks.saturating_add(1);
    }
}
