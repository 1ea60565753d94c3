//! What is told: a text that grows, and whether all of it found room. What tells need not look at each word whether it did.
use rv_loading::Fault;
use rv_reader::Estimate;
use std::alloc::Global;

#[derive(Drop)]
pub struct Told {
    text: String,
    is_whole: bool,
}

impl Told {
    /// Nothing told yet, and nothing lost.
    pub fn new(alloc: Global) -> Told {
        Told {
            text: String::new(alloc),
            is_whole: true,
        }
    }

    /// Adds a word. Want of memory is noted, and asked for at the end alone.
    pub fn word(&mut self, word: &str) {
        if self.text.push_str(word).is_err() {
            self.is_whole = false;
        }
    }

    /// Adds a number in decimal digits, with want of memory as `word`.
    pub fn number(&mut self, number: u64) {
        if write!(self.text, "{number}").is_err() {
            self.is_whole = false;
        }
    }

    /// Adds an integer in decimal digits, with want of memory as `word`.
    pub fn integer(&mut self, number: i64) {
        if write!(self.text, "{number}").is_err() {
            self.is_whole = false;
        }
    }

    /// A word, and a number behind it.
    pub fn with(&mut self, word: &str, number: u64) {
        self.word(word);
        self.number(number);
    }

    /// The estimate of a range of first values.
    pub fn range(&mut self, low: i64, high: i64, estimate: Estimate) {
        self.word("  ");
        self.integer(low);
        self.word(" to ");
        self.integer(high);
        self.word(if estimate.exact {
            ": exactly "
        } else {
            ": about "
        });
        self.number(estimate.value);
    }

    /// How much is read of a range.
    pub fn read(&mut self, entries: usize, leaves: usize) {
        self.with(", ", entries as u64);
        self.with(" in ", leaves as u64);
        self.word("\n");
    }

    /// What was told apart, where all was done.
    pub fn append(&mut self, apart: Told, done: Result<(), Fault>) -> Result<(), Fault> {
        self.word(apart.text.as_str());
        self.is_whole = self.is_whole && apart.is_whole;
        drop(apart);
        done
    }

    /// The text, where all was done and all of it found room.
    pub fn finish(self, done: Result<(), Fault>) -> Result<String, Fault> {
        match done {
            Ok(()) if self.is_whole => Ok(self.text),
            Ok(()) => Err(Fault::NoMemory),
            Err(fault) => Err(fault),
        }
    }
}
