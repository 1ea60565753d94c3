//! The texts that were read last, each with its statement, so that a text that comes again is not read again.
ghost use Rattle.std.specs.Prelude.{◌≡◌, ◌<◌, ◌≤◌, [], length, position, bytes_eq, IfOk, IfSome, OnErr, OnOk};
ghost use Rattle.rv_parse.specs.declared.readings.Reading.{Reading as OneReading};
ghost use Rattle.rv_parse.specs.Kept.{Reads, reading_at, with_reading};
ghost use Rattle.rv_parse.specs.Needed.{HasParts};
ghost use Rattle.rv_parse.specs.Reading.{statement_of};

use crate::parser::read_statement;
use crate::parts::same;
use rv_lang::Statement;
use rv_value::{NoMemory, Text};
use std::alloc::Global;
use std::marker::Model;
use std::mem;

/// How many texts are kept.
const PLACES: usize = 8;

/// A text, and the statement that it derives, none where it derives none.
#[derive(Drop)]
pub struct Reading {
    pub text: Text,
    pub statement: Option<Statement>,
}

/// The last eight texts that were read, each with its statement. A text that stands among them costs comparisons; any
/// other one is read, and takes the place of the one that came first.
#[derive(Drop)]
pub struct Readings {
    alloc: Global,
    readings: Vec<Reading>,
    next: usize,
}

impl Model for Readings {
    ghost use Rattle.std.specs.Prelude.{List};
    ghost use Rattle.rv_parse.specs.declared.readings.Reading.{Reading};
    ghost use Rattle.rv_parse.specs.Kept.{AreKept};

    ghost Value = { List Reading };

    ghost view = { λ r. r.readings.items };

    ghost invariant = { λ r. AreKept r.readings.items r.next };
}

fn is_of(reading: &Reading, text: &str) -> bool
    ensures { result ≡ bytes_eq reading.now.text text.now }
{
    same(reading.text.as_str(), text)
}

/// The place of the first reading of a text.
fn place_of(readings: &[Reading], text: &str) -> Option<usize>
    ensures { result ≡ position (λ (r : OneReading). bytes_eq r.text text.now) readings.now }
{
    readings.iter().position(|reading| is_of(reading, text))
}

/// Puts a reading in a place, in the place of the one there, or behind all.
fn put_reading(readings: &mut Vec<Reading>, place: usize, reading: Reading) -> Result<(), NoMemory>
    ensures ok { OnOk result (readings.new.items ≡ with_reading readings.old.items place reading) }
    ensures err { OnErr result (readings.new.items ≡ readings.old.items) }
{
    if place < readings.len() {
        drop(mem::replace(&mut readings[place], reading));
    } else {
        readings.push(reading)?;
    }
    Ok(())
}

impl Readings {
    /// No text. It takes no memory.
    pub fn new(alloc: Global) -> Readings
        ensures { result ≡ [] }
    {
        Readings {
            alloc,
            readings: Vec::new(alloc),
            next: 0,
        }
    }

    /// The place of a text, where it stands among those that were read last.
    fn place(&self, text: &str) -> Option<usize>
        ensures { IfSome result (Reads text.now self.now) }
    {
        place_of(self.readings.as_slice(), text)
    }

    /// Puts a reading in the place whose turn it is, and tells that place.
    #[tactic(auto, using(crate::proofs::Kept::put_kept, crate::proofs::Kept::put_there, crate::proofs::Kept::put_is))]
    fn put(&mut self, reading: Reading) -> Result<usize, NoMemory>
        requires { reading.statement ≡ statement_of reading.text }
        ensures there { IfOk result (λ place. place < length self.new) }
        ensures is { IfOk result (λ place. reading_at self.new place ≡ reading) }
    {
        let place = self.next;
        put_reading(&mut self.readings, place, reading)?;
        self.next = if place + 1 < PLACES { place + 1 } else { 0 };
        Ok(place)
    }

    /// Reads a text, and puts it among those that were read last.
    fn read(&mut self, text: &str) -> Result<usize, NoMemory>
        requires { length text.now ≤ 4096 }
        ensures { IfOk result (Reads text.now self.new) }
    {
        let statement = read_statement(self.alloc, text)?;
        match Text::read(self.alloc, text) {
            Ok(text) => self.put(Reading { text, statement }),
            Err(fault) => {
                drop(statement);
                Err(fault)
            }
        }
    }

    /// The place of the statement of a text of at most 4,096 bytes, which is read where it does not stand among those
    /// that were read last.
    pub fn keep(&mut self, text: &str) -> Result<usize, NoMemory>
        requires { length text.now ≤ 4096 }
        ensures { IfOk result (Reads text.now self.new) }
    {
        match self.place(text) {
            Some(place) => Ok(place),
            None => self.read(text),
        }
    }

    /// The statement in a place. It has the parts that a statement is never without.
    pub fn at(&self, place: usize) -> &Option<Statement>
        requires { place < length self.now }
        ensures is { result.now ≡ (reading_at self.now place).statement }
        ensures parts { IfSome result.now HasParts }
    {
        &self.readings[place].statement
    }
}
