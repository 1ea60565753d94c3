ghost use Rattle.std.specs.Prelude.{◌≤◌, IfOk, OnOk};
ghost use Rattle.rv_store.specs.Paged as paged;
ghost use Rattle.rv_plain.specs.Kept as plain;
ghost use Rattle.rv_reader.specs.Storing.{Committed};
ghost use Rattle.try_stores.specs.Twins.{AreLaid};

use rv_loading::{
    Fault, Layout, Over, Schema, begin, commit, index_over, lay_index, lay_table, sweep,
};
use rv_plain::Plain;
use rv_reader::Change;
use rv_store::Paged;
use rv_value::NoMemory;
use std::alloc::Global;

/// A paged store and a plain one that were given the same calls.
#[derive(Drop)]
pub struct Twins {
    pub paged: Paged,
    pub plain: Plain,
    pub schema: Schema,
    pub layout: Layout,
}

/// Tables of two columns, of which the first has two indexes and the second another two.
fn new_schema(alloc: Global) -> Result<Schema, NoMemory> {
    let mut indexes = Vec::with_capacity(alloc, 4)?;
    'indexes: for number in 0..4u32 {
        indexes.push(over(alloc, number)?)?;
    }
    Ok(Schema::new(2, indexes))
}

/// What the index of a number is over.
fn over(alloc: Global, number: u32) -> Result<Over, NoMemory> {
    match number {
        0 => index_over(alloc, 0, &[0]),
        1 => index_over(alloc, 0, &[1, 0]),
        2 => index_over(alloc, 1, &[0, 1]),
        _ => index_over(alloc, 1, &[0]),
    }
}

impl Twins {
    /// Both without tables and indexes.
    pub fn new(alloc: Global) -> Result<Twins, NoMemory>
        ensures { IfOk result AreLaid }
    {
        let schema = new_schema(alloc)?;
        let paged = Paged::new(alloc)?;
        let plain = match Plain::new(alloc) {
            Ok(plain) => plain,
            Err(fault) => {
                drop(paged);
                return Err(fault);
            }
        };
        let layout = begin(&schema, &paged);
        let _alike = begin(&schema, &plain);
        Ok(Twins {
            paged,
            plain,
            schema,
            layout,
        })
    }

    /// One more table in both.
    pub fn lay_table(&mut self) -> Result<(), Fault>
        requires { AreLaid self.old }
        ensures { OnOk result (AreLaid self.new) }
    {
        let layout = lay_table(&self.schema, &mut self.paged, self.layout)?;
        lay_table(&self.schema, &mut self.plain, self.layout)?;
        self.layout = layout;
        Ok(())
    }

    /// One more index in both.
    pub fn lay_index(&mut self) -> Result<(), Fault>
        requires { AreLaid self.old }
        ensures { OnOk result (AreLaid self.new) }
    {
        let layout = lay_index(&self.schema, &mut self.paged, self.layout)?;
        lay_index(&self.schema, &mut self.plain, self.layout)?;
        self.layout = layout;
        Ok(())
    }

    /// One more commit in both.
    pub fn commit(&mut self, changes: &[Change]) -> Result<(), Fault>
        requires { AreLaid self.old }
        ensures laid { OnOk result (AreLaid self.new) }
        ensures paged { OnOk result (Committed (paged.shown_of self.old.paged) (paged.shown_of self.new.paged) changes.now) }
        ensures plain { OnOk result (Committed (plain.shown_of self.old.plain) (plain.shown_of self.new.plain) changes.now) }
    {
        let layout = commit(&self.schema, &mut self.paged, self.layout, changes)?;
        commit(&self.schema, &mut self.plain, self.layout, changes)?;
        self.layout = layout;
        Ok(())
    }

    /// Lets the snapshots below one go in both.
    pub fn sweep(&mut self, horizon: u64)
        requires laid { AreLaid self.old }
        requires low { self.old.layout.horizon ≤ horizon }
        requires high { horizon ≤ self.old.layout.newest }
        ensures { AreLaid self.new }
    {
        let layout = sweep(&self.schema, &mut self.paged, self.layout, horizon);
        sweep(&self.schema, &mut self.plain, self.layout, horizon);
        self.layout = layout;
    }
}
