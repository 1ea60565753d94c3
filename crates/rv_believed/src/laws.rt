//! Laws of the believed definitions, each the contract of a function that does nothing.
ghost use Rattle.std.specs.Prelude.{◌≡◌, Bool, List, Option, ℕ, Some};
ghost use Rattle.rv_value.specs.declared.record.Record.{Record};
ghost use Rattle.rv_value.specs.declared.value.Value.{Value};
ghost use Rattle.rv_restrict.specs.declared.atom.Atom.{Atom};
ghost use Rattle.rv_lang.specs.declared.statement.Statement.{Statement};
ghost use Rattle.rv_lang.specs.declared.reply.Shown.{Shown};
ghost use Rattle.rv_parse.specs.Reading.{statement_of};
ghost use Rattle.rv_catalog.specs.declared.def.IndexDef.{IndexDef};
ghost use Rattle.rv_catalog.specs.declared.def.TableDef.{TableDef};
ghost use Rattle.rv_catalog.specs.declared.def.Select.{Select};
ghost use Rattle.rv_catalog.specs.Limits.{limits};
ghost use Rattle.rv_catalog.specs.Resolve.{resolved};
ghost use Rattle.rv_catalog.specs.Schema.{Schema};
ghost use Rattle.rv_model.specs.declared.entry.Entry.{Entry};
ghost use Rattle.rv_model.specs.declared.state.State.{State};
ghost use Rattle.rv_model.specs.History as working;
ghost use Rattle.rv_model.specs.Offering.{offers_over};
ghost use Rattle.rv_model.specs.Showing.{ShowsTrace};
ghost use Rattle.rv_model.specs.Step.{began, changed, closed, committed, created, indexed, inserted, opened, rolled_back};
ghost use Rattle.rv_believed.specs.Changing.{change, insert};
ghost use Rattle.rv_believed.specs.Cursors.{close_cursor, open_cursor};
ghost use Rattle.rv_believed.specs.Grammar.{Says};
ghost use Rattle.rv_believed.specs.Held.{TranscriptTells};
ghost use Rattle.rv_believed.specs.History.{IsLegal};
ghost use Rattle.rv_believed.specs.Limits.{within_limits};
ghost use Rattle.rv_believed.specs.Names.{resolution};
ghost use Rattle.rv_believed.specs.Offers.{offers_of};
ghost use Rattle.rv_believed.specs.Orderly.{StaysOrderly};
ghost use Rattle.rv_believed.specs.Plain.{LegalIsPlain};
ghost use Rattle.rv_believed.specs.Runs.{Shows};
ghost use Rattle.rv_believed.specs.Standing.{IsSound, StaysSound, database, outcome_of};
ghost use Rattle.rv_believed.specs.Taken.{StaysTaken};
ghost use Rattle.rv_believed.specs.Transactions.{begin, commit, create_index, create_table, rollback};
ghost use Rattle.rv_believed.specs.Unique.{StaysUnique};

use rv_model::laws::text_tells;
use rv_parse::parser::statement_as_function;

/// A law: what a text says by the grammar is the statement that the parser reads.
pub fn says_what_is_read()
    ensures read { (text : List ℕ) (s : Statement) → Says text s → statement_of text ≡ Some s }
    ensures said { (text : List ℕ) (s : Statement) → statement_of text ≡ Some s → Says text s }
{
    statement_as_function();
}

/// A law: a statement is within its limits, or has the first refusal, as the catalog tests them.
pub fn limits_are_same()
    ensures { (s : Statement) → within_limits s ≡ limits s }
{}

/// A law: a statement asks what the catalog resolves it to, or has the same first refusal.
pub fn resolution_is_same()
    ensures { (schema : Schema) (s : Statement) → resolution schema.tables schema.indexes s ≡ resolved schema s }
{}

/// A law: a select offers what the working definition gathers.
pub fn offers_are_same()
    ensures { (q : Select) (rows : ℕ → List Record) → offers_of q rows ≡ offers_over q rows }
{}

/// A law: on the database for which a sound state stands, a statement comes to that of what the working definitions say.
pub fn statements_are_same()
    ensures tables { (s : State) (def : TableDef) → IsSound s → create_table (database s) def ≡ outcome_of (created s def) }
    ensures indexes { (s : State) (def : IndexDef) → IsSound s → create_index (database s) def ≡ outcome_of (indexed s def) }
    ensures begins { (s : State) (session : ℕ) (read_only : Bool) → IsSound s → begin (database s) session read_only ≡ outcome_of (began s session read_only) }
    ensures inserts { (s : State) (session table : ℕ) (values : List Value) → IsSound s → insert (database s) session table values ≡ outcome_of (inserted s session table values) }
    ensures changes { (s : State) (session table : ℕ) (sets : Option (List (ℕ × Value))) (only : List (List Atom)) → IsSound s → change (database s) session table sets only ≡ outcome_of (changed s session table sets only) }
    ensures commits { (s : State) (session : ℕ) → IsSound s → commit (database s) session ≡ outcome_of (committed s session) }
    ensures rolls_back { (s : State) (session : ℕ) → IsSound s → rollback (database s) session ≡ outcome_of (rolled_back s session) }
    ensures opens { (s : State) (session : ℕ) (name : List ℕ) (q : Select) → open_cursor (database s) session name q ≡ outcome_of (opened s session name q) }
    ensures closes { (s : State) (session : ℕ) (name : List ℕ) → close_cursor (database s) session name ≡ outcome_of (closed s session name) }
{}

/// A law: after every history the state is sound: it is orderly, its rows have numbers that their tables gave, and each
/// table has its rows.
pub fn stays_sound()
    ensures { StaysSound }
{}

/// A law: SHOW may answer the traces of runs by turns, and no others.
pub fn traces_are_same()
    ensures works { (indexes : List IndexDef) (table : ℕ) (shown : Shown) → Shows indexes table shown → ShowsTrace indexes table shown }
    ensures believed { (indexes : List IndexDef) (table : ℕ) (shown : Shown) → ShowsTrace indexes table shown → Shows indexes table shown }
{}

/// A law: the histories that are legal by the grammar and the believed names are those that are legal by the
/// definitions with which the crates work.
pub fn same_are_legal()
    ensures works { (history : List Entry) → IsLegal history → working.IsLegal history }
    ensures believed { (history : List Entry) → working.IsLegal history → IsLegal history }
{
    says_what_is_read();
}

/// A law: after every history a session has at most one transaction, transactions are numbered in the order in
/// which they began, and a session's cursors differ by name.
pub fn stays_orderly()
    ensures { StaysOrderly }
{}

/// A law: after every history each row, and each row that a transaction has changed, has a number that its table
/// gave.
pub fn stays_taken()
    ensures { StaysTaken }
{}

/// A law: after every history no two rows are equal in a unique index: in the last commit, in what a transaction sees, and
/// between what one has written and what others have, or what stays of the last commit.
pub fn stays_unique()
    ensures { StaysUnique }
{}

/// A law: every entry of a legal history whose text is a line is plain.
pub fn legal_is_plain()
    ensures { LegalIsPlain }
{}

/// A law: the transcript of a legal history of the program tells it, but for its phases.
pub fn transcript_tells()
    ensures { TranscriptTells }
{
    text_tells();
}
