//! The forms of a statement.
ghost use Rattle.std.specs.Prelude.{◌≡◌};
ghost use Rattle.rv_parse.specs.Reading.{Gives, name_at, kind_at, column_def_at, create_table_at, create_index_at, index_at, create_at, insert_at, set_at, update_at, delete_at, begin_at, fetch_at, show_at, close_cursor_at, step_at, cursor_at, body_at};

use crate::conditions::only;
use crate::fault::ParseFault;
use crate::list::{Part, Separator, enclosed, list};
use crate::parts::{close, copied, equal, integer, literal, name, named, open, word};
use crate::selects::open_cursor;
use rv_lang::{RawKind, Statement, Token};
use rv_value::{Duplicate, Text, Value, Values};
use std::alloc::Global;

#[tactic(auto, unfolding(crate::specs::Reading::kind_at))]
fn kind<'a>(tokens: &'a [Token]) -> Result<(RawKind, &'a [Token]), ParseFault>
    ensures { Gives (λ x. (x.0, x.1.now)) result (kind_at tokens.now) }
{
    match word(tokens, "BIGINT") {
        Some(rest) => Ok((RawKind::Big, rest)),
        None => {
            let Some(rest) = word(tokens, "VARCHAR") else {
                return Err(ParseFault::Syntax);
            };
            let Some(rest) = open(rest) else {
                return Err(ParseFault::Syntax);
            };
            let (n, rest) = integer(rest)?;
            let Some(rest) = close(rest) else {
                return Err(ParseFault::Syntax);
            };
            Ok((RawKind::Chars(n), rest))
        }
    }
}

#[tactic(auto, unfolding(crate::specs::Reading::column_def_at))]
fn column_def<'a>(
    alloc: Global,
    tokens: &'a [Token],
) -> Result<((Text, RawKind), &'a [Token]), ParseFault>
    ensures { Gives (λ x. (x.0, x.1.now)) result (column_def_at tokens.now) }
{
    let Some((name, rest)) = named(tokens) else {
        return Err(ParseFault::Syntax);
    };
    let (kind, rest) = kind(rest)?;
    Ok(((name.copy(alloc)?, kind), rest))
}

impl Part for (Text, RawKind) {
    ghost reads = { column_def_at };

    fn part<'a>(
        alloc: Global,
        tokens: &'a [Token],
    ) -> Result<((Text, RawKind), &'a [Token]), ParseFault> {
        column_def(alloc, tokens)
    }
}

#[tactic(auto, unfolding(crate::specs::Reading::create_table_at))]
fn create_table<'a>(
    alloc: Global,
    tokens: &'a [Token],
) -> Result<(Statement, &'a [Token]), ParseFault>
    ensures { Gives (λ x. (x.0, x.1.now)) result (create_table_at tokens.now) }
{
    let Some((name, rest)) = named(tokens) else {
        return Err(ParseFault::Syntax);
    };
    let (columns, rest) = enclosed::<(Text, RawKind)>(alloc, rest)?;
    let (name, columns) = copied(alloc, name, columns)?;
    Ok((Statement::CreateTable { name, columns }, rest))
}

impl Part for Text {
    ghost reads = { name_at };

    fn part<'a>(alloc: Global, tokens: &'a [Token]) -> Result<(Text, &'a [Token]), ParseFault> {
        name(alloc, tokens)
    }
}

#[tactic(auto, unfolding(crate::specs::Reading::create_index_at))]
fn create_index<'a>(
    alloc: Global,
    unique: bool,
    tokens: &'a [Token],
) -> Result<(Statement, &'a [Token]), ParseFault>
    ensures { Gives (λ x. (x.0, x.1.now)) result (create_index_at unique tokens.now) }
{
    let Some(rest) = word(tokens, "INDEX") else {
        return Err(ParseFault::Syntax);
    };
    let Some((name, rest)) = named(rest) else {
        return Err(ParseFault::Syntax);
    };
    let Some(rest) = word(rest, "ON") else {
        return Err(ParseFault::Syntax);
    };
    let Some((table, rest)) = named(rest) else {
        return Err(ParseFault::Syntax);
    };
    let (columns, rest) = enclosed::<Text>(alloc, rest)?;
    let (table, columns) = copied(alloc, table, columns)?;
    match name.copy(alloc) {
        Ok(name) => Ok((
            Statement::CreateIndex {
                unique,
                name,
                table,
                columns,
            },
            rest,
        )),
        Err(_) => {
            drop(table);
            drop(columns);
            Err(ParseFault::NoMemory)
        }
    }
}

/// An index, with UNIQUE before it or without.
#[tactic(auto, unfolding(crate::specs::Reading::index_at))]
fn index<'a>(alloc: Global, tokens: &'a [Token]) -> Result<(Statement, &'a [Token]), ParseFault>
    ensures { Gives (λ x. (x.0, x.1.now)) result (index_at tokens.now) }
{
    match word(tokens, "UNIQUE") {
        Some(rest) => create_index(alloc, true, rest),
        None => create_index(alloc, false, tokens),
    }
}

#[tactic(auto, unfolding(crate::specs::Reading::create_at))]
fn create<'a>(alloc: Global, tokens: &'a [Token]) -> Result<(Statement, &'a [Token]), ParseFault>
    ensures { Gives (λ x. (x.0, x.1.now)) result (create_at tokens.now) }
{
    match word(tokens, "TABLE") {
        Some(rest) => create_table(alloc, rest),
        None => index(alloc, tokens),
    }
}

#[tactic(auto, unfolding(crate::specs::Reading::insert_at))]
fn insert<'a>(alloc: Global, tokens: &'a [Token]) -> Result<(Statement, &'a [Token]), ParseFault>
    ensures { Gives (λ x. (x.0, x.1.now)) result (insert_at tokens.now) }
{
    let Some(rest) = word(tokens, "INTO") else {
        return Err(ParseFault::Syntax);
    };
    let Some((table, rest)) = named(rest) else {
        return Err(ParseFault::Syntax);
    };
    let Some(rest) = word(rest, "VALUES") else {
        return Err(ParseFault::Syntax);
    };
    let (values, rest) = enclosed::<Value>(alloc, rest)?;
    let values = Values::of(alloc, values.into_vec())?;
    let (table, values) = copied(alloc, table, values)?;
    Ok((Statement::Insert { table, values }, rest))
}

#[tactic(auto, unfolding(crate::specs::Reading::set_at))]
fn set<'a>(alloc: Global, tokens: &'a [Token]) -> Result<((Text, Value), &'a [Token]), ParseFault>
    ensures { Gives (λ x. (x.0, x.1.now)) result (set_at tokens.now) }
{
    let Some((name, rest)) = named(tokens) else {
        return Err(ParseFault::Syntax);
    };
    let Some(rest) = equal(rest) else {
        return Err(ParseFault::Syntax);
    };
    let (value, rest) = literal(alloc, rest)?;
    let (name, value) = copied(alloc, name, value)?;
    Ok(((name, value), rest))
}

impl Part for (Text, Value) {
    ghost reads = { set_at };

    fn part<'a>(
        alloc: Global,
        tokens: &'a [Token],
    ) -> Result<((Text, Value), &'a [Token]), ParseFault> {
        set(alloc, tokens)
    }
}

#[tactic(auto, unfolding(crate::specs::Reading::update_at))]
fn update<'a>(alloc: Global, tokens: &'a [Token]) -> Result<(Statement, &'a [Token]), ParseFault>
    ensures { Gives (λ x. (x.0, x.1.now)) result (update_at tokens.now) }
{
    let Some((table, rest)) = named(tokens) else {
        return Err(ParseFault::Syntax);
    };
    let Some(rest) = word(rest, "SET") else {
        return Err(ParseFault::Syntax);
    };
    let (sets, rest) = list::<(Text, Value)>(alloc, Separator::Comma, rest)?;
    let (table, sets) = copied(alloc, table, sets)?;
    match only(alloc, rest) {
        Ok((only, rest)) => Ok((Statement::Update { table, sets, only }, rest)),
        Err(fault) => {
            drop(table);
            drop(sets);
            Err(fault)
        }
    }
}

#[tactic(auto, unfolding(crate::specs::Reading::delete_at))]
fn delete<'a>(alloc: Global, tokens: &'a [Token]) -> Result<(Statement, &'a [Token]), ParseFault>
    ensures { Gives (λ x. (x.0, x.1.now)) result (delete_at tokens.now) }
{
    let Some(rest) = word(tokens, "FROM") else {
        return Err(ParseFault::Syntax);
    };
    let Some((table, rest)) = named(rest) else {
        return Err(ParseFault::Syntax);
    };
    let (only, rest) = only(alloc, rest)?;
    let (table, only) = copied(alloc, table, only)?;
    Ok((Statement::Delete { table, only }, rest))
}

#[tactic(auto, unfolding(crate::specs::Reading::begin_at))]
fn begin<'a>(tokens: &'a [Token]) -> Result<(Statement, &'a [Token]), ParseFault>
    ensures { Gives (λ x. (x.0, x.1.now)) result (begin_at tokens.now) }
{
    match word(tokens, "READ") {
        Some(rest) => {
            let Some(rest) = word(rest, "ONLY") else {
                return Err(ParseFault::Syntax);
            };
            Ok((Statement::Begin { read_only: true }, rest))
        }
        None => Ok((Statement::Begin { read_only: false }, tokens)),
    }
}

#[tactic(auto, unfolding(crate::specs::Reading::fetch_at))]
fn fetch<'a>(alloc: Global, tokens: &'a [Token]) -> Result<(Statement, &'a [Token]), ParseFault>
    ensures { Gives (λ x. (x.0, x.1.now)) result (fetch_at tokens.now) }
{
    let (cursor, rest) = name(alloc, tokens)?;
    Ok((Statement::Fetch { cursor }, rest))
}

#[tactic(auto, unfolding(crate::specs::Reading::show_at))]
fn show<'a>(alloc: Global, tokens: &'a [Token]) -> Result<(Statement, &'a [Token]), ParseFault>
    ensures { Gives (λ x. (x.0, x.1.now)) result (show_at tokens.now) }
{
    let (cursor, rest) = name(alloc, tokens)?;
    Ok((Statement::Show { cursor }, rest))
}

#[tactic(auto, unfolding(crate::specs::Reading::close_cursor_at))]
fn close_cursor<'a>(
    alloc: Global,
    tokens: &'a [Token],
) -> Result<(Statement, &'a [Token]), ParseFault>
    ensures { Gives (λ x. (x.0, x.1.now)) result (close_cursor_at tokens.now) }
{
    let (cursor, rest) = name(alloc, tokens)?;
    Ok((Statement::Close { cursor }, rest))
}

#[tactic(auto, unfolding(crate::specs::Reading::step_at))]
fn step<'a>(alloc: Global, tokens: &'a [Token]) -> Result<(Statement, &'a [Token]), ParseFault>
    ensures { Gives (λ x. (x.0, x.1.now)) result (step_at tokens.now) }
{
    let Some((cursor, rest)) = named(tokens) else {
        return Err(ParseFault::Syntax);
    };
    let (n, rest) = integer(rest)?;
    let cursor = cursor.copy(alloc)?;
    Ok((Statement::Step { cursor, n }, rest))
}

#[tactic(auto, unfolding(crate::specs::Reading::cursor_at))]
fn on_cursor<'a>(alloc: Global, tokens: &'a [Token]) -> Result<(Statement, &'a [Token]), ParseFault>
    ensures { Gives (λ x. (x.0, x.1.now)) result (cursor_at tokens.now) }
{
    if let Some(rest) = word(tokens, "OPEN") {
        open_cursor(alloc, rest)
    } else if let Some(rest) = word(tokens, "FETCH") {
        fetch(alloc, rest)
    } else if let Some(rest) = word(tokens, "SHOW") {
        show(alloc, rest)
    } else if let Some(rest) = word(tokens, "CLOSE") {
        close_cursor(alloc, rest)
    } else if let Some(rest) = word(tokens, "STEP") {
        step(alloc, rest)
    } else {
        Err(ParseFault::Syntax)
    }
}

/// Reads a statement by its first words, and gives what is left behind it.
#[tactic(auto, unfolding(crate::specs::Reading::body_at))]
pub fn body<'a>(alloc: Global, tokens: &'a [Token]) -> Result<(Statement, &'a [Token]), ParseFault>
    ensures { Gives (λ x. (x.0, x.1.now)) result (body_at tokens.now) }
{
    if let Some(rest) = word(tokens, "CREATE") {
        create(alloc, rest)
    } else if let Some(rest) = word(tokens, "INSERT") {
        insert(alloc, rest)
    } else if let Some(rest) = word(tokens, "UPDATE") {
        update(alloc, rest)
    } else if let Some(rest) = word(tokens, "DELETE") {
        delete(alloc, rest)
    } else if let Some(rest) = word(tokens, "BEGIN") {
        begin(rest)
    } else if let Some(rest) = word(tokens, "COMMIT") {
        Ok((Statement::Commit, rest))
    } else if let Some(rest) = word(tokens, "ROLLBACK") {
        Ok((Statement::Rollback, rest))
    } else {
        on_cursor(alloc, tokens)
    }
}
