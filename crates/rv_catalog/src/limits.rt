//! The limits of a statement.
ghost use Rattle.std.specs.Prelude.{◌≡◌, ◌≤◌, ◌||◌, OnOk, length};
ghost use Rattle.std.specs.List.{list_any};
ghost use Rattle.rv_lang.specs.declared.reply.Refusal.{Refusal as Why};
ghost use Rattle.rv_catalog.specs.declared.def.BindFault.{BindFault as Fault};
ghost use Rattle.rv_catalog.specs.Answers.{Gives};
ghost use Rattle.rv_catalog.specs.Limits.{columns_count, count_option, groups_in, has_long_group, has_long_list, has_long_name, has_long_names, has_long_refs, has_no_steps, has_wide_text, has_wide_texts, is_long, is_long_atom, is_long_list, is_long_operand, is_long_option, is_long_ref, is_no_kind, is_no_steps, is_no_width, is_wide, is_wide_atom, is_wide_operand, is_wide_text, joined_count, key_count, limits, order_count, returned_count};

use crate::def::BindFault;
use rv_lang::{RawAtom, RawCol, RawKind, RawOperand, Refusal, Statement, Which};
use rv_value::{Items, Text, Value};

/// Whether the statement is within the limits, or the first that it passes.
pub fn test_limits(statement: &Statement) -> Result<(), BindFault>
    ensures gives { Gives result (limits statement.now) }
    ensures columns { OnOk result (columns_count statement.now ≤ 16) }
    ensures key { OnOk result (key_count statement.now ≤ 4) }
    ensures joined { OnOk result (joined_count statement.now ≤ 4) }
{
    if any_long_name(statement) {
        return Err(passed(Which::Name, 31));
    }
    if any_wide_text(statement) {
        return Err(passed(Which::Text, 255));
    }
    if count_columns(statement) > 16 {
        return Err(passed(Which::Columns, 16));
    }
    if count_key(statement) > 4 {
        return Err(passed(Which::Key, 4));
    }
    let groups = groups_of(statement);
    if any_long_list(groups) {
        return Err(passed(Which::List, 32));
    }
    if any_long_group(groups) {
        return Err(passed(Which::Atoms, 32));
    }
    if groups.len() > 32 {
        return Err(passed(Which::Groups, 32));
    }
    if count_joined(statement) > 4 {
        return Err(passed(Which::Joined, 4));
    }
    if count_returned(statement) > 64 {
        return Err(passed(Which::Returned, 64));
    }
    if count_order(statement) > 4 {
        return Err(passed(Which::Order, 4));
    }
    if steps_out_of_range(statement) {
        return Err(passed(Which::Steps, 10000));
    }
    Ok(())
}

fn passed(which: Which, number: u64) -> BindFault
    ensures { result ≡ Fault.Refused (Why.Limit which number) }
{
    BindFault::Refused(Refusal::Limit { which, number })
}

// Names.

/// Whether a name passes the limit of names.
pub fn long_name(name: &Text) -> bool
    ensures { result ≡ is_long name.now }
{
    name.as_str().len() > 31
}

fn long_option(name: &Option<Text>) -> bool
    ensures { result ≡ is_long_option name.now }
{
    match name {
        None => false,
        Some(name) => long_name(name),
    }
}

fn long_ref(raw: &RawCol) -> bool
    ensures { result ≡ is_long_ref raw.now }
{
    long_option(&raw.table) || long_name(&raw.column)
}

fn long_operand(operand: &RawOperand) -> bool
    ensures { result ≡ is_long_operand operand.now }
{
    match operand {
        RawOperand::Literal(_) => false,
        RawOperand::Column(raw) => long_ref(raw),
    }
}

fn long_atom(atom: &RawAtom) -> bool
    ensures { result ≡ is_long_atom atom.now }
{
    match atom {
        RawAtom::Compare {
            column,
            op: _,
            operand,
        } => long_ref(column) || long_operand(operand),
        RawAtom::Between { column, .. } => long_ref(column),
        RawAtom::Among { column, .. } => long_ref(column),
        RawAtom::IsNull { column, .. } => long_ref(column),
        RawAtom::Starts { column, .. } => long_ref(column),
    }
}

fn long_names_in(atoms: &[RawAtom]) -> bool
    ensures { result ≡ list_any is_long_atom atoms.now }
{
    atoms.iter().any(long_atom)
}

fn any_long_atom(only: &[Items<RawAtom>]) -> bool
    ensures { result ≡ has_long_names only.now }
{
    only.iter().any(|group| long_names_in(group.as_slice()))
}

fn any_long(names: &[Text]) -> bool
    ensures { result ≡ list_any is_long names.now }
{
    names.iter().any(long_name)
}

fn any_long_column(columns: &[(Text, RawKind)]) -> bool
    ensures { result ≡ list_any (λ c. is_long c.0) columns.now }
{
    columns.iter().any(|column| long_name(&column.0))
}

fn any_long_set(sets: &[(Text, Value)]) -> bool
    ensures { result ≡ list_any (λ s. is_long s.0) sets.now }
{
    sets.iter().any(|set| long_name(&set.0))
}

fn any_long_item(items: &[(Text, Option<Text>)]) -> bool
    ensures { result ≡ list_any (λ i. is_long i.0 || is_long_option i.1) items.now }
{
    items
        .iter()
        .any(|item| long_name(&item.0) || long_option(&item.1))
}

fn any_long_ref(refs: &[RawCol]) -> bool
    ensures { result ≡ list_any is_long_ref refs.now }
{
    refs.iter().any(long_ref)
}

fn any_long_returned(returned: &Option<Items<RawCol>>) -> bool
    ensures { result ≡ has_long_refs returned.now }
{
    match returned {
        None => false,
        Some(refs) => any_long_ref(refs.as_slice()),
    }
}

fn any_long_name(statement: &Statement) -> bool
    ensures { result ≡ has_long_name statement.now }
{
    match statement {
        Statement::CreateTable { name, columns } => {
            long_name(name) || any_long_column(columns.as_slice())
        }
        Statement::CreateIndex {
            unique: _,
            name,
            table,
            columns,
        } => long_name(name) || long_name(table) || any_long(columns.as_slice()),
        Statement::Insert { table, values: _ } => long_name(table),
        Statement::Update { table, sets, only } => {
            long_name(table) || any_long_set(sets.as_slice()) || any_long_atom(only.as_slice())
        }
        Statement::Delete { table, only } => long_name(table) || any_long_atom(only.as_slice()),
        Statement::Open {
            cursor,
            returned,
            items,
            only,
            order,
            goal: _,
        } => {
            long_name(cursor)
                || any_long_returned(returned)
                || any_long_item(items.as_slice())
                || any_long_atom(only.as_slice())
                || any_long_ref(order.as_slice())
        }
        Statement::Fetch { cursor } => long_name(cursor),
        Statement::Show { cursor } => long_name(cursor),
        Statement::Close { cursor } => long_name(cursor),
        Statement::Step { cursor, n: _ } => long_name(cursor),
        Statement::Begin { .. } | Statement::Commit | Statement::Rollback => false,
    }
}

// Texts.

fn wide_str(text: &str) -> bool
    ensures { result ≡ is_wide_text text.now }
{
    text.len() > 255
}

fn wide_text(text: &Text) -> bool
    ensures { result ≡ is_wide_text text.now }
{
    wide_str(text.as_str())
}

fn wide(value: &Value) -> bool
    ensures { result ≡ is_wide value.now }
{
    match value {
        Value::Null => false,
        Value::Int(_) => false,
        Value::Str(text) => wide_str(text.as_str()),
    }
}

fn any_wide(values: &[Value]) -> bool
    ensures { result ≡ list_any is_wide values.now }
{
    values.iter().any(wide)
}

fn any_wide_set(sets: &[(Text, Value)]) -> bool
    ensures { result ≡ list_any (λ s. is_wide s.1) sets.now }
{
    sets.iter().any(|set| wide(&set.1))
}

fn wide_operand(operand: &RawOperand) -> bool
    ensures { result ≡ is_wide_operand operand.now }
{
    match operand {
        RawOperand::Literal(value) => wide(value),
        RawOperand::Column(_) => false,
    }
}

fn wide_atom(atom: &RawAtom) -> bool
    ensures { result ≡ is_wide_atom atom.now }
{
    match atom {
        RawAtom::Compare {
            column: _,
            op: _,
            operand,
        } => wide_operand(operand),
        RawAtom::Between {
            column: _,
            low,
            high,
        } => wide(low) || wide(high),
        RawAtom::Among { column: _, list } => any_wide(list.as_slice()),
        RawAtom::IsNull { .. } => false,
        RawAtom::Starts { column: _, text } => wide_text(text),
    }
}

fn wide_texts_in(atoms: &[RawAtom]) -> bool
    ensures { result ≡ list_any is_wide_atom atoms.now }
{
    atoms.iter().any(wide_atom)
}

fn any_wide_atom(only: &[Items<RawAtom>]) -> bool
    ensures { result ≡ has_wide_texts only.now }
{
    only.iter().any(|group| wide_texts_in(group.as_slice()))
}

fn width_out_of_range(n: i64) -> bool
    ensures { result ≡ is_no_width n }
{
    n < 1 || n > 255
}

fn no_kind(kind: RawKind) -> bool
    ensures { result ≡ is_no_kind kind }
{
    match kind {
        RawKind::Big => false,
        RawKind::Chars(n) => width_out_of_range(n),
    }
}

fn any_no_kind(columns: &[(Text, RawKind)]) -> bool
    ensures { result ≡ list_any (λ c. is_no_kind c.1) columns.now }
{
    columns.iter().any(|column| no_kind(column.1))
}

fn any_wide_text(statement: &Statement) -> bool
    ensures { result ≡ has_wide_text statement.now }
{
    match statement {
        Statement::CreateTable { name: _, columns } => any_no_kind(columns.as_slice()),
        Statement::Insert { table: _, values } => any_wide(values.as_slice()),
        Statement::Update {
            table: _,
            sets,
            only,
        } => any_wide_set(sets.as_slice()) || any_wide_atom(only.as_slice()),
        Statement::Delete { table: _, only } => any_wide_atom(only.as_slice()),
        Statement::Open { only, .. } => any_wide_atom(only.as_slice()),
        _ => false,
    }
}

// Counts.

fn count_columns(statement: &Statement) -> usize
    ensures { result ≡ columns_count statement.now }
{
    match statement {
        Statement::CreateTable { name: _, columns } => columns.len(),
        Statement::Insert { table: _, values } => values.as_slice().len(),
        Statement::Update { sets, .. } => sets.len(),
        _ => 0,
    }
}

fn count_key(statement: &Statement) -> usize
    ensures { result ≡ key_count statement.now }
{
    match statement {
        Statement::CreateIndex { columns, .. } => columns.len(),
        _ => 0,
    }
}

fn groups_of(statement: &Statement) -> &[Items<RawAtom>]
    ensures { result.now ≡ groups_in statement.now }
{
    match statement {
        Statement::Update { only, .. } => only.as_slice(),
        Statement::Delete { only, .. } => only.as_slice(),
        Statement::Open { only, .. } => only.as_slice(),
        _ => &[],
    }
}

fn long_list(atom: &RawAtom) -> bool
    ensures { result ≡ is_long_list atom.now }
{
    match atom {
        RawAtom::Among { column: _, list } => list.as_slice().len() > 32,
        _ => false,
    }
}

fn long_lists_in(atoms: &[RawAtom]) -> bool
    ensures { result ≡ list_any is_long_list atoms.now }
{
    atoms.iter().any(long_list)
}

fn any_long_list(only: &[Items<RawAtom>]) -> bool
    ensures { result ≡ has_long_list only.now }
{
    only.iter().any(|group| long_lists_in(group.as_slice()))
}

fn any_long_group(only: &[Items<RawAtom>]) -> bool
    ensures { result ≡ has_long_group only.now }
{
    only.iter().any(|group| group.len() > 32)
}

fn count_joined(statement: &Statement) -> usize
    ensures { result ≡ joined_count statement.now }
{
    match statement {
        Statement::Open { items, .. } => items.len(),
        _ => 0,
    }
}

fn count_of_option(returned: &Option<Items<RawCol>>) -> usize
    ensures { result ≡ count_option returned.now }
{
    match returned {
        None => 0,
        Some(refs) => refs.len(),
    }
}

fn count_returned(statement: &Statement) -> usize
    ensures { result ≡ returned_count statement.now }
{
    match statement {
        Statement::Open { returned, .. } => count_of_option(returned),
        _ => 0,
    }
}

fn count_order(statement: &Statement) -> usize
    ensures { result ≡ order_count statement.now }
{
    match statement {
        Statement::Open { order, .. } => order.len(),
        _ => 0,
    }
}

fn no_steps(n: i64) -> bool
    ensures { result ≡ is_no_steps n }
{
    n < 0 || n > 10000
}

fn steps_out_of_range(statement: &Statement) -> bool
    ensures { result ≡ has_no_steps statement.now }
{
    match statement {
        Statement::Step { cursor: _, n } => no_steps(*n),
        _ => false,
    }
}
