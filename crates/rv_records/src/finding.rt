ghost use Rattle.std.specs.Prelude.{◌≡◌, ◌≤◌, length, filter, take, drop, not};
ghost use Rattle.std.specs.Option.{option_copied};
ghost use Rattle.rv_value.specs.declared.record.Record.{Record};
ghost use Rattle.rv_rows.specs.Rows.{Ascend};
ghost use Rattle.rv_reader.specs.Tables.{row_at};
ghost use Rattle.rv_records.specs.Finding.{below, row_from};

use rv_value::{Record, RowNo};

/// How many of ascending rows have a number below another one, by binary search.
fn rows_below(rows: &[Record], row: RowNo) -> usize
    requires { Ascend rows.now }
    ensures within { result ≤ length rows.now }
    ensures behind { drop result rows.now ≡ filter (λ (r : Record). not (below row.0 r)) rows.now }
{
    rows.partition_point(|other| other.row.0 < row.0)
}

/// The row in a place, where it is there and has a number.
fn row_in(rows: &[Record], place: usize, row: RowNo) -> Option<&Record>
    ensures { option_copied result ≡ row_from row.0 (drop place rows.now) }
{
    match rows.get(place) {
        Some(found) if found.row.0 == row.0 => Some(found),
        _ => None,
    }
}

/// The row of a number in the ascending rows of its page; None where there is none. It is looked for first where it stands
/// while each number of the page has a row, then by halves.
pub fn find_row(rows: &[Record], row: RowNo) -> Option<&Record>
    requires { Ascend rows.now }
    ensures { option_copied result ≡ row_at rows.now row.0 }
{
    match row_in(rows, (row.0 % 32) as usize, row) {
        Some(found) => Some(found),
        None => row_in(rows, rows_below(rows, row), row),
    }
}
