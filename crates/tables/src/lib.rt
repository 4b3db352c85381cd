// The table's bytes: entries and rows put there and read back, and recorded tables made wide and narrow again.
#![tactic(auto)]

ghost use Rattle.std.specs.Prelude.{◌≡◌, ◌+◌, ◌*◌, ◌/◌, ◌<◌, ◌≤◌, eqb, length};
ghost use Rattle.std.proofs.lemmas.List.Edits.{sets};
ghost use Rattle.tables.specs.Table.{host_width, recorded_width, entry_bytes, entry_at, row_at, put_row};
ghost use Rattle.tables.specs.Hearing.{row_heard};
ghost use Rattle.tables.specs.Widths.{entries_in, copied, some_wide, widen_of, widened, narrow_of, narrowed};

use judge::Row;
use reasons::Reason;

// A row's five entries, four bytes each.
pub const ROW_BYTES: usize = 20;

// An entry put in its place, at a width.
#[tactic(auto, using(crate::proofs::Entries::entry_put))]
fn put_entry<const WIDTH: usize>(table: &mut [u8], i: usize, n: u32)
    requires width { WIDTH ≤ 4 }
    requires place { WIDTH * i + WIDTH ≤ length table.old }
    ensures { table.new ≡ sets table.old (WIDTH * i) (entry_bytes WIDTH n) }
{
    let place = WIDTH * i;
    table[place..place + WIDTH].copy_from_slice(&n.to_le_bytes()[..WIDTH]);
}

// An entry read, at a width.
#[tactic(auto, using(crate::proofs::Entries::read_more, crate::proofs::Entries::from_four))]
fn get_entry<const WIDTH: usize>(table: &[u8], i: usize) -> u32
    requires width { WIDTH ≤ 4 }
    requires place { WIDTH * i + WIDTH ≤ length table.now }
    ensures { result ≡ entry_at WIDTH table.now i }
{
    let place = WIDTH * i;
    let mut bytes = [0; 4];
    // Byte by byte: with copy_from_slice a row is read in 18 instructions more.
    for k in 0..WIDTH {
        bytes[k] = table[place + k];
    }
    u32::from_le_bytes(bytes)
}

// One row put in its place, where it is wholly in the table.
#[tactic(auto, unfolding(crate::specs::Table::put_row), using(crate::proofs::Tables::row_stored))]
pub fn put_row(table: &mut [u8], n: u32, row: Row)
    ensures { table.new ≡ put_row n row table.old }
{
    let i = n as usize;
    if table.len() < ROW_BYTES * (i + 1) {
        return;
    }
    // A line a field, as in get_row: an array and a loop would not say plainer which entry is which.
    put_entry::<4>(table, 5 * i, row.code);
    put_entry::<4>(table, 5 * i + 1, row.group);
    put_entry::<4>(table, 5 * i + 2, row.line);
    put_entry::<4>(table, 5 * i + 3, row.start);
    put_entry::<4>(table, 5 * i + 4, row.length);
}

// One row read.
#[tactic(auto, unfolding(crate::specs::Table::row_at))]
fn get_row(table: &[u8], n: usize) -> Row
    requires { 20 * n + 20 ≤ length table.now }
    ensures { result ≡ row_at host_width table.now n }
{
    Row {
        code: get_entry::<4>(table, 5 * n),
        group: get_entry::<4>(table, 5 * n + 1),
        line: get_entry::<4>(table, 5 * n + 2),
        start: get_entry::<4>(table, 5 * n + 3),
        length: get_entry::<4>(table, 5 * n + 4),
    }
}

// The row at a row number, if it lies in the table and its span in the feed.
#[tactic(auto, unfolding(crate::specs::Hearing::row_heard, crate::specs::Hearing::span_of))]
pub fn row_heard(n: u32, feed: &[u8], table: &[u8]) -> Result<Row, Reason>
    ensures { result ≡ row_heard host_width n feed.now table.now }
{
    if table.len() < ROW_BYTES * (n as usize + 1) {
        return Err(Reason::Astray);
    }
    let row = get_row(table, n as usize);
    if feed.len() < row.start as usize + row.length as usize {
        return Err(Reason::Astray);
    }
    Ok(row)
}

// Whether two tables of so many bytes have as many entries; spare bytes make none.
fn same_entries(narrow_bytes: usize, wide_bytes: usize) -> bool
    ensures { result ≡ eqb (narrow_bytes / recorded_width) (wide_bytes / host_width) }
{
    narrow_bytes / 2 == wide_bytes / 4
}

// Whether an entry does not fit two bytes; each is looked at, in a row or not.
fn any_wide(table: &[u8]) -> bool
    ensures { result ≡ some_wide table.now 0 (entries_in host_width table.now) }
{
    (0..table.len() / 4).any(|i| 65535 < get_entry::<4>(table, i))
}

// Every entry of a table put into one of another width.
#[tactic(auto, using(crate::proofs::Copies::copy_none, crate::proofs::Copies::copy_next))]
fn copy_entries<const FROM: usize, const TO: usize>(from: &[u8], to: &mut [u8])
    requires from { (0 < FROM) × (FROM ≤ 4) }
    requires to { TO ≤ 4 }
    requires alike { entries_in FROM from.now ≡ entries_in TO to.old }
    ensures { to.new ≡ copied FROM TO from.now to.old }
{
    for i in 0..from.len() / FROM {
        put_entry::<TO>(to, i, get_entry::<FROM>(from, i));
    }
}

// A recorded table of two bytes an entry made one of four, in which each row reads as it did.
#[tactic(auto, unfolding(crate::specs::Widths::widen_of, crate::specs::Widths::made_by))]
pub fn widen(narrow: &[u8], wide: &mut [u8]) -> Result<(), Reason>
    ensures answer { result ≡ widen_of narrow.now wide.old }
    ensures table { wide.new ≡ widened narrow.now wide.old }
{
    if !same_entries(narrow.len(), wide.len()) {
        return Err(Reason::NoRoom);
    }
    copy_entries::<2, 4>(narrow, wide);
    Ok(())
}

// A table made a recorded one of two bytes an entry, if every entry fits.
#[tactic(auto, unfolding(crate::specs::Widths::narrow_of, crate::specs::Widths::made_by))]
pub fn narrow(wide: &[u8], narrow: &mut [u8]) -> Result<(), Reason>
    ensures answer { result ≡ narrow_of wide.now narrow.old }
    ensures table { narrow.new ≡ narrowed wide.now narrow.old }
{
    if !same_entries(narrow.len(), wide.len()) {
        return Err(Reason::NoRoom);
    }
    if any_wide(wide) {
        return Err(Reason::Wide);
    }
    copy_entries::<4, 2>(wide, narrow);
    Ok(())
}
