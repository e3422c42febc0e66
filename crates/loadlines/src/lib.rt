// The report of a chip that loads: its first line, a line for each write, its last line. For the crate above
// it alone: it asks its caller for a page with room for all of it.
#![tactic(auto)]

ghost use Rattle.std.specs.Prelude.{◌≡◌, ◌++◌, ◌+◌, ◌*◌, ◌≤◌, leb, length};
ghost use Rattle.fields.specs.Page.{Wrote};
ghost use Rattle.writes.specs.Cursor.{remaining_writes};
ghost use Rattle.fields.specs.Fields.{decimal};
ghost use Rattle.reportlines.specs.Reportlines.{loaded_line, write_lines, end_line};

use fields::{Page, decimal_length};
use reportlines::{WRITE, put_write};
use writes::cursor::Cursor;
use writes::next::{next_of, step_at};

// The length of the first line.
const LOADED: usize = 14;

// The length of the last line, but for the number of writes.
const END: usize = 21;

// Whether a buffer of `room` bytes has room for all of it. The number of writes is held to what is left
// beside the first and the last line, so that no product can wrap.
pub fn has_room(writes: usize, room: usize) -> bool
    ensures { result ≡ leb (14 + 27 * writes + (21 + length (decimal writes))) room }
{
    let ends = LOADED + END + decimal_length(writes);
    ends <= room && writes <= (room - ends) / WRITE
}

// What loads: golden, or after a jump the update.
fn put_loaded(page: &mut Page<'_>, jumped: bool)
    requires { page.old.at + 14 ≤ length page.old.out.now }
    ensures { Wrote page.old page.new (loaded_line jumped) }
{
    if jumped {
        page.put(b"LOADED update\n");
    } else {
        page.put(b"LOADED golden\n");
    }
}

// The lines of all writes that a cursor has to give, in one pass.
fn put_writes(page: &mut Page<'_>, chip: &[u8], cursor: Cursor)
    requires { page.old.at + 27 * length (remaining_writes chip.now cursor) ≤ length page.old.out.now }
    ensures { Wrote page.old page.new (write_lines (remaining_writes chip.now cursor)) }
{
    let mut here = cursor;
    while let Some(step) = step_at(chip, next_of(chip, here), here.remaining) {
        put_write(page, step.write);
        here = step.cursor;
    }
}

// The place after the last word, and the number of writes.
#[tactic(auto, using(fields::proofs::Laws::length_hexadecimal, reportlines::proofs::Laws::length_end))]
fn put_end(page: &mut Page<'_>, end: usize, writes: usize)
    requires { page.old.at + length (end_line end writes) ≤ length page.old.out.now }
    ensures { Wrote page.old page.new (end_line end writes) }
{
    page.put(b"END ");
    page.put_hexadecimal(8, end);
    page.put(b" writes ");
    page.put_decimal(writes);
    page.put(b"\n");
}

// All of it.
#[tactic(auto, using(reportlines::proofs::Laws::length_loaded, reportlines::proofs::Laws::length_writes))]
pub fn put_report(
    page: &mut Page<'_>,
    chip: &[u8],
    cursor: Cursor,
    jumped: bool,
    end: usize,
    writes: usize,
)
    requires { page.old.at + (14 + 27 * length (remaining_writes chip.now cursor) + length (end_line end writes)) ≤ length page.old.out.now }
    ensures { Wrote page.old page.new (loaded_line jumped ++ write_lines (remaining_writes chip.now cursor) ++ end_line end writes) }
{
    put_loaded(page, jumped);
    put_writes(page, chip, cursor);
    put_end(page, end, writes);
}
