// The lines of a report that say one thing by themselves: a write, where a chip is stuck, a refusal. Each ends in LF. For the
// crates above it alone: its functions ask their caller for a page with room for the line.
#![tactic(auto)]

ghost use Rattle.std.specs.Prelude.{◌≡◌, ◌+◌, ◌≤◌, length};
ghost use Rattle.fields.specs.Page.{Wrote};
ghost use Rattle.reportlines.specs.Reportlines.{write_line, stuck_line, refused_line};

use fields::{Page, decimal_length};
use packets::trace::Write;

// The lengths of the lines that have one length.
pub const WRITE: usize = 27;

pub const STUCK: usize = 15;

// One write: register, word, place.
#[tactic(auto, using(fields::proofs::Laws::length_hexadecimal))]
pub fn put_write(page: &mut Page<'_>, write: Write)
    requires { page.old.at + 27 ≤ length page.old.out.now }
    ensures { Wrote page.old page.new (write_line write) }
{
    page.put(b"WRITE ");
    page.put_hexadecimal(2, write.register as usize);
    page.put(b" ");
    page.put_hexadecimal(8, write.word as usize);
    page.put(b" ");
    page.put_hexadecimal(8, write.place);
    page.put(b"\n");
}

// Where a chip is stuck.
#[tactic(auto, using(fields::proofs::Laws::length_hexadecimal))]
pub fn put_stuck(page: &mut Page<'_>, place: usize)
    requires { page.old.at + 15 ≤ length page.old.out.now }
    ensures { Wrote page.old page.new (stuck_line place) }
{
    page.put(b"STUCK ");
    page.put_hexadecimal(8, place);
    page.put(b"\n");
}

// How long a refusal's line is.
#[tactic(auto, using(crate::proofs::LineLaws::length_refused))]
pub fn refused_length(number: u32, place: usize) -> usize
    ensures { result ≡ length (refused_line number place) }
{
    10 + decimal_length(number as usize) + decimal_length(place)
}

// A refusal: number and place.
// Stays: refusal_answer holds it: every number is reported, also one that is no reason's.
#[tactic(auto, using(crate::proofs::LineLaws::length_refused))]
pub fn put_refused(page: &mut Page<'_>, number: u32, place: usize)
    requires { page.old.at + length (refused_line number place) ≤ length page.old.out.now }
    ensures { Wrote page.old page.new (refused_line number place) }
{
    page.put(b"REFUSED ");
    page.put_decimal(number as usize);
    page.put(b" ");
    page.put_decimal(place);
    page.put(b"\n");
}
