// One line of the text: its characters, its sum, its record.
ghost use Rattle.std.specs.Prelude.{◌≡◌, ◌+◌, ◌*◌, ◌<◌, ◌≤◌, eqb, leb, length, MatchOption};
ghost use Rattle.base.specs.Question.{ask};
ghost use Rattle.digits.specs.Pairs.{pair_at, two_pairs_at, pairs_at};
ghost use Rattle.mcsline.specs.Line.{typed, parsed};
ghost use Rattle.mcsline.specs.Place.{ending_at, line_at, ShapeIs, as_line, Sound};
ghost use Rattle.mcsline.specs.Types.{BadRecord, DataLine, ExtendedLinearAddressLine, EndLine};

use base::refusal::Reason;
use digits::table::Digits;

pub const LF: u8 = 0x0A;

const CR: u8 = 0x0D;

pub const COLON: u8 = 0x3A;

// A line whose characters are in order: its count, what its pairs add to, and the place after it.
#[derive(Drop)]
pub(crate) struct Shape {
    count: usize,
    sum: u32,
    end: usize,
}

// A line's record and the place after it. (Its data bytes stay in the text.)
#[derive(Drop)]
pub enum Line {
    Data {
        address: u32,
        count: usize,
        end: usize,
    },
    ExtendedLinearAddress {
        half: u32,
        end: usize,
    },
    End {
        end: usize,
    },
}

// The length of the line end at `at`, LF or CR LF; none where no line ends there.
#[tactic(auto, unfolding(crate::specs::Place::ending_of))]
fn ending(text: &[u8], at: usize) -> Option<usize>
    requires { at < length text.now }
    ensures { MatchOption result (ending_at text.now at ≡ 0) (λ long. (long ≡ ending_at text.now at) × (1 ≤ long) × (long ≤ 2)) }
{
    match &text[at..] {
        [LF, ..] => Some(1),
        [CR, LF, ..] => Some(2),
        _ => None,
    }
}

// The characters of the line at `at`: a colon, as many pairs as its count says and five more, and a
// line end, so 12 characters at least.
// Stays: no plainer: a struct of table, text and a place within it would be made for each call of `parse` and taken apart in each function.
#[tactic(auto, using(crate::proofs::ShapeLaws::shapes))]
fn shape_of(digits: &Digits, text: &[u8], at: usize) -> Option<Shape>
    requires { at < length text.now }
    ensures { ShapeIs text.now at result }
{
    let rest = text.len() - at;
    if rest < 12 {
        return None;
    }
    if text[at] != COLON {
        return None;
    }
    let count = digits.pair(text, at + 1) as usize;
    if rest < 2 * count + 12 {
        return None;
    }
    let sum = digits.sum_pairs(text, at + 1, count + 5)?;
    let after = at + 2 * count + 11;
    let end = after + ending(text, after)?;
    Some(Shape { count, sum, end })
}

// A data record, of one byte or more.
#[tactic(auto, unfolding(base::specs::Question::ask))]
fn data_line(address: u32, count: usize, end: usize) -> Result<Line, Reason>
    ensures { result ≡ ask (leb 1 count) (Err BadRecord) (Ok (DataLine address count end)) }
{
    if count == 0 {
        return Err(Reason::BadRecord);
    }
    Ok(Line::Data {
        address,
        count,
        end,
    })
}

// The end record: no bytes, and the address 0000.
#[tactic(auto, unfolding(base::specs::Question::ask))]
fn end_line(address: u32, count: usize, end: usize) -> Result<Line, Reason>
    ensures { result ≡ ask (eqb count 0) (Err BadRecord) (ask (eqb address 0) (Err BadRecord) (Ok (EndLine end))) }
{
    if count != 0 {
        return Err(Reason::BadRecord);
    }
    if address != 0 {
        return Err(Reason::BadRecord);
    }
    Ok(Line::End { end })
}

// An extended linear address record: the two bytes of an upper half, and the address 0000.
#[tactic(auto, unfolding(base::specs::Question::ask))]
fn extended_address_line(
    digits: &Digits,
    text: &[u8],
    at: usize,
    address: u32,
    count: usize,
    end: usize,
) -> Result<Line, Reason>
    requires { at + 2 * count + 11 ≤ length text.now }
    ensures { result ≡ ask (eqb count 2) (Err BadRecord) (ask (eqb address 0) (Err BadRecord) (Ok (ExtendedLinearAddressLine (two_pairs_at text.now (at + 9)) end))) }
{
    if count != 2 {
        return Err(Reason::BadRecord);
    }
    if address != 0 {
        return Err(Reason::BadRecord);
    }
    let half = digits.two_pairs(text, at + 9);
    Ok(Line::ExtendedLinearAddress { half, end })
}

// The record of a line whose characters are in order.
// Stays: typed (mcsline) holds it: a record's type is a byte of its text, and every other byte is refused.
#[tactic(auto, using(crate::proofs::TypeLaws::typings))]
fn typed_line(
    digits: &Digits,
    text: &[u8],
    at: usize,
    count: usize,
    end: usize,
) -> Result<Line, Reason>
    requires { (at + 2 * count + 11 ≤ length text.now) × (count ≡ pair_at text.now (at + 1)) }
    ensures { result ≡ as_line (typed (pairs_at text.now (at + 1) (count + 5))) end }
{
    let address = digits.two_pairs(text, at + 3);
    match digits.pair(text, at + 7) {
        0x00 => data_line(address, count, end),
        0x01 => end_line(address, count, end),
        0x04 => extended_address_line(digits, text, at, address, count, end),
        _ => Err(Reason::BadRecord),
    }
}

// The line at `at`: questions 14, 15 and 16.
#[tactic(auto, using(crate::proofs::ShapeLaws::shaped_lines))]
pub fn parse(digits: &Digits, text: &[u8], at: usize) -> Result<Line, Reason>
    requires { at < length text.now }
    ensures { result ≡ as_line (parsed (line_at text.now at)) (at + length (line_at text.now at)) }
{
    let shape = shape_of(digits, text, at).ok_or(Reason::BadLine)?;
    if shape.sum % 256 != 0 {
        return Err(Reason::BadSum);
    }
    typed_line(digits, text, at, shape.count, shape.end)
}

// The same of a line that is known to pass them: nothing is tested again.
// Stays: no plainer: one function for both would take a flag, and its callers a refusal that cannot be.
#[tactic(auto, using(crate::proofs::ShapeLaws::sound_lines))]
pub fn parse_sound(digits: &Digits, text: &[u8], at: usize) -> Line
    requires { (at < length text.now) × Sound (line_at text.now at) }
    ensures { Ok result ≡ as_line (parsed (line_at text.now at)) (at + length (line_at text.now at)) }
{
    let count = digits.pair(text, at + 1) as usize;
    let after = at + 2 * count + 11;
    let end = after + ending(text, after).unwrap();
    typed_line(digits, text, at, count, end).unwrap()
}
