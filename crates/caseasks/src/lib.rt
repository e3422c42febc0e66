// What a line asks: a call, with its numbers and with its bytes, if it has those that the call wants.
// For the program above it alone: no more is proved here than that its functions are safe and end.
#![tactic(auto)]

ghost use Rattle.std.specs.Prelude.{◌≤◌, length};

use caselines::call::Call;
use caselines::parse::{Fields, Numbers, put_fields, read_numbers};

// A call, its numbers (the last eight of the line; 0 for those that it has not), and its last field and what stands before
// that: the field before it, and all before that one.
#[derive(Clone, Copy)]
pub struct Case<'g> {
    pub call: Call,
    pub numbers: [usize; 8],
    pub first: &'g [u8],
    pub second: &'g [u8],
    pub third: &'g [u8],
}

// What a line is that begins with no call's word, or has not what its call wants.
#[derive(Clone, Copy)]
pub struct Wrong;

// How many numbers a call wants.
fn numbers_wanted(call: Call) -> usize {
    match call {
        Call::Write | Call::Item => 1,
        Call::Layout | Call::Build | Call::Start | Call::Cut => 3,
        Call::Total => 4,
        Call::Order | Call::Ended | Call::Progress => 7,
        Call::Reply => 8,
        _ => 0,
    }
}

// How many fields it wants.
fn fields_wanted(call: Call) -> usize {
    match call {
        Call::Layout | Call::Total | Call::Ended | Call::Progress => 0,
        Call::Build | Call::Reply | Call::Read => 2,
        Call::Cut => 3,
        _ => 1,
    }
}

// Whether a line has the numbers that its call wants. The kind of reply, the phase and the outcome have 32
// bits.
fn numbers_fit(call: Call, n: Numbers) -> bool {
    if n.count != numbers_wanted(call) {
        return false;
    }
    if n.count < 7 {
        return true;
    }
    let [said, _, _, _, _, phase, _, outcome] = n.last;
    (said | phase | outcome) < 4_294_967_296
}

// Whether it has the fields.
fn fields_fit(call: Call, fields: Fields) -> bool {
    fields.count == fields_wanted(call) && !fields.quoted
}

// The letters of a word that count: the last eight, and of those no zero bytes in front.
fn letters(word: &[u8]) -> &[u8] {
    let last = &word[word.len().saturating_sub(8)..];
    let zeros = last.iter().position(|b| *b != 0).unwrap_or(last.len());
    &last[zeros..]
}

// The case of a call's word, where the line has the numbers and the fields that it wants.
fn case_of<'g>(
    word: &[u8],
    numbers: Option<Numbers>,
    fields: Option<Fields>,
    given: &'g [u8],
) -> Option<Case<'g>> {
    let call = Call::try_from(word).ok()?;
    let numbers = numbers?;
    let fields = fields?;
    if !numbers_fit(call, numbers) || !fields_fit(call, fields) {
        return None;
    }
    Some(Case {
        call,
        numbers: numbers.last,
        first: given.get(..fields.second)?,
        second: given.get(fields.second..fields.third)?,
        third: given.get(fields.third..fields.end)?,
    })
}

// What a line asks; nothing, where it is empty or a comment. The bytes of its fields, which stand from a slash on, are put
// to the front of a buffer.
pub fn read_case<'g>(line: &[u8], given: &'g mut [u8]) -> Result<Option<Case<'g>>, Wrong> {
    let space = line.iter().position(|b| *b == b' ').unwrap_or(line.len());
    let slash = line.iter().position(|b| *b == b'/').unwrap_or(line.len());
    let word = letters(&line[..space]);
    if line.is_empty() || word == b"#".as_slice() {
        return Ok(None);
    }
    let between = if space < slash {
        &line[space + 1..slash]
    } else {
        &line[..0]
    };
    let fields = put_fields(&line[slash..], given);
    let case = case_of(word, read_numbers(between), fields, given).ok_or(Wrong)?;
    Ok(Some(case))
}

// Copies bytes to the front of a buffer, as many as fit: those.
pub fn copied<'o>(bytes: &[u8], out: &'o mut [u8]) -> &'o mut [u8]
    ensures { length result.now ≤ length out.old }
{
    let size = bytes.len().min(out.len());
    let front = &mut out[..size];
    front.copy_from_slice(&bytes[..size]);
    front
}
