// The parts of a line: decimal numbers, and bytes in hexadecimal. Each part is read off the front of what is left of the
// line, and what is left after it is handed back.
ghost use Rattle.std.specs.Prelude.{◌<◌, ◌≤◌, length, IfSome};

// How many numbers a line has, and the last eight of them; those that it has not are 0.
// Stays: fixed memory: no line's numbers are kept in a Vec.
#[derive(Clone, Copy)]
pub struct Numbers {
    pub count: usize,
    pub last: [usize; 8],
}

// A byte, and how often it stands.
#[derive(Clone, Copy)]
struct Item {
    byte: u8,
    count: usize,
}

// How many fields a line has; where the last of them begins and ends, and where the one before it begins;
// and whether a quote is open.
#[derive(Clone, Copy)]
pub struct Fields {
    pub count: usize,
    pub second: usize,
    pub third: usize,
    pub end: usize,
    pub quoted: bool,
}

impl Numbers {
    // No numbers.
    fn none() -> Numbers {
        Numbers {
            count: 0,
            last: [0; 8],
        }
    }

    // One number more, as the last.
    fn with(self, value: usize) -> Numbers {
        let [_, b, c, d, e, f, g, h] = self.last;
        Numbers {
            count: self.count.saturating_add(1),
            last: [b, c, d, e, f, g, h, value],
        }
    }
}

// The value of a hexadecimal digit, where a character is one.
// Stays: no plainer: a char's `to_digit` takes small letters too, and a line is bytes, no text to `parse`.
fn digit(c: u8) -> Option<u8>
    ensures { IfSome result (λ d. d ≤ 15) }
{
    match c {
        b'0'..=b'9' => Some(c - 48),
        b'A'..=b'F' => Some(c - 55),
        _ => None,
    }
}

// The number that a text begins with, up to what is no decimal digit, and what comes after it and the space behind it. A
// larger one than there is room for is none.
fn read_number(text: &[u8]) -> Option<(usize, &[u8])>
    ensures { IfSome result (λ r. length r.1.now < length text.now) }
{
    let digits = text
        .iter()
        .position(|c| !c.is_ascii_digit())
        .unwrap_or(text.len());
    if digits == 0 {
        return None;
    }
    let mut value = 0usize;
    for c in &text[..digits] {
        value = value.checked_mul(10)?.checked_add(usize::from(*c & 0x0F))?;
    }
    let after = &text[digits..];
    Some((value, after.strip_prefix(b" ").unwrap_or(after)))
}

// The numbers of a text, where there is nothing else in it.
pub fn read_numbers(text: &[u8]) -> Option<Numbers> {
    let mut all = Numbers::none();
    let mut rest = text;
    while !rest.is_empty() {
        let (value, after) = read_number(rest)?;
        all = all.with(value);
        rest = after;
    }
    Some(all)
}

// A character in quotes, where `|` stands for a line feed; the quote at their end is no byte.
fn read_quoted(c: u8) -> Item {
    match c {
        b'"' => Item { byte: c, count: 0 },
        b'|' => Item {
            byte: b'\n',
            count: 1,
        },
        _ => Item { byte: c, count: 1 },
    }
}

// A byte that a pair of digits spells, as often as a number after `*` says, and what comes after it.
fn read_pair(first: u8, others: &[u8]) -> Option<(Item, &[u8])>
    ensures { IfSome result (λ r. length r.1.now ≤ length others.now) }
{
    let (second, after) = others.split_first()?;
    let byte = digit(first)? * 16 + digit(*second)?;
    let Some(repeated) = after.strip_prefix(b"*") else {
        return Some((Item { byte, count: 1 }, after));
    };
    let (count, after) = read_number(repeated)?;
    Some((Item { byte, count }, after))
}

// What a text begins with, its first character and the others, and what comes after it. Outside of quotes a space, a slash
// and a quote are no byte.
fn read_item(first: u8, others: &[u8], quoted: bool) -> Option<(Item, &[u8])>
    ensures { IfSome result (λ r. length r.1.now ≤ length others.now) }
{
    if quoted {
        return Some((read_quoted(first), others));
    }
    match first {
        b' ' | b'/' | b'"' => Some((
            Item {
                byte: first,
                count: 0,
            },
            others,
        )),
        _ => read_pair(first, others),
    }
}

impl Fields {
    // The fields after one character more, with the place that the next byte gets.
    fn after(self, c: u8, end: usize) -> Fields {
        if c == b'/' && !self.quoted {
            return Fields {
                count: self.count.saturating_add(1),
                second: self.third,
                third: end,
                end,
                quoted: false,
            };
        }
        Fields {
            end,
            quoted: self.quoted != (c == b'"'),
            ..self
        }
    }
}

// Puts a byte as often as it stands into a buffer, from `at` on: the place after it, where it fits.
fn fill(buffer: &mut [u8], at: usize, item: Item) -> Option<usize> {
    let end = at.checked_add(item.count)?;
    buffer.get_mut(at..end)?.fill(item.byte);
    Some(end)
}

// Puts the bytes that a text spells to the front of a buffer, where they are bytes, and fit.
pub fn put_fields(text: &[u8], buffer: &mut [u8]) -> Option<Fields> {
    let mut fields = Fields {
        count: 0,
        second: 0,
        third: 0,
        end: 0,
        quoted: false,
    };
    let mut rest = text;
    while let Some((first, others)) = rest.split_first() {
        let (item, after) = read_item(*first, others, fields.quoted)?;
        let end = fill(buffer, fields.end, item)?;
        fields = fields.after(*first, end);
        rest = after;
    }
    Some(fields)
}
