// Whether a text is in the canonical form, in one pass over its lines.
#![tactic(auto)]

ghost use Rattle.std.specs.Prelude.{◌≡◌};
ghost use Rattle.canonical.specs.Pass.{data_fits, upper_fits, end_fits, text_passes};
ghost use Rattle.canonical.specs.Test.{is_canonical};

use canonical::{AROUND, PER_RECORD, SEGMENT};
use digits::table::Digits;
use kind::layout::image_length_allowed;
use kind::spi::Spi;
use mcsline::line::{Line, parse};

// Is this the data record that comes next? `next` data bytes came before it, and `upper` says whether the line before is of
// type 04. The line is `long` characters long.
#[tactic(auto, unfolding(canonical::specs::Pass::data_fits, base::specs::Question::ask))]
fn data_fits(upper: bool, next: usize, address: u32, count: usize, long: usize) -> bool
    ensures { result ≡ data_fits upper next address count long }
{
    if next % PER_RECORD != 0 {
        return false;
    }
    if PER_RECORD < count {
        return false;
    }
    if long != 2 * count + AROUND {
        return false;
    }
    if address as usize != next % SEGMENT {
        return false;
    }
    if next % SEGMENT == 0 { upper } else { !upper }
}

// Is this a type 04 record that may come next? Whether it comes at a multiple of 65,536 is asked of the line after it.
#[tactic(auto, unfolding(canonical::specs::Pass::upper_fits, base::specs::Question::ask))]
fn upper_fits(upper: bool, next: usize, half: u32, long: usize) -> bool
    ensures { result ≡ upper_fits upper next half long }
{
    if upper {
        return false;
    }
    if half as usize != next / SEGMENT {
        return false;
    }
    long == AROUND + 4
}

// May the end record come next?
#[tactic(auto, unfolding(canonical::specs::Pass::end_fits, base::specs::Question::ask))]
fn end_fits(upper: bool, next: usize, long: usize) -> bool
    ensures { result ≡ end_fits upper next long }
{
    if upper {
        return false;
    }
    if long != AROUND {
        return false;
    }
    image_length_allowed(Spi::LONGEST, next)
}

// The pass, given the table of digits.
fn passes(digits: &Digits, text: &[u8]) -> bool
    ensures { result ≡ text_passes text.now }
{
    let mut at = 0;
    let mut next = 0;
    let mut upper = false;
    // Stays: no plainer: an iterator of lines would carry each line's place and its end beside it, and promise all that `parse` does.
    while at < text.len() {
        let Ok(line) = parse(digits, text, at) else {
            return false;
        };
        match line {
            Line::Data {
                address,
                count,
                end,
            } => {
                if !data_fits(upper, next, address, count, end - at) {
                    return false;
                }
                next += count;
                upper = false;
                at = end;
            }
            Line::ExtendedLinearAddress { half, end } => {
                if !upper_fits(upper, next, half, end - at) {
                    return false;
                }
                upper = true;
                at = end;
            }
            Line::End { end } => {
                return end == text.len() && end_fits(upper, next, end - at);
            }
        }
    }
    false
}

// Is this the canonical text of an image? It is asked of any bytes.
pub fn is_canonical(text: &[u8]) -> bool
    ensures { result ≡ is_canonical text.now }
{
    passes(&Digits::new(), text)
}
