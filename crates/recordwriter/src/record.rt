// One record's line: a colon, its pairs, the sum, LF.
ghost use Rattle.std.specs.Prelude.{◌≡◌, ◌+◌, ◌*◌, ◌<◌, ◌≤◌, ◌∷◌, length};
ghost use Rattle.std.proofs.Math.Seq.{paste};
ghost use Rattle.digits.specs.Digit.{hex};
ghost use Rattle.mcsline.specs.Record.{COLON as colon, header, body, checksum};
ghost use Rattle.recordwriter.specs.Record.{line_of};

use mcsline::line::{COLON, LF};
use pairwriter::{byte_sum, put_pair, put_pairs};

// The colon and the pairs before the data, at `at`: 9 characters.
fn put_header(out: &mut [u8], at: usize, kind: u8, address: u16, count: usize)
    requires { (at + 9 ≤ length out.old) × (count ≤ 255) }
    ensures { out.new ≡ paste out.old at (colon ∷ hex (header kind address count)) 9 }
{
    let [high, low] = address.to_be_bytes();
    out[at] = COLON;
    put_pair(out, at + 1, count as u8);
    put_pair(out, at + 3, high);
    put_pair(out, at + 5, low);
    put_pair(out, at + 7, kind);
}

// The sum of a record: what its pairs lack of a multiple of 256.
fn sum_of(kind: u8, address: u16, bytes: &[u8]) -> u8
    requires { length bytes.now ≤ 255 }
    ensures { result ≡ checksum (body kind address bytes.now) }
{
    let [high, low] = address.to_be_bytes();
    let header = bytes.len() as u32 + u32::from(high) + u32::from(low) + u32::from(kind);
    let total = header + byte_sum(bytes);
    ((256 - total % 256) % 256) as u8
}

// The line of a record with these bytes, at `at`; the place after it.
// Stays: line_of (recordwriter) holds it: a record's type is a number of its text, and any byte has such a line.
// Stays: no plainer: that a record has no more than 255 bytes is asked of one slice on its way; a type for it would be made at each record and taken apart at once.
// Stays: slower: with the page of `fields` in place of `out` and `at`, here and in `pairwriter`, 16.7 ms where they as they stand take 15.7 (measured: the text of 16 MiB).
pub fn put_record(out: &mut [u8], at: usize, kind: u8, address: u16, bytes: &[u8]) -> usize
    requires { (length bytes.now ≤ 255) × (at + (2 * length bytes.now + 12) ≤ length out.old) }
    ensures place { result ≡ at + (2 * length bytes.now + 12) }
    ensures output { out.new ≡ paste out.old at (line_of kind address bytes.now) (2 * length bytes.now + 12) }
{
    put_header(out, at, kind, address, bytes.len());
    put_pairs(bytes, out, at + 9);
    let after = at + 9 + 2 * bytes.len();
    put_pair(out, after, sum_of(kind, address, bytes));
    out[after + 2] = LF;
    after + 3
}
