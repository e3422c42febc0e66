// The lines of a part of an image, and the end record's.
ghost use Rattle.std.specs.Prelude.{◌≡◌, ◌+◌, ◌<◌, ◌≤◌, length};
ghost use Rattle.std.proofs.Math.Seq.{paste};
ghost use Rattle.mcsline.specs.Record.{record_text};
ghost use Rattle.mcs.specs.Text.{file_text};
ghost use Rattle.canonical.specs.Canonical.{upper_lines, part_text, end_line};

use crate::record::put_record;
use canonical::{PER_RECORD, SEGMENT};

// Where `place` in the image is a multiple of 65,536, its upper half's line at `at`; the place after it.
fn put_upper(out: &mut [u8], at: usize, place: usize) -> usize
    requires { (place < 4294967296) × (at + length (file_text (upper_lines place)) ≤ length out.old) }
    ensures place { result ≡ at + length (file_text (upper_lines place)) }
    ensures output { out.new ≡ paste out.old at (file_text (upper_lines place)) (length (file_text (upper_lines place))) }
{
    if place % SEGMENT != 0 {
        return at;
    }
    let half = (place / SEGMENT) as u16;
    put_record(out, at, 0x04, 0, &half.to_be_bytes())
}

// The lines of a part that begins at `start` in the image, a multiple of 16, at `to`; the place after them.
pub fn put_part(part: &[u8], start: usize, out: &mut [u8], to: usize) -> usize
    requires { (start + length part.now ≤ 4294967296) × (to + length (part_text start part.now) ≤ length out.old) }
    ensures place { result ≡ to + length (part_text start part.now) }
    ensures output { out.new ≡ paste out.old to (part_text start part.now) (length (part_text start part.now)) }
{
    // Stays: slower: over part.chunks 18.6 ms, and by places in the part 17.3, where the loop as it stands takes 15.7 (measured: the text of 16 MiB, by a copy of the writer with short contracts).
    let mut done = 0;
    let mut at = to;
    while done < part.len() {
        let count = PER_RECORD.min(part.len() - done);
        let place = start + done;
        at = put_upper(out, at, place);
        at = put_record(
            out,
            at,
            0x00,
            (place % SEGMENT) as u16,
            &part[done..done + count],
        );
        done += count;
    }
    at
}

// The end record's line at `at`; the place after it.
pub fn put_end(out: &mut [u8], at: usize) -> usize
    requires { at + 12 ≤ length out.old }
    ensures place { result ≡ at + 12 }
    ensures output { out.new ≡ paste out.old at (record_text end_line) 12 }
{
    put_record(out, at, 0x01, 0, &[])
}
