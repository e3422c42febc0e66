// Reading a program's input into fixed memory.
#![tactic(auto)]

ghost use Rattle.std.specs.Prelude.{◌≤◌, length};

use std::io::Read;

// Reads into a buffer until it is full or the reader is at its end: how many bytes. A read that fails counts as the
// end.
pub fn read_full(from: &mut impl Read, buffer: &mut [u8]) -> usize
    ensures { result ≤ length buffer.new }
{
    let mut size = 0;
    // Stays: no plainer: each read says how far on the next place is, so there is no range to go over.
    while size < buffer.len() {
        let more = from.read(&mut buffer[size..]).unwrap_or(0);
        if more == 0 {
            break;
        }
        size += more;
    }
    size
}
