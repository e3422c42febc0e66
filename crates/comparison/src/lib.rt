// Bytes that were read, compared with those expected there: some, and then FF. For the crates above it
// alone: its functions ask their caller for no more bytes than a page has.
#![tactic(auto)]

ghost use Rattle.std.specs.Prelude.{◌≤◌, ◌≡◌, true, length};
ghost use Rattle.kind.specs.Layout.{page, longest_chip};
ghost use Rattle.flash.specs.Flash.{erased};
ghost use Rattle.comparison.specs.Comparison.{padded, differs};

use base::copy;

// Bytes, then FF to the end of a page.
pub fn padded_page(bytes: &[u8]) -> [u8; 256]
    requires { length bytes.now ≤ page }
    ensures { result ≡ padded page bytes.now }
{
    let mut filling = [0xFF; 256];
    copy(bytes, &mut filling);
    filling
}

// Whether bytes are the same as others, as many. It never leaves early, so that the compiler compares
// many at a time.
fn same(bytes: &[u8], others: &[u8]) -> bool
    requires { length bytes.now ≡ length others.now }
    ensures { result ≡ true → bytes.now ≡ others.now }
{
    let mut all = true;
    for (byte, other) in bytes.iter().zip(others) {
        if byte != other {
            all = false;
        }
    }
    all
}

// Whether bytes are all FF. It never leaves early either.
fn all_erased(bytes: &[u8]) -> bool
    ensures { result ≡ true → bytes.now ≡ erased (length bytes.now) }
{
    let mut all = true;
    for byte in bytes {
        if *byte != 0xFF {
            all = false;
        }
    }
    all
}

// Whether bytes are those expected there: `expected`, then FF.
fn agree(bytes: &[u8], expected: &[u8]) -> bool
    requires { length expected.now ≤ length bytes.now }
    ensures { result ≡ true → bytes.now ≡ padded (length bytes.now) expected.now }
{
    let count = expected.len();
    same(&bytes[0..count], expected) && all_erased(&bytes[count..])
}

// The first address, from a place on, at which bytes are not those expected there.
#[tactic(auto, using(crate::proofs::ComparisonLaws::differs_next, crate::proofs::ComparisonLaws::differs_here, crate::proofs::ComparisonLaws::differs_end))]
fn first_difference(place: usize, bytes: &[u8], expected: &[u8]) -> Option<usize>
    requires { (place ≤ longest_chip) × (length expected.now ≤ length bytes.now) × (length bytes.now ≤ page) }
    ensures { result ≡ differs place bytes.now (padded (length bytes.now) expected.now) }
{
    for (i, byte) in bytes.iter().enumerate() {
        if *byte != expected.get(i).copied().unwrap_or(0xFF) {
            return Some(place + i);
        }
    }
    None
}

// Compares bytes from a place on with those expected there: `expected`, then FF. The first address at which they
// differ, or none. Nearly every look agrees, so the slower search for an address waits until one does not.
// Stays: no plainer: that bytes are no more than a page has, expected ones no more than those, and a place one of a chip, is asked
// of one look's bytes on their way through orders::compare_look, this and `first_difference`; a struct of the three would be
// made for `compare` alone.
#[tactic(auto, using(crate::proofs::ComparisonLaws::differs_none))]
pub fn compare(place: usize, bytes: &[u8], expected: &[u8]) -> Option<usize>
    requires { (place ≤ longest_chip) × (length expected.now ≤ length bytes.now) × (length bytes.now ≤ page) }
    ensures { result ≡ differs place bytes.now (padded (length bytes.now) expected.now) }
{
    if agree(bytes, expected) {
        return None;
    }
    first_difference(place, bytes, expected)
}
