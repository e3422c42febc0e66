// The writes of a chip or an image, one after the other. The cursor goes in and comes back as numbers.
ghost use Rattle.std.specs.Prelude.{◌≡◌};
ghost use Rattle.fileresults.specs.List.{given_cursor};
ghost use Rattle.hostfiles.specs.List.{listing_call, image_listing_call, next_call};

use base::refusal::{Reason, ask};
use bootreader::{boot, image};
use fileresults::list::{TealsettleListing, TealsettleStep};
use kind::spi::Spi;
use writes::cursor::Cursor;

// Stays: the C interface names a kind of chip by a number, and hands a cursor in as four.

// A cursor before the first write of what a chip loads.
#[unsafe(no_mangle)]
#[tactic(auto, unfolding(base::specs::Question::ask))]
pub extern "C" fn tealsettle_writes(kind: u32, chip: &[u8]) -> TealsettleListing
    ensures { result ≡ listing_call kind chip.now }
{
    ask(Spi::has_number(kind), Reason::BadChipLength)
        .and_then(|()| boot::writes(chip))
        .into()
}

// A cursor before the first write of an image read by itself.
#[unsafe(no_mangle)]
#[tactic(auto, unfolding(base::specs::Question::ask))]
pub extern "C" fn tealsettle_image_writes(kind: u32, image: &[u8]) -> TealsettleListing
    ensures { result ≡ image_listing_call kind image.now }
{
    ask(Spi::has_number(kind), Reason::BadChipLength)
        .and_then(|()| image::writes(image))
        .into()
}

// A cursor's next write, and the cursor after it. The bytes are those that it was opened on.
#[unsafe(no_mangle)]
#[tactic(auto, unfolding(base::specs::Question::ask))]
pub extern "C" fn tealsettle_next_write(
    kind: u32,
    at: usize,
    register_number: u32,
    left: usize,
    remaining: usize,
    bytes: &[u8],
) -> TealsettleStep
    ensures { result ≡ next_call kind (given_cursor at register_number left remaining) bytes.now }
{
    let cursor = Cursor {
        at,
        register: register_number,
        left,
        remaining,
    };
    ask(Spi::has_number(kind), Reason::BadChipLength)
        .map(|()| cursor.step(bytes))
        .into()
}
