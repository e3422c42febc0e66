// What a chip loads, and an image by itself.
ghost use Rattle.std.specs.Prelude.{◌≡◌};
ghost use Rattle.host.specs.Boot.{boot_call, write_call, image_call};

use base::refusal::{Reason, ask};
use bootreader::{boot, image};
use kind::spi::Spi;
use results::boot::{TealsettleBoot, TealsettleImage, TealsettleWrite};

// Stays: the C interface names a kind of chip by a number.

// What a chip loads, or where it is stuck.
#[unsafe(no_mangle)]
#[tactic(auto, unfolding(base::specs::Question::ask))]
pub extern "C" fn tealsettle_boot(kind: u32, chip: &[u8]) -> TealsettleBoot
    ensures { result ≡ boot_call kind chip.now }
{
    ask(Spi::has_number(kind), Reason::BadChipLength)
        .and_then(|()| boot::answer(chip))
        .into()
}

// The i-th write, counted from 0, of what a chip loads.
#[unsafe(no_mangle)]
#[tactic(auto, unfolding(base::specs::Question::ask))]
pub extern "C" fn tealsettle_write(kind: u32, chip: &[u8], i: usize) -> TealsettleWrite
    ensures { result ≡ write_call kind chip.now i }
{
    ask(Spi::has_number(kind), Reason::BadChipLength)
        .and_then(|()| boot::write(chip, i))
        .into()
}

// What an image loads by itself.
#[unsafe(no_mangle)]
#[tactic(auto, unfolding(base::specs::Question::ask))]
pub extern "C" fn tealsettle_image_check(kind: u32, image: &[u8]) -> TealsettleImage
    ensures { result ≡ image_call kind image.now }
{
    ask(Spi::has_number(kind), Reason::BadChipLength)
        .and_then(|()| image::check(image))
        .into()
}
