// Image files, lists of writes and reports: crate `hostfiles`.
ghost use Rattle.fileresults.specs.Form.{form_result};
ghost use Rattle.fileresults.specs.List.{given_cursor};
ghost use Rattle.heaviest.specs.Heaviest.{heaviest_answer, heaviest_output};
ghost use Rattle.hostfiles.specs.List.{image_listing_call, listing_call, next_call};
ghost use Rattle.hostfiles.specs.Place.{place_call};
ghost use Rattle.hostfiles.specs.Reporting.{report_call, report_call_output};
ghost use Rattle.hostfiles.specs.Switch.{switch_call};
ghost use Rattle.imagefile.specs.Imagefile.{form_answer};
ghost use Rattle.results.specs.Most.{most_result};
ghost use Rattle.std.specs.Prelude.{length, ◌≡◌};

use fileresults::form::TealsettleForm;
use fileresults::list::{TealsettleListing, TealsettleStep};
use fileresults::place::TealsettlePlace;
use fileresults::reporting::TealsettleReport;
use fileresults::switch::TealsettleSwitch;
use results::most::TealsettleMost;

// The form of an image file, told by its bytes.
#[unsafe(no_mangle)]
pub extern "C" fn tealsettle_file_form(file: &[u8]) -> TealsettleForm
    ensures { result ≡ form_result (form_answer file.now) }
{
    hostfiles::form::tealsettle_file_form(file)
}

// A cursor before the first write of what a chip loads.
#[unsafe(no_mangle)]
pub extern "C" fn tealsettle_writes(kind: u32, chip: &[u8]) -> TealsettleListing
    ensures { result ≡ listing_call kind chip.now }
{
    hostfiles::list::tealsettle_writes(kind, chip)
}

// A cursor before the first write of an image read by itself.
#[unsafe(no_mangle)]
pub extern "C" fn tealsettle_image_writes(kind: u32, image: &[u8]) -> TealsettleListing
    ensures { result ≡ image_listing_call kind image.now }
{
    hostfiles::list::tealsettle_image_writes(kind, image)
}

// A cursor's next write, and the cursor after it. The bytes are those that it was opened on.
#[unsafe(no_mangle)]
pub extern "C" fn tealsettle_next_write(
    kind: u32,
    at: usize,
    register_number: u32,
    left: usize,
    remaining: usize,
    bytes: &[u8],
) -> TealsettleStep
    ensures { result ≡ next_call kind (given_cursor at register_number left remaining) bytes.now }
{
    hostfiles::list::tealsettle_next_write(kind, at, register_number, left, remaining, bytes)
}

// An image of `n` bytes with as many writes as an accepted one can have, at the front of a buffer. A refusal leaves the
// buffer as it was.
#[unsafe(no_mangle)]
pub extern "C" fn tealsettle_heaviest_image(n: usize, out: &mut [u8]) -> TealsettleMost
    ensures answer { result ≡ most_result (heaviest_answer n (length out.old)) }
    ensures output { out.new ≡ heaviest_output n out.old }
{
    hostfiles::most::tealsettle_heaviest_image(n, out)
}

// The update place that segment 1 of a chip names.
#[unsafe(no_mangle)]
pub extern "C" fn tealsettle_update_place(kind: u32, chip: &[u8]) -> TealsettlePlace
    ensures { result ≡ place_call kind chip.now }
{
    hostfiles::place::tealsettle_update_place(kind, chip)
}

// The boot report of a chip at the front of a buffer. A refusal leaves the buffer as it was.
#[unsafe(no_mangle)]
pub extern "C" fn tealsettle_report(kind: u32, chip: &[u8], out: &mut [u8]) -> TealsettleReport
    ensures answer { result ≡ report_call kind chip.now out.old }
    ensures output { out.new ≡ report_call_output kind chip.now out.old }
{
    hostfiles::reporting::tealsettle_report(kind, chip, out)
}

// The switch of a chip.
#[unsafe(no_mangle)]
pub extern "C" fn tealsettle_switch(kind: u32, chip: &[u8]) -> TealsettleSwitch
    ensures { result ≡ switch_call kind chip.now }
{
    hostfiles::switch::tealsettle_switch(kind, chip)
}
