// What a file with an image is.
ghost use Rattle.std.specs.Prelude.{◌≡◌};
ghost use Rattle.imagefile.specs.Imagefile.{form_answer};
ghost use Rattle.fileresults.specs.Form.{form_result};

use fileresults::form::TealsettleForm;
use imagefile::form;

// The form of an image file, told by its bytes.
#[unsafe(no_mangle)]
pub extern "C" fn tealsettle_file_form(file: &[u8]) -> TealsettleForm
    ensures { result ≡ form_result (form_answer file.now) }
{
    form(file).into()
}
