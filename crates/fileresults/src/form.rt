// What a file with an image is, as numbers.
ghost use Rattle.std.specs.Prelude.{◌≡◌};
ghost use Rattle.fileresults.specs.Form.{form_result};

use base::refusal::Refusal;
use imagefile::FileForm;

// The forms' numbers at the C interface.
// Stays: the C interface names a form by a number.
const TEXT: u32 = 1;

const BIT: u32 = 2;

const BINARY: u32 = 3;

// A refusal's number and place; or 0, 0, the form, and of a BIT file the image's first byte and its length.
// Stays: the C interface gets an answer as a struct of numbers, with a refusal's number and place in front.
#[repr(C)]
#[derive(Default, Drop)]
pub struct TealsettleForm {
    pub number: u32,
    pub place: usize,
    pub form: u32,
    pub first: usize,
    pub length: usize,
}

impl From<Result<FileForm, Refusal>> for TealsettleForm {
    ghost from_gives = { λ answer given. given ≡ form_result answer };

    #[tactic(auto, unfolding(crate::specs::Form::form_result, base::specs::Answer::in_numbers))]
    fn from(answer: Result<FileForm, Refusal>) -> TealsettleForm {
        match answer {
            Ok(FileForm::Text) => TealsettleForm {
                form: TEXT,
                ..TealsettleForm::default()
            },
            Ok(FileForm::Bit { first, length }) => TealsettleForm {
                form: BIT,
                first,
                length,
                ..TealsettleForm::default()
            },
            Ok(FileForm::Binary) => TealsettleForm {
                form: BINARY,
                ..TealsettleForm::default()
            },
            Err(refusal) => TealsettleForm {
                number: refusal.reason.number(),
                place: refusal.place,
                ..TealsettleForm::default()
            },
        }
    }
}
