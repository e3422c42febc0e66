// What writing a report came to, as numbers.
ghost use Rattle.std.specs.Prelude.{◌≡◌};
ghost use Rattle.fileresults.specs.Reporting.{report_result};

use base::refusal::Refusal;

// A refusal's number and place, or 0, 0 and how many bytes the report has.
// Stays: the C interface gets an answer as a struct of numbers, with a refusal's number and place in front, and each struct calls its
// own number what it is: so those of one shape are no generic type.
#[repr(C)]
#[derive(Default, Drop)]
pub struct TealsettleReport {
    pub number: u32,
    pub place: usize,
    pub length: usize,
}

impl From<Result<usize, Refusal>> for TealsettleReport {
    ghost from_gives = { λ answer given. given ≡ report_result answer };

    #[tactic(auto, unfolding(crate::specs::Reporting::report_result, base::specs::Answer::in_numbers))]
    fn from(answer: Result<usize, Refusal>) -> TealsettleReport {
        match answer {
            Ok(length) => TealsettleReport {
                length,
                ..TealsettleReport::default()
            },
            Err(refusal) => TealsettleReport {
                number: refusal.reason.number(),
                place: refusal.place,
                ..TealsettleReport::default()
            },
        }
    }
}
