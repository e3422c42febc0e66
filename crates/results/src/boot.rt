// What a chip loads, and an image by itself, as numbers.
ghost use Rattle.std.specs.Prelude.{◌≡◌};
ghost use Rattle.results.specs.Boot.{boot_result, write_result, image_result};

use base::refusal::Refusal;
use bootreader::boot::Boot;
use bootreader::image::Accepted;
use packets::trace::Write;

// Stays: the C interface gets each answer as a struct of numbers, with a refusal's number and place in front.

// A refusal's number and place; or 0, and whether the chip is stuck and at which place, else what it
// loads.
#[repr(C)]
#[derive(Default, Drop)]
pub struct TealsettleBoot {
    pub number: u32,
    pub place: usize,
    pub stuck: u32,
    pub jumped: u32,
    pub sync: usize,
    pub end: usize,
    pub writes: usize,
}

// A refusal's number and place; or 0, and whether there is such a write, and which.
#[repr(C)]
#[derive(Default, Drop)]
pub struct TealsettleWrite {
    pub number: u32,
    pub place: usize,
    pub found: u32,
    pub register_number: u32,
    pub word: u32,
    pub word_place: usize,
}

// A refusal's number and place; or 0, 0 and what the image loads.
#[repr(C)]
#[derive(Default, Drop)]
pub struct TealsettleImage {
    pub number: u32,
    pub place: usize,
    pub sync: usize,
    pub end: usize,
    pub writes: usize,
}

impl From<Result<Boot, Refusal>> for TealsettleBoot {
    ghost from_gives = { λ answer given. given ≡ boot_result answer };

    #[tactic(auto, unfolding(crate::specs::Boot::boot_result, bootreader::specs::Boot::boot_numbers))]
    fn from(answer: Result<Boot, Refusal>) -> TealsettleBoot {
        match answer {
            Ok(
                Boot::Loaded {
                    sync,
                    end,
                    writes,
                    jumped,
                },
            ) => TealsettleBoot {
                jumped: u32::from(jumped),
                sync,
                end,
                writes,
                ..TealsettleBoot::default()
            },
            Ok(Boot::Stuck { place }) => TealsettleBoot {
                place,
                stuck: 1,
                ..TealsettleBoot::default()
            },
            Err(refusal) => TealsettleBoot {
                number: refusal.reason.number(),
                place: refusal.place,
                ..TealsettleBoot::default()
            },
        }
    }
}

impl From<Result<Option<Write>, Refusal>> for TealsettleWrite {
    ghost from_gives = { λ answer given. given ≡ write_result answer };

    #[tactic(auto, unfolding(crate::specs::Boot::write_result, packets::specs::Trace::write_values, base::specs::Answer::in_numbers))]
    fn from(answer: Result<Option<Write>, Refusal>) -> TealsettleWrite {
        match answer {
            Ok(Some(write)) => TealsettleWrite {
                found: 1,
                register_number: write.register,
                word: write.word,
                word_place: write.place,
                ..TealsettleWrite::default()
            },
            Ok(None) => TealsettleWrite::default(),
            Err(refusal) => TealsettleWrite {
                number: refusal.reason.number(),
                place: refusal.place,
                ..TealsettleWrite::default()
            },
        }
    }
}

impl From<Result<Accepted, Refusal>> for TealsettleImage {
    ghost from_gives = { λ answer given. given ≡ image_result answer };

    #[tactic(auto, unfolding(crate::specs::Boot::image_result, base::specs::Answer::in_numbers))]
    fn from(answer: Result<Accepted, Refusal>) -> TealsettleImage {
        match answer {
            Ok(Accepted { sync, end, writes }) => TealsettleImage {
                sync,
                end,
                writes,
                ..TealsettleImage::default()
            },
            Err(refusal) => TealsettleImage {
                number: refusal.reason.number(),
                place: refusal.place,
                ..TealsettleImage::default()
            },
        }
    }
}
