// A cursor over the writes as numbers.
ghost use Rattle.std.specs.Prelude.{◌≡◌, [], ◌∷◌};
ghost use Rattle.fileresults.specs.List.{cursor_fields, listing_result, step_result};

use base::refusal::Refusal;
use writes::cursor::{Cursor, Step};

// Stays: the C interface gets each answer as a struct of numbers, with a refusal's number and place in front.

// A place among the writes of a chip or an image.
#[repr(C)]
#[derive(Default, Drop)]
pub struct TealsettleCursor {
    pub at: usize,
    pub register_number: u32,
    pub left: usize,
    pub remaining: usize,
}

// A refusal's number and place; or 0, 0 and the cursor before the first write.
#[repr(C)]
#[derive(Default, Drop)]
pub struct TealsettleListing {
    pub number: u32,
    pub place: usize,
    pub cursor: TealsettleCursor,
}

// A refusal's number and place; or 0, 0, and whether there is a next write, which, and the cursor after it.
#[repr(C)]
#[derive(Default, Drop)]
pub struct TealsettleStep {
    pub number: u32,
    pub place: usize,
    pub found: u32,
    pub register_number: u32,
    pub word: u32,
    pub word_place: usize,
    pub cursor: TealsettleCursor,
}

impl From<Cursor> for TealsettleCursor {
    ghost from_gives = { λ cursor given. given ≡ cursor_fields (cursor.at ∷ cursor.register ∷ cursor.left ∷ cursor.remaining ∷ []) };

    fn from(cursor: Cursor) -> TealsettleCursor {
        TealsettleCursor {
            at: cursor.at,
            register_number: cursor.register,
            left: cursor.left,
            remaining: cursor.remaining,
        }
    }
}

impl From<Result<Cursor, Refusal>> for TealsettleListing {
    ghost from_gives = { λ answer given. given ≡ listing_result answer };

    #[tactic(auto, unfolding(crate::specs::List::listing_result, base::specs::Answer::in_numbers))]
    fn from(answer: Result<Cursor, Refusal>) -> TealsettleListing {
        match answer {
            Ok(cursor) => TealsettleListing {
                cursor: cursor.into(),
                ..TealsettleListing::default()
            },
            Err(Refusal { reason, place }) => TealsettleListing {
                number: reason.number(),
                place,
                ..TealsettleListing::default()
            },
        }
    }
}

impl From<Result<Option<Step>, Refusal>> for TealsettleStep {
    ghost from_gives = { λ answer given. given ≡ step_result answer };

    #[tactic(auto, unfolding(crate::specs::List::step_result, crate::specs::List::next_numbers, writes::specs::Cursor::step_numbers))]
    fn from(answer: Result<Option<Step>, Refusal>) -> TealsettleStep {
        match answer {
            Ok(Some(Step { write, cursor })) => TealsettleStep {
                found: 1,
                register_number: write.register,
                word: write.word,
                word_place: write.place,
                cursor: cursor.into(),
                ..TealsettleStep::default()
            },
            Ok(None) => TealsettleStep::default(),
            Err(refusal) => TealsettleStep {
                number: refusal.reason.number(),
                place: refusal.place,
                ..TealsettleStep::default()
            },
        }
    }
}
