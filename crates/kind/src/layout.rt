// A chip's layout, and the questions about lengths and places: 1 to 3 of a layout, 4 of an image.
ghost use Rattle.std.specs.Prelude.{◌≡◌};
ghost use Rattle.base.specs.Answer.{Gives};
ghost use Rattle.kind.specs.Layout.{chip_length_allowed, update_place_allowed, update_length_allowed, image_length_allowed, layout_numbers, layout_answer, numbers_answer};

use crate::spi::Spi;
use base::refusal::{Reason, Refusal, ask};

// F, U and A of document 01: the chip's length, where its update area begins, and how long that is.
#[derive(Clone, Copy)]
pub struct Layout {
    pub chip_length: usize,
    pub update_place: usize,
    pub update_length: usize,
}

// Question 1: can a chip have this length?
#[tactic(auto, unfolding(crate::specs::Layout::chip_length_allowed, base::specs::Question::ask), using(std::proofs::lemmas::Bool::Decides::nat_tests))]
pub fn chip_length_allowed(length: usize) -> bool
    ensures { result ≡ chip_length_allowed length }
{
    Spi::SHORTEST <= length && length <= Spi::LONGEST && length % Spi::SEGMENT == 0
}

// Question 4: can an image have this length in an area of `longest` bytes?
#[tactic(auto, unfolding(crate::specs::Layout::image_length_allowed, base::specs::Question::ask), using(std::proofs::lemmas::Bool::Decides::nat_tests))]
pub fn image_length_allowed(longest: usize, length: usize) -> bool
    ensures { result ≡ image_length_allowed longest length }
{
    1 <= length && length <= longest
}

impl Layout {
    // Question 2, after question 1.
    #[tactic(auto, unfolding(crate::specs::Layout::update_place_allowed, base::specs::Question::ask), using(std::proofs::lemmas::Bool::Decides::nat_tests))]
    fn update_place_allowed(self) -> bool
        ensures { result ≡ update_place_allowed self.chip_length self.update_place }
    {
        self.update_place % Spi::SEGMENT == 0
            && Spi::GOLDEN + Spi::SEGMENT <= self.update_place
            && self.update_place < self.chip_length
    }

    // Question 3. Asked of what is left after U, so that no sum can wrap.
    #[tactic(auto, unfolding(crate::specs::Layout::update_length_allowed, base::specs::Question::ask), using(std::proofs::lemmas::Bool::Decides::nat_tests))]
    fn update_length_allowed(self) -> bool
        ensures { result ≡ update_length_allowed self.chip_length self.update_place self.update_length }
    {
        self.update_length % Spi::SEGMENT == 0
            && Spi::SEGMENT <= self.update_length
            && self.update_place <= self.chip_length
            && self.update_length <= self.chip_length - self.update_place
    }

    // Whether a chip can have this layout: questions 1 to 3, in order; or refusal 1 to 3.
    #[tactic(auto, unfolding(crate::specs::Layout::layout_answer, crate::specs::Layout::ask_layout, base::specs::Question::ask), using(base::proofs::Laws::gives))]
    pub fn check(self) -> Result<(), Refusal>
        ensures { Gives layout_numbers result (layout_answer self) }
    {
        ask(chip_length_allowed(self.chip_length), Reason::BadChipLength)?;
        ask(self.update_place_allowed(), Reason::BadUpdatePlace)?;
        ask(self.update_length_allowed(), Reason::BadUpdateLength)
    }

    // Whether a run can have this layout with an image of so many bytes: questions 1 to 4, in order; or refusal 1 to 4.
    #[tactic(auto, unfolding(crate::specs::Layout::numbers_answer, crate::specs::Layout::ask_numbers, crate::specs::Layout::layout_answer, crate::specs::Layout::ask_layout, base::specs::Question::ask), using(base::proofs::Laws::gives))]
    pub fn check_with_image(self, image_length: usize) -> Result<(), Refusal>
        ensures { Gives layout_numbers result (numbers_answer self image_length) }
    {
        self.check()?;
        ask(
            image_length_allowed(self.update_length, image_length),
            Reason::BadImageLength,
        )
    }
}
