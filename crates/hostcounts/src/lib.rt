// Functions that a printer's C host calls on numbers alone (include/tealsettle.h), in a library of their own beside
// crates `host`, `hostfiles` and `hosttexts`: how many orders a run has, and the number of one of them; how many
// switch words a cut can leave; how many writes an image can have.
#![tactic(auto)]

ghost use Rattle.std.specs.Prelude.{◌≡◌};
ghost use Rattle.kind.specs.Layout.{layout_of};
ghost use Rattle.kind.specs.Spi.{spi};
ghost use Rattle.heaviest.specs.Heaviest.{most_answer};
ghost use Rattle.outcomes.specs.Outcomes.{program_counts, erase_counts};
ghost use Rattle.results.specs.Most.{most_result};
ghost use Rattle.runresults.specs.Run.{state_of};
ghost use Rattle.hostcounts.specs.Hostcounts.{total_call, progress_call};

use base::refusal::{Reason, ask};
use heaviest::most_writes;
use kind::spi::Spi;
use outcomes::{TealsettleCounts, after_erase, after_program};
use results::most::TealsettleMost;
use runresults::counts::{TealsettleProgress, TealsettleTotal};
use runresults::run::state_of;
use starts::{progress, total};

// Stays: the C interface names a kind of chip by a number, and hands a layout in as three and a state as seven.

// How many orders a run has with an image of `n` bytes.
#[unsafe(no_mangle)]
#[tactic(auto, unfolding(base::specs::Question::ask))]
pub extern "C" fn tealsettle_total(
    kind: u32,
    length: usize,
    update: usize,
    area: usize,
    n: usize,
) -> TealsettleTotal
    ensures { result ≡ total_call kind (layout_of length update area) n }
{
    ask(Spi::has_number(kind), Reason::BadChipLength)
        .and_then(|()| total(Spi::layout(length, update, area), n))
        .into()
}

// The number of the order that a state asks for, counted from 1, and how many its run has.
#[unsafe(no_mangle)]
#[tactic(auto, unfolding(base::specs::Question::ask))]
pub extern "C" fn tealsettle_progress(
    kind: u32,
    length: usize,
    update: usize,
    area: usize,
    n: usize,
    phase: u32,
    index: usize,
    outcome: u32,
) -> TealsettleProgress
    ensures { result ≡ progress_call kind (state_of length update area n phase index outcome) }
{
    let state = state_of(length, update, area, n, phase, index, outcome);
    ask(Spi::has_number(kind), Reason::BadState)
        .and_then(|()| progress(state))
        .into()
}

// How many switch words a program can leave, cut inside or called done, and how many of them are ON.
#[unsafe(no_mangle)]
pub extern "C" fn tealsettle_after_program(old_word: u32, ordered_word: u32) -> TealsettleCounts
    ensures { result ≡ program_counts spi old_word ordered_word }
{
    after_program(old_word, ordered_word)
}

// How many switch words an erase can leave, cut inside or called done, and how many of them are ON.
#[unsafe(no_mangle)]
pub extern "C" fn tealsettle_after_erase(old_word: u32) -> TealsettleCounts
    ensures { result ≡ erase_counts spi old_word }
{
    after_erase(old_word)
}

// The greatest number of writes that an accepted image of `n` bytes can have.
#[unsafe(no_mangle)]
pub extern "C" fn tealsettle_most_writes(n: usize) -> TealsettleMost
    ensures { result ≡ most_result (most_answer n) }
{
    most_writes(n).into()
}
