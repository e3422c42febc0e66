// How many orders a run has, and what a cut can leave: crate `hostcounts`.
ghost use Rattle.heaviest.specs.Heaviest.{most_answer};
ghost use Rattle.hostcounts.specs.Hostcounts.{progress_call, total_call};
ghost use Rattle.kind.specs.Layout.{layout_of};
ghost use Rattle.kind.specs.Spi.{spi};
ghost use Rattle.outcomes.specs.Outcomes.{erase_counts, program_counts};
ghost use Rattle.results.specs.Most.{most_result};
ghost use Rattle.runresults.specs.Run.{state_of};
ghost use Rattle.std.specs.Prelude.{◌≡◌};

use outcomes::TealsettleCounts;
use results::most::TealsettleMost;
use runresults::counts::{TealsettleProgress, TealsettleTotal};

// How many orders a run has with an image of `n` bytes.
#[unsafe(no_mangle)]
pub extern "C" fn tealsettle_total(
    kind: u32,
    length: usize,
    update: usize,
    area: usize,
    n: usize,
) -> TealsettleTotal
    ensures { result ≡ total_call kind (layout_of length update area) n }
{
    hostcounts::tealsettle_total(kind, length, update, area, n)
}

// The number of the order that a state asks for, counted from 1, and how many its run has.
#[unsafe(no_mangle)]
pub extern "C" fn tealsettle_progress(
    kind: u32,
    length: usize,
    update: usize,
    area: usize,
    n: usize,
    phase: u32,
    index: usize,
    outcome: u32,
) -> TealsettleProgress
    ensures { result ≡ progress_call kind (state_of length update area n phase index outcome) }
{
    hostcounts::tealsettle_progress(kind, length, update, area, n, phase, index, outcome)
}

// How many switch words a program can leave, cut inside or called done, and how many of them are ON.
#[unsafe(no_mangle)]
pub extern "C" fn tealsettle_after_program(old_word: u32, ordered_word: u32) -> TealsettleCounts
    ensures { result ≡ program_counts spi old_word ordered_word }
{
    hostcounts::tealsettle_after_program(old_word, ordered_word)
}

// How many switch words an erase can leave, cut inside or called done, and how many of them are ON.
#[unsafe(no_mangle)]
pub extern "C" fn tealsettle_after_erase(old_word: u32) -> TealsettleCounts
    ensures { result ≡ erase_counts spi old_word }
{
    hostcounts::tealsettle_after_erase(old_word)
}

// The greatest number of writes that an accepted image of `n` bytes can have.
#[unsafe(no_mangle)]
pub extern "C" fn tealsettle_most_writes(n: usize) -> TealsettleMost
    ensures { result ≡ most_result (most_answer n) }
{
    hostcounts::tealsettle_most_writes(n)
}
