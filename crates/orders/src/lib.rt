// The orders of a run, by the table of document 01: how many a phase has, what each is, and how a reply to it
// is judged (`judging`). An order is an operation on the chip that the run asks for: an erase, a program or a
// look. For the crates above it alone: its functions ask their caller for an index that the phase has.
#![tactic(auto)]

ghost use Rattle.std.specs.Prelude.{◌≡◌, ℕ, ◌+◌, ◌*◌, ◌<◌, ◌≤◌, List, length};
ghost use Rattle.kind.specs.Layout.{page, longest_chip};
ghost use Rattle.kind.specs.Spi.{spi, spi_on};
ghost use Rattle.orders.specs.Types.{Layout};
ghost use Rattle.orders.specs.Table.{count, count_before};
ghost use Rattle.orders.specs.Orders.{page_of, order_of, operation_of, order_bytes};
ghost use Rattle.orders.specs.Carried.{carried};

use comparison::padded_page;
use kind::layout::Layout;
use kind::spi::Spi;

pub mod judging;

// What is to be done with the chip: an erase of `length` bytes from `place` on, a program of as many, or
// a look at as many.
// Stays: operation_of holds the three cases with their spans, and so do the theorems that say Erase, Program and Look.
#[derive(Drop)]
pub enum Operation {
    Erase { place: usize, length: usize },
    Program { place: usize, length: usize },
    Look { place: usize, length: usize },
}

// How many orders a phase has.
// Stays: State (updater; its calls answer refusal 7 for every state that does not fit, and hand every state back) holds it that a phase is a
// number here and in the functions below.
// Stays: no plainer: layout, length, phase and index in one struct would be that State without its outcome, made of it at
// each call.
#[tactic(auto, unfolding(crate::specs::Table::count, crate::specs::Table::by_phase), using(crate::proofs::TableLaws::count_none))]
pub fn orders_in(layout: Layout, image_length: usize, phase: u32) -> usize
    ensures { result ≡ count layout image_length phase }
{
    match phase {
        0 => 1,
        1 => Spi::SEGMENT / Spi::PAGE,
        2 => layout.update_length / Spi::SEGMENT,
        3 => image_length.div_ceil(Spi::PAGE),
        4 => layout.update_length / Spi::PAGE,
        5 => 1,
        6 => 1,
        _ => 0,
    }
}

// How many orders come before a phase; before phase 7, all of a run's.
#[tactic(auto, using(crate::proofs::TableLaws::before_next, crate::proofs::TableLaws::before_total, crate::proofs::TableLaws::total_is), unfolding(crate::specs::Table::count_before))]
pub fn orders_before(layout: Layout, image_length: usize, phase: u32) -> usize
    requires { (phase ≤ 7) × (layout.update_length ≤ longest_chip) × (image_length ≤ longest_chip) }
    ensures { result ≡ count_before layout image_length phase }
{
    let mut orders = 0;
    for i in 0..phase {
        orders += orders_in(layout, image_length, i);
    }
    orders
}

// An order of a phase, as far as it can be said without the bytes that it programs.
#[tactic(auto, unfolding(crate::specs::Orders::order_of, crate::specs::Table::by_phase, crate::specs::Orders::operation_of), using(crate::proofs::OrderLaws::page_length, comparison::proofs::Laws::padded_length))]
pub fn operation_at(layout: Layout, image_length: usize, phase: u32, index: usize) -> Operation
    requires { (index < count layout image_length phase) × (layout.update_place + page * index < longest_chip) }
    ensures { (image : List ℕ) → length image ≡ image_length → result ≡ operation_of (order_of spi layout image phase index) }
{
    let page = layout.update_place + Spi::PAGE * index;
    match phase {
        0 => Operation::Erase {
            place: 0,
            length: Spi::SEGMENT,
        },
        1 => Operation::Look {
            place: Spi::PAGE * index,
            length: Spi::PAGE,
        },
        2 => Operation::Erase {
            place: layout.update_place + Spi::SEGMENT * index,
            length: Spi::SEGMENT,
        },
        3 => Operation::Program {
            place: page,
            length: (image_length - Spi::PAGE * index).min(Spi::PAGE),
        },
        4 => Operation::Look {
            place: page,
            length: Spi::PAGE,
        },
        5 => Operation::Program {
            place: Spi::SWITCH,
            length: Spi::SWITCH_LENGTH,
        },
        _ => Operation::Look {
            place: Spi::SWITCH,
            length: Spi::SWITCH_LENGTH,
        },
    }
}

// A page of an image: the last is what remains, and there is nothing after it.
// Stays: no plainer: an index small enough, here and below, would be a type whose rule is one product's bound.
#[tactic(auto, using(crate::proofs::OrderLaws::page_part))]
fn image_page<'a>(image: &'a [u8], index: usize) -> &'a [u8]
    requires { page * index < longest_chip }
    ensures { result.now ≡ page_of image.now index }
{
    let from = image.len().min(Spi::PAGE * index);
    let to = image.len().min(from + Spi::PAGE);
    &image[from..to]
}

// What an order programs, or looks for before the FF: a page of the image, ON, or nothing.
#[tactic(auto, using(crate::proofs::CarriedLaws::carried_page, crate::proofs::CarriedLaws::carried_on, crate::proofs::CarriedLaws::carried_none))]
pub fn carried_bytes<'a>(image: &'a [u8], phase: u32, index: usize, on: &'a [u8]) -> &'a [u8]
    requires { (page * index < longest_chip) × (on.now ≡ spi_on) }
    ensures { result.now ≡ carried spi image.now phase index }
{
    match phase {
        3 | 4 => image_page(image, index),
        5 | 6 => on,
        _ => &image[0..0],
    }
}

// The bytes that an order programs, then FF; all FF where it programs nothing.
#[tactic(auto, using(crate::proofs::CarriedLaws::programs, crate::proofs::CarriedLaws::programs_none, crate::proofs::CarriedLaws::carried_length))]
pub fn bytes_at(image: &[u8], phase: u32, index: usize) -> [u8; 256]
    requires { page * index < longest_chip }
    ensures { (layout : Layout) → result ≡ order_bytes (order_of spi layout image.now phase index) }
{
    let on = Spi::ON;
    match phase {
        3 | 5 => padded_page(carried_bytes(image, phase, index, &on)),
        _ => [0xFF; 256],
    }
}
