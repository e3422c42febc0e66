// The kind of chip that the FPGA reads over SPI.
ghost use Rattle.std.specs.Prelude.{◌≡◌, eqb};
ghost use Rattle.kind.specs.Layout.{layout_of};
ghost use Rattle.kind.specs.Spi.{spi_warm_boot, spi_number};

use crate::layout::Layout;

#[derive(Drop)]
pub struct Spi;

impl Spi {
    // The kind's number at the C interface.
    pub const NUMBER: u32 = 0;
    // A chip has a multiple of a segment, of these lengths.
    pub const SHORTEST: usize = 16_384;

    pub const LONGEST: usize = 16_777_216;
    // A program takes 1 byte to a page, inside one page.
    pub const PAGE: usize = 256;
    // An erase takes a segment.
    pub const SEGMENT: usize = 4_096;
    // The switch word, of four bytes, is the last of segment 0. ON chooses the update image.
    pub const SWITCH: usize = 4_092;

    pub const SWITCH_LENGTH: usize = 4;

    pub const ON: [u8; 4] = [0xAA, 0x99, 0x55, 0x66];
    // The golden image's place, after segments 0 and 1.
    pub const GOLDEN: usize = 8_192;

    // Is this the kind's number?
    // Stays: the C interface has a number for the kind of a chip; with one kind, yes or no is enough.
    pub fn has_number(number: u32) -> bool
        ensures { result ≡ eqb number spi_number }
    {
        number == Spi::NUMBER
    }

    // A layout: F, U and A of document 01.
    pub fn layout(chip_length: usize, update_place: usize, update_length: usize) -> Layout
        ensures { result ≡ layout_of chip_length update_place update_length }
    {
        Layout {
            chip_length,
            update_place,
            update_length,
        }
    }

    // The warm-boot words of segment 1, high byte first: write U to WBSTAR, IPROG to CMD, no-operation. The FPGA
    // that reads them jumps to the update image; it gets so far only where the switch word before them is ON.
    pub fn warm_boot_words(update_place: usize) -> [u8; 20]
        ensures { result ≡ spi_warm_boot update_place }
    {
        let [a, b, c, d] = ((update_place % 4_294_967_296) as u32).to_be_bytes();
        [
            0x30, 0x02, 0x00, 0x01, a, b, c, d, 0x30, 0x00, 0x80, 0x01, 0x00, 0x00, 0x00, 0x0F,
            0x20, 0x00, 0x00, 0x00,
        ]
    }
}
