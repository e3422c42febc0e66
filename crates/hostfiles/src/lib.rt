// More functions that a printer's C host calls (include/tealsettle.h), in a library of their own beside crate `host`:
// what an image file is (`form`), whether a chip's switch is ON (`switch`) and where its update area begins (`place`), the
// writes of a chip or an image one after the other (`list`), the image with most writes (`most`), and the report of what a
// chip loads as text (`reporting`). MCS text is in crate `hosttexts`.

#![tactic(auto)]

pub mod form;
pub mod list;
pub mod most;
pub mod place;
pub mod reporting;
pub mod switch;
