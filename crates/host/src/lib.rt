// The functions that a printer's C host calls (include/tealsettle.h): numbers and byte slices in, a plain struct
// out (crate `results`). A byte slice is a pointer and a length. What a chip or an image loads (`boot`), building a
// chip (`build`), updating one (`run`), and a run that is cut (`cut`). Image files, lists and reports are in crate
// `hostfiles`, MCS text in `hosttexts`.

#![tactic(auto)]

pub mod boot;
pub mod build;
pub mod cut;
pub mod run;
