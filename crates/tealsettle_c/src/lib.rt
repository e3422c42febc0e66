// The functions that a printer's C host calls (include/tealsettle.h), as a static library: each calls the function of its
// name in the libraries `host`, `hostcounts`, `hostfiles` and `hosttexts`, and promises what that promises.
// Stays: the C interface: a crate is a library or a static library, and only the latter's own functions are in its archive, while
// the program of cases and the theorems about numbers stand on the libraries.

#![tactic(auto)]

pub mod chips;
pub mod counts;
pub mod files;
pub mod texts;
