//! The dump of a file by any number of workers (DWARF 5 sections 2.3 and 7.5.2 to 7.5.4).
//!
//! [`dump`] writes the text of every unit to a sink, in the units' order. Each worker has a seat with a pass
//! of its own over the opened file. The workers draw units one by one, 256 units at a time, and read them
//! beside one another; the texts go out in order, each by one `write_all`: the worker of the first seat writes
//! what has come to its turn between the units that it reads itself. Whatever the number of workers and
//! whichever unit each of them draws, the bytes, or the first refused unit, are those of `dump_of` in `specs/Dumps.antt`, which reads unit after unit anew.
#![tactic(auto)]

mod alone;
mod desk;
mod ends;
mod file_dump;
mod handing;
mod hands;
mod laws;
mod passes;
mod printer;
mod printing;
mod publish;
mod reading;
mod refused;
mod seat;
mod serving;
mod unit;
mod window;
mod worker;

pub use ends::{DumpEnd, DumpFault, Published, RefusedUnit, Whole};
pub use file_dump::dump;
pub use laws::table_keys_are_the_files_keys;
pub use passes::{join_seats, split_seats};
pub use publish::published;
pub use seat::DumpSeat;
pub use serving::MOST_WORKERS;
