//! What the program is given from outside: files, an output, a gate for workers; a list that a tree
//! may hold; and room for a few bytes.
#![tactic(auto)]

mod buffer;
mod calls;
mod gate;
mod held;
mod items;
mod mem_shelf;
mod mem_sink;
mod reading;
mod shelf;
mod sink;

pub use buffer::Buffer;
pub use gate::{Gate, NoGate};
pub use items::Items;
pub use mem_shelf::MemShelf;
pub use mem_sink::MemSink;
pub use reading::{PIECE, read_all};
pub use shelf::{Shelf, ShelfErr};
pub use sink::{Sink, SinkErr, write_all};
