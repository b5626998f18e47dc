//! Queries: their words and scripts of them, the part of the map that they ask for, and what a
//! scan answers.
#![tactic(auto)]

mod area;
mod circle;
mod comma;
mod key;
mod layers;
mod query;
mod script;
mod selection;
mod window;
mod word;
mod write;

pub use area::Area;
pub use circle::{Circle, Everywhere};
pub use key::Key;
pub use layers::{ALL_LAYERS, share_layer};
pub use query::{NEIGHBOUR_LIMIT, Query, QueryFault, Shape, is_query};
pub use script::read_script;
pub use selection::{answer, rank};
pub use window::Window;
pub use word::read_query;
pub use write::write_query;
