//! Bulk load: a tree made at once from all its records, by sorting them into even tiles (a variant
//! of sort-tile-recursive packing, Leutenegger, Lopez and Edgington 1997).
#![tactic(auto)]

mod gathering;
mod grouping;
mod joined;
mod level;
mod load;
mod node;
mod placed;
mod twice;

pub use load::{
    PackErr, pack, pack_distinct, pack_joined, pack_joined_distinct, pack_leaves_distinct,
};
