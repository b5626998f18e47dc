//! What each command says: its words, the plan of what it reads and comes to, and the lines that it
//! prints.
#![tactic(auto)]

mod joins;
mod judged;
mod lines;
mod reader;
mod status;
mod text;
mod words;

pub use joins::{
    first_collision_lines, join_refused_line, pairs_text, second_collision_lines, sound_pairs_text,
};
pub use judged::{count_accepted, judged_status, judged_text};
pub use lines::{
    bad_batch_line, bad_map_line, bad_text_line, collision_lines, counted_line, digest_line,
    made_line, map_lines, missing_line, needs_version_2_line, proof_line, push_queries,
    push_totals, recovered_line, refused_line, served_line, sound_line,
};
pub use status::Status;
pub use text::text_of_records;
pub use words::{Command, read_words};
