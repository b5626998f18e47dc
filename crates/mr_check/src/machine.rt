//! What is kept of a proof between two fields.

use crate::counts::Counts;
use crate::frame::{Frame, Stack};
use crate::stage::Stage;
use mr_proof::{Head, Rule};
use mr_record::Record;
use mr_tree::Hashes;

// What is kept of the fields so far: the head, as far as it was read; the field that is under way;
// the open nodes; what was counted; and the record that was read last.
#[derive(Drop)]
pub(crate) struct Machine<H: Hashes> {
    pub(crate) head: Head,
    pub(crate) stage: Stage,
    pub(crate) frames: Stack<Frame<H>>,
    pub(crate) leaf: Frame<H>,
    pub(crate) tally: Counts,
    pub(crate) latest: Record,
}

// What one more field comes to.
pub(crate) enum StepResult {
    On,
    // the record that was read last is handed out
    Found,
    Broken(Rule),
}
