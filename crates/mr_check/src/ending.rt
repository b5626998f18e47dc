//! The verdict of the bytes that were read.

ghost use Rattle.std.specs.Prelude.{◌≡◌, ◌^◌, ◌<◌, ℕ, List, None};
ghost use Rattle.mr_query.specs.Word.{IsQuery};
ghost use Rattle.mr_query.specs.declared.query.Query as queries;
ghost use Rattle.mr_outside.specs.Bytes.{AreBytes};
ghost use Rattle.mr_record.specs.declared.version.Version.{Version};
ghost use Rattle.mr_tree.specs.Digest.{by};
ghost use Rattle.mr_proof.specs.Tight.{IsLawful};
ghost use Rattle.mr_proof.specs.Headline.{AcceptedIsHonest, OthersFail};
ghost use Rattle.mr_check.specs.Judged.{EndsAs};
ghost use Rattle.mr_check.specs.private.Reads.{FitsReader, StandsBy, StandsAt, OtherRadius, found_at, EndsAt};
ghost use Rattle.mr_check.specs.private.Machine.{is_other_tally};

use crate::outline::Outline;
use crate::radius_counts::other_radius;
use crate::reader::{Reader, fault_at};
use crate::stage::Stage;
use mr_proof::{AsQuestion, Fault, Head, Rule};
use mr_tree::{Entry, Hashes, as_told, root_digest};

// What is found as the root digest, from what the proof says of the root node.
fn found_at<H: Hashes>(head: &Head, node: &Entry) -> [u8; 32]
    ensures { result ≡ found_at H.of head.now node.now }
{
    root_digest::<H>(head.version, head.batch, head.count, node)
}

// Whether the squared radius is another than that of the records that were handed out.
fn is_other_radius<H: Hashes, A: AsQuestion>(q: &A, r: &Reader<H>) -> bool
    ensures { OtherRadius (A.question q.now) r.now result }
{
    other_radius(&r.machine.tally.radius, q.around(), r.machine.head.radius)
}

// Whether the root node has another number of records than the head, as the version tells it.
fn is_other_count(head: &Head, node: &Entry) -> bool
    ensures { result ≡ is_other_tally head.now node.now }
{
    node.count != as_told(head.version, head.count)
}

// What the type tells of its values.
fn is_word(_number: u64)
    ensures { _number < 2 ^ 64 }
{}

// The verdict behind the last field.
fn at_last<H: Hashes, A: AsQuestion>(
    root: &[u8; 32],
    q: &A,
    r: &Reader<H>,
    node: &Entry,
) -> Result<Outline, Fault>
    ensures { EndsAt H.of root.now (A.question q.now) r.now node.now result }
{
    let head = &r.machine.head;
    let found = found_at::<H>(head, node);
    if found.as_slice() != root.as_slice() {
        return Err(fault_at(Rule::WrongRoot { found }, r.at));
    }
    if is_other_radius(q, r) {
        return Err(fault_at(Rule::WrongRadius, r.at));
    }
    if is_other_count(head, node) {
        return Err(fault_at(Rule::WrongTally, r.at));
    }
    is_word(head.count);
    Ok(Outline {
        head: *head,
        rect: node.rect,
        whole: r.machine.tally.whole,
    })
}

// The verdict where no fault was met.
fn at_end<H: Hashes, A: AsQuestion>(root: &[u8; 32], q: &A, r: &Reader<H>) -> Result<Outline, Fault>
    requires { FitsReader r.now }
    ensures { (bytes : List ℕ) → IsLawful (A.question q.now)
        → StandsAt H.of H.holds (A.question q.now) r.now bytes
        → EndsAs H.of root.now (A.question q.now) bytes result }
{
    match &r.machine.stage {
        Stage::End(node) => at_last::<H, A>(root, q, r, node),
        _ => Err(fault_at(Rule::Short, r.at)),
    }
}

// Does nothing: it is there for proofs, which learn what accepted bytes are worth.
pub(crate) fn accepted_are_honest<H: Hashes>()
    ensures accepted { (v : Version) (q : queries.Query) (bytes : List ℕ) → IsQuery q
        → AreBytes bytes → AcceptedIsHonest (by v H.of) q bytes }
    ensures others { (v : Version) (q : queries.Query) (bytes : List ℕ) → IsQuery q
        → AreBytes bytes → OthersFail (by v H.of) q bytes }
{}

// The verdict of the bytes that were fed.
pub(crate) fn verdict_of<H: Hashes, A: AsQuestion>(
    root: &[u8; 32],
    q: &A,
    r: &Reader<H>,
) -> Result<Outline, Fault>
    requires { FitsReader r.now }
    ensures { (bytes : List ℕ) → IsLawful (A.question q.now)
        → StandsBy H.of H.holds (A.question q.now) r.now r.now.fault bytes
        → EndsAs H.of root.now (A.question q.now) bytes result }
{
    match r.fault {
        Some(fault) => Err(fault),
        None => at_end::<H, A>(root, q, r),
    }
}
