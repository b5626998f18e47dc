//! A question that is no query, by all who prove, check and audit.

ghost use Rattle.std.specs.Prelude.{◌≡◌, ◌<◌, ◌^◌, IfSome};
ghost use Rattle.mr_tree.specs.WellFormed.{WellFormed};
ghost use Rattle.mr_record.specs.declared.version.Version.TheVariants.{Two};
ghost use Rattle.mr_proof.specs.Tight.{IsLawful};
ghost use Rattle.mr_unit_tests.specs.Outside.{outside};

use crate::assertions::{all_hold, holds};
use crate::calls::sides_of;
use crate::made::{Corners, records_of, rect, tree_of};
use mr_check::{CheckErr, Collected, check_question};
use mr_clash::{QuestionFinding, audit_question};
use mr_geom::Rect;
use mr_outside::MemSink;
use mr_proof::{Around, AsQuestion, Fault, Kind, Way};
use mr_prove::prove_question;
use mr_query::{Area, Key, Query, Shape};
use mr_tree::{Snapshot, XorHash};
use std::alloc::{AllocError, Global};

// What the window meets is asked for, and of all else how much there is.
#[derive(Clone, Copy)]
struct Outside {
    letter: u8,
    window: Rect,
}

impl AsQuestion for Outside {
    ghost question = { λ q. outside q.letter q.window };

    fn kind(&self) -> Kind {
        Kind::Choice(self.letter)
    }

    fn around(&self) -> Option<Around> {
        None
    }

    fn two_only(&self) -> bool {
        true
    }

    fn way(&self, _radius: Option<u128>, part: &Key) -> Way {
        let area = Area {
            query: Query::of(Shape::Window(self.window)),
            radius: None,
        };
        if area.reaches(part) {
            Way::Open
        } else {
            Way::Whole
        }
    }
}

// What the type tells of its values.
fn is_letter(_letter: u8)
    ensures { _letter < 2 ^ 8 }
{}

// Does nothing: it is there for proofs.
fn is_lawful(q: &Outside)
    ensures { IsLawful (outside q.now.letter q.now.window) }
{
    is_letter(q.letter);
    let _corners = q.window.corners();
}

// Seventeen records side by side, in two leaves of eight and nine.
const ROW: &str = "1 1 0 1 0 -\n2 2 0 2 0 -\n3 3 0 3 0 -\n4 4 0 4 0 -\n5 5 0 5 0 -\n6 6 0 6 0 -\n\
    7 7 0 7 0 -\n8 8 0 8 0 -\n9 9 0 9 0 -\n10 10 0 10 0 -\n11 11 0 11 0 -\n12 12 0 12 0 -\n\
    13 13 0 13 0 -\n14 14 0 14 0 -\n15 15 0 15 0 -\n16 16 0 16 0 -\n17 17 0 17 0 -\n";

pub fn map_of(alloc: Global) -> Option<Snapshot<XorHash>>
    ensures { IfSome result (λ map. map.top.version ≡ Two) }
{
    let tree = tree_of(alloc, records_of(alloc, ROW)?)?;
    match Snapshot::of2(alloc, &tree, 0) {
        Ok(map) => Some(map),
        Err(_) => None,
    }
}

fn asked(letter: u8, corners: Corners) -> Option<Outside> {
    Some(Outside {
        letter,
        window: rect(corners)?,
    })
}

fn proof_of(alloc: Global, map: &Snapshot<XorHash>, q: &Outside) -> Option<Vec<u8>>
    requires { map.now.top.version ≡ Two }
{
    let mut out = MemSink::new(alloc, Vec::new(alloc));
    match (
        prove_question(&mut map.reader(), q, &mut out),
        out.bytes().to_vec(alloc),
    ) {
        (Ok(()), Ok(bytes)) => Some(bytes),
        _ => None,
    }
}

// The root digest of the map under the exclusive or of all bytes.
pub const ROOT: [u8; 32] = [
    0, 0, 0, 0, 0, 0, 0, 0, 0, 0, 0, 0, 0, 0, 0, 0, 0, 0, 0, 0, 0, 0, 0, 0, 0, 0, 0, 0, 0, 0, 0,
    0x0c,
];

// The letter and the window of a question that is proved, those of the one that the proof is
// checked for, and what is said: how long the proof is, how many records it shows, of how many, and
// the rectangle round all.
#[derive(Clone, Copy)]
struct Check<'a> {
    proved: (u8, Corners),
    asked: (u8, Corners),
    said: &'a str,
}

// The first leaf is opened, and the second one told by its entry: 17 records from (1, 0) to (17,
// 0). A letter that queries have is as good as another. A proof is refused for another letter, at
// the byte of the kind, and where the window meets a part that is told by its entry alone, at its
// mask.
const CHECKS: &[Check<'static>] = &[
    Check {
        proved: (b'A', (2, 0, 3, 0)),
        asked: (b'A', (2, 0, 3, 0)),
        said: "300 bytes: 8 of 17 in 1 0 17 0",
    },
    Check {
        proved: (b'K', (2, 0, 3, 0)),
        asked: (b'K', (2, 0, 3, 0)),
        said: "300 bytes: 8 of 17 in 1 0 17 0",
    },
    Check {
        proved: (b'A', (2, 0, 3, 0)),
        asked: (b'B', (2, 0, 3, 0)),
        said: "300 bytes: WrongKind at 5",
    },
    Check {
        proved: (b'A', (2, 0, 3, 0)),
        asked: (b'A', (2, 0, 9, 0)),
        said: "300 bytes: Hidden at 252",
    },
];

fn told(alloc: Global, long: usize, shown: &Collected) -> Result<String, AllocError> {
    let (count, all) = (shown.records.len(), shown.outline.head.count);
    match shown.outline.rect {
        Some(rect) => {
            let sides = sides_of(alloc, &rect)?;
            format!(in alloc; "{long} bytes: {count} of {all} in {sides}")
        }
        None => format!(in alloc; "{long} bytes: {count} of {all}"),
    }
}

fn checked(alloc: Global, q: &Outside, proof: &[u8]) -> Result<String, AllocError> {
    is_lawful(q);
    let long = proof.len();
    match check_question::<XorHash, Outside>(alloc, &ROOT, q, proof) {
        Ok(shown) => told(alloc, long, &shown),
        Err(CheckErr::Fault(Fault { rule, at })) => {
            let rule = rule.name();
            format!(in alloc; "{long} bytes: {rule} at {at}")
        }
        Err(CheckErr::NoMemory) => Err(AllocError),
    }
}

fn is_said(alloc: Global, row: &Check<'_>) -> Option<bool> {
    let map = map_of(alloc)?;
    let proved = asked(row.proved.0, row.proved.1)?;
    let proof = proof_of(alloc, &map, &proved)?;
    match checked(alloc, &asked(row.asked.0, row.asked.1)?, &proof) {
        Ok(said) => Some(proof.get(5) == Some(&row.proved.0) && said.as_str() == row.said),
        Err(_) => None,
    }
}

fn first_unsaid(alloc: Global) -> Option<&'static str> {
    for row in CHECKS {
        if is_said(alloc, row) != Some(true) {
            return Some(row.said);
        }
    }
    None
}

#[test]
fn a_choice_is_proved_and_checked(rt: HostRuntime) {
    all_hold(&rt, first_unsaid(rt.alloc()));
}

fn audited(
    alloc: Global,
    map: &Snapshot<XorHash>,
    q: &Outside,
    proof: &[u8],
) -> Option<QuestionFinding> {
    is_lawful(q);
    match audit_question(alloc, &mut map.reader(), q, proof) {
        Ok(outcome) => Some(outcome),
        Err(_) => None,
    }
}

fn is_honest(outcome: &Option<QuestionFinding>) -> bool {
    match outcome {
        Some(QuestionFinding::Sound(shown)) => shown.records.len() == 8,
        _ => false,
    }
}

// Whether an audit finds the proof honest, and a collision once two records are exchanged.
fn is_audited(alloc: Global) -> Option<bool> {
    let map = map_of(alloc)?;
    let q = asked(b'A', (2, 0, 3, 0))?;
    let mut proof = proof_of(alloc, &map, &q)?;
    let honest = is_honest(&audited(alloc, &map, &q, &proof));
    if proof.len() < 79 {
        return None;
    }
    for i in 27..53 {
        proof.swap(i, i + 26);
    }
    let outcome = audited(alloc, &map, &q, &proof);
    Some(honest && matches!(outcome, Some(QuestionFinding::Collision(_, _))))
}

#[test]
fn a_choice_is_audited(rt: HostRuntime) {
    holds(
        &rt,
        "honest, then a collision",
        is_audited(rt.alloc()) == Some(true),
    );
}
