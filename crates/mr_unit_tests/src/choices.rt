//! Counts, and a choice of the test's own, by the calls that prove, check and audit choices.

ghost use Rattle.std.specs.Prelude.{◌≡◌};
ghost use Rattle.mr_record.specs.declared.version.Version.TheVariants.{Two};
ghost use Rattle.mr_count.specs.Chosen.{FitsTaken};
ghost use Rattle.mr_unit_tests.specs.Beside.{beside_way, beside_narrow};

use crate::assertions::{all_hold, holds};
use crate::calls::sides_of;
use crate::made::{Corners, rect};
use crate::questions::{ROOT, map_of};
use mr_count::{
    Choice, ChoiceErr, ChoiceFinding, Inside, Taken, audit_choice, check_choice, count_of,
    prove_choice,
};
use mr_geom::Rect;
use mr_outside::MemSink;
use mr_proof::{Fault, Way};
use mr_tree::{Snapshot, XorHash};
use std::alloc::{AllocError, Global};

// What the window misses is taken whole, and all else is opened.
#[derive(Clone, Copy)]
struct Beside {
    inside: Inside,
}

impl Choice for Beside {
    ghost ways = { λ s. beside_way s.inside.window s.inside.mask };

    fn way(&self, rect: &Rect, mask: u64) -> Way {
        match self.inside.way(rect, mask) {
            Way::Skip => Way::Whole,
            Way::Whole | Way::Open => Way::Open,
        }
    }

    ghost narrow = { λ s a b o q f g inside among closed.
        beside_narrow s.inside.window s.inside.mask a b o q f g inside among closed };
}

fn inside(corners: Corners) -> Option<Inside> {
    Some(Inside {
        window: rect(corners)?,
        mask: 1,
    })
}

fn proof_of<C: Choice>(
    alloc: Global,
    map: &Snapshot<XorHash>,
    choice: &C,
    letter: u8,
) -> Option<Vec<u8>>
    requires { map.now.top.version ≡ Two }
{
    let mut out = MemSink::new(alloc, Vec::new(alloc));
    match (
        prove_choice(&mut map.reader(), choice, letter, &mut out),
        out.bytes().to_vec(alloc),
    ) {
        (Ok(()), Ok(bytes)) => Some(bytes),
        _ => None,
    }
}

// A proof of how long, how many records it shows, how many it takes whole, of how many in which
// rectangle; and how many records of the map are taken whole.
fn told<C: Choice>(
    alloc: Global,
    long: usize,
    choice: &C,
    taken: &Taken,
) -> Result<String, AllocError>
    requires { FitsTaken taken.now }
{
    let (shown, whole, count) = (taken.records.as_slice().len(), taken.whole, taken.count);
    let counted = count_of(taken, choice);
    match taken.rect {
        Some(rect) => {
            let sides = sides_of(alloc, &rect)?;
            format!(in alloc; "{long} bytes: {shown} and {whole} of {count} in {sides}: {counted}")
        }
        None => format!(in alloc; "{long} bytes: {shown} and {whole} of {count}: {counted}"),
    }
}

fn checked<C: Choice>(
    alloc: Global,
    choice: &C,
    letter: u8,
    proof: &[u8],
) -> Result<String, AllocError> {
    let long = proof.len();
    match check_choice::<XorHash, C>(alloc, &ROOT, choice, letter, proof) {
        Ok(taken) => told(alloc, long, choice, &taken),
        Err(ChoiceErr::Fault(Fault { rule, at })) => {
            let rule = rule.name();
            format!(in alloc; "{long} bytes: {rule} at {at}")
        }
        Err(ChoiceErr::NoMemory) => Err(AllocError),
    }
}

// Whether the proof is of what is inside the window, or of what is beside it; the window and letter
// of a proof, those for which it is checked, and what is said.
#[derive(Clone, Copy)]
struct Check<'a> {
    is_inside: bool,
    proved: (u8, Corners),
    asked: (u8, Corners),
    said: &'a str,
}

// Seventeen records side by side, in two leaves of eight and nine. Any letter will do, those of
// queries too.
const CHECKS: &[Check<'static>] = &[
    Check {
        is_inside: true,
        proved: (b'C', (0, 0, 8, 0)),
        asked: (b'C', (0, 0, 8, 0)),
        said: "155 bytes: 0 and 8 of 17 in 1 0 17 0: 8",
    },
    Check {
        is_inside: true,
        proved: (0, (0, 0, 9, 0)),
        asked: (0, (0, 0, 9, 0)),
        said: "326 bytes: 1 and 8 of 17 in 1 0 17 0: 9",
    },
    Check {
        is_inside: true,
        proved: (b'W', (0, 0, 17, 0)),
        asked: (b'W', (0, 0, 17, 0)),
        said: "88 bytes: 0 and 17 of 17 in 1 0 17 0: 17",
    },
    Check {
        is_inside: false,
        proved: (b'K', (2, 0, 3, 0)),
        asked: (b'K', (2, 0, 3, 0)),
        said: "300 bytes: 8 and 9 of 17 in 1 0 17 0: 15",
    },
    Check {
        is_inside: true,
        proved: (b'C', (0, 0, 8, 0)),
        asked: (b'C', (0, 0, 9, 0)),
        said: "155 bytes: Hidden at 107",
    },
    Check {
        is_inside: false,
        proved: (b'C', (2, 0, 3, 0)),
        asked: (b'D', (2, 0, 3, 0)),
        said: "300 bytes: WrongKind at 5",
    },
];

fn said_of<C: Choice>(
    alloc: Global,
    proved: (u8, &C),
    asked: (u8, &C),
) -> Option<Result<String, AllocError>> {
    let map = map_of(alloc)?;
    let proof = proof_of(alloc, &map, proved.1, proved.0)?;
    Some(checked(alloc, asked.1, asked.0, &proof))
}

fn is_said(alloc: Global, row: &Check<'_>) -> Option<bool> {
    let (proved, asked) = (inside(row.proved.1)?, inside(row.asked.1)?);
    let said = if row.is_inside {
        said_of(alloc, (row.proved.0, &proved), (row.asked.0, &asked))?
    } else {
        let (proved, asked) = (Beside { inside: proved }, Beside { inside: asked });
        said_of(alloc, (row.proved.0, &proved), (row.asked.0, &asked))?
    };
    match said {
        Ok(said) => Some(said.as_str() == row.said),
        Err(_) => None,
    }
}

fn first_unsaid(alloc: Global) -> Option<&'static str> {
    for row in CHECKS {
        if is_said(alloc, row) != Some(true) {
            return Some(row.said);
        }
    }
    None
}

#[test]
fn counts_and_choices_are_proved_and_checked(rt: HostRuntime) {
    all_hold(&rt, first_unsaid(rt.alloc()));
}

fn audited<C: Choice>(
    alloc: Global,
    map: &Snapshot<XorHash>,
    choice: &C,
    proof: &[u8],
) -> Option<ChoiceFinding> {
    match audit_choice(alloc, &mut map.reader(), choice, b'A', proof) {
        Ok(finding) => Some(finding),
        Err(_) => None,
    }
}

fn is_honest(finding: &Option<ChoiceFinding>) -> bool {
    match finding {
        Some(ChoiceFinding::Sound(taken)) => taken.whole == 9
            && taken.records.as_slice().len() == 8,
        _ => false,
    }
}

// Whether an audit finds the proof honest, a collision once two records are exchanged, and what is
// cut off refused.
fn is_audited(alloc: Global) -> Option<bool> {
    let map = map_of(alloc)?;
    let beside = Beside {
        inside: inside((2, 0, 3, 0))?,
    };
    let mut proof = proof_of(alloc, &map, &beside, b'A')?;
    let honest = is_honest(&audited(alloc, &map, &beside, &proof));
    if proof.len() < 79 {
        return None;
    }
    for i in 27..53 {
        proof.swap(i, i + 26);
    }
    let bent = audited(alloc, &map, &beside, &proof);
    proof.truncate(79);
    let cut = audited(alloc, &map, &beside, &proof);
    Some(
        honest
            && matches!(bent, Some(ChoiceFinding::Collision(_, _)))
            && matches!(cut, Some(ChoiceFinding::Refused(_))),
    )
}

#[test]
fn a_choice_of_its_own_is_audited(rt: HostRuntime) {
    holds(
        &rt,
        "honest, then a collision, then refused",
        is_audited(rt.alloc()) == Some(true),
    );
}
