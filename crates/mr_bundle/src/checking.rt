//! Many verdicts on one bundle.

ghost use Rattle.std.specs.Prelude.{◌≡◌, ◌≤◌, [], length, map, All, IfOk, OnOk};
ghost use Rattle.mr_query.specs.Word.{IsAskable};
ghost use Rattle.mr_bundle.specs.Bundle.{LiesIn};
ghost use Rattle.mr_bundle.specs.Verdicts.{asked, judged, number_in, asked_values, verdicts};

use crate::{Part, Verdict};
use mr_check::{CheckErr, check, proof_version};
use mr_fork_join::{Work, in_halves};
use mr_outside::{Gate, Items};
use mr_query::Query;
use mr_tree::{Hash32, Hashes};
use std::alloc::{AllocError, Global};
use std::marker::PhantomData;
use std::thread::Threads;

// A query, and the bytes that are to prove its answer.
#[derive(Clone, Copy)]
pub(crate) struct Asked<'a> {
    query: &'a Query,
    proof: &'a [u8],
}

// The verdict on some bytes against a query.
fn verdict_on<H: Hashes>(
    alloc: Global,
    root: &[u8; 32],
    query: &Query,
    proof: &[u8],
) -> Result<Verdict, AllocError>
    requires { IsAskable query.now }
    ensures { IfOk result (λ v. v ≡ judged H.of root.now (query.now, proof.now)) }
{
    match check::<H>(alloc, root, query, proof) {
        Ok(answer) => Ok(Verdict::Accepted(proof_version(proof), Items::of(answer))),
        Err(CheckErr::Fault(fault)) => Ok(Verdict::Refused(fault)),
        Err(CheckErr::NoMemory) => Err(AllocError),
    }
}

// What is done to each part: it is checked against the root digest that all share.
#[derive(Drop)]
struct Checking<'a, H: Hash32> {
    alloc: Global,
    root: &'a [u8; 32],
    hash: PhantomData<H>,
    asked: PhantomData<&'a [u8]>,
}

impl<'a, H: Hash32> Work for Checking<'a, H> {
    type Piece = Asked<'a>;

    type Found = Verdict;

    ghost may = { λ w one. IsAskable one.query.now };

    ghost gives = { λ w one. judged H.of w.root.now (asked_values one) };

    ghost number_of = { λ found. number_in found };

    fn carry_out(&self, piece: &Asked<'a>) -> Result<Verdict, AllocError> {
        verdict_on::<H>(self.alloc, self.root, piece.query, piece.proof)
    }

    fn number(found: &Verdict) -> u64
        ensures { result ≡ number_in found.now }
    {
        match found {
            Verdict::Accepted(_, answer) => answer.as_slice().len() as u64,
            Verdict::Refused(fault) => fault.at,
        }
    }
}

// Puts each part with the query at its place.
fn pair<'a>(
    queries: &'a [Query],
    bundle: &'a [u8],
    parts: &[Part],
    all: &mut Vec<Asked<'a>>,
) -> Result<(), AllocError>
    requires empty { all.old.items ≡ [] }
    requires askable { All IsAskable queries.now }
    requires within { All (LiesIn (length bundle.now)) parts.now }
    requires few { length parts.now ≤ length queries.now }
    ensures each { OnOk result (map asked_values all.new.items
        ≡ asked queries.now bundle.now parts.now) }
    ensures askable { OnOk result (All (λ one. IsAskable one.query.now) all.new.items) }
{
    for (i, part) in parts.iter().enumerate() {
        all.push(Asked {
            query: &queries[i],
            proof: &bundle[part.start..part.end],
        })?;
    }
    Ok(())
}

/// The verdicts on the parts of a bundle, against a root digest: at place `i` that on part `i`
/// against query `i`. The parts are checked in joined halves, as `in_halves` says. Whoever checks
/// part `i` passes `gate.enter(i)` before it. Behind it comes `gate.leave(i, number)`, with the
/// number of the records answered, or the place of the fault. It refuses for want of memory alone.
pub fn check_all<H: Hash32, G: Gate, R: Threads + Sync>(
    rt: &R,
    alloc: Global,
    root: &[u8; 32],
    queries: &[Query],
    bundle: &[u8],
    parts: &[Part],
    gate: &G,
) -> Result<Vec<Verdict>, AllocError>
    requires askable { All IsAskable queries.now }
    requires within { All (LiesIn (length bundle.now)) parts.now }
    requires few { length parts.now ≤ length queries.now }
    ensures { IfOk result (λ v. v.items
        ≡ verdicts H.of root.now queries.now bundle.now parts.now) }
{
    let mut all = Vec::with_capacity(alloc, parts.len())?;
    pair(queries, bundle, parts, &mut all)?;
    let work = Checking::<H> {
        alloc,
        root,
        hash: PhantomData,
        asked: PhantomData,
    };
    in_halves(rt, alloc, &work, &all, gate)
}
