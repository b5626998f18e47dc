//! The command `audit`.

ghost use Rattle.std.specs.Prelude.{◌≡◌, None, IfSome};
ghost use Rattle.mr_query.specs.Word.{IsAskable};
ghost use Rattle.mr_store.specs.Paged.{IsSameMap, shelved, stands_for};
ghost use Rattle.mr_command.specs.Counting.{opens_for};
ghost use Rattle.mr_command.specs.Ending.{IsEndingOrHalt, IsCarriedOut, NoneFalls};
ghost use Rattle.mr_command.specs.private.Steps.{map_at, ComesBut, HasAnswerLines, ReadsInput, ReadsBeside, ReadsOpened, SaysUntold};
ghost use Rattle.mr_plan.specs.Plan.{comes};
ghost use Rattle.mr_plan.specs.Untold.{MaySayAudit};
ghost use Rattle.mr_plan.specs.declared.words.Command.TheVariants as commands;
ghost use Rattle.mr_plan.specs.Say.{needs, say_audit_of, say_finding};

use crate::check_command::refused;
use crate::ending::{Ending, Halt, Step};
use crate::fetching::{finding_of_nodes, unfetched};
use crate::input::{are_bytes, as_needed};
use crate::opening::open_paged;
use mr_check::proof_version;
use mr_clash::Finding;
use mr_outside::Shelf;
use mr_plan::{Status, collision_lines, sound_line};
use mr_query::Query;
use mr_record::Version;
use mr_store::Paged;
use mr_tree::Hash32;
use std::alloc::Global;

// The ending over what was found of a proof of this version.
fn say_found(alloc: Global, version: Version, finding: Finding) -> Result<Ending, Halt>
    requires { HasAnswerLines version finding }
    ensures { IsEndingOrHalt (say_finding version finding) result }
{
    match finding {
        Finding::Refused(fault) => refused(alloc, &fault),
        Finding::Sound(answer) => Ok(Ending::both(
            Status::Done,
            sound_line(alloc)?,
            version,
            answer.into_vec(),
        )),
        Finding::Collision(owned, shown) => Ok(Ending::line(
            alloc,
            Status::Collision,
            collision_lines(alloc, owned.as_slice(), shown.as_slice())?,
        )),
    }
}

// What the bytes of a proof are worth, or what the command comes to without a node of the map.
fn audit_bytes<H: Hash32, S: Shelf>(
    alloc: Global,
    map: &str,
    query: &Query,
    proof: &str,
    bytes: &[u8],
    paged: &mut Paged<S, H>,
) -> Result<Ending, Halt>
    requires { IsAskable query.now }
    ensures told { let stands = stands_for paged.old in
        IfSome stands.tree (λ t. ComesBut (comes (say_audit_of H.of query.now
        (map_at stands t) bytes.now)) (shelved paged.old) (shelved paged.new) result) }
    ensures untold { (shelved paged.old).files ≡ None →
        SaysUntold (MaySayAudit H.of map.now query.now proof.now) (shelved paged.old)
        (shelved paged.new) result }
    ensures files { (shelved paged.new).files ≡ (shelved paged.old).files }
    ensures counts { NoneFalls (shelved paged.old) (shelved paged.new) }
    ensures reads_at_most { paged.old.fetches ≡ 0 → ReadsOpened H.of (opens_for query.now)
        (stands_for paged.old) paged.old.head.pages bytes.now (shelved paged.old)
        (shelved paged.new) }
{
    are_bytes(bytes);
    match finding_of_nodes(alloc, paged, query, bytes) {
        Ok(finding) => say_found(alloc, proof_version(bytes), finding),
        Err(error) => unfetched(alloc, map, &error),
    }
}

// The bytes of a file beside the map's, which has to be there.
pub(crate) fn needed_beside<H: Hash32, S: Shelf>(
    alloc: Global,
    name: &str,
    paged: &mut Paged<S, H>,
) -> Step<Vec<u8>>
    ensures reads { ReadsInput name.now (shelved paged.old) (shelved paged.new) result }
    ensures same { IsSameMap paged.old paged.new }
    ensures fetches { paged.new.fetches ≡ paged.old.fetches }
{
    as_needed(alloc, name, paged.read_file(name))
}

// What the proof in a file is worth against an opened map.
fn audit_file<H: Hash32, S: Shelf>(
    alloc: Global,
    map: &str,
    query: &Query,
    proof: &str,
    paged: &mut Paged<S, H>,
) -> Result<Ending, Halt>
    requires { IsAskable query.now }
    ensures told { let stands = stands_for paged.old in
        IfSome stands.tree (λ t. ComesBut (needs proof.now (λ bytes. comes (say_audit_of H.of
        query.now (map_at stands t) bytes))) (shelved paged.old) (shelved paged.new) result) }
    ensures untold { (shelved paged.old).files ≡ None →
        SaysUntold (MaySayAudit H.of map.now query.now proof.now) (shelved paged.old)
        (shelved paged.new) result }
    ensures counts { NoneFalls (shelved paged.old) (shelved paged.new) }
    ensures reads_at_most { paged.old.fetches ≡ 0 → ReadsBeside H.of (opens_for query.now)
        (stands_for paged.old) paged.old.head.pages proof.now (shelved paged.old)
        (shelved paged.new) }
{
    match needed_beside::<H, S>(alloc, proof, paged) {
        Ok(bytes) => audit_bytes::<H, S>(alloc, map, query, proof, &bytes, paged),
        Err(came) => came,
    }
}

/// What the proof in a file is worth against the map in another one, for a query. The shelf is
/// handed back.
pub fn audit_query<H: Hash32, S: Shelf>(
    alloc: Global,
    map: &str,
    query: &Query,
    proof: &str,
    shelf: S,
) -> (Result<Ending, Halt>, S)
    requires { IsAskable query.now }
    ensures { IsCarriedOut H.of (commands.Audit map.entry query.now proof.entry) (S.state shelf)
        (S.state result.1) result.0 }
{
    match open_paged::<H, S>(alloc, map, shelf) {
        Err(ended) => ended,
        Ok(paged) => {
            let mut paged = paged;
            let came = audit_file::<H, S>(alloc, map, query, proof, &mut paged);
            (came, paged.close())
        }
    }
}
