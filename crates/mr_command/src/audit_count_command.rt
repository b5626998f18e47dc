//! The command `audit-count`.

ghost use Rattle.std.specs.Prelude.{◌≡◌, ◌+◌, ◌++◌, ◌≤◌, None, IfOk, IfErr, IfSome, OnOk};
ghost use Rattle.std.specs.String.{string_bytes};
ghost use Rattle.mr_tree.specs.Digest.{by};
ghost use Rattle.mr_tree.specs.Nodes.{HasSomeCause, TellsRefusal};
ghost use Rattle.mr_bundle.specs.Proofs.{as_given, IsLastRefusal};
ghost use Rattle.mr_clash.specs.QuestionFindings.{FetchesFor};
ghost use Rattle.mr_store.specs.Paged.{shelved, stands_for};
ghost use Rattle.mr_count.specs.Chosen.{FitsTaken, total_whole};
ghost use Rattle.mr_count.specs.Finding.{FindsForChoice, GivesFitting, ShowsCollision};
ghost use Rattle.mr_command.specs.Counting.{opens_for_count};
ghost use Rattle.mr_command.specs.Ending.{IsEndingOrHalt, IsCarriedOut, NoneFalls};
ghost use Rattle.mr_command.specs.private.Windows.{ways_inside};
ghost use Rattle.mr_command.specs.private.Steps.{map_at, ComesBut, ReadsBeside, ReadsOpened, SaysUntold};
ghost use Rattle.mr_plan.specs.Counts.{count_found, count_letter, count_question};
ghost use Rattle.mr_plan.specs.Lines.{counted_line as line_of_count, sound_line as line_of_sound};
ghost use Rattle.mr_plan.specs.Plan.{comes};
ghost use Rattle.mr_plan.specs.Say.{needs, say_audit_count_of, say_count_finding};
ghost use Rattle.mr_plan.specs.Untold.{MaySayAuditCount};
ghost use Rattle.mr_plan.specs.Words.{IsWindow};
ghost use Rattle.mr_plan.specs.declared.words.Command.TheVariants as commands;

use crate::audit_command::needed_beside;
use crate::check_command::refused;
use crate::counted::{COUNT_LETTER, inside_of};
use crate::ending::{Ending, Halt};
use crate::fetching::unfetched;
use crate::input::are_bytes;
use crate::opening::open_paged;
use mr_count::{ChoiceFinding, FindErr, Inside, Taken, audit_choice, count_of};
use mr_outside::Shelf;
use mr_plan::{Status, collision_lines, counted_line, sound_line};
use mr_query::Query;
use mr_store::Paged;
use mr_tree::{Hash32, Nodes, NodesErr};
use std::alloc::{AllocError, Global};

// What is found of the bytes of the proof of a count, by these nodes, or why one of them was not
// fetched.
fn count_finding<N: Nodes>(
    alloc: Global,
    nodes: &mut N,
    inside: &Inside,
    bytes: &[u8],
) -> Result<ChoiceFinding, NodesErr>
    ensures kept { N.kept nodes.old nodes.new }
    ensures told { IfSome (N.stands nodes.old).tree (λ t. IfOk result (λ f.
        f ≡ count_found (by (N.stands nodes.old).version N.Hash.of) t (N.stands nodes.old).batch
        (ways_inside inside.now) bytes.now)) }
    ensures judged { IfOk result (λ f. FindsForChoice N.Hash.of (N.stands nodes.old)
        (N.says nodes.old) count_letter (ways_inside inside.now) bytes.now f) }
    ensures fits { IfOk result (λ f. GivesFitting f) }
    ensures collides { IfOk result (λ f. ShowsCollision N.Hash.of f) }
    ensures fetched { IfSome (N.stands nodes.old).tree (λ t. N.fetches nodes.new ≤
        N.fetches nodes.old + opens_for_count (ways_inside inside.now)
        (by (N.stands nodes.old).version N.Hash.of) t (N.stands nodes.old).batch bytes.now) }
    ensures cause { IfErr result (HasSomeCause (N.stands nodes.old) (N.faults nodes.old)
        (N.faults nodes.new)) }
    ensures fetches { FetchesFor N.Hash.of (N.stands nodes.old) (N.says nodes.old)
        (count_question (ways_inside inside.now)) bytes.now (N.fetches nodes.old)
        (N.fetches nodes.new) }
    ensures refused { IfErr result (IsLastRefusal (N.refusal nodes.new)) }
    ensures answered { TellsRefusal as_given (N.refusal nodes.old) (N.refusal nodes.new) result }
    ensures quiet { OnOk result (N.faults nodes.new ≡ N.faults nodes.old) }
{
    match audit_choice(alloc, nodes, inside, COUNT_LETTER, bytes) {
        Ok(finding) => Ok(finding),
        Err(FindErr::NoMemory) => Err(NodesErr::NoMemory),
        Err(FindErr::Nodes(error)) => Err(error),
    }
}

// The lines on the honest proof of a count, which gives this.
fn sound_lines(alloc: Global, inside: &Inside, taken: &Taken) -> Result<String, AllocError>
    requires { FitsTaken taken.now }
    ensures { IfOk result (λ s. string_bytes s
        ≡ line_of_sound ++ line_of_count (total_whole (ways_inside inside.now) taken.now)) }
{
    let mut lines = sound_line(alloc)?;
    lines.push_str(counted_line(alloc, count_of(taken, inside))?.as_str())?;
    Ok(lines)
}

// The ending over what was found of the proof of a count.
fn say_counted(alloc: Global, inside: &Inside, finding: ChoiceFinding) -> Result<Ending, Halt>
    requires { GivesFitting finding }
    ensures { IsEndingOrHalt (say_count_finding (ways_inside inside.now) finding) result }
{
    match finding {
        ChoiceFinding::Refused(fault) => refused(alloc, &fault),
        ChoiceFinding::Sound(taken) => Ok(Ending::line(
            alloc,
            Status::Done,
            sound_lines(alloc, inside, &taken)?,
        )),
        ChoiceFinding::Collision(owned, shown) => Ok(Ending::line(
            alloc,
            Status::Collision,
            collision_lines(alloc, owned.as_slice(), shown.as_slice())?,
        )),
    }
}

// What the bytes of the proof of a count are worth, or what the command comes to without a node of
// the map.
fn audit_bytes<H: Hash32, S: Shelf>(
    alloc: Global,
    map: &str,
    inside: &Inside,
    proof: &str,
    bytes: &[u8],
    paged: &mut Paged<S, H>,
) -> Result<Ending, Halt>
    ensures told { let stands = stands_for paged.old in
        IfSome stands.tree (λ t. ComesBut (comes (say_audit_count_of H.of (ways_inside inside.now)
        (map_at stands t) bytes.now)) (shelved paged.old) (shelved paged.new) result) }
    ensures untold { (shelved paged.old).files ≡ None →
        SaysUntold (MaySayAuditCount H.of map.now (ways_inside inside.now) proof.now)
        (shelved paged.old) (shelved paged.new) result }
    ensures files { (shelved paged.new).files ≡ (shelved paged.old).files }
    ensures counts { NoneFalls (shelved paged.old) (shelved paged.new) }
    ensures reads_at_most { paged.old.fetches ≡ 0 →
        ReadsOpened H.of (opens_for_count (ways_inside inside.now)) (stands_for paged.old)
        paged.old.head.pages bytes.now (shelved paged.old) (shelved paged.new) }
{
    are_bytes(bytes);
    match count_finding(alloc, paged, inside, bytes) {
        Ok(finding) => say_counted(alloc, inside, finding),
        Err(error) => unfetched(alloc, map, &error),
    }
}

// What the proof of a count in a file is worth against an opened map.
fn audit_file<H: Hash32, S: Shelf>(
    alloc: Global,
    map: &str,
    inside: &Inside,
    proof: &str,
    paged: &mut Paged<S, H>,
) -> Result<Ending, Halt>
    ensures told { let stands = stands_for paged.old in
        IfSome stands.tree (λ t. ComesBut (needs proof.now (λ bytes. comes (say_audit_count_of H.of
        (ways_inside inside.now) (map_at stands t) bytes))) (shelved paged.old) (shelved paged.new)
        result) }
    ensures untold { (shelved paged.old).files ≡ None →
        SaysUntold (MaySayAuditCount H.of map.now (ways_inside inside.now) proof.now)
        (shelved paged.old) (shelved paged.new) result }
    ensures counts { NoneFalls (shelved paged.old) (shelved paged.new) }
    ensures reads_at_most { paged.old.fetches ≡ 0 →
        ReadsBeside H.of (opens_for_count (ways_inside inside.now)) (stands_for paged.old)
        paged.old.head.pages proof.now (shelved paged.old) (shelved paged.new) }
{
    match needed_beside::<H, S>(alloc, proof, paged) {
        Ok(bytes) => audit_bytes::<H, S>(alloc, map, inside, proof, &bytes, paged),
        Err(came) => came,
    }
}

/// What the proof of a count in a file is worth against the map in another one, for a query. A map
/// of version 1 has no honest proof of a count, so that bytes which are accepted against its root
/// digest show a collision. The shelf is handed back.
pub fn audit_count<H: Hash32, S: Shelf>(
    alloc: Global,
    map: &str,
    query: &Query,
    proof: &str,
    shelf: S,
) -> (Result<Ending, Halt>, S)
    requires { IsWindow query.now.shape }
    ensures { IsCarriedOut H.of (commands.AuditCount map.entry query.now proof.entry)
        (S.state shelf) (S.state result.1) result.0 }
{
    match open_paged::<H, S>(alloc, map, shelf) {
        Err(ended) => ended,
        Ok(paged) => {
            let inside = inside_of(query);
            let mut paged = paged;
            let came = audit_file::<H, S>(alloc, map, &inside, proof, &mut paged);
            (came, paged.close())
        }
    }
}
