//! The proof's part for one node and all below it.

ghost use Rattle.std.specs.Prelude.{◌≡◌, ℕ, ◌+◌, ◌≤◌, true, Option, OnOk, OnErr, IfErr, IsSome};
ghost use Rattle.mr_outside.specs.Causes.{SinkCauses};
ghost use Rattle.mr_outside.specs.Told.{TakesBytes, TakesFront};
ghost use Rattle.mr_outside.specs.Faults.{next_count};
ghost use Rattle.mr_tree.specs.View.{MayTell, size, child_entry};
ghost use Rattle.mr_tree.specs.Nodes.{MapModel, MayFetch, ShowsNode, TellsRefusal};
ghost use Rattle.mr_tree.specs.declared.nodes.NodesErr as error;
ghost use Rattle.mr_query.specs.declared.key.Key as keys;
ghost use Rattle.mr_proof.specs.Cut.{pruned_cut};
ghost use Rattle.mr_proof.specs.Spelling.{cut_bytes};
ghost use Rattle.mr_proof.specs.declared.way.Way.{Way};
ghost use Rattle.mr_proof.specs.Tight.{opens_at};
ghost use Rattle.mr_prove.specs.Causes.{ProveCauses, IsHandedOn, of_nodes};
ghost use Rattle.mr_prove.specs.private.Parts.{child_key, node_bytes, part_under, opened_under};

use crate::ProveErr;
use crate::fetching::fetched;
use crate::sought::key_of;
use mr_outside::{Sink, SinkErr};
use mr_proof::{AsQuestion, Head, Item, write_item};
use mr_record::Version;
use mr_tree::{Child, NodeView, Nodes};

// Writes the item of an opened node.
fn write_node<W: Sink>(version: Version, view: &NodeView, out: &mut W) -> Result<(), SinkErr>
    requires { 1 ≤ size view.now }
    ensures whole { OnOk result (TakesBytes (W.state out.old) (W.state out.new)
        (node_bytes version view.now)) }
    ensures front { TakesFront (W.state out.old) (W.state out.new) (node_bytes version view.now) }
    ensures causes { SinkCauses (W.state out.old) (W.state out.new) result }
{
    if view.level() == 0 {
        let _records = view.records();
        return write_item(out, version, &Item::Leaf(view));
    }
    let children = view.children();
    write_item(out, version, &Item::Inner(children.len() as u8))
}

// Fetches a node that is to be opened, and writes its item.
fn open_node<N: Nodes, W: Sink>(
    nodes: &mut N,
    version: Version,
    child: &Child,
    view: &mut NodeView,
    out: &mut W,
) -> Result<(), ProveErr>
    requires version { version ≡ (N.stands nodes.old).version }
    requires may { MayFetch N.Hash.of (N.stands nodes.old) child.now }
    ensures kept { N.kept nodes.old nodes.new }
    ensures counted { N.fetches nodes.new ≡ next_count (N.fetches nodes.old) }
    ensures shows { OnOk result (ShowsNode N.Hash.of (N.stands nodes.old) child.now view.new) }
    ensures whole { OnOk result (TakesBytes (W.state out.old) (W.state out.new)
        (node_bytes version view.new)) }
    ensures front { OnErr result (IsSome (N.stands nodes.old).tree → (way : keys.Key → Way) →
        opens_at way (child_key version child.now) ≡ true →
        TakesFront (W.state out.old) (W.state out.new)
        (part_under N.Hash.of way (N.stands nodes.old) child.now)) }
    ensures causes { ProveCauses (N.stands nodes.old) (N.faults nodes.old) (N.faults nodes.new)
        (W.state out.old) (W.state out.new) result }
    ensures refused { IfErr result (IsHandedOn (N.refusal nodes.new)) }
    ensures answered { TellsRefusal of_nodes (N.refusal nodes.old) (N.refusal nodes.new) result }
{
    fetched(nodes, child, view)?;
    write_node(version, view, out)?;
    Ok(())
}

// Writes a part that is pruned, by its entry. A refusal is one of the sink.
fn write_pruned<W: Sink>(version: Version, child: &Child, out: &mut W) -> Result<(), ProveErr>
    requires { MayTell version child.now.mask child.now.count }
    ensures whole { OnOk result (TakesBytes (W.state out.old) (W.state out.new)
        (cut_bytes version (pruned_cut (child_entry child.now)))) }
    ensures front { TakesFront (W.state out.old) (W.state out.new)
        (cut_bytes version (pruned_cut (child_entry child.now))) }
    ensures causes { (s : MapModel) (faults : ℕ) →
        ProveCauses s faults faults (W.state out.old) (W.state out.new) result }
    ensures refused { (last : Option error.NodesErr) → IfErr result (IsHandedOn last) }
    ensures answered { (last : Option error.NodesErr) → TellsRefusal of_nodes last last result }
{
    match write_item(out, version, &Item::Pruned(child)) {
        Ok(()) => Ok(()),
        Err(error) => Err(ProveErr::from(error)),
    }
}

// Writes the part of a node that is to be opened under this head: the node, and the parts of its
// children, each once it is fetched. It is a function of its own, so that a part that is pruned
// makes no view.
#[cycle(parts)]
fn write_met<N: Nodes, A: AsQuestion, W: Sink>(
    nodes: &mut N,
    q: &A,
    head: &Head,
    child: &Child,
    out: &mut W,
) -> Result<(), ProveErr>
    requires version { head.now.version ≡ (N.stands nodes.old).version }
    requires may { MayFetch N.Hash.of (N.stands nodes.old) child.now }
    requires met { opens_at ((A.question q.now).way head.now.radius)
        (child_key head.now.version child.now) ≡ true }
    ensures kept { N.kept nodes.old nodes.new }
    ensures whole { OnOk result (IsSome (N.stands nodes.old).tree →
        TakesBytes (W.state out.old) (W.state out.new) (part_under N.Hash.of
        ((A.question q.now).way head.now.radius) (N.stands nodes.old) child.now)) }
    ensures front { OnErr result (IsSome (N.stands nodes.old).tree →
        TakesFront (W.state out.old) (W.state out.new) (part_under N.Hash.of
        ((A.question q.now).way head.now.radius) (N.stands nodes.old) child.now)) }
    ensures fetched { IsSome (N.stands nodes.old).tree → N.fetches nodes.new ≤ N.fetches nodes.old +
        opened_under N.Hash.of ((A.question q.now).way head.now.radius) (N.stands nodes.old)
        child.now }
    ensures causes { ProveCauses (N.stands nodes.old) (N.faults nodes.old) (N.faults nodes.new)
        (W.state out.old) (W.state out.new) result }
    ensures refused { IfErr result (IsHandedOn (N.refusal nodes.new)) }
    ensures answered { TellsRefusal of_nodes (N.refusal nodes.old) (N.refusal nodes.new) result }
{
    let mut view = NodeView::new();
    open_node(nodes, head.version, child, &mut view, out)?;
    for next in view.children() {
        write_part(nodes, q, head, next, out)?;
    }
    Ok(())
}

// Writes the part of the node of which the child is the entry, under this head. Where it is to be
// pruned, that is what is shown of it, and else the node and the parts of its children.
#[cycle(parts)]
pub(crate) fn write_part<N: Nodes, A: AsQuestion, W: Sink>(
    nodes: &mut N,
    q: &A,
    head: &Head,
    child: &Child,
    out: &mut W,
) -> Result<(), ProveErr>
    requires version { head.now.version ≡ (N.stands nodes.old).version }
    requires may { MayFetch N.Hash.of (N.stands nodes.old) child.now }
    requires told { MayTell head.now.version child.now.mask child.now.count }
    ensures kept { N.kept nodes.old nodes.new }
    ensures whole { OnOk result (IsSome (N.stands nodes.old).tree →
        TakesBytes (W.state out.old) (W.state out.new) (part_under N.Hash.of
        ((A.question q.now).way head.now.radius) (N.stands nodes.old) child.now)) }
    ensures front { OnErr result (IsSome (N.stands nodes.old).tree →
        TakesFront (W.state out.old) (W.state out.new) (part_under N.Hash.of
        ((A.question q.now).way head.now.radius) (N.stands nodes.old) child.now)) }
    ensures fetched { IsSome (N.stands nodes.old).tree → N.fetches nodes.new ≤ N.fetches nodes.old +
        opened_under N.Hash.of ((A.question q.now).way head.now.radius) (N.stands nodes.old)
        child.now }
    ensures causes { ProveCauses (N.stands nodes.old) (N.faults nodes.old) (N.faults nodes.new)
        (W.state out.old) (W.state out.new) result }
    ensures refused { IfErr result (IsHandedOn (N.refusal nodes.new)) }
    ensures answered { TellsRefusal of_nodes (N.refusal nodes.old) (N.refusal nodes.new) result }
{
    if !q.way(head.radius, &key_of(head.version, child)).is_open() {
        return write_pruned(head.version, child, out);
    }
    write_met(nodes, q, head, child, out)
}
