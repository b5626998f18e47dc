//! Fetches whose refusals are handed on.

ghost use Rattle.std.specs.Prelude.{◌≡◌, OnOk, IfErr};
ghost use Rattle.mr_outside.specs.Faults.{next_count};
ghost use Rattle.mr_tree.specs.Nodes.{MayFetch, ShowsNode, TellsRefusal};
ghost use Rattle.mr_prove.specs.Causes.{IsHandedOn, of_nodes};
ghost use Rattle.mr_prove.specs.private.Search.{SearchCauses};

use crate::ProveErr;
use mr_tree::{Child, NodeView, Nodes};

// Fetches a node, and hands a refusal on as it came.
pub(crate) fn fetched<N: Nodes>(
    nodes: &mut N,
    child: &Child,
    into: &mut NodeView,
) -> Result<(), ProveErr>
    requires { MayFetch N.Hash.of (N.stands nodes.old) child.now }
    ensures kept { N.kept nodes.old nodes.new }
    ensures counted { N.fetches nodes.new ≡ next_count (N.fetches nodes.old) }
    ensures shows { OnOk result (ShowsNode N.Hash.of (N.stands nodes.old) child.now into.new) }
    ensures causes { SearchCauses (N.stands nodes.old) (N.faults nodes.old) (N.faults nodes.new)
        result }
    ensures refused { IfErr result (IsHandedOn (N.refusal nodes.new)) }
    ensures answered { TellsRefusal of_nodes (N.refusal nodes.old) (N.refusal nodes.new) result }
{
    match nodes.fetch(child, into) {
        Ok(()) => Ok(()),
        Err(error) => Err(ProveErr::from(error)),
    }
}
