//! Findings of a map whose nodes are fetched one by one.

ghost use Rattle.std.specs.Prelude.{◌≡◌, ◌≤◌, ◌+◌, IfOk, IfErr, IfSome, OnOk};
ghost use Rattle.mr_tree.specs.Digest.{by};
ghost use Rattle.mr_tree.specs.Nodes.{HasSomeCause, TellsRefusal};
ghost use Rattle.mr_query.specs.Word.{IsAskable};
ghost use Rattle.mr_clash.specs.Finding.{found, opened_accepted, ShowsCollision, FetchesFew, FindsFor};
ghost use Rattle.mr_bundle.specs.Proofs.{as_given, IsLastRefusal};
ghost use Rattle.mr_command.specs.private.Steps.{SaysRefusal};
ghost use Rattle.mr_pages.specs.Opening.{of_nodes};

use crate::ending::{Ending, Halt};
use crate::opening::unopened;
use mr_clash::{AuditErr, Finding, audit};
use mr_pages::MapErr;
use mr_query::Query;
use mr_tree::{Nodes, NodesErr};
use std::alloc::Global;

// What is found of the bytes of a proof, by these nodes, or why one of them was not fetched.
pub(crate) fn finding_of_nodes<N: Nodes>(
    alloc: Global,
    nodes: &mut N,
    query: &Query,
    bytes: &[u8],
) -> Result<Finding, NodesErr>
    requires { IsAskable query.now }
    ensures kept { N.kept nodes.old nodes.new }
    ensures told { IfSome (N.stands nodes.old).tree (λ t. IfOk result (λ f.
        f ≡ found (by (N.stands nodes.old).version N.Hash.of) t (N.stands nodes.old).batch
        query.now bytes.now)) }
    ensures judged { IfOk result (λ f. FindsFor N.Hash.of (N.stands nodes.old) (N.says nodes.old)
        query.now bytes.now f) }
    ensures collides { IfOk result (λ f. ShowsCollision N.Hash.of f) }
    ensures fetched { IfSome (N.stands nodes.old).tree (λ t. N.fetches nodes.new ≤
        N.fetches nodes.old + opened_accepted (by (N.stands nodes.old).version N.Hash.of) t
        (N.stands nodes.old).batch query.now bytes.now) }
    ensures fetches { FetchesFew N.Hash.of (N.stands nodes.old) (N.says nodes.old) query.now
        bytes.now (N.fetches nodes.old) (N.fetches nodes.new) }
    ensures cause { IfErr result (HasSomeCause (N.stands nodes.old) (N.faults nodes.old)
        (N.faults nodes.new)) }
    ensures refused { IfErr result (IsLastRefusal (N.refusal nodes.new)) }
    ensures answered { TellsRefusal as_given (N.refusal nodes.old) (N.refusal nodes.new) result }
    ensures quiet { OnOk result (N.faults nodes.new ≡ N.faults nodes.old) }
{
    match audit(alloc, nodes, query, bytes) {
        Ok(finding) => Ok(finding),
        Err(AuditErr::NoMemory) => Err(NodesErr::NoMemory),
        Err(AuditErr::Nodes(error)) => Err(error),
    }
}

// What a command comes to without a node of the map in a file, by why that was not fetched.
pub(crate) fn unfetched(alloc: Global, name: &str, error: &NodesErr) -> Result<Ending, Halt>
    ensures { SaysRefusal name.now (of_nodes error.now) result }
{
    unopened(alloc, name, &MapErr::from(*error))
}
