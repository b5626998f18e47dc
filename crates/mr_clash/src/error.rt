//! Why an audit came to no finding.

ghost use Rattle.std.specs.Prelude.{◌≡◌};
ghost use Rattle.mr_clash.specs.Causes.{of_nodes};
ghost use Rattle.mr_clash.specs.declared.error.AuditErr.TheVariants as errors;

use mr_tree::NodesErr;
use std::alloc::AllocError;

/// Why an audit came to no finding.
#[derive(Clone, Copy, Debug)]
pub enum AuditErr {
    /// A node was not fetched, for another reason than want of memory.
    Nodes(NodesErr),
    /// Memory ran out, of the nodes or of the audit.
    NoMemory,
}

impl From<NodesErr> for AuditErr {
    ghost use Rattle.std.specs.Prelude.{◌≡◌};
    ghost use Rattle.mr_clash.specs.Causes.{of_nodes};

    ghost from_gives = { λ e a. a ≡ of_nodes e };

    fn from(error: NodesErr) -> AuditErr {
        match error {
            NodesErr::NoMemory => AuditErr::NoMemory,
            other => AuditErr::Nodes(other),
        }
    }
}

impl From<AllocError> for AuditErr {
    ghost from_gives = { λ _ e. e ≡ errors.NoMemory };

    fn from(_error: AllocError) -> AuditErr {
        AuditErr::NoMemory
    }
}
