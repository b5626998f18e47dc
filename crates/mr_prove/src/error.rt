//! Why a proof was not written.

ghost use Rattle.std.specs.Prelude.{◌≡◌};
ghost use Rattle.mr_prove.specs.Causes.{of_nodes, of_sink};

use mr_outside::SinkErr;
use mr_tree::NodesErr;
use std::alloc::AllocError;

/// Why a proof was not written.
#[derive(Clone, Copy, Debug)]
pub enum ProveErr {
    /// A node was not fetched, for another reason than want of memory.
    Nodes(NodesErr),
    /// The sink failed; its count of faults says so.
    Sink,
    /// Memory ran out, of the nodes, of the sink or of the search.
    NoMemory,
}

impl From<NodesErr> for ProveErr {
    ghost use Rattle.std.specs.Prelude.{◌≡◌};
    ghost use Rattle.mr_prove.specs.Causes.{of_nodes};

    ghost from_gives = { λ e p. p ≡ of_nodes e };

    fn from(error: NodesErr) -> ProveErr {
        match error {
            NodesErr::NoMemory => ProveErr::NoMemory,
            other => ProveErr::Nodes(other),
        }
    }
}

impl From<SinkErr> for ProveErr {
    ghost use Rattle.std.specs.Prelude.{◌≡◌};
    ghost use Rattle.mr_prove.specs.Causes.{of_sink};

    ghost from_gives = { λ e p. p ≡ of_sink e };

    fn from(error: SinkErr) -> ProveErr {
        match error {
            SinkErr::Fault => ProveErr::Sink,
            SinkErr::NoMemory => ProveErr::NoMemory,
        }
    }
}

impl From<AllocError> for ProveErr {
    ghost use Rattle.std.specs.Prelude.{◌≡◌};
    ghost use Rattle.mr_prove.specs.declared.error.ProveErr.TheVariants.{NoMemory};

    ghost from_gives = { λ _ p. p ≡ NoMemory };

    fn from(_error: AllocError) -> ProveErr {
        ProveErr::NoMemory
    }
}
