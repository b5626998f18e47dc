//! The layers that a batch asks for.

ghost use Rattle.std.specs.Prelude.{◌≡◌};
ghost use Rattle.std.specs.List.{list_any};
ghost use Rattle.mr_here.specs.Layers.{has_layer, lacks_layers};

use mr_batch::{Batch, Change};
use mr_record::Version;

// Whether a record with a layer above 0 comes in.
fn adds_layer(change: &Change) -> bool
    ensures { result ≡ has_layer change.now }
{
    match change {
        Change::Add(one) => one.layer > 0,
        Change::Remove(_) => false,
    }
}

// The same of any change of the batch.
fn any_layer(batch: &Batch) -> bool
    ensures { result ≡ list_any has_layer batch.now.list }
{
    for i in 0..batch.len() {
        if adds_layer(batch.change(i)) {
            return true;
        }
    }
    false
}

/// Whether maps of this version have no layers, and the batch adds a record with one.
pub(crate) fn lacks(version: Version, batch: &Batch) -> bool
    ensures { result ≡ lacks_layers version batch.now.list }
{
    match version {
        Version::One => any_layer(batch),
        Version::Two => false,
    }
}
