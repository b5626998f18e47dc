//! The layers that a query asks for.

ghost use Rattle.std.specs.Prelude.{◌≡◌};
ghost use Rattle.mr_query.specs.Layers.{asked_layers, share_layer};

use crate::Query;

/// The mask of all layers.
pub const ALL_LAYERS: u64 = u64::MAX;

/// Whether two masks share a layer.
pub fn share_layer(a: u64, b: u64) -> bool
    ensures { result ≡ share_layer a b }
{
    a & b != 0
}

impl Query {
    /// The mask of the layers that it asks for: those that it names, or all.
    pub fn layers(&self) -> u64
        ensures { result ≡ asked_layers self.now }
    {
        match self.mask {
            Some(mask) => mask,
            None => ALL_LAYERS,
        }
    }
}
