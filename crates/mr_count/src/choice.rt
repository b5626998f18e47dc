//! Choices of the parts of a map.

ghost use Rattle.std.specs.Prelude.{◌≡◌};
ghost use Rattle.mr_query.specs.declared.key.Key as keys;
ghost use Rattle.mr_proof.specs.Tight.{IsNarrow};
ghost use Rattle.mr_proof.specs.declared.way.Way as types;

use mr_geom::Rect;
use mr_proof::Way;

/// Which parts of a map a proof opens, and which it prunes since nothing or all in them is asked
/// for.
///
/// A part is known by the least rectangle round its records, in map units, and by the mask of their
/// layers, a bit each, that of layer 0 the lowest. What lies in a part that is pruned, and has no
/// layers but that part's, has the same way, so that the part's entry says what is asked of it.
pub trait Choice {
    // what each part is to be
    ghost ways: { Self → keys.Key → types.Way };

    /// What a part with this rectangle and this mask is to be.
    fn way(&self, rect: &Rect, mask: u64) -> Way
        ensures { result ≡ ways self.now (record { rect = rect.now; mask = mask }) };

    // what lies in a part that is pruned has the same way
    ghost narrow: { (s : Self) → IsNarrow (ways s) };
}
