//! The records that lie inside a window.

ghost use Rattle.std.specs.Prelude.{◌≡◌, ◌↔◌, List, true, ◌&&◌, All};
ghost use Rattle.mr_geom.specs.Plane.{Inside as LiesInside, touches};
ghost use Rattle.mr_geom.specs.Rectangle.{Rectangle, IsOrdered};
ghost use Rattle.mr_record.specs.Record.{IsRecord};
ghost use Rattle.mr_record.specs.declared.record.Record as types;
ghost use Rattle.mr_record.specs.declared.version.Version.{Version};
ghost use Rattle.mr_tree.specs.Digest.{by};
ghost use Rattle.mr_query.specs.Layers.{share_layer};
ghost use Rattle.mr_count.specs.Chosen.{number_whole};
ghost use Rattle.mr_count.specs.Inside.{lies_in, has_only, inside_way, count_inside};
ghost use Rattle.mr_count.specs.Accepted.{AcceptedCountIsTrue};
ghost use Rattle.mr_count.specs.private.InsideLaws.{inside_narrow};

use crate::Choice;
use crate::chosen::choice_is_lawful;
use mr_geom::Rect;
use mr_proof::{Way, accepted_matches_honest};
use mr_query::share_layer;
use mr_tree::Hashes;

/// The records that lie inside a window and are on one of some layers. A part that lies inside it
/// and has no other layers is counted by its entry alone. One that has other layers besides, or
/// that only meets the window, is opened.
#[derive(Clone, Copy, Debug, PartialEq, Eq)]
pub struct Inside {
    /// In map units; what lies inside it may share its sides.
    pub window: Rect,
    /// The layers, a bit each, that of layer 0 the lowest.
    pub mask: u64,
}

// Whether the first lies in the second.
fn lies_in(one: &Rect, window: &Rect) -> bool
    ensures { result ≡ lies_in one.now window.now }
{
    let _corners = one.corners();
    one.inside(window)
}

// Whether all layers of a mask are among these.
fn has_only(mask: u64, layers: u64) -> bool
    ensures { result ≡ has_only mask layers }
{
    mask | layers == layers
}

// Whether a record with this rectangle and these layers may lie inside.
fn may_hold(one: &Inside, rect: &Rect, mask: u64) -> bool
    ensures { result ≡ (touches one.now.window rect.now && share_layer mask one.now.mask) }
{
    one.window.meets(rect) && share_layer(mask, one.mask)
}

// Whether all records do that have this rectangle round them and these layers.
fn holds_all(one: &Inside, rect: &Rect, mask: u64) -> bool
    ensures { result ≡ (lies_in rect.now one.now.window && has_only mask one.now.mask) }
{
    lies_in(rect, &one.window) && has_only(mask, one.mask)
}

impl Choice for Inside {
    ghost ways = { λ s. inside_way s.window s.mask };

    fn way(&self, rect: &Rect, mask: u64) -> Way {
        if !may_hold(self, rect, mask) {
            return Way::Skip;
        }
        if holds_all(self, rect, mask) {
            Way::Whole
        } else {
            Way::Open
        }
    }

    ghost narrow = { λ s a b o q f g inside among closed.
        inside_narrow s.window s.mask a b o q f g inside among closed };
}

/// Does nothing: it is there for proofs, which learn that `Inside` counts what it says. Of some
/// records those are taken whole that lie inside the window and are on one of the layers. And where
/// a proof with this letter is accepted against the root digest of a map, of whatever version, what
/// it gives counts just those of the map, or a collision is in hand.
pub fn inside_is_counted<H: Hashes>(one: &Inside, kind: u8, proof: &[u8])
    ensures sides { (r : Rectangle) → IsOrdered r
        → (lies_in r one.now.window ≡ true) ↔ LiesInside r one.now.window }
    ensures number { (rs : List types.Record) → All IsRecord rs
        → number_whole (inside_way one.now.window one.now.mask) rs
        ≡ count_inside one.now.window one.now.mask rs }
    ensures accepted { (v : Version) → AcceptedCountIsTrue (by v H.of) kind one.now.window
        one.now.mask proof.now }
{
    choice_is_lawful(one, kind);
    accepted_matches_honest::<H>(proof);
}
