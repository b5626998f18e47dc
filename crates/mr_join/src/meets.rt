//! The records that meet one of some rectangles.

ghost use Rattle.std.specs.Prelude.{◌≡◌, IfOk};
ghost use Rattle.mr_join.specs.Meets.{meets_one, meets_way};
ghost use Rattle.mr_join.specs.private.MeetsLaws.{meets_narrow};

use mr_count::Choice;
use mr_geom::Rect;
use mr_proof::Way;
use mr_reach::Reach;
use std::alloc::{AllocError, Global};
use std::marker::Model;

/// The records that meet one of some rectangles, on whatever layers. Of a part that meets one the
/// proof opens the node, and all others it leaves out.
///
/// The rectangles are kept so that a question takes in proportion to log n steps whatever they are,
/// and a rectangle some 90 bytes. No clause says so. Contracts see their list.
#[derive(Drop)]
pub struct Meets {
    reach: Box<Reach>,
}

impl Model for Meets {
    ghost use Rattle.std.specs.Prelude.{List, box_value};
    ghost use Rattle.mr_geom.specs.Rectangle.{Rectangle};

    ghost Value = { List Rectangle };

    ghost view = { λ m. box_value m.reach };
}

impl Meets {
    /// Of these rectangles, in map units. It takes n log n steps.
    pub fn of(alloc: Global, list: &[Rect]) -> Result<Meets, AllocError>
        ensures { IfOk result (λ m. meets_way m ≡ meets_way list.now) }
    {
        let reach = Box::new(alloc, Reach::of(alloc, list)?)?;
        Ok(Meets { reach })
    }

    // Whether one of them meets the rectangle.
    fn meets(&self, rect: &Rect) -> bool
        ensures { result ≡ meets_one self.now rect.now }
    {
        self.reach.meets(rect)
    }
}

impl Choice for Meets {
    ghost ways = { λ s. meets_way s };

    fn way(&self, rect: &Rect, _mask: u64) -> Way {
        Way::of(self.meets(rect))
    }

    ghost narrow = { λ s a b o q f g inside among closed.
        meets_narrow s a b o q f g inside among closed };
}
