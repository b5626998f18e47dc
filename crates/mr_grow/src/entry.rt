//! The entries of a node, and which of them takes a record.

ghost use Rattle.std.specs.Prelude.{◌≡◌, ◌<◌, length, map, IfOk};
ghost use Rattle.mr_geom.specs.Rectangle.{Rectangle};
ghost use Rattle.mr_split.specs.Choice.{origin as the_origin, choose as chosen};
ghost use Rattle.mr_grow.specs.Grow.{outline as outline_of};

use mr_geom::Rect;
use mr_record::Record;
use mr_split::choose;
use mr_tree::{Child, Tree, bounds};
use std::alloc::{AllocError, Global};

/// An entry of a node: a record, a node, or what is said of one.
pub trait HasRect {
    // its rectangle
    ghost rect_of: { Self → Rectangle };

    /// Its rectangle, in map units.
    fn rect(&self) -> Rect
        ensures { result ≡ rect_of self.now };
}

impl HasRect for Record {
    ghost rect_of = { λ r. r.rect };

    fn rect(&self) -> Rect {
        self.rect
    }
}

impl HasRect for Child {
    ghost rect_of = { λ c. c.rect };

    fn rect(&self) -> Rect {
        self.rect
    }
}

impl HasRect for Tree {
    ghost use Rattle.mr_grow.specs.Grow.{outline as outline_of};

    ghost rect_of = { outline_of };

    fn rect(&self) -> Rect {
        outline(self)
    }
}

// The point at which both coordinates are 0.
fn origin() -> Rect
    ensures { result ≡ the_origin }
{
    match Rect::new(0, 0, 0, 0) {
        Some(rect) => rect,
        None => unreachable!(),
    }
}

// The rectangle of a node.
fn outline(tree: &Tree) -> Rect
    ensures { result ≡ outline_of tree.now }
{
    match bounds(tree) {
        Some(rect) => rect,
        None => origin(),
    }
}

/// The rectangles of some entries, in map units.
pub fn rects_of<T: HasRect>(alloc: Global, entries: &[T]) -> Result<Vec<Rect>, AllocError>
    ensures { IfOk result (λ v. v.items ≡ map T.rect_of entries.now) }
{
    entries.iter().map(|entry| entry.rect()).collect(alloc)
}

/// The position of the entry that takes a record.
pub fn place_for<T: HasRect>(
    alloc: Global,
    entries: &[T],
    one: &Record,
) -> Result<usize, AllocError>
    requires { 0 < length entries.now }
    ensures value { IfOk result (λ at. at ≡ chosen (map T.rect_of entries.now) one.now.rect) }
    ensures within { IfOk result (λ at. at < length entries.now) }
{
    let rects = rects_of(alloc, entries)?;
    Ok(choose(&rects, &one.rect))
}
