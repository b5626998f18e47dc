//! The answer to a query among some records.

ghost use Rattle.std.specs.Prelude.{◌≡◌, ◌≤◌, IfOk, OnOk, filter};
ghost use Rattle.mr_geom.specs.Plane.{touches};
ghost use Rattle.mr_record.specs.declared.record.Record as types;
ghost use Rattle.mr_query.specs.Layers.{is_on};
ghost use Rattle.mr_query.specs.Nearest.{nearest, ranked};
ghost use Rattle.mr_query.specs.Scan.{by_number, on_layers, scan_shape, scan};
ghost use Rattle.mr_query.specs.declared.query.Shape.TheVariants as shapes;

use crate::{Query, Shape, Window, share_layer};
use mr_geom::{Point, Rect, Region};
use mr_record::{LAYER_LIMIT, Record};
use std::alloc::{AllocError, Global};

// ---- a window

// The records that the window meets.
fn reached(records: &mut Vec<Record>, window: &Rect)
    ensures { records.new.items ≡ filter
        (λ (r : types.Record). touches window.now r.rect) records.old.items }
{
    let window = Window { rect: *window };
    records.retain(|r| window.meets(&r.rect));
}

// In rising number; equal ones keep their order.
fn sorted(records: &mut Vec<Record>) -> Result<(), AllocError>
    ensures { OnOk result (records.new.items ≡ by_number records.old.items) }
{
    records.sort_by_key(|r| r.number)?;
    Ok(())
}

#[tactic(auto, unfolding(crate::specs::Scan::scan_shape))]
fn answer_window(records: &mut Vec<Record>, window: &Rect) -> Result<(), AllocError>
    ensures { OnOk result (records.new.items ≡ scan_shape records.old.items
        (shapes.Window window.now)) }
{
    reached(records, window);
    sorted(records)
}

// ---- nearest records

// By rising distance, and of one distance by rising number; equal ones keep their order.
fn by_distance(records: &mut Vec<Record>, center: &Point) -> Result<(), AllocError>
    ensures { OnOk result (records.new.items ≡ ranked center.now records.old.items) }
{
    records.sort_by_key(|r| (r.rect.dist2(center), r.number))?;
    Ok(())
}

#[tactic(auto, unfolding(crate::specs::Nearest::nearest))]
fn keep_nearest(records: &mut Vec<Record>, center: &Point, k: u16) -> Result<(), AllocError>
    ensures { OnOk result (records.new.items ≡ nearest center.now k records.old.items) }
{
    by_distance(records, center)?;
    records.truncate(usize::from(k));
    Ok(())
}

/// The `k` of these records that are nearest to the point, or all where there are fewer: by rising
/// distance, and of one distance by rising number. Equal ones keep their order.
pub fn rank(
    alloc: Global,
    list: &[Record],
    center: &Point,
    k: u16,
) -> Result<Vec<Record>, AllocError>
    ensures { IfOk result (λ v. v.items ≡ nearest center.now k list.now) }
{
    let mut records = Vec::from_slice(alloc, list)?;
    keep_nearest(&mut records, center, k)?;
    Ok(records)
}

// ---- both

// Whether a record is on one of these layers.
fn is_on(one: &Record, layers: u64) -> bool
    ensures { result ≡ is_on layers one.now }
{
    if one.layer > LAYER_LIMIT {
        return false;
    }
    share_layer(1 << one.layer, layers)
}

// The records on these layers.
fn keep_layers(records: &mut Vec<Record>, layers: u64)
    ensures { records.new.items ≡ on_layers layers records.old.items }
{
    records.retain(|r| is_on(r, layers));
}

#[tactic(auto, unfolding(crate::specs::Scan::scan_shape))]
fn answer_shape(records: &mut Vec<Record>, shape: &Shape) -> Result<(), AllocError>
    ensures { OnOk result (records.new.items ≡ scan_shape records.old.items shape.now) }
{
    match shape {
        Shape::Window(window) => answer_window(records, window),
        Shape::Nearest { center, k } => keep_nearest(records, center, *k),
    }
}

/// The answer to the query among those of these records that are on a layer that it asks for. For a
/// window these are those that it meets, in rising number, of which equal ones keep their order; or
/// the nearest, as `rank` has them.
pub fn answer(records: Vec<Record>, q: &Query) -> Result<Vec<Record>, AllocError>
    ensures { IfOk result (λ v. v.items ≡ scan records.items q.now) }
{
    let mut records = records;
    keep_layers(&mut records, q.layers());
    answer_shape(&mut records, &q.shape)?;
    Ok(records)
}
