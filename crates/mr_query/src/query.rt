//! Queries, and why a word is none.

ghost use Rattle.std.specs.Prelude.{◌≡◌, ◌^◌, ◌<◌, None, IfSome};
ghost use Rattle.mr_query.specs.Word.{asks, FitsPoint, IsCounted, IsShape, IsAskable, IsQuery};
ghost use Rattle.mr_query.specs.declared.query.Shape.TheVariants as shapes;

use mr_geom::{Point, Rect};

/// As many records as a query for the nearest may ask for.
pub const NEIGHBOUR_LIMIT: u16 = 1024;

/// Which records are asked for, by where they are.
#[derive(Clone, Copy, Debug, PartialEq, Eq)]
pub enum Shape {
    /// The records whose rectangle shares a point with this one.
    Window(Rect),
    /// The `k` records that are nearest to the point, `k` from 1 to 1,024; of equally near ones
    /// those of lesser number.
    Nearest { center: Point, k: u16 },
}

/// What is asked of a map.
#[derive(Clone, Copy, Debug, PartialEq, Eq)]
pub struct Query {
    pub shape: Shape,
    /// The layers that are asked for, a bit each, that of layer 0 the lowest. A query that names
    /// none asks for all, and has proofs of both versions; one that does has proofs of version 2
    /// alone.
    pub mask: Option<u64>,
}

impl Query {
    /// Of records on all layers.
    pub fn of(shape: Shape) -> Query
        ensures { result ≡ asks shape None }
    {
        Query { shape, mask: None }
    }
}

fn is_window(one: &Rect)
    ensures { IsShape (shapes.Window one.now) }
{
    let _corners = one.corners();
}

fn is_point(one: &Point)
    ensures { FitsPoint one.now }
{
    let _x = one.x;
    let _y = one.y;
}

fn is_shape(one: &Shape)
    requires { IsCounted one.now }
    ensures { IsShape one.now }
{
    match one {
        Shape::Window(window) => is_window(window),
        Shape::Nearest { center, k: _ } => is_point(center),
    }
}

fn is_number(_number: u64)
    ensures { _number < 2 ^ 64 }
{}

fn is_mask(named: Option<u64>)
    ensures { IfSome named (λ mask. mask < 2 ^ 64) }
{
    if let Some(mask) = named {
        is_number(mask);
    }
}

/// Does nothing: it is there for proofs, which learn that each value of the type is a query, if it
/// is a window or asks for 1 to 1,024 records.
pub fn is_query(one: &Query)
    requires { IsAskable one.now }
    ensures { IsQuery one.now }
{
    is_shape(&one.shape);
    is_mask(one.mask);
}

/// Why a word is no query: the first of these that applies.
#[derive(Clone, Copy, Debug, PartialEq, Eq)]
pub enum QueryFault {
    /// The word does not begin with the name of a kind of query and a colon.
    Kind,
    /// The parts between commas are not as many as the kind wants.
    Parts,
    /// The first part, counted from 1, that is no canonical decimal in its range.
    Number { part: u8 },
    /// A rectangle whose left side is right of its right side, or its lower side above its upper.
    Order,
    /// What follows the first `/` is not 16 lower-case hexadecimal digits.
    Mask,
}
