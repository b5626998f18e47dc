//! What a query counts.

ghost use Rattle.std.specs.Prelude.{◌≡◌};
ghost use Rattle.mr_command.specs.private.Windows.{ways_inside};
ghost use Rattle.mr_plan.specs.Counts.{count_ways};
ghost use Rattle.mr_plan.specs.Words.{IsWindow};

use mr_count::Inside;
use mr_query::{Query, Shape};

// The letter of the proofs of counts.
pub(crate) const COUNT_LETTER: u8 = b'C';

// The records that lie inside the window of a query and are on one of the layers that it asks for.
pub(crate) fn inside_of(query: &Query) -> Inside
    requires { IsWindow query.now.shape }
    ensures { ways_inside result ≡ count_ways query.now }
{
    match &query.shape {
        Shape::Window(window) => Inside {
            window: *window,
            mask: query.layers(),
        },
        Shape::Nearest { center: _, k: _ } => unreachable!(),
    }
}
