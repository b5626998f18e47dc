//! How many records were handed out, and how many of them are how near.

ghost use Rattle.std.specs.Prelude.{◌≡◌, ◌+◌, ◌-◌, ◌^◌, ◌<◌, ◌∷◌, [], ◌++◌, List, min, if◌then◌else◌};
ghost use Rattle.mr_record.specs.declared.record.Record as types;
ghost use Rattle.mr_check.specs.private.Counting.{CountsRecords, no_counts, is_near, is_in, other_radius};

use mr_proof::Around;
use mr_record::Record;

// Counts of records, which stand still at the type's end.
#[derive(Clone, Copy)]
pub(crate) struct RadiusCounts {
    pub(crate) found: u64,
    pub(crate) nearer: u64,
    pub(crate) within: u64,
}

pub(crate) fn no_counts() -> RadiusCounts
    ensures { result ≡ no_counts }
{
    RadiusCounts {
        found: 0,
        nearer: 0,
        within: 0,
    }
}

// Whether the record is nearer than the radius of nearest records.
fn is_near(around: Option<Around>, radius: Option<u128>, one: &Record) -> bool
    ensures { result ≡ is_near around radius one.now }
{
    match around {
        None => false,
        Some(around) => match radius {
            None => false,
            Some(radius) => one.rect.dist2(&around.center) < radius,
        },
    }
}

fn is_in(around: Option<Around>, radius: Option<u128>, one: &Record) -> bool
    ensures { result ≡ is_in around radius one.now }
{
    match around {
        None => false,
        Some(around) => match radius {
            None => false,
            Some(radius) => one.rect.dist2(&around.center) <= radius,
        },
    }
}

fn one_more(count: u64, yes: bool) -> u64
    ensures { result ≡ (if yes then min (count + 1) (2 ^ 64 - 1) else count) }
{
    if yes { count.saturating_add(1) } else { count }
}

// Counts one more record.
pub(crate) fn count(
    tally: &mut RadiusCounts,
    around: Option<Around>,
    radius: Option<u128>,
    one: &Record,
)
    ensures { (rs : List types.Record) → CountsRecords around radius rs tally.old
        → CountsRecords around radius (rs ++ one.now ∷ []) tally.new }
{
    let near = is_near(around, radius, one);
    let within = is_in(around, radius, one);
    tally.found = tally.found.saturating_add(1);
    tally.nearer = one_more(tally.nearer, near);
    tally.within = one_more(tally.within, within);
}

fn number_of(around: &Around) -> u64
    ensures value { result ≡ around.now.k }
    ensures bound { result < 2 ^ 16 }
{
    u64::from(around.k)
}

// Whether the squared radius is another than that of the records that were counted.
pub(crate) fn other_radius(
    tally: &RadiusCounts,
    around: Option<Around>,
    radius: Option<u128>,
) -> bool
    ensures { (rs : List types.Record) → CountsRecords around radius rs tally.now
        → result ≡ other_radius around radius rs }
{
    match around {
        None => false,
        Some(around) => {
            let k = number_of(&around);
            match radius {
                None => k <= tally.found,
                Some(_) => k <= tally.nearer || tally.within < k,
            }
        }
    }
}
