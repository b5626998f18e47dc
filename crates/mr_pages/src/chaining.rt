//! The chain of free pages, page by page.

ghost use Rattle.std.specs.Prelude.{◌≡◌, ◌≢◌, length, IfErr};
ghost use Rattle.mr_pages.specs.Source.{ReadsWithinRoom, SaysOnce, IfNotFailed, Stay, left};
ghost use Rattle.mr_pages.specs.private.Walks.{ChainsOn, GivesPages, StepsOn};

use crate::source::Source;
use crate::visited::Visited;
use crate::{MapErr, MapFault, MapRule};

// Comes to a page of the chain, and answers which it names, if it is a free page that was not
// reached before.
fn step<P: Source>(pages: &mut P, page: u32, seen: &mut Visited) -> Result<u32, MapErr>
    requires some { page ≢ 0 }
    requires room { length seen.old.reached.items ≡ (P.state pages.old).pages }
    ensures told { IfNotFailed result (GivesPages (P.state pages.old) seen.old seen.new
        (StepsOn (P.state pages.old).pages page seen.old result seen.new)) }
    ensures of_one_read { IfErr result SaysOnce }
    ensures room { length seen.new.reached.items ≡ length seen.old.reached.items }
    ensures goes { ReadsWithinRoom (P.state pages.old) (P.state pages.new) (left seen.old)
        (left seen.new)
        result }
    ensures holds { P.held pages.new ≡ P.held pages.old }
    ensures stay { Stay (P.keeps pages.old) (P.keeps pages.new) }
{
    if let Some(_) = seen.enter(page) {
        return Err(MapErr::Map(MapFault {
            page,
            rule: MapRule::Free,
        }));
    }
    match pages.free(page)? {
        Some(after) => Ok(after),
        None => Err(MapErr::Map(MapFault {
            page,
            rule: MapRule::Free,
        })),
    }
}

/// Follows the chain of free pages from this one on, up to the first fault on it.
pub fn chain<P: Source>(pages: &mut P, first: u32, seen: &mut Visited) -> Result<(), MapErr>
    requires { length seen.old.reached.items ≡ (P.state pages.old).pages }
    ensures told { IfNotFailed result (GivesPages (P.state pages.old) seen.old seen.new
        (ChainsOn (P.state pages.old).pages first seen.old result seen.new)) }
    ensures of_one_read { IfErr result SaysOnce }
    ensures room { length seen.new.reached.items ≡ length seen.old.reached.items }
    ensures goes { ReadsWithinRoom (P.state pages.old) (P.state pages.new) (left seen.old)
        (left seen.new)
        result }
    ensures holds { P.held pages.new ≡ P.held pages.old }
    ensures stay { Stay (P.keeps pages.old) (P.keeps pages.new) }
{
    let mut next = first;
    for _ in 0..pages.count() {
        if next == 0 {
            return Ok(());
        }
        next = step::<P>(pages, next, seen)?;
    }
    Ok(())
}
