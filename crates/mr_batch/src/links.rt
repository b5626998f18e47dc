//! The last earlier change of the same record, for each change of a batch.

ghost use Rattle.std.specs.Prelude.{IfOk};
ghost use Rattle.mr_batch.specs.Earlier.{IsLinked};

use crate::Change;
use std::alloc::{AllocError, Global};
use std::collections::BTreeMap;

// The place of the last earlier change of the same record number, for each change.
pub(crate) fn links(alloc: Global, changes: &[Change]) -> Result<Vec<Option<usize>>, AllocError>
    ensures { IfOk result (λ v. IsLinked changes.now v.items) }
{
    let mut links = Vec::new(alloc);
    let mut places: BTreeMap<u64, usize> = BTreeMap::new(alloc);
    for (i, change) in changes.iter().enumerate() {
        let last = places.insert(change.number(), i)?;
        links.push(last)?;
    }
    Ok(links)
}
