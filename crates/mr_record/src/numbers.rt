//! The numbers of the records that a text had so far.

ghost use Rattle.std.specs.Prelude.{◌≡◌, [], IfOk};
ghost use Rattle.mr_record.specs.private.Numbers.{HoldsNumbers, KnowsNumbers};
ghost use Rattle.mr_record.specs.RecordText.{has_number};

use crate::Record;
use crate::reader::Memory;
use std::alloc::{AllocError, Global};
use std::collections::BTreeSet;

// Which numbers were read. As long as each is greater than those before it, that is told by the
// greatest alone; a set is kept from the first on that is not.
#[derive(Drop)]
pub(crate) struct Numbers {
    alloc: Global,
    // all are below it
    end: u128,
    set: Option<BTreeSet<u64>>,
}

// The numbers of some records.
fn numbers_of(alloc: Global, records: &[Record]) -> Result<BTreeSet<u64>, AllocError>
    ensures { IfOk result (λ s. HoldsNumbers s records.now) }
{
    let mut numbers = BTreeSet::new(alloc);
    for one in records {
        numbers.insert(one.number)?;
    }
    Ok(numbers)
}

fn is_among(records: &[Record], number: u64) -> bool
    ensures { result ≡ has_number number records.now }
{
    records.iter().any(|record| record.number == number)
}

impl Numbers {
    pub(crate) fn new(alloc: Global) -> Numbers
        ensures { KnowsNumbers result [] }
    {
        Numbers {
            alloc,
            end: 0,
            set: None,
        }
    }

    // Whether one of the earlier records has the number.
    pub(crate) fn contains(&self, earlier: &[Record], number: u64) -> bool
        requires { KnowsNumbers self.now earlier.now }
        ensures { result ≡ has_number number earlier.now }
    {
        if u128::from(number) >= self.end {
            return false;
        }
        match &self.set {
            Some(numbers) => numbers.contains(&number),
            None => is_among(earlier, number),
        }
    }
}

impl Memory<Record> for Numbers {
    ghost use Rattle.mr_record.specs.private.Numbers.{KnowsNumbers};

    ghost keeps = { λ numbers earlier. KnowsNumbers numbers earlier };

    fn keep(&mut self, earlier: &[Record], one: &Record) -> Result<(), AllocError> {
        let number = u128::from(one.number);
        if self.set.is_none() && number < self.end {
            self.set = Some(numbers_of(self.alloc, earlier)?);
        }
        if let Some(numbers) = &mut self.set {
            numbers.insert(one.number)?;
        }
        self.end = self.end.max(number + 1);
        Ok(())
    }
}
