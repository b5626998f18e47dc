//! Texts in memory.

ghost use Rattle.std.specs.Prelude.{◌≡◌, ◌++◌, All, IfOk, OnOk};
ghost use Rattle.mr_record.specs.Record.{HasLayer};
ghost use Rattle.mr_record.specs.RecordText.{text_of};
ghost use Rattle.mr_record.specs.declared.version.Version.TheVariants.{One};

use mr_bundle::Text;
use mr_outside::SinkErr;
use mr_record::{Record, Version, write_lines};
use std::alloc::{AllocError, Global};

// Puts a line of this version for each record.
pub(crate) fn put_records(
    out: &mut Text,
    version: Version,
    list: &[Record],
) -> Result<(), AllocError>
    requires { All (HasLayer version) list.now }
    ensures { OnOk result (out.new.bytes.items ≡ out.old.bytes.items ++ text_of version list.now) }
{
    match write_lines(out, version, list) {
        Ok(()) => Ok(()),
        Err(SinkErr::NoMemory) => Err(AllocError),
        Err(SinkErr::Fault) => unreachable!(),
    }
}

/// A line of the first version for each record, in this order, in memory.
pub fn text_of_records(alloc: Global, list: &[Record]) -> Result<Text, AllocError>
    requires { All (HasLayer One) list.now }
    ensures { IfOk result (λ t. t.bytes.items ≡ text_of One list.now) }
{
    let mut out = Text::new(alloc);
    put_records(&mut out, Version::One, list)?;
    Ok(out)
}
