//! The bytes of a bundle.

ghost use Rattle.std.specs.Prelude.{◌≡◌, ◌++◌, OnOk};
ghost use Rattle.mr_bundle.specs.Bundle.{IsShort, part_bytes};

use crate::Text;
use std::alloc::AllocError;

/// Puts a proof behind its length.
pub fn put_part(out: &mut Text, proof: &[u8]) -> Result<(), AllocError>
    requires { IsShort proof.now }
    ensures { OnOk result (out.new.bytes.items ≡ out.old.bytes.items ++ part_bytes proof.now) }
{
    out.put(&(proof.len() as u32).to_be_bytes())?;
    out.put(proof)
}
