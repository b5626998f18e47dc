//! The bytes of a journal's body.

ghost use Rattle.std.specs.Prelude.{◌≡◌, ◌<◌, ◌++◌, ◌∷◌, IfOk, OnOk};
ghost use Rattle.mr_journal.specs.Format.{spelled_number, spelled_page, page_of};

use std::alloc::{AllocError, Global};

// Four bytes that spell a number, the highest first.
fn spell_number(bytes: &mut Vec<u8>, number: u32) -> Result<(), AllocError>
    ensures { OnOk result (bytes.new.items ≡ bytes.old.items ++ spelled_number number) }
{
    bytes.extend_from_slice(&[
        (number / 0x100_0000) as u8,
        (number / 0x1_0000 % 0x100) as u8,
        (number / 0x100 % 0x100) as u8,
        (number % 0x100) as u8,
    ])
}

/// The head of a journal's body: the version, 1 or 2, and the number of pages that follow.
pub fn spell_head(alloc: Global, version: u8, count: u32) -> Result<Vec<u8>, AllocError>
    ensures { IfOk result (λ b. b.items ≡ version ∷ spelled_number count) }
{
    let mut body = Vec::from_slice(alloc, &[version])?;
    spell_number(&mut body, count)?;
    Ok(body)
}

/// Puts a page to the end of a journal's body: its number, and its bytes, as many as a page has.
pub fn spell_page(body: &mut Vec<u8>, number: u32, bytes: &[u8]) -> Result<(), AllocError>
    ensures { OnOk result (body.new.items
        ≡ body.old.items ++ spelled_page (page_of number bytes.now)) }
{
    spell_number(body, number)?;
    body.extend_from_slice(bytes)
}
