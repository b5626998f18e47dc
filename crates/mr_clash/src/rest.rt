//! What is left of the bytes of a proof.

ghost use Rattle.std.specs.Prelude.{◌≡◌, ◌<◌, ◌^◌, ◌∷◌, ◌++◌, ℕ, List, length, Some};
ghost use Rattle.std.specs.Int.{w64, to_be_bytes};
ghost use Rattle.mr_geom.specs.Rectangle.{Rectangle, IsOrdered, FitsMap};
ghost use Rattle.mr_record.specs.Record.{rectangle_bytes};
ghost use Rattle.mr_record.specs.Version.{told};
ghost use Rattle.mr_record.specs.declared.version.Version as versions;
ghost use Rattle.mr_tree.specs.Digest.{word_bytes};
ghost use Rattle.mr_proof.specs.Cut.{Cut};
ghost use Rattle.mr_proof.specs.Spelling.{cut_bytes};
ghost use Rattle.mr_clash.specs.private.Steps.{left, is_pruned as pruned};

use mr_geom::Rect;
use mr_record::{Version, rect_of_bytes, u64_of_bytes};

// What is left of the bytes of a proof.
#[derive(Clone, Copy)]
pub(crate) struct Rest<'a> {
    pub(crate) bytes: &'a [u8],
}

// Takes so many bytes from the front, or all that are left.
pub(crate) fn take<'a>(from: &mut Rest<'a>, size: usize) -> &'a [u8]
    ensures { (x rest : List ℕ) → length x ≡ size → left from.old ≡ x ++ rest
        → (result.now ≡ x) × (left from.new ≡ rest) }
{
    let size = size.min(from.bytes.len());
    let (front, rest) = from.bytes.split_at(size);
    from.bytes = rest;
    front
}

// Takes one byte; 0 where none is left.
pub(crate) fn byte(from: &mut Rest<'_>) -> u8
    ensures { (x : ℕ) (rest : List ℕ) → left from.old ≡ x ∷ rest
        → (result ≡ x) × (left from.new ≡ rest) }
{
    match from.bytes.split_first() {
        Some((first, rest)) => {
            from.bytes = rest;
            *first
        }
        None => 0,
    }
}

// Takes a number; 0 where 8 bytes are not left.
pub(crate) fn number(from: &mut Rest<'_>) -> u64
    ensures { (x : ℕ) (rest : List ℕ) → x < 2 ^ 64 → left from.old ≡ to_be_bytes w64 x ++ rest
        → (result ≡ x) × (left from.new ≡ rest) }
{
    let bytes = take(from, 8);
    if bytes.len() != 8 {
        return 0;
    }
    u64_of_bytes(bytes)
}

// Takes a mask or a count of a pruned part, of which version 1 spells none.
pub(crate) fn word(version: Version, from: &mut Rest<'_>) -> u64
    ensures { (x : ℕ) (rest : List ℕ) → x < 2 ^ told version 64
        → left from.old ≡ word_bytes version x ++ rest
        → (result ≡ x) × (left from.new ≡ rest) }
{
    match version {
        Version::One => 0,
        Version::Two => number(from),
    }
}

// Takes a rectangle; none where no rectangle's bytes are left.
pub(crate) fn rect(from: &mut Rest<'_>) -> Option<Rect>
    ensures { (r : Rectangle) (rest : List ℕ) → IsOrdered r → FitsMap r
        → left from.old ≡ rectangle_bytes r ++ rest
        → (result ≡ Some r) × (left from.new ≡ rest) }
{
    let bytes = take(from, 16);
    if bytes.len() != 16 {
        return None;
    }
    rect_of_bytes(bytes)
}

// Takes a digest; zeros where 32 bytes are not left.
pub(crate) fn digest(from: &mut Rest<'_>) -> [u8; 32]
    ensures { (x rest : List ℕ) → length x ≡ 32 → left from.old ≡ x ++ rest
        → (result ≡ x) × (left from.new ≡ rest) }
{
    let bytes = take(from, 32);
    if bytes.len() != 32 {
        return [0; 32];
    }
    let mut digest = [0; 32];
    digest.copy_from_slice(bytes);
    digest
}

// The bytes before those that are left.
pub(crate) fn passed<'a>(whole: &'a [u8], from: &Rest<'_>) -> &'a [u8]
    ensures { (x rest : List ℕ) → whole.now ≡ x ++ rest → left from.now ≡ rest
        → result.now ≡ x }
{
    let size = whole.len().saturating_sub(from.bytes.len());
    &whole[..size]
}

// Whether the item that stands next is pruned.
pub(crate) fn is_pruned(from: &Rest<'_>) -> bool
    ensures { (v : versions.Version) (P : Cut) (rest : List ℕ)
        → left from.now ≡ cut_bytes v P ++ rest → result ≡ pruned P }
{
    from.bytes.first() == Some(&b'P')
}
