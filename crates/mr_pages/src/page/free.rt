//! Free pages.

ghost use Rattle.std.specs.Prelude.{◌≡◌, ◌≢◌, ℕ, ◌^◌, ◌<◌, ◌≤◌, ◌∷◌, length, IfSome, Some, None, MatchOption};
ghost use Rattle.std.specs.Int.{w32, to_be_bytes};
ghost use Rattle.mr_pages.specs.PageBytes.{free_tag, free_page, free_in, form_of, first_form, IsLayout};

use crate::layout::{FIRST, Layout, PAGE_SIZE};
use crate::page::put::{fill, is_filled};
use mr_outside::Buffer;
use mr_record::u32_of_bytes;

// What a free page says in front.
fn encoded(next: u32) -> Buffer<5>
    ensures { result ≡ free_tag ∷ to_be_bytes w32 next }
{
    let mut bytes = Buffer::new();
    bytes.put(b"F");
    bytes.put(&next.to_be_bytes());
    bytes
}

/// Makes the page of this layout a free one, which names the next one, or 0 for none.
pub fn put_free(layout: Layout, next: u32, page: &mut [u8])
    requires layout { IsLayout layout }
    requires size { length page.old ≡ layout.size }
    ensures { page.new ≡ (form_of layout).free_page next }
{
    let bytes = encoded(next);
    fill(page, bytes.as_slice());
}

/// Makes the page a free one, which names the next one, or 0 for none.
pub fn write_free_page(next: u32, into: &mut [u8; PAGE_SIZE])
    ensures { into.new ≡ first_form.free_page next }
{
    put_free(FIRST, next, into);
}

// What a page that is as long as its front names, if it is a free one.
fn next_in(page: &[u8]) -> Option<u32>
    requires { 5 ≤ length page.now }
    ensures { result ≡ free_in (length page.now) page.now }
{
    let next = u32_of_bytes(&page[1..5]);
    let bytes = encoded(next);
    if is_filled(page, bytes.as_slice()) {
        Some(next)
    } else {
        None
    }
}

/// The page that a free page of this layout names, 0 for none; `None` where this is no such page.
pub fn free_on(layout: Layout, page: &[u8]) -> Option<u32>
    requires { IsLayout layout }
    ensures exact { result ≡ (form_of layout).free_in page.now }
    ensures written { IfSome result (λ next. page.now ≡ (form_of layout).free_page next) }
    ensures read { (next : ℕ) → next < 2 ^ 32 → page.now ≡ (form_of layout).free_page next
        → result ≡ Some next }
{
    if page.len() != layout.size {
        return None;
    }
    next_in(page)
}

/// The page that a free page names, 0 for none; `None` where this is no free page.
pub fn read_free_page(page: &[u8; PAGE_SIZE]) -> Option<u32>
    ensures exact { result ≡ first_form.free_in page.now }
    ensures written { IfSome result (λ next. page.now ≡ first_form.free_page next) }
    ensures read { (next : ℕ) → next < 2 ^ 32 → page.now ≡ first_form.free_page next
        → result ≡ Some next }
{
    free_on(FIRST, page)
}
