//! Writing into a page from the front, and what a page says in front.

ghost use Rattle.std.specs.Prelude.{◌≡◌, ◌==◌, ◌+◌, ◌≤◌, ◌++◌, length, take, bytes_eq};
ghost use Rattle.mr_pages.specs.PageBytes.{are_zeros, filled};

/// Writes a piece at a place of a page, and answers the place behind it.
pub fn put(page: &mut [u8], at: usize, piece: &[u8]) -> usize
    requires { at + length piece.now ≤ length page.old }
    ensures place { result ≡ at + length piece.now }
    ensures bytes { take result page.new ≡ take at page.old ++ piece.now }
{
    let (_, behind) = page.split_at_mut(at);
    let (front, _) = behind.split_at_mut(piece.len());
    front.copy_from_slice(piece);
    at + piece.len()
}

/// Zeros from a place to the page's end.
pub fn fill_up(page: &mut [u8], at: usize)
    requires { at ≤ length page.old }
    ensures { page.new ≡ filled (length page.old) (take at page.old) }
{
    let (_, behind) = page.split_at_mut(at);
    behind.fill(0);
}

/// Writes a piece in front, and zeros behind it.
pub fn fill(page: &mut [u8], piece: &[u8])
    requires { length piece.now ≤ length page.old }
    ensures { page.new ≡ filled (length page.old) piece.now }
{
    let at = put(page, 0, piece);
    fill_up(page, at);
}

/// Whether the two are the same bytes.
pub fn are_same(one: &[u8], other: &[u8]) -> bool
    ensures { result ≡ bytes_eq one.now other.now }
{
    one == other
}

// The greatest of some bytes, or 0. No byte ends it early, so that many are looked at at once.
fn greatest(bytes: &[u8]) -> u8
    ensures { (result == 0) ≡ are_zeros bytes.now }
{
    let mut most = 0;
    for byte in bytes {
        most = most.max(*byte);
    }
    most
}

/// Whether all bytes are 0.
pub fn are_zero_bytes(bytes: &[u8]) -> bool
    ensures { result ≡ are_zeros bytes.now }
{
    greatest(bytes) == 0
}

/// Whether the piece stands in front, and zeros behind it.
pub fn is_filled(page: &[u8], piece: &[u8]) -> bool
    requires { length piece.now ≤ length page.now }
    ensures { result ≡ bytes_eq (filled (length page.now) piece.now) page.now }
{
    let (front, behind) = page.split_at(piece.len());
    if !are_same(piece, front) {
        return false;
    }
    are_zero_bytes(behind)
}
