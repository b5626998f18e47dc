//! Fields in front of a line, each read in one pass up to the space behind it.

ghost use Rattle.std.specs.Prelude.{◌≡◌, ◌<◌, ◌==◌, ◌&&◌, ◌||◌, not, nat_lt, length, take, slice_index, IfSome, IsTrue};
ghost use Rattle.std.specs.Char.{is_ascii_digit};
ghost use Rattle.std.specs.List.{list_all};
ghost use Rattle.std.specs.Str.Parse.{digits_value};
ghost use Rattle.mr_record.specs.Decimal.{u64_of, i32_of};
ghost use Rattle.mr_record.specs.RecordText.{layer_of};
ghost use Rattle.mr_record.specs.private.Fronts.{StandsInFront};

use crate::LAYER_LIMIT;
use crate::decimal::{below_zero, from_zero};

// Up to here one more digit fits 64 bits.
const ROOM: u64 = (u64::MAX - 9) / 10;

// Whether the digits up to a place are at least one, with no `0` in front of others.
fn begins_canonical(line: &[u8], at: usize) -> bool
    requires { at < length line.now }
    ensures { result ≡ (nat_lt 0 at && (not (slice_index line.now 0 == 48) || at == 1)) }
{
    at > 0 && (line[0] != b'0' || at == 1)
}

// The number of the digits in front of a space, and what stands behind it.
fn number_before(line: &[u8], at: usize, number: u64) -> Option<(u64, &[u8])>
    requires within { at < length line.now }
    requires space { slice_index line.now at ≡ 32 }
    requires digits { IsTrue (list_all is_ascii_digit (take at line.now)) }
    requires value { number ≡ digits_value 10 (take at line.now) }
    ensures { IfSome result (λ p. StandsInFront u64_of p.0 line.now p.1.now) }
{
    if !begins_canonical(line, at) {
        return None;
    }
    Some((number, &line[at + 1..]))
}

// The number in front, but for the last few below 2^64, and what stands behind it.
pub(crate) fn front_number(line: &[u8]) -> Option<(u64, &[u8])>
    ensures { IfSome result (λ p. StandsInFront u64_of p.0 line.now p.1.now) }
{
    let mut number = 0;
    for at in 0..line.len() {
        let byte = line[at];
        if byte == b' ' {
            return number_before(line, at, number);
        }
        if !byte.is_ascii_digit() || number > ROOM {
            return None;
        }
        number = number * 10 + u64::from(byte - b'0');
    }
    None
}

// The coordinate in front, and what stands behind it.
pub(crate) fn front_coordinate(line: &[u8]) -> Option<(i32, &[u8])>
    ensures { IfSome result (λ p. StandsInFront i32_of p.0 line.now p.1.now) }
{
    let (first, digits) = line.split_first()?;
    if *first == b'-' {
        let (number, rest) = front_number(digits)?;
        let below = below_zero(number)?;
        Some((below, rest))
    } else {
        let (number, rest) = front_number(line)?;
        let coordinate = from_zero(number)?;
        Some((coordinate, rest))
    }
}

// The layer in front, and what stands behind it.
pub(crate) fn front_layer(line: &[u8]) -> Option<(u8, &[u8])>
    ensures { IfSome result (λ p. StandsInFront layer_of p.0 line.now p.1.now) }
{
    let (number, rest) = front_number(line)?;
    if number > u64::from(LAYER_LIMIT) {
        return None;
    }
    Some((number as u8, rest))
}
