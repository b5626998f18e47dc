//! Records as lines of text, written to a sink.

ghost use Rattle.std.specs.Prelude.{◌≡◌, ◌+◌, ◌*◌, ◌^◌, ◌≤◌, ◌++◌, ◌∷◌, [], length, drop, decimal, OnOk, All};
ghost use Rattle.std.specs.Fmt.{signed_decimal};
ghost use Rattle.hex.specs.Hex.{encode_lower};
ghost use Rattle.mr_outside.specs.Told.{TakesBytes, TakesFront};
ghost use Rattle.mr_outside.specs.Causes.{SinkCauses};
ghost use Rattle.mr_geom.specs.Rectangle.{IsOrdered, FitsMap};
ghost use Rattle.mr_outside.specs.Bytes.{AreBytes};
ghost use Rattle.mr_record.specs.Record.{IsRecord, HasLayer, payload_limit};
ghost use Rattle.mr_record.specs.RecordText.{payload_text, layer_text, line_of, text_of};
ghost use Rattle.mr_record.specs.declared.version.Version.TheVariants.{One, Two};
ghost use Rattle.mr_record.specs.private.Gathered.{SendsFront};

use crate::{Payload, Record, Version};
use mr_geom::Rect;
use mr_outside::{Buffer, Sink, SinkErr, write_all};

// Room for the line of any record.
const LINE_ROOM: usize = 512;

// The most bytes that a sink is given at once where lines are gathered.
const PIECE_LIMIT: usize = 1 << 16;

// Lines of so many records at most are gathered in a smaller room, since a room is cleared first.
const FEW: usize = 128;

const FEW_LIMIT: usize = 1 << 13;

// Writes the digits of the number into the last places, and answers where they begin.
fn write_digits(places: &mut [u8; 20], number: u64) -> usize
    ensures within { result ≤ 20 }
    ensures digits { drop result places.new ≡ decimal number }
{
    let mut rest = number;
    let mut at = 19;
    while rest >= 10 {
        places[at] = b'0' + (rest % 10) as u8;
        rest /= 10;
        at -= 1;
    }
    places[at] = b'0' + rest as u8;
    at
}

/// Puts a number in decimal, at most 20 digits.
pub fn put_number<const N: usize>(line: &mut Buffer<N>, number: u64)
    requires { length line.old + 20 ≤ N }
    ensures put { line.new ≡ line.old ++ decimal number }
    ensures within { length line.new ≤ length line.old + 20 }
{
    let mut places = [0; 20];
    let at = write_digits(&mut places, number);
    let (_, digits) = places.split_at(at);
    line.put(digits);
}

// Puts a number below 2^32 in decimal, at most 10 digits.
fn put_short<const N: usize>(line: &mut Buffer<N>, number: u32)
    requires { length line.old + 20 ≤ N }
    ensures put { line.new ≡ line.old ++ decimal number }
    ensures within { length line.new ≤ length line.old + 10 }
{
    put_number(line, u64::from(number));
}

/// Puts a coordinate in decimal, with a `-` before one that is below 0: at most 11 bytes.
pub fn put_coordinate<const N: usize>(line: &mut Buffer<N>, coordinate: i32)
    requires { length line.old + 21 ≤ N }
    ensures put { line.new ≡ line.old ++ signed_decimal coordinate }
    ensures within { length line.new ≤ length line.old + 11 }
{
    if coordinate < 0 {
        line.put(b"-");
    }
    put_short(line, coordinate.unsigned_abs());
}

// Puts two lower-case hexadecimal digits for each byte, of which there are 16 at most.
fn put_little_hex<const N: usize>(line: &mut Buffer<N>, bytes: &[u8])
    requires little { length bytes.now ≤ 16 }
    requires room { length line.old + 400 ≤ N }
    ensures put { line.new ≡ line.old ++ encode_lower bytes.now }
    ensures within { length line.new ≤ length line.old + 400 }
{
    let mut places = [0; 32];
    let (digits, _) = places.split_at_mut(2 * bytes.len());
    match hex::encode_to_slice(bytes, digits) {
        Ok(()) => line.put(digits),
        Err(_) => unreachable!(),
    }
}

// The same of more. Their places are cleared before.
fn put_long_hex<const N: usize>(line: &mut Buffer<N>, bytes: &[u8])
    requires short { length bytes.now ≤ payload_limit }
    requires room { length line.old + 400 ≤ N }
    ensures put { line.new ≡ line.old ++ encode_lower bytes.now }
    ensures within { length line.new ≤ length line.old + 400 }
{
    let mut places = [0; 400];
    let (digits, _) = places.split_at_mut(2 * bytes.len());
    match hex::encode_to_slice(bytes, digits) {
        Ok(()) => line.put(digits),
        Err(_) => unreachable!(),
    }
}

// Puts two lower-case hexadecimal digits for each byte.
fn put_hex<const N: usize>(line: &mut Buffer<N>, bytes: &[u8])
    requires short { length bytes.now ≤ payload_limit }
    requires room { length line.old + 400 ≤ N }
    ensures put { line.new ≡ line.old ++ encode_lower bytes.now }
    ensures within { length line.new ≤ length line.old + 400 }
{
    if bytes.len() <= 16 {
        put_little_hex(line, bytes);
    } else {
        put_long_hex(line, bytes);
    }
}

// Puts `-` for no bytes, or lower-case hexadecimal.
fn put_payload<const N: usize>(line: &mut Buffer<N>, payload: &Payload)
    requires { length line.old + 400 ≤ N }
    ensures put { line.new ≡ line.old ++ payload_text payload.now }
    ensures within { length line.new ≤ length line.old + 400 }
    ensures short { length payload.now ≤ payload_limit }
    ensures bytes { AreBytes payload.now }
{
    match payload.bytes() {
        [] => line.put(b"-"),
        bytes => put_hex(line, bytes),
    }
}

fn put_coordinate_and_space<const N: usize>(line: &mut Buffer<N>, coordinate: i32)
    requires { length line.old + 22 ≤ N }
    ensures put { line.new ≡ line.old ++ signed_decimal coordinate ++ 32 ∷ [] }
    ensures within { length line.new ≤ length line.old + 12 }
{
    put_coordinate(line, coordinate);
    line.put(b" ");
}

// Puts the four coordinates, each with a space behind it.
fn put_rect<const N: usize>(line: &mut Buffer<N>, rect: &Rect)
    requires { length line.old + 88 ≤ N }
    ensures put { line.new ≡ line.old ++ signed_decimal rect.now.x0 ++ 32 ∷ []
        ++ signed_decimal rect.now.y0 ++ 32 ∷ [] ++ signed_decimal rect.now.x1 ++ 32 ∷ []
        ++ signed_decimal rect.now.y1 ++ 32 ∷ [] }
    ensures within { length line.new ≤ length line.old + 48 }
    ensures ordered { IsOrdered rect.now }
    ensures fits { FitsMap rect.now }
{
    let (x0, y0, x1, y1) = rect.corners();
    put_coordinate_and_space(line, x0);
    put_coordinate_and_space(line, y0);
    put_coordinate_and_space(line, x1);
    put_coordinate_and_space(line, y1);
}

// Puts the layer, at most 20 digits, and a space; in version 1 nothing.
fn put_layer<const N: usize>(line: &mut Buffer<N>, version: Version, layer: u8)
    requires { length line.old + 21 ≤ N }
    ensures put { line.new ≡ line.old ++ layer_text version layer }
    ensures within { length line.new ≤ length line.old + 21 }
{
    match version {
        Version::One => {}
        Version::Two => {
            put_number(line, u64::from(layer));
            line.put(b" ");
        }
    }
}

// Puts the line of the record, with its line feed.
fn put_line<const N: usize>(line: &mut Buffer<N>, version: Version, one: &Record)
    requires room { length line.old + 512 ≤ N }
    requires layer { HasLayer Two one.now }
    ensures put { line.new ≡ line.old ++ (line_of version one.now ++ 10 ∷ []) }
    ensures record { IsRecord one.now }
{
    put_number(line, one.number);
    line.put(b" ");
    put_rect(line, &one.rect);
    put_layer(line, version, one.layer);
    put_payload(line, &one.payload);
    line.put(b"\n");
}

/// Writes one line of this version with its line feed. After a refusal some front of the line was
/// taken.
pub fn write_line_of<W: Sink>(out: &mut W, version: Version, one: &Record) -> Result<(), SinkErr>
    requires { HasLayer version one.now }
    ensures record { IsRecord one.now }
    ensures whole { let line = line_of version one.now ++ 10 ∷ [] in
        OnOk result (TakesBytes (W.state out.old) (W.state out.new) line) }
    ensures front { TakesFront (W.state out.old) (W.state out.new)
        (line_of version one.now ++ 10 ∷ []) }
    ensures causes { SinkCauses (W.state out.old) (W.state out.new) result }
{
    let mut line: Buffer<LINE_ROOM> = Buffer::new();
    put_line(&mut line, version, one);
    write_all(out, line.as_slice())
}

/// `write_line_of` version 1.
pub fn write_line<W: Sink>(out: &mut W, one: &Record) -> Result<(), SinkErr>
    requires { HasLayer One one.now }
    ensures record { IsRecord one.now }
    ensures whole { let line = line_of One one.now ++ 10 ∷ [] in
        OnOk result (TakesBytes (W.state out.old) (W.state out.new) line) }
    ensures front { TakesFront (W.state out.old) (W.state out.new)
        (line_of One one.now ++ 10 ∷ []) }
    ensures causes { SinkCauses (W.state out.old) (W.state out.new) result }
{
    write_line_of(out, Version::One, one)
}

/// `write_line_of` version 2.
pub fn write_line2<W: Sink>(out: &mut W, one: &Record) -> Result<(), SinkErr>
    requires { HasLayer Two one.now }
    ensures record { IsRecord one.now }
    ensures whole { let line = line_of Two one.now ++ 10 ∷ [] in
        OnOk result (TakesBytes (W.state out.old) (W.state out.new) line) }
    ensures front { TakesFront (W.state out.old) (W.state out.new)
        (line_of Two one.now ++ 10 ∷ []) }
    ensures causes { SinkCauses (W.state out.old) (W.state out.new) result }
{
    write_line_of(out, Version::Two, one)
}

// Gives what was gathered to the sink, where there is no room for one more line behind it.
fn make_room<W: Sink, const N: usize>(out: &mut W, piece: &mut Buffer<N>) -> Result<(), SinkErr>
    requires { 512 ≤ N }
    ensures room { OnOk result (length piece.new + 512 ≤ N) }
    ensures waits { length piece.old + 512 ≤ N →
        (piece.new ≡ piece.old) × (W.state out.new ≡ W.state out.old) }
    ensures sent { OnOk result (SendsFront (W.state out.old) (W.state out.new) piece.old
        piece.new) }
    ensures front { TakesFront (W.state out.old) (W.state out.new) piece.old }
    ensures causes { SinkCauses (W.state out.old) (W.state out.new) result }
{
    if piece.as_slice().len() <= N - LINE_ROOM {
        return Ok(());
    }
    write_all(out, piece.as_slice())?;
    piece.clear();
    Ok(())
}

// Writes the lines, which are gathered in this room.
fn write_gathered<W: Sink, const N: usize>(
    out: &mut W,
    piece: &mut Buffer<N>,
    version: Version,
    records: &[Record],
) -> Result<(), SinkErr>
    requires empty { piece.old ≡ [] }
    requires room { 512 ≤ N }
    requires layers { All (HasLayer version) records.now }
    ensures records { OnOk result (All IsRecord records.now) }
    ensures whole { OnOk result
        (TakesBytes (W.state out.old) (W.state out.new) (text_of version records.now)) }
    ensures front { TakesFront (W.state out.old) (W.state out.new) (text_of version records.now) }
    ensures causes { SinkCauses (W.state out.old) (W.state out.new) result }
{
    for one in records {
        make_room(out, piece)?;
        put_line(piece, version, one);
    }
    write_all(out, piece.as_slice())
}

/// Writes a line of this version for each record, in their order. Lines are gathered, and the sink
/// is given pieces of whole lines. These have up to 65,536 bytes, or up to 8,192 where there are no
/// more than 128 records. No clause says how many pieces there are. After a refusal some front of
/// the text was taken.
pub fn write_lines<W: Sink>(
    out: &mut W,
    version: Version,
    records: &[Record],
) -> Result<(), SinkErr>
    requires { All (HasLayer version) records.now }
    ensures records { OnOk result (All IsRecord records.now) }
    ensures whole { OnOk result
        (TakesBytes (W.state out.old) (W.state out.new) (text_of version records.now)) }
    ensures front { TakesFront (W.state out.old) (W.state out.new) (text_of version records.now) }
    ensures causes { SinkCauses (W.state out.old) (W.state out.new) result }
{
    if records.len() <= FEW {
        let mut piece: Buffer<FEW_LIMIT> = Buffer::new();
        write_gathered(out, &mut piece, version, records)
    } else {
        let mut piece: Buffer<PIECE_LIMIT> = Buffer::new();
        write_gathered(out, &mut piece, version, records)
    }
}
