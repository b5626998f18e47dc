//! The frame of a join's proof.

ghost use Rattle.std.specs.Prelude.{◌≡◌, length, Ok, Err, MatchResult, IfOk};
ghost use Rattle.mr_join.specs.Frame.{field, past_magic, flag_at, parts_behind, both_parts, parts_at, frame_of};
ghost use Rattle.mr_join.specs.private.Frames.{ReadsFrame};

use crate::{FrameRule, JoinFault};
use mr_geom::Rect;
use mr_record::{rect_of_bytes, u32_of_bytes};

/// What a join's proof holds.
#[derive(Drop)]
pub(crate) struct Frame<'a> {
    /// That of the second map, in map units, where it is not empty.
    pub(crate) rect: Option<Rect>,
    /// The proof of the first map; no bytes where there is no rectangle.
    pub(crate) first: &'a [u8],
    /// The proof of the second map.
    pub(crate) second: &'a [u8],
}

// Where the fields stand.
const FLAG_PLACE: u64 = 4;

const RECT_PLACE: u64 = 5;

const LENGTH_PLACE: u64 = 21;

const FIRST_PLACE: u64 = 25;

// The field of so many bytes that stands at a place, and the bytes behind it.
fn field(bytes: &[u8], size: usize, at: u64) -> Result<(&[u8], &[u8]), JoinFault>
    ensures exact { MatchResult result (λ x. field size at bytes.now ≡ Ok (x.0.now, x.1.now))
        (λ e. field size at bytes.now ≡ Err e) }
    ensures sized { IfOk result (λ x. length x.0.now ≡ size) }
{
    if bytes.len() < size {
        let rule = FrameRule::Short;
        return Err(JoinFault::Frame { rule, at });
    }
    Ok(bytes.split_at(size))
}

// What is behind the magic.
fn past_magic(bytes: &[u8]) -> Result<&[u8], JoinFault>
    ensures { MatchResult result (λ x. past_magic bytes.now ≡ Ok x.now)
        (λ e. past_magic bytes.now ≡ Err e) }
{
    let (magic, rest) = field(bytes, 4, 0)?;
    if magic == b"MRJN".as_slice() {
        Ok(rest)
    } else {
        let rule = FrameRule::BadMagic;
        Err(JoinFault::Frame { rule, at: 0 })
    }
}

// The flag, and what is behind it.
fn flag_at(bytes: &[u8]) -> Result<(u8, &[u8]), JoinFault>
    ensures { MatchResult result (λ x. flag_at bytes.now ≡ Ok (x.0, x.1.now))
        (λ e. flag_at bytes.now ≡ Err e) }
{
    let (flag, rest) = field(bytes, 1, FLAG_PLACE)?;
    if flag[0] <= 1 {
        Ok((flag[0], rest))
    } else {
        let rule = FrameRule::BadFlag;
        let at = FLAG_PLACE;
        Err(JoinFault::Frame { rule, at })
    }
}

// Behind the rectangle: the length of the first map's proof, that proof, and all else.
fn parts_behind(rect: Option<Rect>, bytes: &[u8]) -> Result<Frame<'_>, JoinFault>
    ensures { ReadsFrame result (parts_behind rect bytes.now) }
{
    let Some(rect) = rect else {
        let rule = FrameRule::BadRect;
        let at = RECT_PLACE;
        return Err(JoinFault::Frame { rule, at });
    };
    let (size, rest) = field(bytes, 4, LENGTH_PLACE)?;
    let (first, second) = field(rest, u32_of_bytes(size) as usize, FIRST_PLACE)?;
    let rect = Some(rect);
    Ok(Frame {
        rect,
        first,
        second,
    })
}

fn both_parts(bytes: &[u8]) -> Result<Frame<'_>, JoinFault>
    ensures { ReadsFrame result (both_parts bytes.now) }
{
    let (rect, rest) = field(bytes, 16, RECT_PLACE)?;
    parts_behind(rect_of_bytes(rect), rest)
}

// Behind the flag.
fn parts_at(flag: u8, bytes: &[u8]) -> Result<Frame<'_>, JoinFault>
    ensures { ReadsFrame result (parts_at flag bytes.now) }
{
    if flag == 0 {
        let (first, second) = bytes.split_at(0);
        let rect = None;
        return Ok(Frame {
            rect,
            first,
            second,
        });
    }
    both_parts(bytes)
}

/// What the bytes hold, or the first rule of the frame that they break.
#[tactic(auto, unfolding(crate::specs::Frame::frame_of))]
pub(crate) fn frame_of(bytes: &[u8]) -> Result<Frame<'_>, JoinFault>
    ensures { ReadsFrame result (frame_of bytes.now) }
{
    let rest = past_magic(bytes)?;
    let (flag, rest) = flag_at(rest)?;
    parts_at(flag, rest)
}
