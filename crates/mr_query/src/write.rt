//! A query's word, written to a sink.

ghost use Rattle.std.specs.Prelude.{◌≡◌, ◌+◌, ◌≤◌, ◌++◌, ◌∷◌, decimal, length, OnOk};
ghost use Rattle.std.specs.Fmt.{signed_decimal};
ghost use Rattle.mr_outside.specs.Causes.{SinkCauses};
ghost use Rattle.mr_outside.specs.Told.{TakesBytes, TakesFront};
ghost use Rattle.mr_query.specs.Word.{window_word, nearest_word, IsAskable, IsQuery, shape_word, mask_word, word_of};
ghost use Rattle.mr_query.specs.declared.query.Shape.TheVariants as shapes;

use crate::{Query, Shape, is_query};
use mr_geom::{Point, Rect};
use mr_outside::{Buffer, Sink, SinkErr, write_all};
use mr_record::{put_coordinate, put_number};

// Room for any word.
const WORD_LIMIT: usize = 111;

// Puts a comma and a coordinate.
#[tactic(auto, using(std::proofs::Common::append_assoc))]
fn put_next<const N: usize>(word: &mut Buffer<N>, coordinate: i32)
    requires { length word.old + 22 ≤ N }
    ensures put { word.new ≡ word.old ++ 44 ∷ signed_decimal coordinate }
    ensures within { length word.new ≤ length word.old + 22 }
{
    word.put(b",");
    put_coordinate(word, coordinate);
}

// Puts three coordinates, each behind a comma.
#[tactic(auto, using(std::proofs::Common::append_assoc))]
fn put_rest<const N: usize>(word: &mut Buffer<N>, y0: i32, x1: i32, y1: i32)
    requires { length word.old + 66 ≤ N }
    ensures put { word.new ≡ word.old ++ 44 ∷ (signed_decimal y0
        ++ 44 ∷ (signed_decimal x1 ++ 44 ∷ signed_decimal y1)) }
    ensures within { length word.new ≤ length word.old + 66 }
{
    put_next(word, y0);
    put_next(word, x1);
    put_next(word, y1);
}

#[tactic(auto, unfolding(crate::specs::Word::shape_word), using(std::proofs::Common::append_assoc))]
fn sides_text(x0: i32, y0: i32, x1: i32, y1: i32) -> Buffer<WORD_LIMIT>
    ensures whole { result ≡ shape_word
        (shapes.Window (record { x0 = x0; y0 = y0; x1 = x1; y1 = y1 })) }
    ensures short { length result ≤ 94 }
{
    let mut word = Buffer::new();
    word.put(b"window:");
    put_coordinate(&mut word, x0);
    put_rest(&mut word, y0, x1, y1);
    word
}

fn window_text(window: &Rect) -> Buffer<WORD_LIMIT>
    ensures whole { result ≡ shape_word (shapes.Window window.now) }
    ensures short { length result ≤ 94 }
{
    let (x0, y0, x1, y1) = window.corners();
    sides_text(x0, y0, x1, y1)
}

#[tactic(auto, unfolding(crate::specs::Word::shape_word), using(std::proofs::Common::append_assoc))]
fn nearest_text(center: &Point, k: u16) -> Buffer<WORD_LIMIT>
    ensures whole { result ≡ shape_word (shapes.Nearest center.now k) }
    ensures short { length result ≤ 94 }
{
    let mut word = Buffer::new();
    word.put(b"nearest:");
    put_coordinate(&mut word, center.x);
    put_next(&mut word, center.y);
    word.put(b",");
    put_number(&mut word, u64::from(k));
    word
}

fn shape_text(shape: &Shape) -> Buffer<WORD_LIMIT>
    ensures whole { result ≡ shape_word shape.now }
    ensures short { length result ≤ 94 }
{
    match shape {
        Shape::Window(window) => window_text(window),
        Shape::Nearest { center, k } => nearest_text(center, *k),
    }
}

// Puts a `/` and the mask in lower-case hexadecimal.
fn put_mask(word: &mut Buffer<WORD_LIMIT>, mask: Option<u64>)
    requires { length word.old ≤ 94 }
    ensures { word.new ≡ word.old ++ mask_word mask }
{
    if let Some(mask) = mask {
        let mut digits = [0; 16];
        word.put(b"/");
        if hex::encode_to_slice(&mask.to_be_bytes(), &mut digits).is_ok() {
            word.put(&digits);
        }
    }
}

fn text(q: &Query) -> Buffer<WORD_LIMIT>
    ensures { result ≡ word_of q.now }
{
    let mut word = shape_text(&q.shape);
    put_mask(&mut word, q.mask);
    word
}

/// Writes the word of the query, as `read_query` reads it. After a refusal some front of the word
/// was taken.
pub fn write_query<W: Sink>(out: &mut W, q: &Query) -> Result<(), SinkErr>
    requires { IsAskable q.now }
    ensures query { IsQuery q.now }
    ensures whole { OnOk result (TakesBytes (W.state out.old) (W.state out.new) (word_of q.now)) }
    ensures front { TakesFront (W.state out.old) (W.state out.new) (word_of q.now) }
    ensures causes { SinkCauses (W.state out.old) (W.state out.new) result }
{
    is_query(q);
    let word = text(q);
    write_all(out, word.as_slice())
}
