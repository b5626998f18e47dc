//! Queries read from their words.

ghost use Rattle.std.specs.Prelude.{◌≡◌, IfOk, Ok};
ghost use Rattle.std.specs.List.{list_all};
ghost use Rattle.mr_record.specs.Decimal.{i32_of};
ghost use Rattle.mr_record.specs.RecordText.{is_lower_digit};
ghost use Rattle.mr_query.specs.Word.{number_of, window_of, window_of_parts, if_askable, count_in_word, nearest_of, nearest_of_parts, nearest_shape_of, comma_parts, shape_of, mask_of_text, unmasked_query, masked_query, query_of, IsQuery, word_of};
ghost use Rattle.mr_query.specs.declared.query.Query as types;
ghost use Rattle.mr_query.specs.declared.query.QueryFault.TheVariants as faults;

use crate::comma::split_part;
use crate::{NEIGHBOUR_LIMIT, Query, QueryFault, Shape};
use hex::FromHex;
use mr_geom::{Point, Rect};
use mr_record::{cut, read_i32, read_u64};

fn read_number(part: u8, text: &[u8]) -> Result<i32, QueryFault>
    ensures { result ≡ number_of part text.now }
{
    read_i32(text).ok_or(QueryFault::Number { part })
}

#[tactic(auto, unfolding(crate::specs::Word::window_of))]
fn read_window(x0: &[u8], y0: &[u8], x1: &[u8], y1: &[u8]) -> Result<Shape, QueryFault>
    ensures { result ≡ window_of x0.now y0.now x1.now y1.now }
{
    let x0 = read_number(1, x0)?;
    let y0 = read_number(2, y0)?;
    let x1 = read_number(3, x1)?;
    let y1 = read_number(4, y1)?;
    let rect = Rect::new(x0, y0, x1, y1).ok_or(QueryFault::Order)?;
    Ok(Shape::Window(rect))
}

#[tactic(auto, unfolding(crate::specs::Word::window_of_parts))]
fn read_window_parts(text: &[u8]) -> Result<Shape, QueryFault>
    ensures { result ≡ window_of_parts (comma_parts text.now) }
{
    let (x0, rest) = split_part(text)?;
    let (y0, rest) = split_part(rest)?;
    let (x1, y1) = split_part(rest)?;
    match split_part(y1) {
        Ok(_) => Err(QueryFault::Parts),
        Err(_) => read_window(x0, y0, x1, y1),
    }
}

// The number, if so many records may be asked for.
fn if_askable(count: u64) -> Option<u16>
    ensures { result ≡ if_askable count }
{
    let limit = u64::from(NEIGHBOUR_LIMIT);
    if 1 <= count && count <= limit {
        Some(count as u16)
    } else {
        None
    }
}

// How many records are asked for.
fn read_count(part: u8, text: &[u8]) -> Result<u16, QueryFault>
    ensures { result ≡ count_in_word part text.now }
{
    match read_u64(text) {
        Some(count) => if_askable(count).ok_or(QueryFault::Number { part }),
        None => Err(QueryFault::Number { part }),
    }
}

#[tactic(auto, unfolding(crate::specs::Word::nearest_of))]
fn read_nearest(x: &[u8], y: &[u8], k: &[u8]) -> Result<Shape, QueryFault>
    ensures { result ≡ nearest_of x.now y.now k.now }
{
    let x = read_number(1, x)?;
    let y = read_number(2, y)?;
    let k = read_count(3, k)?;
    Ok(Shape::Nearest {
        center: Point { x, y },
        k,
    })
}

#[tactic(auto, unfolding(crate::specs::Word::nearest_of_parts))]
fn read_nearest_parts(text: &[u8]) -> Result<Shape, QueryFault>
    ensures { result ≡ nearest_of_parts (comma_parts text.now) }
{
    let (x, rest) = split_part(text)?;
    let (y, k) = split_part(rest)?;
    match split_part(k) {
        Ok(_) => Err(QueryFault::Parts),
        Err(_) => read_nearest(x, y, k),
    }
}

// The nearest records that a text asks for.
#[tactic(auto, unfolding(crate::specs::Word::nearest_shape_of))]
fn read_nearest_text(text: &[u8]) -> Result<Shape, QueryFault>
    ensures { result ≡ nearest_shape_of text.now }
{
    match text {
        [b'n', b'e', b'a', b'r', b'e', b's', b't', b':', parts @ ..] => read_nearest_parts(parts),
        _ => Err(QueryFault::Kind),
    }
}

// The shape that some bytes spell.
#[tactic(auto, unfolding(crate::specs::Word::shape_of))]
fn read_shape(text: &[u8]) -> Result<Shape, QueryFault>
    ensures { result ≡ shape_of text.now }
{
    match text {
        [b'w', b'i', b'n', b'd', b'o', b'w', b':', parts @ ..] => read_window_parts(parts),
        _ => read_nearest_text(text),
    }
}

fn are_lower_digits(text: &[u8]) -> bool
    ensures { result ≡ list_all is_lower_digit text.now }
{
    text.iter().all(|b| matches!(*b, b'0'..=b'9' | b'a'..=b'f'))
}

// The mask that 16 lower-case hexadecimal digits write.
#[tactic(auto, unfolding(crate::specs::Word::mask_of_text))]
fn read_mask(text: &[u8]) -> Option<u64>
    ensures { result ≡ mask_of_text text.now }
{
    if text.len() != 16 || !are_lower_digits(text) {
        return None;
    }
    let bytes = <[u8; 8] as FromHex>::from_hex(text).ok()?;
    Some(u64::from_be_bytes(bytes))
}

// The query on all layers whose shape some bytes spell.
#[tactic(auto, unfolding(crate::specs::Word::unmasked_query))]
fn read_unmasked(text: &[u8]) -> Result<Query, QueryFault>
    ensures { result ≡ unmasked_query text.now }
{
    Ok(Query::of(read_shape(text)?))
}

// The query whose shape and mask some bytes spell.
#[tactic(auto, unfolding(crate::specs::Word::masked_query))]
fn read_masked(text: &[u8], named: &[u8]) -> Result<Query, QueryFault>
    ensures { result ≡ masked_query text.now named.now }
{
    let shape = read_shape(text)?;
    let mask = read_mask(named).ok_or(QueryFault::Mask)?;
    Ok(Query {
        shape,
        mask: Some(mask),
    })
}

// The query that some bytes spell as a word.
pub(crate) fn read_word(word: &[u8]) -> Result<Query, QueryFault>
    ensures { result ≡ query_of word.now }
{
    match cut(word, b'/') {
        Some((text, named)) => read_masked(text, named),
        None => read_unmasked(word),
    }
}

/// Reads a query word: `window:x0,y0,x1,y1`, four numbers of 32 bits in map units, or
/// `nearest:x,y,k`, two such numbers and how many records, 1 to 1,024. Behind either may stand `/`
/// and 16 lower-case hexadecimal digits: the mask of the layers that are asked for.
pub fn read_query(word: &str) -> Result<Query, QueryFault>
    ensures exact { result ≡ query_of word.now }
    ensures written { IfOk result (λ q. IsQuery q × (word.now ≡ word_of q)) }
    ensures read { (q : types.Query) → IsQuery q → word.now ≡ word_of q → result ≡ Ok q }
{
    read_word(word.as_bytes())
}
