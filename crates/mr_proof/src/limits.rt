//! The limits of a proof.

/// The greatest squared distance of a point of a map to a rectangle in it, in squared map units.
pub const RADIUS_LIMIT: u128 = 36_893_488_130_239_234_050;

/// No field of a proof ends past this place, in bytes from the front.
pub const PLACE_LIMIT: usize = 1 << 30;
