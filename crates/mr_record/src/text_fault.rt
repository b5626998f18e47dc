//! Why a text was refused.

ghost use Rattle.std.specs.Prelude.{◌≡◌};
ghost use Rattle.mr_record.specs.Rules.{text_rule_name};
ghost use Rattle.mr_record.specs.declared.text_fault.TextErr.TheVariants.{NoMemory};

use std::alloc::{AllocError, AllocFailed};

/// The rules of the texts. On one line an earlier rule goes before a later one.
#[derive(Clone, Copy, Debug, PartialEq, Eq)]
pub enum TextRule {
    /// The line is past the limit.
    TooMany,
    /// The line has no line feed.
    NoEnd,
    /// The first line of a batch text is not `batch N`, or there is none.
    Head,
    /// The fields are not as many as the line wants, between single spaces.
    Form,
    /// The number is no canonical decimal below 2^64.
    Number,
    /// A coordinate is no canonical decimal of 32 signed bits.
    Coordinate,
    /// A rectangle whose left side is right of its right side, or its lower side above its upper.
    Order,
    /// The payload is neither `-` nor lower-case hexadecimal of 1 to 200 bytes.
    Payload,
    /// The number stands on an earlier line.
    Repeat,
    /// The line of a script is no query.
    Query,
    /// The layer is no canonical decimal from 0 to 63.
    Layer,
}

impl TextRule {
    /// The name that is printed.
    pub fn name(&self) -> &'static str
        ensures { result.now ≡ text_rule_name self.now }
    {
        match self {
            TextRule::TooMany => "TooMany",
            TextRule::NoEnd => "NoEnd",
            TextRule::Head => "Head",
            TextRule::Form => "Form",
            TextRule::Number => "Number",
            TextRule::Coordinate => "Coordinate",
            TextRule::Order => "Order",
            TextRule::Payload => "Payload",
            TextRule::Repeat => "Repeat",
            TextRule::Query => "Query",
            TextRule::Layer => "Layer",
        }
    }
}

/// The first line of a text that breaks a rule, counted from 1, and the first rule that it breaks.
#[derive(Clone, Copy, Debug, PartialEq, Eq)]
pub struct TextFault {
    pub line: u64,
    pub rule: TextRule,
}

/// Why the values of a text could not be had.
#[derive(Clone, Copy)]
pub enum TextErr {
    Text(TextFault),
    NoMemory,
}

impl From<AllocError> for TextErr {
    ghost from_gives = { λ _ e. e ≡ NoMemory };

    fn from(_error: AllocError) -> TextErr {
        TextErr::NoMemory
    }
}

impl<T: Drop> From<AllocFailed<T>> for TextErr {
    ghost from_gives = { λ _ e. e ≡ NoMemory };

    fn from(_error: AllocFailed<T>) -> TextErr {
        TextErr::NoMemory
    }
}
