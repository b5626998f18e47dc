//! Why a record's bytes were refused.

/// What is wrong with the bytes of a record.
#[derive(Clone, Copy)]
pub enum RecordRule {
    /// The bytes end before the field does.
    Short,
    /// The sides of the rectangle are out of order.
    BadRect,
    /// The payload's length is above 200.
    BadLength,
    /// The layer is above 63.
    BadLayer,
}

/// The first field of a record that breaks a rule.
#[derive(Clone, Copy)]
pub struct RecordFault {
    pub rule: RecordRule,
    /// The offset of the field's first byte.
    pub at: usize,
}
