//! The rules that a proof may break.

ghost use Rattle.std.specs.Prelude.{◌≡◌};
ghost use Rattle.mr_proof.specs.RuleNames.{rule_text};

/// What can be wrong with a proof. Of several at one place the first of this list counts.
#[derive(Clone, Copy, Debug, PartialEq, Eq)]
pub enum Rule {
    /// A field would end past byte 2^30.
    Long,
    /// A field would end past the proof's end.
    Short,
    /// The proof does not begin with `MRVO`.
    BadMagic,
    /// The version is neither 1 nor 2, or it is 1 and the query names a mask, or it is a choice.
    BadVersion,
    /// The proof is of another kind.
    WrongKind,
    /// The count of records is above 2^20, or of a pruned part 0.
    BadCount,
    /// The flag is neither 0 nor 1.
    BadFlag,
    /// The squared radius is above the greatest squared distance of a map.
    BadRadius,
    /// The level is above 7.
    BadLevel,
    /// The tag is none of an item of this level.
    BadTag,
    /// An opened node has no entries, or more than a leaf or an inner node may have.
    BadEntries,
    /// A rectangle's left side is right of its right side, or its lower side above its upper.
    BadRect,
    /// A payload is longer than 200 bytes.
    BadLength,
    /// A part that is to be opened is pruned: for a query, it is in reach.
    Hidden,
    /// A node that is not to be opened is opened: for a query, it is not in reach.
    Needless,
    /// Bytes stand behind the last field.
    Trailing,
    /// The proof is of a map with another root digest than the held one.
    WrongRoot { found: [u8; 32] },
    /// The squared radius, or that there is none, is not that of the opened records that are on the
    /// layers asked for.
    WrongRadius,
    /// In version 2, the parts do not have as many records as the head tells of.
    WrongTally,
    /// The layer of a record is above 63.
    BadLayer,
}

/// A rule that a proof breaks, and the place in bytes from the front of what breaks it.
#[derive(Clone, Copy, Debug, PartialEq, Eq)]
pub struct Fault {
    pub rule: Rule,
    pub at: u64,
}

impl Rule {
    /// The name of the rule, without the digest that was found.
    pub fn name(&self) -> &'static str
        ensures { result.now ≡ rule_text self.now }
    {
        match self {
            Rule::Long => "Long",
            Rule::Short => "Short",
            Rule::BadMagic => "BadMagic",
            Rule::BadVersion => "BadVersion",
            Rule::WrongKind => "WrongKind",
            Rule::BadCount => "BadCount",
            Rule::BadFlag => "BadFlag",
            Rule::BadRadius => "BadRadius",
            Rule::BadLevel => "BadLevel",
            Rule::BadTag => "BadTag",
            Rule::BadEntries => "BadEntries",
            Rule::BadRect => "BadRect",
            Rule::BadLength => "BadLength",
            Rule::Hidden => "Hidden",
            Rule::Needless => "Needless",
            Rule::Trailing => "Trailing",
            Rule::WrongRoot { found: _ } => "WrongRoot",
            Rule::WrongRadius => "WrongRadius",
            Rule::WrongTally => "WrongTally",
            Rule::BadLayer => "BadLayer",
        }
    }
}
