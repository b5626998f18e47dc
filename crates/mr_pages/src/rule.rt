//! Why a file stands for no map.

ghost use Rattle.std.specs.Prelude.{◌≡◌};
ghost use Rattle.mr_pages.specs.Rules.{map_rule_name};

/// The rules of a map file. Which of them a file breaks first is not said by this order.
#[derive(Clone, Copy)]
pub enum MapRule {
    /// The length is 0, no multiple of a page's size, or above 2^20 pages.
    Size,
    /// Page 0 does not end with its seal.
    Unsealed,
    /// Page 0 is otherwise not as a head is spelled.
    Header,
    /// The page spells no node of the level that is said of it.
    Page,
    /// The page is 0 or not in the file.
    Outside,
    /// The page was reached before.
    Twice,
    /// The node has another digest than the one that is said of it.
    Digest { held: [u8; 32], found: [u8; 32] },
    /// The node has another rectangle than the one that is said of it.
    Rect,
    /// The node has another mask than the one that is said of it or, where it is not the root,
    /// another count.
    Sum,
    /// The node has too few entries.
    Fill,
    /// A record of the node has a number that was met before.
    Number,
    /// Page 0 says another number of records than were met.
    Count { held: u64, found: u64 },
    /// The page is not in the file, was reached before or is no free page, or it was never reached.
    Free,
    /// The page was read again, and its node has another digest than the one that is said of it.
    Changed { held: [u8; 32], found: [u8; 32] },
}

impl MapRule {
    /// The name that is printed.
    pub fn name(&self) -> &'static str
        ensures { result.now ≡ map_rule_name self.now }
    {
        match self {
            MapRule::Size => "Size",
            MapRule::Unsealed => "Unsealed",
            MapRule::Header => "Header",
            MapRule::Page => "Page",
            MapRule::Outside => "Outside",
            MapRule::Twice => "Twice",
            MapRule::Digest { .. } => "Digest",
            MapRule::Rect => "Rect",
            MapRule::Sum => "Sum",
            MapRule::Fill => "Fill",
            MapRule::Number => "Number",
            MapRule::Count { .. } => "Count",
            MapRule::Free => "Free",
            MapRule::Changed { .. } => "Changed",
        }
    }
}

/// The first rule that a file breaks, and the page at which it does.
#[derive(Clone, Copy)]
pub struct MapFault {
    pub page: u32,
    pub rule: MapRule,
}
