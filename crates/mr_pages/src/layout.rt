//! How the pages of a version are laid out.

ghost use Rattle.std.specs.Prelude.{◌≡◌};
ghost use Rattle.mr_pages.specs.PageBytes.{layout_by, IsLayout};

use mr_record::Version;

/// The size of a page of version 1 in bytes.
pub const PAGE_SIZE: usize = 4096;

/// That of version 2.
pub const SECOND_SIZE: usize = 8192;

/// The most pages of a file.
pub const PAGE_LIMIT: u32 = 1 << 20;

/// How many bytes a page holds of a child at most.
pub const LINK_LIMIT: usize = 68;

/// What differs from one version of the format to the next.
#[derive(Clone, Copy)]
pub struct Layout {
    /// The size of a page in bytes.
    pub size: usize,
    pub version: Version,
}

/// Version 1.
pub const FIRST: Layout = Layout {
    size: PAGE_SIZE,
    version: Version::One,
};

/// Version 2.
pub const SECOND: Layout = Layout {
    size: SECOND_SIZE,
    version: Version::Two,
};

impl Layout {
    /// The layout of this version.
    pub fn by(version: Version) -> Layout
        ensures layout { result ≡ layout_by version }
        ensures fits { IsLayout result }
    {
        match version {
            Version::One => FIRST,
            Version::Two => SECOND,
        }
    }
}
