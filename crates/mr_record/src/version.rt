//! Versions of the formats.

ghost use Rattle.std.specs.Prelude.{◌≡◌};
ghost use Rattle.mr_record.specs.Version.{version_byte};

/// A version of the formats: of a record's bytes and line, of preimages, of pages and of proofs.
#[derive(Clone, Copy, Debug, PartialEq, Eq)]
pub enum Version {
    /// Each record has layer 0, and nothing is said of layers.
    One,
    /// A record has a layer from 0 to 63, and what is said of a node has the mask of the layers and
    /// the count of the records below it.
    Two,
}

impl Version {
    /// The byte that tells the version.
    pub fn byte(self) -> u8
        ensures { result ≡ version_byte self }
    {
        match self {
            Version::One => 1,
            Version::Two => 2,
        }
    }
}
