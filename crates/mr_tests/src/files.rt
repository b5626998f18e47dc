//! Files that several tests stand on, as parts.

/// One window that meets the record of a map, and one that does not.
pub const BOTH: &str = "| window:0,0,0,0\n| window:1,1,2,2";

/// On the map of record 7 at (0,0), the proof that opens the leaf, and the one that prunes it, each
/// behind its length.
pub const BUNDLE: &str = "\
    hex 00000032\n\
    window batch 0 count 1 level 0\n\
    leaf 1\n\
    record 7 0 0 0 0 -\n\
    hex 00000048\n\
    window batch 0 count 1 level 0\n\
    pruned rectangle 0 0 0 0 digest 0x4a";

/// The proof of `window:2,0,3,0` on the map of the records I at (I,0) for I from 1 to 17: the root
/// and its first leaf are opened, the second one is pruned.
pub const PROOF_OF_TWO: &str = "\
    window batch 0 count 17 level 1\n\
    node 2\n\
    leaf 8\n\
    record 1 1 0 1 0 -\n\
    record 2 2 0 2 0 -\n\
    record 3 3 0 3 0 -\n\
    record 4 4 0 4 0 -\n\
    record 5 5 0 5 0 -\n\
    record 6 6 0 6 0 -\n\
    record 7 7 0 7 0 -\n\
    record 8 8 0 8 0 -\n\
    pruned rectangle 9 0 17 0 digest 0x4c";
