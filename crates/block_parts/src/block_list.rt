ghost use Rattle.std.specs.Prelude.{◌≤◌};
ghost use Rattle.block_parts.specs.declared.block_list.TheConstants.{MOST_BLOCKS};

/// The most blocks that a party can own: one for each of at most 24 × 4 links, and one more.
pub const MOST_BLOCKS: usize = 97;

/// A list of blocks. It has its room in itself, so nothing is allocated after a shelf is made. (A buffer of its own with
/// its length, since the list is `Copy`, which the library's vector of fixed room is not.)
#[derive(Clone, Copy)]
pub struct BlockList {
    pub(crate) len: usize,
    pub(crate) blocks: [u16; MOST_BLOCKS],
    ghost fits: { len ≤ MOST_BLOCKS },
}
