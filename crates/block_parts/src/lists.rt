ghost use Rattle.std.specs.Prelude.{◌≡◌, [], ◌∷◌, ◌++◌, length, if◌then◌else◌, ◌==◌, nat_lt};
ghost use Rattle.block_rules.specs.Blocks.{among};
ghost use Rattle.block_parts.specs.Lists.{blocks_in, Popped};

use crate::block_list::{BlockList, MOST_BLOCKS};

impl BlockList {
    /// A list without blocks.
    pub fn new() -> BlockList
        ensures { blocks_in result ≡ [] }
    {
        BlockList {
            len: 0,
            blocks: [0; MOST_BLOCKS],
        }
    }

    /// Whether it holds no block.
    pub fn is_empty(&self) -> bool
        ensures { result ≡ (length (blocks_in self.now) == 0) }
    {
        self.len == 0
    }

    /// Its blocks, in the order in which they came.
    pub fn as_slice(&self) -> &[u16]
        ensures { result.now ≡ blocks_in self.now }
    {
        &self.blocks[..self.len]
    }

    /// Appends a block, if there is room, and answers whether there was.
    pub fn push(&mut self, block: u16) -> bool
        ensures room { result ≡ nat_lt (length (blocks_in self.old)) MOST_BLOCKS }
        ensures list { blocks_in self.new ≡ (if result then blocks_in self.old ++ (block ∷ []) else blocks_in self.old) }
    {
        if self.len >= MOST_BLOCKS {
            return false;
        }
        self.blocks[self.len] = block;
        self.len += 1;
        true
    }

    /// Takes the last block off, if there is one.
    pub fn pop(&mut self) -> Option<u16>
        ensures { Popped (blocks_in self.old) (blocks_in self.new) result }
    {
        if self.len == 0 {
            return None;
        }
        self.len -= 1;
        Some(self.blocks[self.len])
    }

    /// Takes all blocks off.
    pub fn clear(&mut self)
        ensures { blocks_in self.new ≡ [] }
    {
        self.len = 0;
    }

    /// Whether a block stands there.
    pub fn contains(&self, block: u16) -> bool
        ensures { result ≡ among block (blocks_in self.now) }
    {
        self.as_slice().contains(&block)
    }
}
