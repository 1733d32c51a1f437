ghost use Rattle.std.specs.Prelude.{◌≡◌, ℕ, ◌<◌, min, ◌++◌, length, drop, replicate, slice_index_or, slice_set};

use reading::kind::Reading;

/// The blocks on which a shelf stands: one row that the host lends, for readings of every kind.
#[derive(Drop)]
pub struct BlockRow<'a, R> {
    pub blocks: &'a mut [R],
}

fn fetch<R: Copy>(blocks: &[R], at: usize) -> R
    requires { at < length blocks.now }
    ensures { result ≡ slice_index_or blocks.now at result }
{
    blocks[at]
}

fn store<R: Copy>(blocks: &mut [R], at: usize, reading: R)
    requires { at < length blocks.old }
    ensures { blocks.new ≡ slice_set blocks.old at reading }
{
    blocks[at] = reading;
}

fn blank_first<R: Reading>(blocks: &mut [R], n: usize)
    ensures { blocks.new ≡ replicate (min n (length blocks.old)) R.Reading.kind.blank ++ drop (min n (length blocks.old)) blocks.old }
{
    // a loop: `fill` asks that a clone cannot fail, which no bound says of R
    let count = n.min(blocks.len());
    for block in &mut blocks[..count] {
        *block = R::blank();
    }
}

// The methods hand the slice to the functions above, a rule of the project. `lent` stands in several contracts: it ties
// two states of a row, so no invariant can say it.
impl<'a, R: Copy> BlockRow<'a, R> {
    /// The row of the lent blocks.
    pub fn new(blocks: &'a mut [R]) -> BlockRow<'a, R>
        ensures blocks { result.blocks.now ≡ blocks.old }
        ensures lent { result.blocks.ghost_name ≡ blocks.entry.ghost_name }
    {
        BlockRow { blocks }
    }

    /// How many blocks there are.
    pub fn len(&self) -> usize
        ensures { result ≡ length self.now.blocks.now }
    {
        self.blocks.len()
    }

    /// What a block holds, or what is given for a block that is not there.
    pub fn read(&self, at: usize, absent: R) -> R
        ensures { result ≡ slice_index_or self.now.blocks.now at absent }
    {
        if at < self.blocks.len() {
            fetch(self.blocks, at)
        } else {
            absent
        }
    }

    /// Writes a block; one that is not there is passed over.
    pub fn write(&mut self, at: usize, reading: R)
        ensures blocks { self.new.blocks.now ≡ slice_set self.old.blocks.now at reading }
        ensures len { length self.new.blocks.now ≡ length self.old.blocks.now }
        ensures lent { self.new.blocks.ghost_name ≡ self.old.blocks.ghost_name }
    {
        if at < self.blocks.len() {
            store(self.blocks, at, reading);
        }
    }
}

impl<'a, R: Reading> BlockRow<'a, R> {
    /// Blanks the first n blocks, or all if there are fewer.
    pub fn blank_first(&mut self, n: usize)
        ensures blocks { self.new.blocks.now ≡ replicate (min n (length self.old.blocks.now)) R.Reading.kind.blank ++ drop (min n (length self.old.blocks.now)) self.old.blocks.now }
        ensures len { length self.new.blocks.now ≡ length self.old.blocks.now }
        ensures lent { self.new.blocks.ghost_name ≡ self.old.blocks.ghost_name }
    {
        blank_first(self.blocks, n);
    }
}
