// What a table says: two columns, one number for each speed or each entry, and a line for each block of queues. The lanes of the speeds and
// those of the entries say how many there are and what each number is; the table's functions put and find the numbers.
ghost use Rattle.std.specs.Prelude.{◌≡◌, ℕ, suc, ◌≤◌, ◌<◌, List};

// A block: its place among the blocks, and its first queue.
#[derive(Clone, Copy)]
pub struct Block {
    pub place: usize,
    pub first: [u32; 6],
}

// The three numbers that a line begins with: the number of the block's first queue, its last total, and one more of which the lanes say what
// it is.
#[derive(Clone, Copy)]
pub struct Head {
    pub number: u32,
    pub lowest: u32,
    pub third: u32,
}

// What a table says.
pub trait Lanes: Drop {
    // How many places a column has, how many lanes a line has, and how many blocks have a line; the two columns, the first queue of a
    // block, and its line.
    ghost column: { ℕ };

    ghost count: { Self → ℕ };

    ghost blocks: { Self → ℕ };

    ghost first: { Self → ℕ → ℕ };

    ghost second: { Self → ℕ → ℕ };

    ghost begins: { Self → ℕ → List ℕ };

    ghost line: { Self → ℕ → ℕ → ℕ };

    // How many places a column has. (A constant of the trait is not stated yet for a type that holds a reference.)
    fn column(&self) -> usize
        ensures { (result ≡ column) × (result ≤ 32) };

    // How many lanes a line has.
    fn count(&self) -> usize
        ensures { (result ≡ count self.now) × (result ≤ column) };

    // How many blocks have a line.
    fn blocks(&self) -> usize
        ensures { (result ≡ blocks self.now) × (result ≤ 65535) };

    // The numbers of the columns at a place.
    fn pair(&self, place: usize) -> (u32, u32)
        requires { place < count self.now }
        ensures { (result.0 ≡ first self.now place) × (result.1 ≡ second self.now place) };

    // The first queue of a block.
    fn first_queue(&self, block: usize) -> [u32; 6]
        requires { block < blocks self.now }
        ensures { result ≡ begins self.now block };

    // What the line of a block begins with.
    fn head(&self, block: Block) -> Head
        requires { (block.place < blocks self.now) × (block.first ≡ begins self.now block.place) }
        ensures { (result.number ≡ line self.now block.place 0) × (result.lowest ≡ line self.now block.place 1) ×
            (result.third ≡ line self.now block.place 2) };

    // Where a lane begins in the line of a block.
    fn lane(&self, block: Block, place: usize) -> u32
        requires { (block.place < blocks self.now) × (block.first ≡ begins self.now block.place) × (place < count self.now) }
        ensures { result ≡ line self.now block.place (suc (suc (suc place))) };
}
