// A table of lanes in lent memory: what is the same for every block stands in two columns, and behind them stands a line for each block.
ghost use Rattle.std.specs.Prelude.{◌≡◌, ℕ, ◌+◌, ◌*◌, ◌≤◌, ◌<◌, length};
ghost use Rattle.buffers.specs.Fills.{Fills, number_at};
ghost use Rattle.rows.specs.Tables.{line_at, Columns, LinesPut, Table, IsLine};

use crate::lanes::{Block, Head, Lanes};

// A table that is filled.
#[derive(Drop)]
pub struct Table<'a, L: Lanes> {
    pub of: L,
    pub numbers: &'a [u32],
    pub ghost filled: { Table L.column (L.count of) (L.blocks of) (L.first of) (L.second of) (L.line of) numbers.now },
    pub ghost few: { (L.count of ≤ L.column) × (L.column ≤ 32) × (L.blocks of ≤ 65535) },
}

// The line of a block: the numbers that it begins with, and the places that the lanes begin at.
#[derive(Clone, Copy)]
pub struct Line<'a> {
    pub number: u32,
    pub lowest: u32,
    pub third: u32,
    pub lanes: &'a [u32],
}

// Where the line of a block begins: behind two columns of so many places, each line having so many lanes.
fn line_at(column: usize, count: usize, block: usize) -> usize
    requires { (column ≤ 32) × (count ≤ 32) × (block ≤ 65535) }
    ensures { result ≡ line_at column count block }
{
    column + column + block * (count + 3)
}

// Puts the numbers of both columns.
fn put_columns<L: Lanes>(of: &L, numbers: &mut [u32])
    requires { L.column + L.column ≤ length numbers.old }
    ensures few { (L.count of.now ≤ L.column) × (L.column ≤ 32) }
    ensures columns { (length numbers.new ≡ length numbers.old) ×
        Columns L.column (L.count of.now) (L.first of.now) (L.second of.now) numbers.new }
{
    let column = of.column();
    for place in 0..of.count() {
        let (first, second) = of.pair(place);
        numbers[place] = first;
        numbers[column + place] = second;
    }
}

// Puts the three numbers that a line begins with.
fn put_head(numbers: &mut [u32], at: usize, head: Head)
    requires { at + 3 ≤ length numbers.old }
    ensures { (line : ℕ → ℕ) → head.number ≡ line 0 → head.lowest ≡ line 1 → head.third ≡ line 2 →
        Fills 1 number_at line at 3 numbers.old numbers.new }
{
    numbers[at] = head.number;
    numbers[at + 1] = head.lowest;
    numbers[at + 2] = head.third;
}

// Puts the line of a block. (A place is written by its index: of what `iter_mut` over a part leaves, a proof knows the length alone.)
fn put_line<L: Lanes>(of: &L, block: Block, numbers: &mut [u32])
    requires { (block.place < L.blocks of.now) × (L.blocks of.now ≤ 65535) × (block.first ≡ L.begins of.now block.place) ×
        (line_at L.column (L.count of.now) (L.blocks of.now) ≤ length numbers.old) }
    ensures { Fills 1 number_at (L.line of.now block.place) (line_at L.column (L.count of.now) block.place) (L.count of.now + 3)
        numbers.old numbers.new }
{
    let count = of.count();
    let at = line_at(of.column(), count, block.place);
    put_head(numbers, at, of.head(block));
    for place in 0..count {
        numbers[at + 3 + place] = of.lane(block, place);
    }
}

// Puts the lines of all blocks.
fn put_lines<L: Lanes>(of: &L, numbers: &mut [u32])
    requires { line_at L.column (L.count of.now) (L.blocks of.now) ≤ length numbers.old }
    ensures few { L.blocks of.now ≤ 65535 }
    ensures lines { LinesPut L.column (L.count of.now) (L.blocks of.now) (L.line of.now) numbers.old numbers.new }
{
    for place in 0..of.blocks() {
        let first = of.first_queue(place);
        put_line(of, Block { place, first }, numbers);
    }
}

impl<'a, L: Lanes> Table<'a, L> {
    // Fills memory with a table.
    pub fn fill(of: L, numbers: &'a mut [u32]) -> Self
        requires { line_at L.column (L.count of) (L.blocks of) ≤ length numbers.old }
        ensures { result.of ≡ of }
    {
        put_columns(&of, numbers);
        put_lines(&of, numbers);
        Table { of, numbers }
    }

    // The number of the first column at a place.
    pub fn first(&self, place: usize) -> u32
        requires { place < L.count self.now.of }
        ensures { result ≡ L.first self.now.of place }
    {
        self.numbers[place]
    }

    // The number of the second column at a place.
    pub fn second(&self, place: usize) -> u32
        requires { place < L.count self.now.of }
        ensures { result ≡ L.second self.now.of place }
    {
        self.numbers[self.of.column() + place]
    }

    // The line of a block.
    pub fn line(&self, block: usize) -> Line<'a>
        requires { block < L.blocks self.now.of }
        ensures { IsLine (L.count self.now.of) (L.line self.now.of block) result.number result.lowest result.third result.lanes.now }
    {
        let count = self.of.count();
        let at = line_at(self.of.column(), count, block);
        Line {
            number: self.numbers[at],
            lowest: self.numbers[at + 1],
            third: self.numbers[at + 2],
            lanes: &self.numbers[at + 3..at + 3 + count],
        }
    }
}
