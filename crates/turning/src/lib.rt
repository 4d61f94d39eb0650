// Turning rows as a word of bits for each column, row y in bit y. Rests on flow.
#![tactic(auto)]

ghost use Rattle.std.specs.Prelude.{◌≡◌, ◌^◌, ◌<◌, ◌≤◌, length};
ghost use Rattle.laws.specs.Bits.{is_set};
ghost use Rattle.flow.specs.Plan.{most_size};
ghost use Rattle.turning.specs.Turning.{rows_south};
ghost use Rattle.turning.specs.Columns.{noted};

use flow::Flow;

// The words of all columns of the largest torus.
pub const COLUMNS: usize = 16;

// The flow makes its source row turning for its destination column, unless it starts in that column.
pub fn note(columns: &mut [u32], f: Flow)
    requires { (f.xd < length columns.old) × (f.ys < most_size) }
    ensures { columns.new ≡ noted columns.old f }
{
    let row = if f.xs == f.xd { 0 } else { 1 << f.ys };
    columns[f.xd as usize] |= row;
}

// Row y is in the word.
#[tactic(auto, unfolding(laws::specs::Bits::is_set))]
pub fn has_row(word: u32, y: u32) -> bool
    requires { y ≤ most_size }
    ensures { result ≡ is_set word y }
{
    (word >> y) % 2 == 1
}

// The rows in the word among the first n rows south of row y: the word twice, end to end, from the bit behind y's on.
pub fn rows_south(sy: u32, word: u32, y: u32, n: u32) -> u32
    requires { (sy ≤ most_size) × ((word < 2 ^ sy) × ((y < sy) × (n ≤ sy))) }
    ensures { result ≡ rows_south sy (is_set word) y n }
{
    let twice = (word << sy) | word;
    let south = twice >> (y + 1);
    let first = (1 << n) - 1;
    (south & first).count_ones()
}
