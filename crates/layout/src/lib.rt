// The channel file's layout, over the edition: where its offsets and its rows stand.
#![tactic(auto)]

ghost use Rattle.std.specs.Prelude.{◌≡◌, ◌+◌, ◌*◌, ◌≤◌, ◌<◌, length, take};
ghost use Rattle.rule.specs.Rows.{same};
ghost use Rattle.rule.specs.Channel.{lengths};
ghost use Rattle.rule.specs.Ranges.{most_cells};
ghost use Rattle.rule.specs.Layout.{counts_in, widths, head_length, span, offsets, start_of, length_of};
ghost use Rattle.rule.specs.File.{head_bytes, offsets_in};
ghost use Rattle.little.specs.Written.{written};

// The edition that is read and written.
pub const EDITION: u64 = 2;

// How many bytes a reader has to see of any edition.
pub const LEAST_LENGTH: usize = 48;

// How many counts stand before the offsets. An edition is a number and no enum, since a file may hold any.
#[tactic(auto, unfolding(rule::specs::Layout::counts_in))]
pub fn counts_in(edition: u64) -> usize
    ensures { (result ≡ counts_in edition) × (result ≤ 7) }
{
    match edition {
        1 | 2 => 6,
        _ => 0,
    }
}

// How many rows there are.
#[tactic(auto, unfolding(rule::specs::Layout::widths))]
pub fn rows_in(edition: u64) -> usize
    ensures { (result ≡ length (widths edition)) × (result ≤ 7) }
{
    match edition {
        1 => 6,
        2 => 7,
        _ => 0,
    }
}

// Where row i of a file of n cells starts, and for the row past the last where the file ends.
fn place(edition: u64, i: usize, n: usize) -> usize
    requires { (i ≤ length (widths edition)) × ((1 ≤ n) × (n ≤ most_cells)) }
    ensures { result ≡ head_length edition + span (take i (widths edition)) (lengths n) }
{
    let head = 4 * (counts_in(edition) + rows_in(edition));
    match i {
        5 => head + 40 * n - 24,
        6 => head + 64 * n - 24,
        7 => head + 68 * n - 24,
        _ => head + 4 * i * n,
    }
}

// Where row i of a file of n cells starts.
pub fn start_of(edition: u64, i: usize, n: usize) -> usize
    requires { (i < length (widths edition)) × ((1 ≤ n) × (n ≤ most_cells)) }
    ensures { result ≡ start_of edition n i }
{
    place(edition, i, n)
}

// How many bytes a file of n cells has.
pub fn length_of(edition: u64, n: usize) -> usize
    requires { (1 ≤ n) × (n ≤ most_cells) }
    ensures { result ≡ length_of edition n }
{
    place(edition, rows_in(edition), n)
}

// Whether the offsets in s are those of a file of n cells.
#[tactic(auto, unfolding(rule::specs::Layout::head_length))]
pub fn offsets_right(s: &[u8], edition: u64, n: usize) -> bool
    requires { (head_length edition ≤ length s.now) × ((1 ≤ n) × (n ≤ most_cells)) }
    ensures { result ≡ same (offsets_in edition s.now) (offsets edition n) }
{
    let first = 4 * counts_in(edition);
    let mut fine = true;
    for i in 0..rows_in(edition) {
        fine &= little::count_at(s, first + 4 * i) == start_of(edition, i, n) as u64;
    }
    fine
}

// The offsets of a file of n cells, written where they stand.
#[tactic(auto, unfolding(rule::specs::Layout::head_length))]
pub fn put_offsets(d: &mut [u8], edition: u64, n: usize)
    requires { (head_length edition ≤ length d.old) × ((1 ≤ n) × (n ≤ most_cells)) }
    ensures { d.new ≡ written d.old (4 * counts_in edition) (head_bytes (offsets edition n)) }
{
    let first = 4 * counts_in(edition);
    for i in 0..rows_in(edition) {
        little::put_count(d, first + 4 * i, start_of(edition, i, n) as u64);
    }
}
