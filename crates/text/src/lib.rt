// The channel file: the printed line, put into a lent buffer from left to right.
#![tactic(auto)]

ghost use Rattle.std.specs.Prelude.{◌≡◌, [], ◌∷◌, ◌+◌, ◌≤◌, length};
ghost use Rattle.whole.specs.Row.{Within};
ghost use Rattle.rule.specs.Rows.{sum};
ghost use Rattle.rule.specs.Ranges.{most_cells, most_height};
ghost use Rattle.little.specs.Written.{written};
ghost use Rattle.text.specs.Put.{Put};
ghost use Rattle.text.specs.Lines.{count_text, counts_text, state_text, sum_text, line_of, refused_of, Printable};

use itoa::{Buffer, Integer};

// The sum of heights.
fn sum_of(row: &[i64]) -> i64
    requires { (length row.now ≤ most_cells) × Within most_height (length row.now) row.now }
    ensures { result ≡ sum row.now }
{
    let mut total = 0;
    for height in row {
        total += height;
    }
    total
}

// A buffer, and the place in it where the next text goes.
#[derive(Drop)]
struct Pen<'a> {
    d: &'a mut [u8],
    at: usize,
}

impl<'a> Pen<'a> {
    fn word(&mut self, word: &[u8])
        requires { self.old.at + length word.now ≤ length self.old.d.now }
        ensures { Put self.old word.now self.new }
    {
        let end = self.at + word.len();
        self.d[self.at..end].copy_from_slice(word);
        self.at = end;
    }

    // The digits of a number, after a minus where it is below 0. They come from `itoa` and not by `write!`, which
    // says nothing of a buffer that it fails to fill.
    fn number<I: Integer>(&mut self, n: I)
    where
        requires { self.old.at + length (I.text n) ≤ length self.old.d.now }
        ensures { Put self.old (I.text n) self.new }
    {
        let mut digits = Buffer::new();
        self.word(digits.format(n).as_bytes());
    }

    // A count, and the byte that stands after it.
    fn count(&mut self, n: u64, after: u8)
        requires { self.old.at + length (count_text n after) ≤ length self.old.d.now }
        ensures { Put self.old (count_text n after) self.new }
    {
        self.number(n);
        self.word(&[after]);
    }

    fn counts(&mut self, n: u64, accepted: u64, wanted: u64)
        requires { self.old.at + length (counts_text n accepted wanted) ≤ length self.old.d.now }
        ensures { Put self.old (counts_text n accepted wanted) self.new }
    {
        self.count(n, b' ');
        self.count(accepted, b' ');
        self.count(wanted, b' ');
    }

    // "done" exactly when accepted equals wanted.
    fn state(&mut self, accepted: u64, wanted: u64)
        requires { self.old.at + 5 ≤ length self.old.d.now }
        ensures { Put self.old (state_text accepted wanted) self.new }
    {
        if accepted == wanted {
            self.word(b"done ");
        } else {
            self.word(b"open ");
        }
    }

    fn sum(&mut self, e: &[i64])
        requires { (self.old.at + 12 ≤ length self.old.d.now) × (length e.now ≤ most_cells) × Within most_height (length e.now) e.now }
        ensures { Put self.old (sum_text e.now) self.new }
    {
        self.number(sum_of(e));
        self.word(b"\n");
    }

    fn line(&mut self, n: u64, accepted: u64, wanted: u64, e: &[i64])
        requires { (self.old.at + 64 ≤ length self.old.d.now) × Printable n accepted wanted e.now }
        ensures { Put self.old (line_of n accepted wanted e.now) self.new }
    {
        self.counts(n, accepted, wanted);
        self.state(accepted, wanted);
        self.sum(e);
    }

    fn refused(&mut self, number: u64)
        requires { (self.old.at + 64 ≤ length self.old.d.now) × (number ≤ 38) }
        ensures { Put self.old (refused_of number) self.new }
    {
        self.word(b"refused ");
        self.count(number, b'\n');
    }
}

// The line of a channel of n cells.
pub fn channel_line(d: &mut [u8], n: u64, accepted: u64, wanted: u64, e: &[i64]) -> usize
    requires { (64 ≤ length d.old) × Printable n accepted wanted e.now }
    ensures { (result ≡ length (line_of n accepted wanted e.now)) × (d.new ≡ written d.old 0 (line_of n accepted wanted e.now)) × (result ≤ 64) }
{
    let mut pen = Pen { d, at: 0 };
    pen.line(n, accepted, wanted, e);
    pen.at
}

// The line of a refusal.
pub fn refused_line(d: &mut [u8], number: u64) -> usize
    requires { (64 ≤ length d.old) × (number ≤ 38) }
    ensures { (result ≡ length (refused_of number)) × (d.new ≡ written d.old 0 (refused_of number)) × (result ≤ 64) }
{
    let mut pen = Pen { d, at: 0 };
    pen.refused(number);
    pen.at
}
