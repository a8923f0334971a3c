// "Gauges": the calls, on a channel's lent rows and over the bytes of its file. No call changes the channel.
#![tactic(auto)]

ghost use Rattle.std.specs.Prelude.{◌≡◌};
ghost use Rattle.rule.specs.Counted.{counted};
ghost use Rattle.rule.specs.File.{channel_of};
ghost use Rattle.whole.specs.Row.{padded};
ghost use Rattle.answers.specs.Stages.{leaves_bytes};
ghost use Rattle.gauge.specs.OnGauges.{place_call, feed_call, place_file, feed_file, read_state};
ghost use Rattle.gauge_state.specs.Left.{leaves_row};
ghost use Rattle.gauges.specs.Files.{Held};

// A gauge placed at a cell, counted from 1, of the channel in lent rows. The count of the answer is the gauge's place, 1 to 8.
// The rows are lent one by one, as a user's call has them: its theorems speak of each.
pub fn place(
    c: rule::Counts,
    h: &[i64],
    e: &[i64],
    u: &[i64],
    v: &[i64],
    q: &[i64],
    f: &[i64],
    damping: &[i64],
    cell: u64,
    gauges: &mut [u8],
) -> rule::Answer
    ensures { leaves_bytes result gauges.new ≡ place_call (counted c h.now e.now u.now v.now q.now f.now damping.now) cell gauges.old }
{
    let lent = rule::Lent {
        counts: c,
        h,
        e,
        u,
        v,
        q,
        f,
        damping,
    };
    if let Err(why) = checks::check(lent, None) {
        return answers::refused(why, 0);
    }
    gauge_state::place(c.n, cell, gauges)
}

// Each gauge fed the height at its cell, of the channel in lent rows.
// The rows are lent one by one, as a user's call has them: its theorems speak of each.
pub fn feed(
    c: rule::Counts,
    h: &[i64],
    e: &[i64],
    u: &[i64],
    v: &[i64],
    q: &[i64],
    f: &[i64],
    damping: &[i64],
    gauges: &mut [u8],
) -> rule::Answer
    ensures { leaves_bytes result gauges.new ≡ feed_call (counted c h.now e.now u.now v.now q.now f.now damping.now) gauges.old }
{
    let lent = rule::Lent {
        counts: c,
        h,
        e,
        u,
        v,
        q,
        f,
        damping,
    };
    if let Err(why) = checks::check(lent, None) {
        return answers::refused(why, 0);
    }
    gauge_state::feed(e, gauges)
}

// The heights of a file of n cells that the reader takes, in an array.
fn heights(file: &[u8], n: usize) -> [i64; rule::MOST_CELLS]
    requires { Held n file.now }
    ensures { result ≡ padded n (channel_of file.now).e }
{
    little::read_row::<i32>(file, layout::start_of(layout::EDITION, 1, n), n)
}

// The same of the channel of a file.
pub fn place_file(file: &[u8], cell: u64, gauges: &mut [u8]) -> rule::Answer
    ensures { leaves_bytes result gauges.new ≡ place_file file.now cell gauges.old }
{
    if let Err(why) = reader::check(file, None) {
        return answers::refused(why, 0);
    }
    let n = little::count_at(file, 4) as usize;
    gauge_state::place(n, cell, gauges)
}

pub fn feed_file(file: &[u8], gauges: &mut [u8]) -> rule::Answer
    ensures { leaves_bytes result gauges.new ≡ feed_file file.now gauges.old }
{
    let read = reader::check(file, None);
    if let Err(refusal) = read {
        return answers::refused(refusal, 0);
    }
    let n = little::count_at(file, 4) as usize;
    let e = heights(file, n);
    gauge_state::feed(&e[..n], gauges)
}

// What the gauges have counted: of each place its cell, the heights fed, its crossings, its waves, the largest height of one and
// the sum of their heights.
pub fn read(gauges: &[u8], readings: &mut [i64]) -> rule::Answer
    ensures { leaves_row result readings.new ≡ read_state gauges.now readings.old }
{
    gauge_state::read(gauges, readings)
}
