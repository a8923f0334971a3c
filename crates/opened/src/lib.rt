// Reading: the counts and rows that the bytes of a channel file hold.
#![tactic(auto)]

ghost use Rattle.std.specs.Prelude.{◌≡◌, true, ◌≤◌, length};
ghost use Rattle.rule.specs.Ranges.{most_cells};
ghost use Rattle.rule.specs.Counted.{counted, counts_of};
ghost use Rattle.rule.specs.File.{least_length, channel_of};
ghost use Rattle.form.specs.Reader.{fits_lent};
ghost use Rattle.opened.specs.Held.{poured_array};
ghost use Rattle.opened.specs.Fitting.{CellsFit, LevelsFit, Opens};

// The poured row in an array, and zeros where none is poured.
pub fn poured_row(poured: Option<&[u8]>, n: usize) -> [i64; rule::MOST_CELLS]
    requires { (n ≤ most_cells) × (fits_lent poured n ≡ true) }
    ensures { result ≡ poured_array poured.entry n }
{
    match poured {
        Some(p) => little::read_row::<i32>(p, 0, n),
        None => [0; rule::MOST_CELLS],
    }
}

// The counts of a file: N, X, T, accepted, wanted.
pub fn counts(s: &[u8]) -> rule::Counts
    requires { least_length ≤ length s.now }
    ensures { result ≡ counts_of (channel_of s.now) }
{
    let n = little::count_at(s, 4) as usize;
    let x = little::count_at(s, 8);
    let t = little::count_at(s, 12);
    let accepted = little::count_at(s, 16);
    let wanted = little::count_at(s, 20);
    rule::Counts {
        n,
        x,
        t,
        accepted,
        wanted,
    }
}

// The rows of a file's cells: depths, heights, velocities and reduced velocities.
pub fn keep_cells(s: &[u8], h: &mut [i64], e: &mut [i64], u: &mut [i64], v: &mut [i64])
    requires { CellsFit s.now h.old e.old u.old v.old }
    ensures { (h.new ≡ (channel_of s.now).h) × (e.new ≡ (channel_of s.now).e) × (u.new ≡ (channel_of s.now).u) × (v.new ≡ (channel_of s.now).v) }
{
    let n = h.len();
    little::keep_row::<i32>(s, layout::start_of(layout::EDITION, 0, n), h);
    little::keep_row::<i32>(s, layout::start_of(layout::EDITION, 1, n), e);
    little::keep_row::<i32>(s, layout::start_of(layout::EDITION, 2, n), u);
    little::keep_row::<i32>(s, layout::start_of(layout::EDITION, 3, n), v);
}

// The levels of a file of n cells, of Q and of F, and its damping.
pub fn keep_levels(s: &[u8], n: usize, q: &mut [i64], f: &mut [i64], damping: &mut [i64])
    requires { LevelsFit n s.now q.old f.old damping.old }
    ensures { (q.new ≡ (channel_of s.now).Q) × (f.new ≡ (channel_of s.now).F) × (damping.new ≡ (channel_of s.now).damping) }
{
    little::keep_row::<i64>(s, layout::start_of(layout::EDITION, 4, n), q);
    little::keep_row::<i64>(s, layout::start_of(layout::EDITION, 5, n), f);
    little::keep_row::<i32>(s, layout::start_of(layout::EDITION, 6, n), damping);
}

// The channel of a file whose form is right: its rows in lent ones of their lengths, and its counts.
pub fn opened(
    s: &[u8],
    h: &mut [i64],
    e: &mut [i64],
    u: &mut [i64],
    v: &mut [i64],
    q: &mut [i64],
    f: &mut [i64],
    damping: &mut [i64],
) -> rule::Counts
    requires { Opens s.now h.old e.old u.old v.old q.old f.old damping.old }
    ensures { counted result h.new e.new u.new v.new q.new f.new damping.new ≡ channel_of s.now }
{
    let c = counts(s);
    keep_cells(s, h, e, u, v);
    keep_levels(s, c.n, q, f, damping);
    c
}
