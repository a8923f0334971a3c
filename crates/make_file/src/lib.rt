// Making over the bytes of a channel file: the input checks, then 15, then the rest of make.
#![tactic(auto)]

ghost use Rattle.std.specs.Prelude.{◌≡◌, ◌*◌, ◌≤◌, length};
ghost use Rattle.rule.specs.Ranges.{most_cells};
ghost use Rattle.rule.specs.Layout.{length_of};
ghost use Rattle.rule.specs.File.{edition};
ghost use Rattle.rule.specs.Calls.{make_file};
ghost use Rattle.rule.specs.Make as rule;
ghost use Rattle.checks.specs.Facts.{Lengths};
ghost use Rattle.answers.specs.Stages.{leaves_bytes};
ghost use Rattle.make.specs.Left.{answer_by};
ghost use Rattle.make_checks.specs.Order.{filed, make_rows};
ghost use Rattle.make_file.specs.Left.{Fitting};

// The file of the channel that is made of h, e, u and damping, where it is made. The rows v, q and f are filled on the way.
fn make_in(
    c: rule::Counts,
    h: &[i64],
    e: &[i64],
    u: &[i64],
    v: &mut [i64],
    q: &mut [i64],
    f: &mut [i64],
    damping: &[i64],
    file: &mut [u8],
) -> Result<(), rule::Refusal>
    requires { (length file.old ≡ length_of edition c.n) × Lengths c.n h.now e.now u.now v.old q.old f.old damping.now }
    ensures { leaves_bytes (answer_by result) file.new ≡ filed file.old (rule.make c.n c.x c.t c.wanted h.now e.now u.now damping.now) }
{
    make::fill(c, h, e, u, v, q, f, damping)?;
    put::put(file, c.after(0), h, e, u, v, q, f, damping);
    Ok(())
}

// The same, with rows of its own for what is made.
fn make_fitting(
    c: rule::Counts,
    h: &[i64],
    e: &[i64],
    u: &[i64],
    damping: &[i64],
    file: &mut [u8],
) -> Result<(), rule::Refusal>
    requires { Fitting c.n h.now e.now u.now damping.now file.old }
    ensures { leaves_bytes (answer_by result) file.new ≡ filed file.old (rule.make c.n c.x c.t c.wanted h.now e.now u.now damping.now) }
{
    let n = c.n;
    let faces = 3 * (n - 1);
    let cells = 3 * n;
    let mut v = [0; rule::MOST_CELLS];
    let mut q = [0; 3 * rule::MOST_CELLS];
    let mut f = [0; 3 * rule::MOST_CELLS];
    make_in(
        c,
        h,
        e,
        u,
        &mut v[..n],
        &mut q[..faces],
        &mut f[..cells],
        damping,
        file,
    )
}

// From rows of whole numbers.
fn make_rows(
    c: rule::Counts,
    h: &[i64],
    e: &[i64],
    u: &[i64],
    damping: &[i64],
    file: &mut [u8],
) -> Result<(), rule::Refusal>
    requires { (1 ≤ c.n) × (c.n ≤ most_cells) }
    ensures { leaves_bytes (answer_by result) file.new ≡ make_rows c.n c.x c.t c.wanted h.now e.now u.now damping.now file.old }
{
    make_checks::check(c, h, e, u, damping, file.len())?;
    make_fitting(c, h, e, u, damping, file)
}

// The channel of N, X, T, wanted and the rows h, e, u and damping, written into a buffer of exactly its file's length. A row has four
// bytes for each entry. A refused call leaves the buffer as it was.
pub fn make(
    n: u64,
    x: u64,
    t: u64,
    wanted: u64,
    h: &[u8],
    e: &[u8],
    u: &[u8],
    damping: &[u8],
    file: &mut [u8],
) -> rule::Answer
    ensures { leaves_bytes result file.new ≡ make_file n x t wanted h.now e.now u.now damping.now file.old }
{
    if !make_checks::shape_passes(n, h, e, u, damping) {
        return answers::refused(rule::Refusal::Shape, 0);
    }
    let cells = n as usize;
    let depths = little::read_row::<i32>(h, 0, cells);
    let heights = little::read_row::<i32>(e, 0, cells);
    let velocities = little::read_row::<i32>(u, 0, cells);
    let dampings = little::read_row::<i32>(damping, 0, cells);
    let c = rule::Counts {
        n: cells,
        x,
        t,
        accepted: 0,
        wanted,
    };
    let made = make_rows(
        c,
        &depths[..cells],
        &heights[..cells],
        &velocities[..cells],
        &dampings[..cells],
        file,
    );
    match made {
        Ok(()) => answers::accepted(0),
        Err(why) => answers::refused(why, 0),
    }
}
