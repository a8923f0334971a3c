// Reading: the channel file's bytes, in the reader's own order: 12, 13, 1, 12, 14, then the other input checks.
#![tactic(auto)]

ghost use Rattle.std.specs.Prelude.{◌≡◌};
ghost use Rattle.rule.specs.Refusals.{met, met_as};
ghost use Rattle.rule.specs.Checks.{checked};
ghost use Rattle.rule.specs.File.{channel_of, read_with};
ghost use Rattle.checks.specs.Allowed.{lent_rows};
ghost use Rattle.answers.specs.Stages.{answer_of};
ghost use Rattle.form.specs.Reader.{fits_lent, rows_in, body_tests};
ghost use Rattle.opened.specs.Held.{Begun, Formed};
ghost use Rattle.opened.specs.Fitting.{Opens};

// The input checks of the channel of a file whose form is right, and of the row that is poured.
fn check_opened(
    s: &[u8],
    h: &mut [i64],
    e: &mut [i64],
    u: &mut [i64],
    v: &mut [i64],
    q: &mut [i64],
    f: &mut [i64],
    damping: &mut [i64],
    poured: Option<&[i64]>,
) -> Result<(), rule::Refusal>
    requires { Opens s.now h.old e.old u.old v.old q.old f.old damping.old }
    ensures { result ≡ met (checked (channel_of s.now) (lent_rows poured.entry)) }
{
    let counts = opened::opened(s, h, e, u, v, q, f, damping);
    checks::check(
        rule::Lent {
            counts,
            h,
            e,
            u,
            v,
            q,
            f,
            damping,
        },
        poured,
    )
}

// The input checks of the channel that a file of n cells holds, in rows of its own.
fn values(s: &[u8], n: usize, poured: Option<&[i64]>) -> Result<(), rule::Refusal>
    requires { Formed n s.now }
    ensures { result ≡ met (checked (channel_of s.now) (lent_rows poured.entry)) }
{
    let faces = 3 * (n - 1);
    let cells = 3 * n;
    let mut h = [0i64; rule::MOST_CELLS];
    let mut e = [0i64; rule::MOST_CELLS];
    let mut u = [0i64; rule::MOST_CELLS];
    let mut v = [0i64; rule::MOST_CELLS];
    let mut q = [0i64; 3 * rule::MOST_CELLS];
    let mut f = [0i64; 3 * rule::MOST_CELLS];
    let mut damping = [0i64; rule::MOST_CELLS];
    check_opened(
        s,
        &mut h[..n],
        &mut e[..n],
        &mut u[..n],
        &mut v[..n],
        &mut q[..faces],
        &mut f[..cells],
        &mut damping[..n],
        poured,
    )
}

// 12, 14, then the input checks but 1, of a file of n cells.
pub fn body(s: &[u8], n: usize, poured: Option<&[u8]>) -> Result<(), rule::Refusal>
    requires { Begun n poured s.now }
    ensures { result ≡ met (body_tests n (rows_in poured.entry) s.now) }
{
    form::form(s, n)?;
    match poured {
        Some(p) => {
            let row = little::read_row::<i32>(p, 0, n);
            values(s, n, Some(&row[..n]))
        }
        None => values(s, n, None),
    }
}

// The reader's check of the file s, and of the poured row in the bytes lent where one is poured.
pub fn check(s: &[u8], poured: Option<&[u8]>) -> Result<(), rule::Refusal>
    ensures { result ≡ met_as (λ _. tt) (read_with (fits_lent poured.entry) (rows_in poured.entry) s.now) }
{
    form::head(s)?;
    let n = little::count_at(s, 4) as usize;
    if !form::shape_passes(n, poured) {
        return Err(rule::Refusal::Shape);
    }
    body(s, n, poured)
}

// The same as an answer.
pub fn answer(s: &[u8], poured: Option<&[u8]>) -> rule::Answer
    ensures { result ≡ answer_of (met_as (λ _. 0) (read_with (fits_lent poured.entry) (rows_in poured.entry) s.now)) }
{
    answers::of(check(s, poured).and(Ok(0)))
}
