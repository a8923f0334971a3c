// A call on the channel of a file that the reader takes: opened in arrays, called, and written back.
#![tactic(auto)]

ghost use Rattle.std.specs.Prelude.{◌≡◌};
ghost use Rattle.rule.specs.File.{channel_of};
ghost use Rattle.rule.specs.Calls.{row_in};
ghost use Rattle.opened.specs.Fitting.{Opens};
ghost use Rattle.answers.specs.Stages.{leaves_bytes};
ghost use Rattle.call.specs.Kept.{Passing, filed};
ghost use Rattle.call.specs.Walk.{call_of, Takes};

// The call on the channel of a file that the reader takes, which is opened in lent rows of its lengths.
fn walk_rows(
    call: call::Call,
    file: &mut [u8],
    h: &mut [i64],
    e: &mut [i64],
    u: &mut [i64],
    v: &mut [i64],
    q: &mut [i64],
    f: &mut [i64],
    damping: &mut [i64],
    s: &[i64],
) -> rule::Answer
    requires { Opens file.old h.old e.old u.old v.old q.old f.old damping.old × Passing file.old }
    ensures { leaves_bytes result file.new ≡ filed (call_of call s.now (channel_of file.old)) }
{
    let c = opened::opened(file, h, e, u, v, q, f, damping);
    let r = call::called(call, c, h, e, u, v, q, f, damping, s);
    put::put(file, c.after(r.accepted), h, e, u, v, q, f, damping);
    r.answer
}

// The call on the channel of a file of n cells that the reader takes, in arrays.
pub fn in_arrays(call: call::Call, n: usize, file: &mut [u8], poured: &[u8]) -> rule::Answer
    requires { Takes call n file.old poured.now }
    ensures { leaves_bytes result file.new ≡ filed (call_of call (row_in poured.now) (channel_of file.old)) }
{
    let faces = 3 * (n - 1);
    let cells = 3 * n;
    let s = opened::poured_row(call::pours(call).then_some(poured), n);
    let mut h = [0i64; rule::MOST_CELLS];
    let mut e = [0i64; rule::MOST_CELLS];
    let mut u = [0i64; rule::MOST_CELLS];
    let mut v = [0i64; rule::MOST_CELLS];
    let mut q = [0i64; 3 * rule::MOST_CELLS];
    let mut f = [0i64; 3 * rule::MOST_CELLS];
    let mut damping = [0i64; rule::MOST_CELLS];
    walk_rows(
        call,
        file,
        &mut h[..n],
        &mut e[..n],
        &mut u[..n],
        &mut v[..n],
        &mut q[..faces],
        &mut f[..cells],
        &mut damping[..n],
        &s[..n],
    )
}
