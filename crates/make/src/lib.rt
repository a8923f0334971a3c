// Making: a channel from its counts, depths h, heights e, velocities u and damping.
#![tactic(auto)]

ghost use Rattle.std.specs.Prelude.{◌≡◌};
ghost use Rattle.rule.specs.Counted.{counted, left, lent};
ghost use Rattle.rule.specs.Refusals.{met_as};
ghost use Rattle.rule.specs.Calls.{make_call};
ghost use Rattle.work_out.specs.Made.{made_of};
ghost use Rattle.make.specs.Left.{fitted, left_by};

// What is made on lent rows that have the lengths of a channel of n cells; or the first refusal.
fn made(c: rule::Lent) -> Result<work_out::Made, rule::Refusal>
    ensures { result ≡ met_as (made_of c.entry.counts.n) (fitted (lent c.entry)) }
{
    if !checks::shaped(c) {
        return Err(rule::Refusal::Shape);
    }
    work_out::work_out(c.counts, c.h, c.e, c.u, c.damping)
}

// The lent rows v, q and f are filled with what is made; where it is refused they are left as they were.
pub fn fill(
    c: rule::Counts,
    h: &[i64],
    e: &[i64],
    u: &[i64],
    v: &mut [i64],
    q: &mut [i64],
    f: &mut [i64],
    damping: &[i64],
) -> Result<(), rule::Refusal>
    ensures { left c (left_by c result) h.now e.now u.now v.new q.new f.new damping.now ≡ make_call (counted c h.now e.now u.now v.old q.old f.old damping.now) }
{
    let made = made(rule::Lent {
        counts: c,
        h,
        e,
        u,
        v,
        q,
        f,
        damping,
    })?;
    let faces = c.n - 1;
    store::renew(v, c.n, &made.v);
    store::fill(q, faces, &made.q);
    store::fill(f, c.n, &made.f);
    Ok(())
}

// Of the lent rows h, e, u and damping are read, the others are filled; no step of what is made is accepted. A refused call leaves them
// all, and the count of accepted steps, as they were.
// The rows are lent one by one, as a user's call has them: its theorems speak of each.
pub fn make(
    c: rule::Counts,
    h: &[i64],
    e: &[i64],
    u: &[i64],
    v: &mut [i64],
    q: &mut [i64],
    f: &mut [i64],
    damping: &[i64],
) -> rule::Left
    ensures { left c result h.now e.now u.now v.new q.new f.new damping.now ≡ make_call (counted c h.now e.now u.now v.old q.old f.old damping.now) }
{
    match fill(c, h, e, u, v, q, f, damping) {
        Ok(()) => rule::Left {
            answer: answers::accepted(0),
            accepted: 0,
        },
        Err(why) => rule::Left {
            answer: answers::refused(why, 0),
            accepted: c.accepted,
        },
    }
}
