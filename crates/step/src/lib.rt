// A step over lent rows: tried, and stored where it is accepted.
#![tactic(auto)]

ghost use Rattle.std.specs.Prelude.{◌≡◌};
ghost use Rattle.rule.specs.Counted.{counted, left};
ghost use Rattle.rule.specs.Calls.{step_call};

// One step with s poured: the rows and the count of accepted steps become the rule's, or stay as they were.
// The rows are lent one by one, as a user's call has them: its theorems speak of each.
pub fn step(
    c: rule::Counts,
    h: &[i64],
    e: &mut [i64],
    u: &mut [i64],
    v: &mut [i64],
    q: &mut [i64],
    f: &mut [i64],
    damping: &[i64],
    s: &[i64],
) -> rule::Left
    ensures { left c result h.now e.new u.new v.new q.new f.new damping.now ≡ step_call (counted c h.now e.old u.old v.old q.old f.old damping.now) s.now }
{
    let lent = rule::Lent {
        counts: c,
        h,
        e,
        u,
        v,
        q,
        f,
        damping,
    };
    let row = [0; rule::MOST_CELLS];
    let mut step = advance::Advanced {
        count: 0,
        trial: stage::Trial {
            e: row,
            v: row,
            u: row,
            q: row,
            f: row,
        },
    };
    if let Err(stopped) = attempt::attempt(lent, s, &mut step) {
        return rule::Left {
            answer: answers::refused(stopped.refusal, stopped.stage),
            accepted: c.accepted,
        };
    }
    let answer = answers::accepted(step.count);
    let trial = &step.trial;
    store::keep_cells(c.n, e, u, v, &trial.e, &trial.u, &trial.v);
    store::push_levels(c.n, q, f, &trial.q, &trial.f);
    rule::Left {
        answer,
        accepted: c.accepted + 1,
    }
}
