// A run of at most so many steps over lent rows, with nothing poured, until complete or refused. It keeps what was accepted.
#![tactic(auto)]

ghost use Rattle.std.specs.Prelude.{◌≡◌};
ghost use Rattle.rule.specs.Counted.{counted, left};
ghost use Rattle.rule.specs.Calls.{run_for_call};

// At most `most` steps, for a caller who stops between calls.
// The rows are lent one by one, as a user's call has them: its theorems speak of each.
pub fn run_for(
    most: u64,
    c: rule::Counts,
    h: &[i64],
    e: &mut [i64],
    u: &mut [i64],
    v: &mut [i64],
    q: &mut [i64],
    f: &mut [i64],
    damping: &[i64],
) -> rule::Left
    ensures { left c result h.now e.new u.new v.new q.new f.new damping.now ≡ run_for_call most (counted c h.now e.old u.old v.old q.old f.old damping.now) }
{
    let lent = rule::Lent {
        counts: c,
        h,
        e,
        u,
        v,
        q,
        f,
        damping,
    };
    if let Err(refusal) = checks::check(lent, None) {
        return rule::Left {
            answer: answers::refused(refusal, 0),
            accepted: c.accepted,
        };
    }
    let n = c.n;
    let mut accepted = c.accepted;
    let steps = most.min(c.wanted - c.accepted);
    for count in 0..steps {
        let nothing = [0i64; rule::MOST_CELLS];
        let r = step::step(c.after(accepted), h, e, u, v, q, f, damping, &nothing[..n]);
        accepted = r.accepted;
        if r.answer.number != 0 {
            return rule::Left {
                answer: rule::Answer { count, ..r.answer },
                accepted,
            };
        }
    }
    rule::Left {
        answer: answers::at_end(accepted, c.wanted, steps),
        accepted,
    }
}
