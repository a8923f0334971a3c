// A run over lent rows: steps with nothing poured, until complete or refused. It keeps what was accepted.
#![tactic(auto)]

ghost use Rattle.std.specs.Prelude.{◌≡◌};
ghost use Rattle.rule.specs.Counted.{counted, left};
ghost use Rattle.rule.specs.Calls.{run_call};

// All steps that are left.
// The rows are lent one by one, as a user's call has them: its theorems speak of each.
pub fn run(
    c: rule::Counts,
    h: &[i64],
    e: &mut [i64],
    u: &mut [i64],
    v: &mut [i64],
    q: &mut [i64],
    f: &mut [i64],
    damping: &[i64],
) -> rule::Left
    ensures { left c result h.now e.new u.new v.new q.new f.new damping.now ≡ run_call (counted c h.now e.old u.old v.old q.old f.old damping.now) }
{
    run_for::run_for(c.wanted, c, h, e, u, v, q, f, damping)
}
