// The calls that change a channel, on lent rows.
#![tactic(auto)]

ghost use Rattle.std.specs.Prelude.{◌≡◌};
ghost use Rattle.rule.specs.Counted.{counted, left};
ghost use Rattle.call.specs.Walk.{pours_of, call_of};

// The calls that change a channel: a step with a row poured, a filter pass, at most so many steps of a run.
// A closed set of three and no closure: which row is poured, what is called and what the rule says of it hang on the case alone.
#[derive(Clone, Copy, Drop)]
pub enum Call {
    Step,
    Filter,
    Run(u64),
}

// A step alone takes a poured row.
pub fn pours(call: Call) -> bool
    ensures { result ≡ pours_of call }
{
    matches!(call, Call::Step)
}

// The call on lent rows.
pub fn called(
    call: Call,
    c: rule::Counts,
    h: &[i64],
    e: &mut [i64],
    u: &mut [i64],
    v: &mut [i64],
    q: &mut [i64],
    f: &mut [i64],
    damping: &[i64],
    s: &[i64],
) -> rule::Left
    ensures { left c result h.now e.new u.new v.new q.new f.new damping.now ≡ call_of call s.now (counted c h.now e.old u.old v.old q.old f.old damping.now) }
{
    match call {
        Call::Step => step::step(c, h, e, u, v, q, f, damping, s),
        Call::Filter => rule::Left {
            answer: filter::filter(c, h, e, u, v, q, f, damping),
            accepted: c.accepted,
        },
        Call::Run(most) => run_for::run_for(most, c, h, e, u, v, q, f, damping),
    }
}
