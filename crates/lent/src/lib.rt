// The four calls over lent rows, for C, with numbers and pointers alone: each gives the answer's number, and its stage, place and
// count by pointers. The comparison with the second program and the bench call them.
#![tactic(auto)]

ghost use Rattle.std.specs.Prelude.{◌≡◌};
ghost use Rattle.rule.specs.Channel.{channel};
ghost use Rattle.rule.specs.Calls.{make_call, step_call, filter_call, run_call};
ghost use Rattle.answers.specs.Stages.{leaves};

// The answer's number, and by pointers its stage, place and count.
fn told(answer: rule::Answer, stage: &mut u64, place: &mut u64, count: &mut u64) -> u64
    ensures { record { number = result; stage = stage.new; place = place.new; count = count.new } ≡ answer }
{
    *stage = answer.stage;
    *place = answer.place;
    *count = answer.count;
    answer.number
}

// A channel from depths, heights and velocities.
#[unsafe(no_mangle)]
pub extern "C" fn lent_make(
    n: usize,
    x: u64,
    t: u64,
    accepted: &mut u64,
    wanted: u64,
    h: &[i64],
    e: &[i64],
    u: &[i64],
    v: &mut [i64],
    q: &mut [i64],
    f: &mut [i64],
    damping: &[i64],
    stage: &mut u64,
    place: &mut u64,
    count: &mut u64,
) -> u64
    ensures { leaves (record { number = result; stage = stage.new; place = place.new; count = count.new }) (channel n x t accepted.new wanted h.now e.now u.now v.new q.new f.new damping.now) ≡ make_call (channel n x t accepted.old wanted h.now e.now u.now v.old q.old f.old damping.now) }
{
    let c = rule::Counts {
        n,
        x,
        t,
        accepted: *accepted,
        wanted,
    };
    let r = make::make(c, h, e, u, v, q, f, damping);
    *accepted = r.accepted;
    told(r.answer, stage, place, count)
}

// One step, with s poured.
#[unsafe(no_mangle)]
pub extern "C" fn lent_step(
    n: usize,
    x: u64,
    t: u64,
    accepted: &mut u64,
    wanted: u64,
    h: &[i64],
    e: &mut [i64],
    u: &mut [i64],
    v: &mut [i64],
    q: &mut [i64],
    f: &mut [i64],
    damping: &[i64],
    s: &[i64],
    stage: &mut u64,
    place: &mut u64,
    count: &mut u64,
) -> u64
    ensures { leaves (record { number = result; stage = stage.new; place = place.new; count = count.new }) (channel n x t accepted.new wanted h.now e.new u.new v.new q.new f.new damping.now) ≡ step_call (channel n x t accepted.old wanted h.now e.old u.old v.old q.old f.old damping.now) s.now }
{
    let c = rule::Counts {
        n,
        x,
        t,
        accepted: *accepted,
        wanted,
    };
    let r = step::step(c, h, e, u, v, q, f, damping, s);
    *accepted = r.accepted;
    told(r.answer, stage, place, count)
}

// One filter pass.
#[unsafe(no_mangle)]
pub extern "C" fn lent_filter(
    n: usize,
    x: u64,
    t: u64,
    accepted: u64,
    wanted: u64,
    h: &[i64],
    e: &mut [i64],
    u: &mut [i64],
    v: &mut [i64],
    q: &mut [i64],
    f: &mut [i64],
    damping: &[i64],
    stage: &mut u64,
    place: &mut u64,
    count: &mut u64,
) -> u64
    ensures { leaves (record { number = result; stage = stage.new; place = place.new; count = count.new }) (channel n x t accepted wanted h.now e.new u.new v.new q.new f.new damping.now) ≡ filter_call (channel n x t accepted wanted h.now e.old u.old v.old q.old f.old damping.now) }
{
    let c = rule::Counts {
        n,
        x,
        t,
        accepted,
        wanted,
    };
    told(
        filter::filter(c, h, e, u, v, q, f, damping),
        stage,
        place,
        count,
    )
}

// Steps with nothing poured, until complete or refused.
#[unsafe(no_mangle)]
pub extern "C" fn lent_run(
    n: usize,
    x: u64,
    t: u64,
    accepted: &mut u64,
    wanted: u64,
    h: &[i64],
    e: &mut [i64],
    u: &mut [i64],
    v: &mut [i64],
    q: &mut [i64],
    f: &mut [i64],
    damping: &[i64],
    stage: &mut u64,
    place: &mut u64,
    count: &mut u64,
) -> u64
    ensures { leaves (record { number = result; stage = stage.new; place = place.new; count = count.new }) (channel n x t accepted.new wanted h.now e.new u.new v.new q.new f.new damping.now) ≡ run_call (channel n x t accepted.old wanted h.now e.old u.old v.old q.old f.old damping.now) }
{
    let c = rule::Counts {
        n,
        x,
        t,
        accepted: *accepted,
        wanted,
    };
    let r = run::run(c, h, e, u, v, q, f, damping);
    *accepted = r.accepted;
    told(r.answer, stage, place, count)
}
