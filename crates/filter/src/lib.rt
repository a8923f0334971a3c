// Filtering: the heights and reduced velocities of a channel smoothed, and its newest level worked out again.
#![tactic(auto)]

ghost use Rattle.std.specs.Prelude.{◌≡◌, []};
ghost use Rattle.answers.specs.Stages.{leaves};
ghost use Rattle.rule.specs.Counted.{counted, lent};
ghost use Rattle.rule.specs.Checks as checks;
ghost use Rattle.rule.specs.Refusals.{met, met_as};
ghost use Rattle.rule.specs.Filter as rule;
ghost use Rattle.rule.specs.Step.{tried};
ghost use Rattle.rule.specs.Calls.{filter_call};
ghost use Rattle.stage.specs.Trials.{trial_of};
ghost use Rattle.filter.specs.Asked.{Smoothing};
ghost use Rattle.filter.specs.Filtered.{pass};

// The input checks, then 11: the first that fails.
fn ready(c: rule::Lent) -> Result<(), rule::Refusal>
    ensures { result ≡ met (checks.ready (lent c.entry) []) }
{
    checks::check(c, None)?;
    if c.counts.accepted == c.counts.wanted {
        return Err(rule::Refusal::Complete);
    }
    Ok(())
}

// The smoothed rows, the checks of a stage, and what is worked out from them.
fn smoothed(c: rule::Lent) -> Result<stage::Trial, rule::Refusal>
    requires { Smoothing (lent c) }
    ensures { result ≡ met_as (trial_of c.entry.counts.n) (tried (lent c.entry) (rule.smoothed c.entry.counts.n c.entry.e.now) (rule.smoothed_reduced c.entry.counts.n c.entry.v.now)) }
{
    let n = c.counts.n;
    let heights = smoothing::smoothed(n, c.e);
    let reduced = smoothing::smoothed_reduced(n, c.v);
    stage::tried(n, c.counts.x, c.h, heights, reduced, c.damping)
}

// A pass, before anything is stored.
fn pass(c: rule::Lent) -> Result<stage::Trial, rule::Refusal>
    ensures { result ≡ met_as (trial_of c.entry.counts.n) (pass (lent c.entry)) }
{
    ready(c)?;
    smoothed(c)
}

// All is worked out before anything is stored. A refused call leaves the lent rows as they were.
// The rows are lent one by one, as a user's call has them: its theorems speak of each.
pub fn filter(
    c: rule::Counts,
    h: &[i64],
    e: &mut [i64],
    u: &mut [i64],
    v: &mut [i64],
    q: &mut [i64],
    f: &mut [i64],
    damping: &[i64],
) -> rule::Answer
    ensures { leaves result (counted c h.now e.new u.new v.new q.new f.new damping.now) ≡ filter_call (counted c h.now e.old u.old v.old q.old f.old damping.now) }
{
    let passed = pass(rule::Lent {
        counts: c,
        h,
        e,
        u,
        v,
        q,
        f,
        damping,
    });
    match passed {
        Ok(trial) => {
            store::keep_cells(c.n, e, u, v, &trial.e, &trial.u, &trial.v);
            store::renew_levels(c.n, q, f, &trial.q, &trial.f);
            answers::accepted(0)
        }
        Err(why) => answers::refused(why, 0),
    }
}
