// Making: what is worked out of a channel that passes its checks.
#![tactic(auto)]

ghost use Rattle.std.specs.Prelude.{◌≡◌};
ghost use Rattle.rule.specs.Make as rule;
ghost use Rattle.rule.specs.Refusals.{met_as};
ghost use Rattle.work_out.specs.Made.{made_of};

// V, Q of each face and F of each cell.
#[derive(Drop)]
pub struct Made {
    pub v: [i64; rule::MOST_CELLS],
    pub q: [i64; rule::MOST_CELLS],
    pub f: [i64; rule::MOST_CELLS],
}

// What make stores, worked out before anything is stored; or the first refusal: of the checks, then 7, then 9.
pub fn work_out(
    c: rule::Counts,
    h: &[i64],
    e: &[i64],
    u: &[i64],
    damping: &[i64],
) -> Result<Made, rule::Refusal>
    ensures { result ≡ met_as (made_of c.n) (rule.make c.n c.x c.t c.wanted h.now e.now u.now damping.now) }
{
    checks::check_made(c, h, e, u, damping)?;
    let v = make_v::reduced_velocities(c.n, c.x, h, u)?;
    let q = flux::fluxes(c.n, c.x, h, e, u)?;
    let f = acceleration::accelerations(c.n, c.x, e, u, damping);
    Ok(Made { v, q, f })
}
