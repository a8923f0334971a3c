// "Refusal numbers": the checks of an input, in the order 1, 2, 31 to 36, 38, 37, 4, 26, 5.
#![tactic(auto)]

ghost use Rattle.std.specs.Prelude.{◌≡◌, ◌&&◌, [], ◌∷◌, ◌<◌, ◌≤◌, pos, length};
ghost use Rattle.std.specs.Int.Signed.{le_z};
ghost use Rattle.rule.specs.Rows.{map, same, lowest};
ghost use Rattle.rule.specs.Channel.{lengths, water};
ghost use Rattle.rule.specs.Counted.{lent};
ghost use Rattle.rule.specs.Ranges as rule;
ghost use Rattle.rule.specs.Ranges.{least_water, most_time};
ghost use Rattle.rule.specs.Refusals.{met};
ghost use Rattle.rule.specs.Checks as checks;
ghost use Rattle.coefficients.specs.Ready.{Bed};
ghost use Rattle.whole.specs.Row.{Within};
ghost use Rattle.checks.specs.Allowed.{lent_rows};
ghost use Rattle.checks.specs.Asked.{Water};
ghost use Rattle.checks.specs.Facts.{depth_at, is_deep};
ghost use Rattle.rule.specs.Make.{make_checked};
ghost use Rattle.places.specs.Lowest.{found};
ghost use Rattle.checks.specs.Order.{formed};

// At least 1,000 µm of water in cell j + 1.
fn wet_at(h: &[i64], e: &[i64], n: usize, j: usize) -> bool
    requires { Water n h.now e.now × (j < n) }
    ensures { result ≡ le_z (pos least_water) (depth_at h.now e.now j) }
{
    rule::LEAST_WATER <= 1000 * h[j] + e[j]
}

// At least 1,000 µm of water in every cell. The loop goes to its end, so that cells are tested side by side.
fn all_deep(h: &[i64], e: &[i64], n: usize) -> bool
    requires { Water n h.now e.now }
    ensures { result ≡ is_deep n h.now e.now }
{
    let mut fine = true;
    for j in 0..n {
        fine &= wet_at(h, e, n, j);
    }
    fine
}

// The lowest cell, counted from 1, that has less than 1,000 µm of water. Cells that have as much are only tested, which is quicker.
fn lowest_dry(h: &[i64], e: &[i64], n: usize) -> Option<u64>
    requires { Water n h.now e.now }
    ensures { result ≡ found (lowest (le_z (pos least_water)) (water n h.now e.now)) }
{
    if all_deep(h, e, n) {
        return None;
    }
    let mut lowest = None;
    for j in 0..n {
        lowest = places::lower(lowest, wet_at(h, e, n, j), j);
    }
    lowest
}

// 4: at least 1,000 µm of water in every cell.
pub fn deep(h: &[i64], e: &[i64], n: usize) -> Result<(), rule::Refusal>
    requires { Water n h.now e.now }
    ensures { result ≡ met (checks.deep n h.now e.now) }
{
    if let Some(place) = lowest_dry(h, e, n) {
        return Err(rule::Refusal::Depth(place));
    }
    Ok(())
}

// 4, then 26, then 5: what depths must meet together with the heights, the time step and the cell width.
pub fn wet(n: usize, x: u64, t: u64, h: &[i64], e: &[i64]) -> Result<(), rule::Refusal>
    requires { Bed n x h.now × (t ≤ most_time) × (n ≤ length e.now) × Within 74_000_000_000 n e.now }
    ensures { result ≡ met (checks.wet n x t h.now e.now) }
{
    let dry = deep(h, e, n);
    let late = pace::check(n, x, t, h);
    let steep = coefficients::check(n, x, h);
    dry.and(late).and(steep)
}

pub fn cells_allowed(n: usize) -> bool
    ensures { result ≡ rule.cells_allowed n }
{
    (rule::LEAST_CELLS <= n) & (n <= rule::MOST_CELLS)
}

pub fn counts_allowed(x: u64, t: u64, wanted: u64, accepted: u64) -> bool
    ensures { result ≡ rule.counts_allowed x t wanted accepted }
{
    (rule::LEAST_WIDTH <= x)
        & (x <= rule::MOST_WIDTH)
        & ((1 <= t) & (t <= rule::MOST_TIME))
        & ((1 <= wanted) & (wanted <= rule::MOST_STEPS))
        & (accepted <= wanted)
}

// 1: N, and the lengths of the channel's rows. N is tested first, so that 3N does not wrap.
pub fn shaped(c: rule::Lent) -> bool
    ensures { result ≡ rule.cells_allowed c.entry.counts.n && same (map length (c.entry.h.now ∷ c.entry.e.now ∷ c.entry.u.now ∷ c.entry.v.now ∷ c.entry.q.now ∷ c.entry.f.now ∷ c.entry.damping.now ∷ [])) (lengths c.entry.counts.n) }
{
    let n = c.counts.n;
    if !cells_allowed(n) {
        return false;
    }
    (c.h.len() == n)
        & (c.e.len() == n)
        & (c.u.len() == n)
        & (c.v.len() == n)
        & (c.q.len() == 3 * (n - 1))
        & (c.f.len() == 3 * n)
        & (c.damping.len() == n)
}

// 1: a poured row has n entries.
fn poured_shaped(n: usize, poured: Option<&[i64]>) -> bool
    ensures { result ≡ checks.long n (lent_rows poured.entry) }
{
    match poured {
        Some(s) => s.len() == n,
        None => true,
    }
}

// 1, then 2: the shape and the counts pass.
fn formed(shape: bool, counts: bool) -> Result<(), rule::Refusal>
    ensures { result ≡ met (formed shape counts) }
{
    let shaped = places::require(shape, rule::Refusal::Shape);
    let counted = places::require(counts, rule::Refusal::CountValue);
    shaped.and(counted)
}

// The checks of a channel, and of the row that is poured on it where there is one: the first that fails, with its lowest place.
pub fn check(c: rule::Lent, poured: Option<&[i64]>) -> Result<(), rule::Refusal>
    ensures { result ≡ met (checks.checked (lent c.entry) (lent_rows poured.entry)) }
{
    let k = c.counts;
    formed(
        shaped(c) & poured_shaped(k.n, poured),
        counts_allowed(k.x, k.t, k.wanted, k.accepted),
    )?;
    values::bed(c.h, c.e)?;
    values::speeds(c.u, c.v)?;
    values::levels(k.n, c.q, c.f)?;
    values::damping(c.damping).and(values::poured(poured))?;
    wet(k.n, k.x, k.t, c.h, c.e)
}

// 1: N, and the lengths of the rows that make takes.
fn make_shaped(n: usize, h: &[i64], e: &[i64], u: &[i64], damping: &[i64]) -> bool
    ensures { result ≡ rule.cells_allowed n && checks.long n (h.now ∷ e.now ∷ u.now ∷ damping.now ∷ []) }
{
    cells_allowed(n) & ((h.len() == n) & (e.len() == n) & (u.len() == n) & (damping.len() == n))
}

// The checks of make's input, whose count of accepted steps is not looked at: the first that fails, with its lowest place.
pub fn check_made(
    c: rule::Counts,
    h: &[i64],
    e: &[i64],
    u: &[i64],
    damping: &[i64],
) -> Result<(), rule::Refusal>
    ensures { result ≡ met (make_checked c.n c.x c.t c.wanted h.now e.now u.now damping.now) }
{
    formed(
        make_shaped(c.n, h, e, u, damping),
        counts_allowed(c.x, c.t, c.wanted, 0),
    )?;
    values::bed(h, e)?;
    values::velocities(u).and(values::damping(damping))?;
    wet(c.n, c.x, c.t, h, e)
}
