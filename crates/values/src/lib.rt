// "Refusal numbers", 31 to 38: the entries of each row in their range, and the lowest place at fault.
#![tactic(auto)]

ghost use Rattle.std.specs.Prelude.{◌≡◌, ◌+◌, ◌*◌, ◌-◌, ◌≤◌, ◌^◌, length, take, drop};
ghost use Rattle.rule.specs.Rows.{all, lowest};
ghost use Rattle.rule.specs.Ranges as rule;
ghost use Rattle.rule.specs.Checks as checks;
ghost use Rattle.rule.specs.declared.Refusal.TheVariants.{VelocityValue, ReducedValue, DampingValue};
ghost use Rattle.rule.specs.Refusals.{met};
ghost use Rattle.rows.specs.Firsts.{firsts};
ghost use Rattle.places.specs.Lowest.{found};
ghost use Rattle.values.specs.Between.{between};
ghost use Rattle.values.specs.Chains as chains;
ghost use Rattle.values.specs.Levels.{lowest_level};
ghost use Rattle.values.specs.Poured.{lent_rows};

// An entry is within `most` of zero.
fn within(x: i64, most: u64) -> bool
    ensures { result ≡ rule.within most x }
{
    x.unsigned_abs() <= most
}

// Each of the first n entries is within `most` of zero. The loop goes to its end, so that entries are tested side by side.
pub fn all_within(row: &[i64], n: usize, most: u64) -> bool
    requires { (n ≤ length row.now) × (most ≤ 2 ^ 62) }
    ensures { result ≡ checks.small most (firsts n row.now) }
{
    let mut fine = true;
    for j in 0..n {
        fine &= within(row[j], most);
    }
    fine
}

// An entry is from `least` to `most`.
fn between(x: i64, least: i64, most: i64) -> bool
    ensures { result ≡ between least most x }
{
    (least <= x) & (x <= most)
}

// Each entry is from `least` to `most`. The loop goes to its end, as that of `all_within` does.
fn all_between(row: &[i64], least: i64, most: i64) -> bool
    ensures { result ≡ all (between least most) row.now }
{
    let mut fine = true;
    for x in row {
        fine &= between(*x, least, most);
    }
    fine
}

// The lowest place, counted from 1, of an entry that is not from `least` to `most`. A row without one is only tested, which is
// quicker.
fn lowest_beyond(row: &[i64], least: i64, most: i64) -> Option<u64>
    ensures { result ≡ found (lowest (between least most) row.now) }
{
    if all_between(row, least, most) {
        return None;
    }
    let mut place = None;
    for (j, x) in row.iter().enumerate() {
        place = places::lower(place, between(*x, least, most), j);
    }
    place
}

// The lowest place of an entry that is not within `most` of zero.
fn lowest_outside(row: &[i64], most: u64) -> Option<u64>
    requires { most ≤ 2 ^ 62 }
    ensures { result ≡ found (lowest (rule.within most) row.now) }
{
    let top = most as i64;
    lowest_beyond(row, -top, top)
}

// 31, then 32: depths and heights.
pub fn bed(h: &[i64], e: &[i64]) -> Result<(), rule::Refusal>
    ensures { result ≡ met (chains.bed h.now e.now) }
{
    if let Some(place) = lowest_beyond(h, 1, rule::MOST_DEPTH) {
        return Err(rule::Refusal::DepthValue(place));
    }
    if let Some(place) = lowest_outside(e, rule::MOST_HEIGHT) {
        return Err(rule::Refusal::HeightValue(place));
    }
    Ok(())
}

// 33: velocities.
pub fn velocities(u: &[i64]) -> Result<(), rule::Refusal>
    ensures { result ≡ met (checks.each (rule.within rule.most_velocity) u.now VelocityValue) }
{
    if let Some(place) = lowest_outside(u, rule::MOST_VELOCITY) {
        return Err(rule::Refusal::VelocityValue(place));
    }
    Ok(())
}

// 34: reduced velocities.
fn reduced(v: &[i64]) -> Result<(), rule::Refusal>
    ensures { result ≡ met (checks.each (rule.within rule.most_reduced) v.now ReducedValue) }
{
    if let Some(place) = lowest_outside(v, rule::MOST_REDUCED) {
        return Err(rule::Refusal::ReducedValue(place));
    }
    Ok(())
}

// 33, then 34: velocities and reduced velocities.
pub fn speeds(u: &[i64], v: &[i64]) -> Result<(), rule::Refusal>
    ensures { result ≡ met (chains.speeds u.now v.now) }
{
    velocities(u).and(reduced(v))
}

// The lowest place, among the m entries from `from` on, of one that is not within `most` of zero.
fn lowest_from(row: &[i64], from: usize, m: usize, most: u64) -> Option<u64>
    requires { (from + m ≤ length row.now) × (most ≤ 2 ^ 62) }
    ensures { result ≡ found (lowest (rule.within most) (take m (drop from row.now))) }
{
    lowest_outside(&row[from..from + m], most)
}

// The lowest place in the newest of three levels of m entries that has one.
fn lowest_level(row: &[i64], m: usize, most: u64) -> Option<u64>
    requires { (length row.now ≡ 3 * m) × (most ≤ 2 ^ 62) }
    ensures { result ≡ lowest_level m (rule.within most) row.now }
{
    let newest = lowest_from(row, 0, m, most);
    let middle = lowest_from(row, m, m, most);
    let oldest = lowest_from(row, 2 * m, m, most);
    newest.or(middle).or(oldest)
}

// 35, then 36: the levels of flux and of acceleration.
pub fn levels(n: usize, q: &[i64], f: &[i64]) -> Result<(), rule::Refusal>
    requires { (1 ≤ n) × ((length q.now ≡ 3 * (n - 1)) × (length f.now ≡ 3 * n)) }
    ensures { result ≡ met (chains.levels n q.now f.now) }
{
    if let Some(place) = lowest_level(q, n - 1, rule::MOST_FLUX) {
        return Err(rule::Refusal::FluxValue(place));
    }
    if let Some(place) = lowest_level(f, n, rule::MOST_ACCELERATION) {
        return Err(rule::Refusal::AccelerationValue(place));
    }
    Ok(())
}

// 38: damping.
pub fn damping(damping: &[i64]) -> Result<(), rule::Refusal>
    ensures { result ≡ met (checks.each rule.damping_allowed damping.now DampingValue) }
{
    if let Some(place) = lowest_beyond(damping, 0, rule::MOST_DAMPING) {
        return Err(rule::Refusal::DampingValue(place));
    }
    Ok(())
}

// 37: the amounts of a row that is poured.
pub fn poured(s: Option<&[i64]>) -> Result<(), rule::Refusal>
    ensures { result ≡ met (checks.pourable (lent_rows s.entry)) }
{
    if let Some(row) = s {
        if let Some(place) = lowest_outside(row, rule::MOST_POURED) {
            return Err(rule::Refusal::PouredValue(place));
        }
    }
    Ok(())
}
