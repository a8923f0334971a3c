// "Gauges": eight places for gauges in a row of 64 numbers, eight for each.
#![tactic(auto)]

ghost use Rattle.std.specs.Prelude.{◌≡◌, true, Bool, ◌+◌, ◌*◌, ◌≤◌, length};
ghost use Rattle.whole.specs.Row.{Within};
ghost use Rattle.rule.specs.Ranges.{most_height};
ghost use Rattle.rule.specs.Rows.{map, lowest};
ghost use Rattle.gauge.specs.declared.Gauge.{Gauge};
ghost use Rattle.gauge.specs.Gauge.{right};
ghost use Rattle.std.specs.Int.Signed.{le_z};
ghost use Rattle.gauge.specs.State.{state_numbers, numbers, gauge_at, gauges_in, flat, taken, stands_in, has_room, fed_from, reading};
ghost use Rattle.gauge_rows.specs.Passes.{Tells};
ghost use Rattle.places.specs.Lowest.{found};
ghost use Rattle.little.specs.Written.{written};
ghost use Rattle.gauge_rows.specs.Bounds.{Feeds, Reads};
ghost use Rattle.gauge.specs.Small.{Small};

use gauge::Gauge;

// The gauge at place k.
pub fn gauge_at(row: &[i64], k: usize) -> Gauge
    requires { 8 * k + 8 ≤ length row.now }
    ensures { result ≡ gauge_at row.now k }
{
    let mut numbers = [0; 8];
    numbers.copy_from_slice(&row[8 * k..8 * k + 8]);
    Gauge::from(numbers)
}

// A gauge's numbers, in the eight entries from `at` on.
pub fn put_gauge(row: &mut [i64], at: usize, g: Gauge)
    requires { at + 8 ≤ length row.old }
    ensures { row.new ≡ written row.old at (numbers g) }
{
    let numbers: [i64; 8] = g.into();
    row[at..at + 8].copy_from_slice(&numbers);
}

// What is read of a gauge, in the six entries from `at` on.
fn put_reading(row: &mut [i64], at: usize, g: Gauge)
    requires { (at + 6 ≤ length row.old) × Small g }
    ensures { row.new ≡ written row.old at (reading g) }
{
    row[at..at + 6].copy_from_slice(&[g.cell, g.fed, g.crossings, g.waves(), g.largest, g.sum]);
}

// What is asked of the gauge at each place. A closure has to be one that may be called, and answers what it pleases
// (`first_not`); a test answers what its kind says, so that the lowest place is settled (`first_failing`).
pub trait Test {
    // What passes.
    ghost passes: { Self → Gauge → Bool };

    fn passes(&self, g: Gauge) -> bool
        ensures { result ≡ passes self.now g };
}

// Its numbers are a gauge's, or all 0.
#[derive(Clone, Copy, Drop)]
pub struct Right;

impl Test for Right {
    ghost passes = { λ t g. right g };

    fn passes(&self, g: Gauge) -> bool {
        g.right()
    }
}

// It has a gauge.
#[derive(Clone, Copy, Drop)]
pub struct Taken;

impl Test for Taken {
    ghost passes = { λ t g. taken g };

    #[tactic(auto, unfolding(gauge::specs::State::taken))]
    fn passes(&self, g: Gauge) -> bool {
        !g.is_empty()
    }
}

// Its cell is one of so many.
#[derive(Clone, Copy, Drop)]
pub struct Stands(pub i64);

impl Test for Stands {
    ghost passes = { λ t g. le_z g.cell t.0 };

    fn passes(&self, g: Gauge) -> bool {
        g.cell <= self.0
    }
}

// One height more can be fed to it.
#[derive(Clone, Copy, Drop)]
pub struct Room;

impl Test for Room {
    ghost passes = { λ t g. has_room g };

    #[tactic(auto, unfolding(gauge::specs::State::has_room))]
    fn passes(&self, g: Gauge) -> bool {
        g.fed < gauge::MOST_FED
    }
}

// The lowest place, counted from 1, whose gauge fails a test.
pub fn first_failing<T: Test>(row: &[i64], test: &T) -> Option<u64>
    requires { length row.now ≡ state_numbers }
    ensures { result ≡ found (lowest (T.passes test.now) (gauges_in row.now)) }
{
    let mut place = None;
    for k in 0..8 {
        place = places::lower(place, test.passes(gauge_at(row, k)), k);
    }
    place
}

// The lowest place, counted from 1, whose gauge does not pass, by any closure that may be called. Where what it answers of the
// gauges of the row is settled, so is the place; else it may answer otherwise each time, and no `Test` says what it does.
pub fn first_not<F: Fn(Gauge) -> bool>(row: &[i64], passes: F) -> Option<u64>
    requires long { length row.now ≡ state_numbers }
    requires callable { F.IsAlwaysCallable passes }
    ensures { (p : Gauge → Bool) → Tells (F.post passes) p row.now → result ≡ found (lowest p (gauges_in row.now)) }
{
    let mut place = None;
    for k in 0..8 {
        place = places::lower(place, passes(gauge_at(row, k)), k);
    }
    place
}

// A gauge with the height at its cell, of the heights e; an empty place stays.
fn fed_from(e: &[i64], g: Gauge) -> Gauge
    requires { (right g ≡ true) × ((stands_in (length e.now) g ≡ true) × Within most_height (length e.now) e.now) }
    ensures { result ≡ fed_from e.now g }
{
    if g.is_empty() {
        return g;
    }
    g.grown(e[g.cell as usize - 1])
}

// The gauges of a row, each fed from the heights e, in another row.
pub fn feed(e: &[i64], row: &[i64], out: &mut [i64])
    requires { Feeds e.now row.now out.old }
    ensures { out.new ≡ flat (map numbers (map (fed_from e.now) (gauges_in row.now))) }
{
    for k in 0..8 {
        put_gauge(out, 8 * k, fed_from(e, gauge_at(row, k)));
    }
}

// What is read of the gauges of a row, in another row.
pub fn read(row: &[i64], out: &mut [i64])
    requires { Reads row.now out.old }
    ensures { out.new ≡ flat (map reading (gauges_in row.now)) }
{
    for k in 0..8 {
        put_reading(out, 6 * k, gauge_at(row, k));
    }
}

#[cfg(test)]
mod tests {
    use super::*;
    use std::test::Fail;

    // Gauges stand in the third place and in the last, at cells 7 and 9. A failure tells among how many cells they were looked for.
    #[test]
    fn searched_by_closures() -> Result<(), Fail> {
        let mut row = [0; 64];
        let third = Gauge {
            cell: 7,
            ..Gauge::default()
        };
        let last = Gauge {
            cell: 9,
            ..Gauge::default()
        };
        put_gauge(&mut row, 16, third);
        put_gauge(&mut row, 56, last);
        for (n, place) in [
            (9, None),
            (8, Some(8)),
            (7, Some(8)),
            (6, Some(3)),
            (0, Some(3)),
            (-1, Some(1)),
        ] {
            if first_not(&row, |g| g.cell <= n) != place {
                Err(n)?;
            }
        }
        if first_not(&row, Gauge::is_empty) != Some(3) {
            Err("by a method")?;
        }
        Ok(())
    }
}
