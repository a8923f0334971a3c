// "Gauges": one gauge. Its counts are those of the whole record of heights that it was fed, and it keeps eight numbers.
#![tactic(auto)]

ghost use Rattle.std.specs.Prelude.{◌≡◌, ◌≤◌, nat_abs};
ghost use Rattle.gauge.specs.Waves.{upward};
ghost use Rattle.gauge.specs.Gauge.{is_empty, in_ranges, below, sound, right, waves, ended, grown};
ghost use Rattle.gauge.specs.State.{numbers, gauge_at};
ghost use Rattle.gauge.specs.Small.{Small};

// Heights are in µm, in the order in which they were fed.
#[derive(Clone, Copy, Debug, Default, Drop, Eq, PartialEq)]
pub struct Gauge {
    // where it stands, counted from 1
    pub cell: i64,
    // how many heights it was fed
    pub fed: i64,
    // the last of them, 0 before the first
    pub last: i64,
    // how many of them were upward crossings
    pub crossings: i64,
    // the highest and the lowest since the last crossing, 0 before the first
    pub highest: i64,
    pub lowest: i64,
    // the largest height of a complete wave, 0 while there is none
    pub largest: i64,
    // the sum of the heights of all complete waves
    pub sum: i64,
}

// The ranges of those numbers, with the names of specs/Gauge.antt.
pub const MOST_FED: i64 = 1_000_000;

pub const LEAST_HEIGHT: i64 = -19_999_000;

pub const MOST_HEIGHT: i64 = 20_000_000;

pub const MOST_WAVE: i64 = 39_999_000;

// An upward crossing: zero or more directly after below zero.
#[tactic(auto, unfolding(crate::specs::Waves::upward))]
fn upward(before: i64, height: i64) -> bool
    ensures { result ≡ upward before height }
{
    (before < 0) & (0 <= height)
}

impl Gauge {
    // No gauge: all eight numbers are 0.
    #[tactic(auto, unfolding(crate::specs::Gauge::is_empty, crate::specs::Gauge::from))]
    pub fn is_empty(self) -> bool
        ensures { result ≡ is_empty self }
    {
        self == Gauge::default()
    }

    // Each number alone.
    fn in_ranges(self) -> bool
        ensures { result ≡ in_ranges self }
    {
        (1..=256).contains(&self.cell)
            & (0..=MOST_FED).contains(&self.fed)
            & (LEAST_HEIGHT..=MOST_HEIGHT).contains(&self.last)
            & (0..=500_000).contains(&self.crossings)
            & (LEAST_HEIGHT..=MOST_HEIGHT).contains(&self.highest)
            & (LEAST_HEIGHT..=MOST_HEIGHT).contains(&self.lowest)
            & (0..=MOST_WAVE).contains(&self.largest)
            & (0..=19_999_460_001_000).contains(&self.sum)
    }

    // The complete waves: between two crossings each.
    #[tactic(auto, unfolding(crate::specs::Gauge::waves, crate::specs::Gauge::met))]
    pub fn waves(self) -> i64
        requires { Small self }
        ensures { result ≡ waves self }
    {
        (self.crossings - 1).max(0)
    }

    // One height that is of no crossing yet: the last, where it is below zero.
    #[tactic(auto, unfolding(crate::specs::Gauge::below))]
    fn below(self) -> i64
        ensures { result ≡ below self }
    {
        i64::from(self.last < 0)
    }

    // What the numbers must meet together.
    fn sound(self) -> bool
        requires { Small self }
        ensures { result ≡ sound self }
    {
        (self.lowest <= self.highest)
            & (2 * self.crossings + self.below() <= self.fed)
            & (self.largest <= self.sum)
            & (self.sum <= MOST_WAVE * self.waves())
    }

    // A place of the gauges: empty, or a gauge with every number in its range.
    #[tactic(auto, unfolding(crate::specs::Gauge::right))]
    pub fn right(self) -> bool
        ensures { result ≡ right self }
    {
        self.is_empty() || self.in_ranges() && self.sound()
    }

    // The height of the wave that a crossing ends; 0 where none had begun.
    #[tactic(auto, unfolding(crate::specs::Gauge::ended, crate::specs::Gauge::wave_of))]
    fn ended(self) -> i64
        requires { (nat_abs self.highest ≤ 20_000_000) × (nat_abs self.lowest ≤ 20_000_000) }
        ensures { result ≡ ended self }
    {
        if 0 < self.crossings {
            self.highest - self.lowest
        } else {
            0
        }
    }

    // The gauge after one height more. The height of a crossing is of the wave that it begins, and not of the one that it ends.
    pub fn grown(self, height: i64) -> Gauge
        requires { Small self × (nat_abs height ≤ 20_000_000) }
        ensures { result ≡ grown self height }
    {
        let fed = Gauge {
            fed: self.fed + 1,
            last: height,
            ..self
        };
        let top = self.highest.max(height);
        let low = self.lowest.min(height);
        if upward(self.last, height) {
            let wave = self.ended();
            return Gauge {
                crossings: self.crossings + 1,
                highest: height,
                lowest: height,
                largest: self.largest.max(wave),
                sum: self.sum + wave,
                ..fed
            };
        }
        if 0 < self.crossings {
            return Gauge {
                highest: top,
                lowest: low,
                ..fed
            };
        }
        fed
    }
}

// A gauge's eight numbers, in their order.
impl From<[i64; 8]> for Gauge {
    ghost from_gives = { λ row g. g ≡ gauge_at row 0 };

    #[tactic(auto, unfolding(crate::specs::State::gauge_at))]
    fn from([cell, fed, last, crossings, highest, lowest, largest, sum]: [i64; 8]) -> Gauge {
        Gauge {
            cell,
            fed,
            last,
            crossings,
            highest,
            lowest,
            largest,
            sum,
        }
    }
}

impl From<Gauge> for [i64; 8] {
    ghost from_gives = { λ g row. row ≡ numbers g };

    #[tactic(auto, unfolding(crate::specs::State::numbers))]
    fn from(g: Gauge) -> [i64; 8] {
        [
            g.cell,
            g.fed,
            g.last,
            g.crossings,
            g.highest,
            g.lowest,
            g.largest,
            g.sum,
        ]
    }
}
