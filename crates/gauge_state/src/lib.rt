// "Gauges": eight of them in a byte string, with the refusals that are theirs: 12, 14, 20, 21, 30 and 15.
#![tactic(auto)]

ghost use Rattle.std.specs.Prelude.{◌≡◌, Bool, [], ◌≤◌, pos, length};
ghost use Rattle.rule.specs.Rows.{lowest};
ghost use Rattle.whole.specs.Row.{Within};
ghost use Rattle.rule.specs.Ranges.{most_cells, most_height};
ghost use Rattle.rule.specs.Refusals.{met, met_as};
ghost use Rattle.rule.specs.Calls.{called, plainly};
ghost use Rattle.answers.specs.Stages.{leaves_bytes};
ghost use Rattle.gauge.specs.declared.Gauge.{Gauge};
ghost use Rattle.gauge.specs.Gauge.{gauge_of};
ghost use Rattle.gauge.specs.State.{state_length, state_row, gauges_of, formed, free, placeable, placed, feedable, fed, readable};
ghost use Rattle.gauge.specs.OnGauges.{read_state};
ghost use Rattle.places.specs.Lowest.{found};
ghost use Rattle.gauge_state.specs.Left.{leaves_row};

use gauge::Gauge;
use gauge_rows::{Right, Room, Stands, Taken, Test};
use rule::Refusal;

// How many numbers the places have, and how many bytes.
pub const NUMBERS: usize = 64;

pub const LENGTH: usize = 512;

// How many numbers are read of them.
pub const READINGS: usize = 48;

// The numbers in the bytes.
fn opened(gauges: &[u8]) -> [i64; NUMBERS]
    requires { length gauges.now ≡ state_length }
    ensures { result ≡ state_row gauges.now }
{
    let mut row = [0i64; NUMBERS];
    little::keep_row::<i64>(gauges, 0, &mut row);
    row
}

// The lowest place, counted from 1, whose gauge does not pass.
fn first_not<T: Test>(gauges: &[u8], test: &T) -> Option<u64>
    requires { length gauges.now ≡ state_length }
    ensures { result ≡ found (lowest (T.passes test.now) (gauges_of gauges.now)) }
{
    gauge_rows::first_failing(&opened(gauges), test)
}

// 12, then 14.
fn formed(gauges: &[u8]) -> Result<(), Refusal>
    ensures { result ≡ met (formed gauges.now) }
{
    if gauges.len() != LENGTH {
        return Err(Refusal::GaugesLength);
    }
    places::require(first_not(gauges, &Right).is_none(), Refusal::GaugesValue)
}

// The place of a gauge that is placed at a cell of n, or those, then 20, then 21.
fn placeable(n: usize, cell: u64, gauges: &[u8]) -> Result<u64, Refusal>
    ensures { result ≡ met_as (λ _. free gauges.now) (placeable n cell gauges.now) }
{
    formed(gauges)?;
    let free = first_not(gauges, &Taken).ok_or(Refusal::NinthGauge)?;
    places::require((1..=n as u64).contains(&cell), Refusal::OffChannel)?;
    Ok(free)
}

// Before the gauges are fed the heights of n cells: 12, 14, then 21, then 30.
fn feedable(n: usize, gauges: &[u8]) -> Result<(), Refusal>
    requires { n ≤ most_cells }
    ensures { result ≡ met (feedable n gauges.now) }
{
    formed(gauges)?;
    places::require(
        first_not(gauges, &Stands(n as i64)).is_none(),
        Refusal::OffChannel,
    )?;
    places::require(first_not(gauges, &Room).is_none(), Refusal::GaugeFull)
}

// Before they are read into so many numbers: 12, 14, then 15.
fn readable(gauges: &[u8], room: usize) -> Result<(), Refusal>
    ensures { result ≡ met (readable gauges.now room) }
{
    formed(gauges)?;
    places::require(room == READINGS, Refusal::BufferLength)
}

// A gauge that was fed nothing.
fn fresh(cell: u64) -> Gauge
    requires { cell ≤ most_cells }
    ensures { result ≡ gauge_of (pos cell) [] }
{
    Gauge {
        cell: cell as i64,
        ..Gauge::default()
    }
}

// A gauge placed at a cell, counted from 1, of n, in the lowest place that has none. The count of the answer is that place.
pub fn place(n: usize, cell: u64, gauges: &mut [u8]) -> rule::Answer
    requires { n ≤ most_cells }
    ensures { leaves_bytes result gauges.new ≡ called gauges.old (λ _. free gauges.old) (λ t. t) (placed n cell gauges.old) }
{
    let free = match placeable(n, cell, gauges) {
        Ok(free) => free,
        Err(why) => return answers::refused(why, 0),
    };
    let mut row = opened(gauges);
    gauge_rows::put_gauge(&mut row, 8 * (free as usize - 1), fresh(cell));
    little::write_row::<i64>(gauges, 0, &row);
    answers::accepted(free)
}

// Each gauge fed the height at its cell, of the heights e.
pub fn feed(e: &[i64], gauges: &mut [u8]) -> rule::Answer
    requires { (length e.now ≤ most_cells) × Within most_height (length e.now) e.now }
    ensures { leaves_bytes result gauges.new ≡ plainly gauges.old (fed e.now gauges.old) }
{
    if let Err(why) = feedable(e.len(), gauges) {
        return answers::refused(why, 0);
    }
    let row = opened(gauges);
    let mut after = [0i64; NUMBERS];
    gauge_rows::feed(e, &row, &mut after);
    little::write_row::<i64>(gauges, 0, &after);
    answers::accepted(0)
}

// What the gauges have counted: of each place six numbers.
pub fn read(gauges: &[u8], readings: &mut [i64]) -> rule::Answer
    ensures { leaves_row result readings.new ≡ read_state gauges.now readings.old }
{
    if let Err(why) = readable(gauges, readings.len()) {
        return answers::refused(why, 0);
    }
    gauge_rows::read(&opened(gauges), readings);
    answers::accepted(0)
}
