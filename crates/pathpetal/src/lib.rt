// Each call over the bytes of a channel file or of gauges, with its answer packed into one number; and which rule they follow. The
// static library pathpetal_c hands each on to C under its name.
#![tactic(auto)]

ghost use Rattle.std.specs.Prelude.{◌≡◌};
ghost use Rattle.rule.specs.Calls.{rule_number, packed, check_file, step_file, filter_file, run_for_file, make_file};
ghost use Rattle.little.specs.Numbers.{AreBytes};
ghost use Rattle.gauge.specs.OnGauges.{place_file, feed_file, read_state};

// The rule that all calls follow: whoever goes on with a file asks whether its steps were taken by the same.
pub fn pathpetal_rule() -> u64
    ensures { result ≡ rule_number }
{
    3
}

// Makes the file of a channel with no step accepted.
pub fn pathpetal_make(
    cells: u64,
    width: u64,
    time: u64,
    wanted: u64,
    depths: &[u8],
    heights: &[u8],
    velocities: &[u8],
    dampings: &[u8],
    file: &mut [u8],
) -> u64
    ensures { (result ≡ packed (make_file cells width time wanted depths.now heights.now velocities.now dampings.now file.old).answer) × (file.new ≡ (make_file cells width time wanted depths.now heights.now velocities.now dampings.now file.old).left) }
{
    packing::pack(make_file::make(
        cells, width, time, wanted, depths, heights, velocities, dampings, file,
    ))
}

// Whether bytes are a channel file.
pub fn pathpetal_check(file: &[u8]) -> u64
    ensures value { result ≡ packed (check_file file.now) }
    ensures are_bytes { AreBytes file.now }
{
    packing::pack(reader::answer(file, None))
}

// One step, with a row poured.
pub fn pathpetal_step(file: &mut [u8], poured: &[u8]) -> u64
    ensures value { (result ≡ packed (step_file file.old poured.now).answer) × (file.new ≡ (step_file file.old poured.now).left) }
    ensures are_bytes { AreBytes file.old }
{
    packing::pack(walk::walk(call::Call::Step, file, poured))
}

// One filter pass.
pub fn pathpetal_filter(file: &mut [u8]) -> u64
    ensures value { (result ≡ packed (filter_file file.old).answer) × (file.new ≡ (filter_file file.old).left) }
    ensures are_bytes { AreBytes file.old }
{
    let none = [0u8; 1];
    packing::pack(walk::walk(call::Call::Filter, file, &none))
}

// Steps with nothing poured: at most `most`, until complete or refused.
pub fn pathpetal_run(file: &mut [u8], most: u64) -> u64
    ensures value { (result ≡ packed (run_for_file most file.old).answer) × (file.new ≡ (run_for_file most file.old).left) }
    ensures are_bytes { AreBytes file.old }
{
    let none = [0u8; 1];
    packing::pack(walk::walk(call::Call::Run(most), file, &none))
}

// A gauge placed at a cell.
pub fn pathpetal_place_gauge(file: &[u8], gauges: &mut [u8], cell: u64) -> u64
    ensures { (result ≡ packed (place_file file.now cell gauges.old).answer) × (gauges.new ≡ (place_file file.now cell gauges.old).left) }
{
    packing::pack(gauges::place_file(file, cell, gauges))
}

// Each gauge fed the height at its cell.
pub fn pathpetal_feed_gauges(file: &[u8], gauges: &mut [u8]) -> u64
    ensures { (result ≡ packed (feed_file file.now gauges.old).answer) × (gauges.new ≡ (feed_file file.now gauges.old).left) }
{
    packing::pack(gauges::feed_file(file, gauges))
}

// What the gauges have counted.
pub fn pathpetal_read_gauges(gauges: &[u8], readings: &mut [i64]) -> u64
    ensures { (result ≡ packed (read_state gauges.now readings.old).answer) × (readings.new ≡ (read_state gauges.now readings.old).left) }
{
    packing::pack(gauges::read(gauges, readings))
}
