// Making over bytes: what is tested before anything is worked out.
#![tactic(auto)]

ghost use Rattle.std.specs.Prelude.{◌≡◌, ◌&&◌, ◌≤◌};
ghost use Rattle.rule.specs.Ranges.{cells_allowed, most_cells};
ghost use Rattle.rule.specs.Refusals.{met};
ghost use Rattle.rule.specs.Calls.{holds};
ghost use Rattle.make_checks.specs.Order.{buffer_checked, tested};

// 1: N, and the bytes of the rows. N is tested first, so that 4N does not wrap.
pub fn shape_passes(n: u64, h: &[u8], e: &[u8], u: &[u8], damping: &[u8]) -> bool
    ensures { result ≡ cells_allowed n && (holds h.now n && holds e.now n && holds u.now n && holds damping.now n) }
{
    let cells = n as usize;
    if !checks::cells_allowed(cells) {
        return false;
    }
    let bytes = 4 * cells;
    (h.len() == bytes) & (e.len() == bytes) & (u.len() == bytes) & (damping.len() == bytes)
}

// 15: a buffer of `room` bytes is as long as a file of n cells.
fn check_buffer(n: usize, room: usize) -> Result<(), rule::Refusal>
    requires { (1 ≤ n) × (n ≤ most_cells) }
    ensures { result ≡ met (buffer_checked n room) }
{
    if room != layout::length_of(layout::EDITION, n) {
        return Err(rule::Refusal::BufferLength);
    }
    Ok(())
}

// The input checks, then 15: the first that fails, with its lowest place.
pub fn check(
    c: rule::Counts,
    h: &[i64],
    e: &[i64],
    u: &[i64],
    damping: &[i64],
    room: usize,
) -> Result<(), rule::Refusal>
    requires { (1 ≤ c.n) × (c.n ≤ most_cells) }
    ensures { result ≡ met (tested c.n c.x c.t c.wanted h.now e.now u.now damping.now room) }
{
    let input = checks::check_made(c, h, e, u, damping);
    let length = check_buffer(c.n, room);
    input.and(length)
}
