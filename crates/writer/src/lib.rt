// The channel file: its writer.
#![tactic(auto)]

ghost use Rattle.std.specs.Prelude.{◌≡◌};
ghost use Rattle.rule.specs.Counted.{counted, lent};
ghost use Rattle.rule.specs.Refusals.{met_as};
ghost use Rattle.rule.specs.File as rule;
ghost use Rattle.rule.specs.Calls.{write_call};
ghost use Rattle.answers.specs.Stages.{leaves_bytes};

// The input checks, then 15: a buffer of `room` bytes is as long as the file of a channel that passes.
fn fits(c: rule::Lent, room: usize) -> Result<(), rule::Refusal>
    ensures { result ≡ met_as (λ _. tt) (rule.write (lent c.entry) room) }
{
    checks::check(c, None)?;
    if room != layout::length_of(layout::EDITION, c.counts.n) {
        return Err(rule::Refusal::BufferLength);
    }
    Ok(())
}

// A channel's file, written into a buffer of exactly its length. A refused call leaves the buffer as it was.
// The rows are lent one by one, as a user's call has them: its theorems speak of each.
pub fn write(
    c: rule::Counts,
    h: &[i64],
    e: &[i64],
    u: &[i64],
    v: &[i64],
    q: &[i64],
    f: &[i64],
    damping: &[i64],
    d: &mut [u8],
) -> rule::Answer
    ensures { leaves_bytes result d.new ≡ write_call (counted c h.now e.now u.now v.now q.now f.now damping.now) d.old }
{
    let lent = rule::Lent {
        counts: c,
        h,
        e,
        u,
        v,
        q,
        f,
        damping,
    };
    if let Err(refusal) = fits(lent, d.len()) {
        return answers::refused(refusal, 0);
    }
    put::put(d, c, h, e, u, v, q, f, damping);
    answers::accepted(0)
}
