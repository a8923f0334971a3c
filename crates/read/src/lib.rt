// Reading into lent rows.
#![tactic(auto)]

ghost use Rattle.std.specs.Prelude.{◌≡◌, []};
ghost use Rattle.rule.specs.Counted.{counted, lent};
ghost use Rattle.rule.specs.Refusals.{met_as};
ghost use Rattle.rule.specs.File.{read_with};
ghost use Rattle.rule.specs.Calls.{fit, read_call};
ghost use Rattle.little.specs.Numbers.{AreBytes};
ghost use Rattle.read.specs.Left.{leaves_all};

// The reader's check of the file s, and of the rows that are lent for what it holds. The counts that are lent say nothing of it.
fn check_lent(s: &[u8], c: rule::Lent) -> Result<(), rule::Refusal>
    ensures { result ≡ met_as (λ _. tt) (read_with (fit (lent c.entry)) [] s.now) }
{
    form::head(s)?;
    let counts = opened::counts(s);
    if !checks::shaped(rule::Lent { counts, ..c }) {
        return Err(rule::Refusal::Shape);
    }
    reader::body(s, counts.n, None)
}

// What a reader leaves beside the rows: its answer, and the counts. The answer is a number's, as C is given it.
#[derive(Drop)]
pub struct Reading {
    pub answer: rule::Answer,
    pub counts: rule::Counts,
}

// What the file s holds, in the lent rows and in place of the counts c. A refused call leaves them all as they were. The
// contract says last that what is read are bytes, as the language knows of any `[u8]`.
// The rows are lent one by one, as a user's call has them: its theorems speak of each.
pub fn read(
    s: &[u8],
    c: rule::Counts,
    h: &mut [i64],
    e: &mut [i64],
    u: &mut [i64],
    v: &mut [i64],
    q: &mut [i64],
    f: &mut [i64],
    damping: &mut [i64],
) -> Reading
    ensures damping_after { leaves_all result h.new e.new u.new v.new q.new f.new damping.new ≡ read_call (counted c h.old e.old u.old v.old q.old f.old damping.old) s.now }
    ensures are_bytes { AreBytes s.now }
{
    let lent = rule::Lent {
        counts: c,
        h,
        e,
        u,
        v,
        q,
        f,
        damping,
    };
    if let Err(refusal) = check_lent(s, lent) {
        return Reading {
            answer: answers::refused(refusal, 0),
            counts: c,
        };
    }
    let counts = opened::opened(s, h, e, u, v, q, f, damping);
    Reading {
        answer: answers::accepted(0),
        counts,
    }
}
