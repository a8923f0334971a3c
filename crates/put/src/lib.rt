// Writing: the bytes of a channel into a buffer of its length.
#![tactic(auto)]

ghost use Rattle.std.specs.Prelude.{◌≡◌, [], ◌∷◌, ◌*◌, ◌≤◌, length};
ghost use Rattle.rule.specs.Counted.{counted};
ghost use Rattle.rule.specs.Layout.{head_length, offsets, start_of, length_of};
ghost use Rattle.rule.specs.File.{edition, head_bytes, body_bytes, file_of};
ghost use Rattle.little.specs.Written.{written};
ghost use Rattle.put.specs.Asked.{Buffer, FourRows, Levels, Writable};

// Counts, from the file's first byte on.
fn put_counts(d: &mut [u8], counts: &[u64])
    requires { 4 * length counts.now ≤ length d.old }
    ensures { d.new ≡ written d.old 0 (head_bytes counts.now) }
{
    for (i, &count) in counts.iter().enumerate() {
        little::put_count(d, 4 * i, count);
    }
}

// The head: the edition, the channel's counts, and where the rows start.
fn put_head(d: &mut [u8], c: rule::Counts)
    requires { Buffer c.n d.old }
    ensures { d.new ≡ written d.old 0 (head_bytes (edition ∷ c.n ∷ c.x ∷ c.t ∷ c.accepted ∷ c.wanted ∷ offsets edition c.n)) }
{
    let counts = [layout::EDITION, c.n as u64, c.x, c.t, c.accepted, c.wanted];
    put_counts(d, &counts);
    layout::put_offsets(d, layout::EDITION, c.n);
}

// The rows of four bytes an entry: depth, height, u and V of n cells.
#[tactic(auto, unfolding(rule::specs::Layout::widths))]
fn put_cells(d: &mut [u8], n: usize, h: &[i64], e: &[i64], u: &[i64], v: &[i64])
    requires { Buffer n d.old × FourRows n h.now e.now u.now v.now }
    ensures { d.new ≡ written d.old (head_length edition) (body_bytes (4 ∷ 4 ∷ 4 ∷ 4 ∷ []) (h.now ∷ e.now ∷ u.now ∷ v.now ∷ [])) }
{
    little::write_row::<i32>(d, layout::start_of(layout::EDITION, 0, n), h);
    little::write_row::<i32>(d, layout::start_of(layout::EDITION, 1, n), e);
    little::write_row::<i32>(d, layout::start_of(layout::EDITION, 2, n), u);
    little::write_row::<i32>(d, layout::start_of(layout::EDITION, 3, n), v);
}

// The rows of eight bytes an entry, the levels of flux and of acceleration, and damping, of four.
#[tactic(auto, unfolding(rule::specs::Layout::widths))]
fn put_levels(d: &mut [u8], n: usize, q: &[i64], f: &[i64], damping: &[i64])
    requires { Buffer n d.old × Levels n q.now f.now damping.now }
    ensures { d.new ≡ written d.old (start_of edition n 4) (body_bytes (8 ∷ 8 ∷ 4 ∷ []) (q.now ∷ f.now ∷ damping.now ∷ [])) }
{
    little::write_row::<i64>(d, layout::start_of(layout::EDITION, 4, n), q);
    little::write_row::<i64>(d, layout::start_of(layout::EDITION, 5, n), f);
    little::write_row::<i32>(d, layout::start_of(layout::EDITION, 6, n), damping);
}

// The file of a channel, in a buffer of its length.
pub fn put(
    d: &mut [u8],
    c: rule::Counts,
    h: &[i64],
    e: &[i64],
    u: &[i64],
    v: &[i64],
    q: &[i64],
    f: &[i64],
    damping: &[i64],
)
    requires { (length d.old ≡ length_of edition c.n) × Writable c.n h.now e.now u.now v.now q.now f.now damping.now }
    ensures { d.new ≡ file_of (counted c h.now e.now u.now v.now q.now f.now damping.now) }
{
    put_head(d, c);
    put_cells(d, c.n, h, e, u, v);
    put_levels(d, c.n, q, f, damping);
}
