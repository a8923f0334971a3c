// Reading: the form of a channel file's bytes, before its values.
#![tactic(auto)]

ghost use Rattle.std.specs.Prelude.{◌≡◌, ◌&&◌, ◌≤◌};
ghost use Rattle.rule.specs.Ranges.{cells_allowed, most_cells};
ghost use Rattle.rule.specs.Refusals.{met};
ghost use Rattle.form.specs.Reader.{fits_lent, head_tests, form_tests};

// 12, then 13: the length of the head, and the edition.
pub fn head(s: &[u8]) -> Result<(), rule::Refusal>
    ensures { result ≡ met (head_tests s.now) }
{
    if s.len() < layout::LEAST_LENGTH {
        return Err(rule::Refusal::FileLength);
    }
    if little::count_at(s, 0) != layout::EDITION {
        return Err(rule::Refusal::FileEdition);
    }
    Ok(())
}

// 1: N, and the bytes of a poured row. N is tested first, so that 4N does not wrap.
pub fn shape_passes(n: usize, poured: Option<&[u8]>) -> bool
    ensures { result ≡ cells_allowed n && fits_lent poured.entry n }
{
    if !checks::cells_allowed(n) {
        return false;
    }
    match poured {
        Some(p) => p.len() == 4 * n,
        None => true,
    }
}

// 12, then 14: the length of a file of n cells, and its offsets.
pub fn form(s: &[u8], n: usize) -> Result<(), rule::Refusal>
    requires { (1 ≤ n) × (n ≤ most_cells) }
    ensures { result ≡ met (form_tests n s.now) }
{
    if s.len() != layout::length_of(layout::EDITION, n) {
        return Err(rule::Refusal::FileLength);
    }
    if !layout::offsets_right(s, layout::EDITION, n) {
        return Err(rule::Refusal::FileOffsets);
    }
    Ok(())
}
