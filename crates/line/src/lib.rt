// The printing program: the line of a channel file's bytes, put into a lent buffer.
#![tactic(auto)]

ghost use Rattle.std.specs.Prelude.{◌≡◌, ◌≤◌, length};
ghost use Rattle.rule.specs.Refusals.{number_of};
ghost use Rattle.rule.specs.Line.{channel_line};
ghost use Rattle.rule.specs.File.{channel_of};
ghost use Rattle.rule.specs.Calls.{read, print_file};
ghost use Rattle.little.specs.Written.{written};

// The line of the channel in a file that the reader takes.
fn held_line(s: &[u8], d: &mut [u8]) -> usize
    requires { (64 ≤ length d.old) × (number_of (read s.now) ≡ 0) }
    ensures { (result ≡ length (channel_line (channel_of s.now))) × (d.new ≡ written d.old 0 (channel_line (channel_of s.now))) × (result ≤ 64) }
{
    let n = little::count_at(s, 4);
    let accepted = little::count_at(s, 16);
    let wanted = little::count_at(s, 20);
    let cells = n as usize;
    let e = little::read_row::<i32>(s, layout::start_of(layout::EDITION, 1, cells), cells);
    text::channel_line(d, n, accepted, wanted, &e[..cells])
}

// What the printing program prints of the bytes s. The number of the reader's answer is 0, or a refusal's, at most 38.
pub fn line(s: &[u8], d: &mut [u8; 64]) -> usize
    ensures { (result ≡ length (print_file s.now)) × (d.new ≡ written d.old 0 (print_file s.now)) × (result ≤ 64) }
{
    let number = reader::answer(s, None).number;
    match number {
        1..=38 => text::refused_line(d, number),
        _ => held_line(s, d),
    }
}
