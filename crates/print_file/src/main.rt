// The printing program: reads a channel file from standard input and writes its line to standard output. It always ends with status
// 0, so what else there is to tell it says on standard error.
#![tactic(auto)]

ghost use Rattle.std.specs.Prelude.{◌≡◌, OnOk};
ghost use Rattle.std.specs.Io.KnownBytes.{Appends};
ghost use Rattle.rule.specs.Calls.{print_file};

use std::io;
use std::io::Write;

// The line of the bytes that were read, in the text.
fn lined<'a>(file: &[u8], text: &'a mut [u8; 64]) -> &'a [u8]
    ensures { result.now ≡ print_file file.now }
{
    let end = line::line(file, text);
    &text[..end]
}

// Writes that line. Where not all of it was written, it says so in words.
fn print<W: Write, E: Write>(file: &[u8], out: &mut W, err: &mut E) -> io::Result<()>
    ensures { OnOk result (Appends (W.contents out.old) (W.contents out.new) (print_file file.now)) }
{
    let mut text = [0u8; 64];
    let line = lined(file, &mut text);
    if let Err(e) = output::write_all(out, line) {
        let _ = output::write_all(
            err,
            b"print_file: standard output failed: the line is not written, or not all of it. Clear nothing away.\n",
        );
        return Err(e);
    }
    Ok(())
}

fn main(rt: HostRuntime) {
    let mut bytes = [0u8; input::MOST];
    let Ok(end) = input::read(&mut rt.stdin(), &mut bytes) else {
        let _ = output::write_all(
            &mut rt.stderr(),
            b"print_file: standard input failed: nothing is printed.\n",
        );
        return;
    };
    let _ = print(&bytes[..end], &mut rt.stdout(), &mut rt.stderr());
}
