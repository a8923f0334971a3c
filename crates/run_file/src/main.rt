// The running program: reads a channel file from standard input and writes the file after the run to standard output. It always ends
// with status 0, so what else there is to tell it says on standard error.
#![tactic(auto)]

ghost use Rattle.std.specs.Prelude.{◌≡◌, length, take, OnOk};
ghost use Rattle.std.specs.Io.KnownBytes.{Appends};
ghost use Rattle.rule.specs.Calls.{run_file};

use std::io;
use std::io::Write;

// Words and the line of the file's bytes, on standard error.
fn say<E: Write>(words: &[u8], file: &[u8], err: &mut E) {
    let mut text = [0u8; 64];
    let end = line::line(file, &mut text);
    let _ = output::write_all(err, words);
    let _ = output::write_all(err, &text[..end]);
}

// Runs the file, and writes the first bytes of what is then in the buffer: the file of the channel after the run, or nothing for
// bytes that the reader refuses. Where not all of it was written, it says so in words.
fn run<W: Write, E: Write>(file: &mut [u8], out: &mut W, err: &mut E) -> io::Result<()>
    ensures ran { take (length (run_file file.old)) file.new ≡ run_file file.old }
    ensures written { OnOk result (Appends (W.contents out.old) (W.contents out.new) (run_file file.old)) }
{
    let end = on_file::run(file);
    if let Err(e) = output::write_all(out, &file[..end]) {
        let _ = output::write_all(
            err,
            b"run_file: standard output failed: the file is not written, or not all of it. Do not use it, and clear nothing away.\n",
        );
        return Err(e);
    }
    Ok(())
}

// Says what the file is after the run, unless it is complete: a run of no steps answers 0 for a complete channel and nothing else,
// 16 for an open one, and the number of a refusal.
fn tell<E: Write>(file: &mut [u8], err: &mut E) {
    match on_file::run_for(0, file).number {
        0 => {}
        16 => say(b"run_file: the run ended open: ", file, err),
        _ => say(b"run_file: nothing is written: ", file, err),
    }
}

fn main(rt: HostRuntime) {
    let mut bytes = [0u8; input::MOST];
    let Ok(end) = input::read(&mut rt.stdin(), &mut bytes) else {
        let _ = output::write_all(
            &mut rt.stderr(),
            b"run_file: standard input failed: nothing is run or written.\n",
        );
        return;
    };
    let file = &mut bytes[..end];
    let _ = run(file, &mut rt.stdout(), &mut rt.stderr());
    tell(file, &mut rt.stderr());
}
