// Standard input, or another reader, read to its end.
#![tactic(auto)]

ghost use Rattle.std.specs.Prelude.{◌≡◌, ◌≤◌, ◌<◌, take, length, IfOk};
ghost use Rattle.std.specs.Io.KnownBytes.{Consumes, IsAtEnd};
ghost use Rattle.input.specs.Given.{count_given};

use std::io::Read;

// The bytes of an input that the programs take: one more than the longest right file has, so that a longer input is refused by its
// length, and not cut.
pub const MOST: usize = 17_437;

// A read failed after so many bytes, so that more of them may be missing.
#[derive(Clone, Copy, Debug, Drop)]
pub struct Cut {
    pub end: usize,
}

// Reads until the input ends, a read fails or the buffer is full, and answers how many bytes it has. What stands at the start of the
// buffer is what the reader gave, also where a read failed; and where none did and the buffer is not full, the reader has no more.
pub fn read<R: Read>(reader: &mut R, buf: &mut [u8]) -> Result<usize, Cut>
    ensures in_bounds { count_given result ≤ length buf.new }
    ensures prefix { count_given result ≡ length (take (count_given result) buf.new) }
    ensures bytes { Consumes (R.remaining reader.old) (R.remaining reader.new) (take (count_given result) buf.new) }
    ensures end { IfOk result (λ end. end < length buf.new → IsAtEnd (R.remaining reader.new)) }
{
    let mut end = 0;
    // By what each read gives, which may be less than there is room for, and no count; std's `read_to_end` needs the heap.
    while end < buf.len() {
        match reader.read(&mut buf[end..]) {
            Ok(0) => return Ok(end),
            Ok(more) => end += more,
            Err(_) => return Err(Cut { end }),
        }
    }
    Ok(end)
}
