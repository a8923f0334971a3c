// One walk for every call over the bytes of a channel file: the channel is opened, the call is made on its rows, and the file
// of what it leaves is written back.
#![tactic(auto)]

ghost use Rattle.std.specs.Prelude.{◌≡◌};
ghost use Rattle.little.specs.Numbers.{AreBytes};
ghost use Rattle.answers.specs.Stages.{leaves_bytes};
ghost use Rattle.call.specs.Walk.{file_call};

// A call over the bytes of a channel file, with the row in the bytes `poured` where it takes one. The file becomes that of the
// channel after it, or stays as it was. The contract says last that what is lent are bytes, as the language knows of any `[u8]`.
pub fn walk(call: call::Call, file: &mut [u8], poured: &[u8]) -> rule::Answer
    ensures file_after { leaves_bytes result file.new ≡ file_call call file.old poured.now }
    ensures are_bytes { AreBytes file.old }
{
    if let Err(refusal) = reader::check(file, call::pours(call).then_some(poured)) {
        return answers::refused(refusal, 0);
    }
    let c = opened::counts(file);
    in_arrays::in_arrays(call, c.n, file, poured)
}
