// The calls over the bytes of a channel file: a check is the reader's, each other call is one walk. Each contract says last that
// what is lent are bytes, as the language knows of any `[u8]`: theorems about outcomes go by contracts.
#![tactic(auto)]

ghost use Rattle.std.specs.Prelude.{◌≡◌, length, take};
ghost use Rattle.rule.specs.Calls.{check_file, step_file, filter_file, run_for_file, run_file};
ghost use Rattle.little.specs.Numbers.{AreBytes};
ghost use Rattle.answers.specs.Stages.{leaves_bytes};
ghost use Rattle.on_file.specs.Ran.{in_buffer};

// Whether bytes are a channel file.
pub fn check(s: &[u8]) -> rule::Answer
    ensures value { result ≡ check_file s.now }
    ensures are_bytes { AreBytes s.now }
{
    reader::answer(s, None)
}

// One step, with a row poured. The file becomes that of the channel after it, or stays as it was.
pub fn step(file: &mut [u8], poured: &[u8]) -> rule::Answer
    ensures file_after { leaves_bytes result file.new ≡ step_file file.old poured.now }
    ensures are_bytes { AreBytes file.old }
{
    walk::walk(call::Call::Step, file, poured)
}

// One filter pass.
pub fn filter(file: &mut [u8]) -> rule::Answer
    ensures file_after { leaves_bytes result file.new ≡ filter_file file.old }
    ensures are_bytes { AreBytes file.old }
{
    let none = [0u8; 1];
    walk::walk(call::Call::Filter, file, &none)
}

// Steps with nothing poured: at most `most`, until complete or refused.
pub fn run_for(most: u64, file: &mut [u8]) -> rule::Answer
    ensures file_after { leaves_bytes result file.new ≡ run_for_file most file.old }
    ensures are_bytes { AreBytes file.old }
{
    let none = [0u8; 1];
    walk::walk(call::Call::Run(most), file, &none)
}

// The running program: all steps that are left. The count of bytes to write: all, the file of the channel after the run; or
// none, and the bytes stay as they were, where the reader refuses them.
pub fn run(file: &mut [u8]) -> usize
    ensures file_after { (take result file.new ≡ run_file file.old) × ((result ≡ length (run_file file.old)) × (file.new ≡ in_buffer file.old (run_file file.old))) }
    ensures are_bytes { AreBytes file.old }
{
    if reader::check(file, None).is_err() {
        return 0;
    }
    run_for(rule::MOST_STEPS, file);
    file.len()
}
