// What a program reads into memory of its own. Rests on nothing of the project.
#![tactic(auto)]

ghost use Rattle.std.specs.Prelude.{◌≤◌, ◌<◌, IfOk, length, take};
ghost use Rattle.std.specs.Io.KnownBytes.{Consumes, IsAtEnd};

use std::io;
use std::io::Read;

// Fills the memory from its start, up to its end or the input's, and answers how many bytes came: the first ones of the input, and
// fewer than the memory has room for only where the input has no more.
pub fn read_full<R: Read>(input: &mut R, memory: &mut [u8]) -> io::Result<usize>
    ensures within { IfOk result (λ n. n ≤ length memory.new) }
    ensures bytes { IfOk result (λ n. Consumes (R.remaining input.old) (R.remaining input.new) (take n memory.new)) }
    ensures whole { IfOk result (λ n. n < length memory.new → IsAtEnd (R.remaining input.new)) }
{
    // By `read`: `read_exact` gives no count of what came before the input's end, and `read_to_end` needs a heap.
    let mut done = 0;
    while done < memory.len() {
        let n = input.read(&mut memory[done..])?;
        if n == 0 {
            break;
        }
        done += n;
    }
    Ok(done)
}
