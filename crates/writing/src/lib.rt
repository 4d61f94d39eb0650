// Writing: a plan file from a state and lent notes. Rests on plan, state and valid.
#![tactic(auto)]

ghost use Rattle.std.specs.Prelude.{[], ◌∷◌, ◌++◌, ◌≡◌, ◌+◌, ◌*◌, ◌≤◌, length, map};
ghost use Rattle.std.proofs.lemmas.List.Edits.{sets};
ghost use Rattle.refusal.specs.Answer.{told_value};
ghost use Rattle.flow.specs.Plan.{most_size};
ghost use Rattle.flow.specs.Ranges.{FlowOk};
ghost use Rattle.file.specs.Layout.{record_size, trailer_size, most_file};
ghost use Rattle.file.specs.Bytes.{two_bytes};
ghost use Rattle.plan.specs.Written.{record_bytes, plan_bytes};
ghost use Rattle.state.specs.Read.{count_in, plan_in};
ghost use Rattle.state.specs.Outcome.{outcome, over};
ghost use Rattle.state.specs.Writing.{bytes_on, write_on};
ghost use Rattle.writing.specs.Parts.{low_byte, records_in, trailer_from, file_size};

use flow::{Flow, Torus};
use refusal::{Cause, Refusal};
use state::StateWords;

// The most bytes of a file in front of its trailer.
const MOST_BODY: usize = file::MOST_FILE - file::TRAILER_SIZE;

// Writes bytes at a place, by a loop: `copy_from_slice` would need `memmove` from outside the archive.
fn put(target: &mut [u8], at: usize, bytes: &[u8])
    requires { at + length bytes.now ≤ length target.old }
    ensures { target.new ≡ sets target.old at bytes.now }
{
    for (i, &byte) in bytes.iter().enumerate() {
        target[at + i] = byte;
    }
}

// Writes the low byte of each number at a place. A record as an array of bytes is put together in one word first, which takes longer.
fn put_low(target: &mut [u8], at: usize, numbers: [u32; file::RECORD_SIZE])
    requires { at + record_size ≤ length target.old }
    ensures { target.new ≡ sets target.old at (map low_byte numbers) }
{
    for (i, &number) in numbers.iter().enumerate() {
        target[at + i] = (number % 256) as u8;
    }
}

// A number for each byte of a flow's record, which is its low one.
fn record_numbers(f: Flow) -> [u32; file::RECORD_SIZE]
    requires { FlowOk most_size most_size f }
    ensures { map low_byte result ≡ record_bytes f }
{
    [
        f.xs,
        f.ys,
        f.xd,
        f.yd,
        f.period,
        f.period >> 8,
        f.burst,
        f.period >> 16,
    ]
}

// Writes the records of a state's flows from a place on.
fn put_records(state: &StateWords, target: &mut [u8], start: usize)
    requires { start + record_size * count_in state.now ≤ length target.old }
    ensures { target.new ≡ sets target.old start (records_in state.now (count_in state.now)) }
{
    for f in 0..state.flows() {
        let at = start + file::RECORD_SIZE * (f as usize);
        put_low(target, at, record_numbers(state.flow(f)));
    }
}

// F, Sx and Sy.
fn size_bytes(count: u32, torus: Torus) -> [u8; 4]
    ensures { result ≡ two_bytes count ++ (torus.sx ∷ torus.sy ∷ []) }
{
    let c = count.to_le_bytes();
    [c[0], c[1], torus.sx as u8, torus.sy as u8]
}

// Writes the trailer at a place.
fn put_trailer(target: &mut [u8], at: usize, start: u32, count: u32, torus: Torus)
    requires { at + trailer_size ≤ length target.old }
    ensures { target.new ≡ sets target.old at (trailer_from start count torus.sx torus.sy) }
{
    put(target, at, &start.to_le_bytes());
    put(target, at + 4, &size_bytes(count, torus));
    put(target, at + 8, b"HRTP");
}

// Writes the file of a state's plan.
fn put_file(state: &StateWords, notes: &[u8], target: &mut [u8])
    requires { (file_size notes.now state.now ≤ most_file) × (file_size notes.now state.now ≤ length target.old) }
    ensures { target.new ≡ over (plan_bytes notes.now (plan_in state.now)) target.old }
{
    let count = state.flows();
    let start = notes.len();
    let at = start + file::RECORD_SIZE * (count as usize);
    put(target, 0, notes);
    put_records(state, target, start);
    put_trailer(target, at, start as u32, count, state.torus());
}

// Writing from words that form a state.
fn write_accepted(state: &StateWords, notes: &[u8], target: &mut [u8]) -> Result<u32, Refusal>
    ensures { outcome (told_value result) target.new ≡ bytes_on (plan_bytes notes.now (plan_in state.now)) target.old }
{
    let count = state.flows() as usize;
    let start = notes.len();
    if MOST_BODY - file::RECORD_SIZE * count < start {
        return Err(Cause::FileLength.into());
    }
    let size = start + file::RECORD_SIZE * count + file::TRAILER_SIZE;
    if target.len() < size {
        return Err(Cause::TargetShort.into());
    }
    put_file(state, notes, target);
    Ok(size as u32)
}

// Writing: the state's refusals, then 1, then 15; otherwise the file's bytes, and their number. Bytes past it stay.
pub fn write(state: &[u32], notes: &[u8], target: &mut [u8]) -> Result<u32, Refusal>
    ensures { outcome (told_value result) target.new ≡ write_on state.now notes.now target.old }
{
    write_accepted(&valid::read_state(state)?, notes, target)
}
