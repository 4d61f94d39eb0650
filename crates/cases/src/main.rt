// 01's cases and the limits of later requests, as a script on standard input: each line is written again, with its answer behind it.
#![tactic(auto)]

mod line;

use flow::Offerer;
use line::{Call, Line, Numbers};
use refusal::Refusal;
use std::io;
use std::io::Write;

// What a call answers; one without a value answers 0.
type Answer = Result<u32, Refusal>;

fn done(answer: Result<(), Refusal>) -> Answer {
    answer.map(|()| 0)
}

// An answer stands behind a colon.
fn tell(rt: &impl Print, answer: Answer) -> io::Result<()> {
    match answer {
        Ok(value) => print!(rt; ": {value}"),
        Err(refusal) => print!(rt; ": {refusal}"),
    }
}

// So do words of a memory.
fn tell_words(rt: &impl Print, words: &[u32]) -> io::Result<()> {
    print!(rt; ":")?;
    for word in words {
        print!(rt; " {word}")?;
    }
    Ok(())
}

// The first of a memory's words that are lent.
fn lent(memory: &mut [u32], words: u32) -> &mut [u32] {
    let n = memory.len().min(words as usize);
    &mut memory[..n]
}

// A set of so many entries, at most four, all of one flow.
fn offer_set(state: &mut [u32], entries: u32, flow: u32) -> Answer {
    done(offers::offer_set(state, lent(&mut [flow; 4], entries)))
}

// A step, with nines in the delivery memory: its first five words afterwards stand before the answer.
fn step(rt: &impl Print, state: &mut [u32], room: u32) -> io::Result<Answer> {
    let mut delivery = [9u32; 80];
    let answer = step::step(state, lent(&mut delivery, room));
    tell_words(rt, &delivery[..5])?;
    Ok(answer)
}

// So many steps in one call, with nines in the delivery memory: the clock afterwards, if the words that are lent have one, and the
// first ten words stand before the answer.
fn steps(rt: &impl Print, state: &mut [u32], cycles: u32, room: u32) -> io::Result<Answer> {
    let mut delivery = [9u32; 80];
    let answer = steps::steps(state, lent(&mut delivery, room), cycles);
    tell_words(rt, state.get(3..4).unwrap_or(&[]))?;
    tell_words(rt, &delivery[..10])?;
    Ok(answer)
}

// A step that tells reasons, with nines in the delivery memory and in a list of so many words, at most two: both words of the list
// afterwards stand before the answer.
fn step_reasons(rt: &impl Print, state: &mut [u32], list: u32, room: u32) -> io::Result<Answer> {
    let mut delivery = [9u32; 80];
    let mut reasons = [9u32; 2];
    let answer = telling::step_reasons(state, lent(&mut delivery, room), lent(&mut reasons, list));
    tell_words(rt, &reasons)?;
    Ok(answer)
}

// The answer of writing stands before that of reading what was written.
fn write(rt: &impl Print, state: &[u32], notes: &[u8], room: u32) -> io::Result<Answer> {
    let mut target = [0u8; 24];
    let n = target.len().min(room as usize);
    tell(rt, writing::write(state, notes, &mut target[..n]))?;
    Ok(done(plan::plan_answer(&target)))
}

// Each call, on what it is lent: the first bytes of the plan file and the first words of the state. A set has as many entries, a
// reason list as many words, and as many steps run in one call, as there would be bytes; a burst has as many packets as there would
// be words.
fn call(
    rt: &impl Print,
    call: Call,
    numbers: Numbers,
    file: &[u8],
    state: &mut [u32],
) -> io::Result<Answer> {
    let Numbers { bytes, words, last } = numbers;
    let file = &file[..file.len().min(bytes as usize)];
    let state = lent(state, words);
    match call {
        Call::Read => Ok(done(plan::plan_answer(file))),
        Call::Window => Ok(bounds::window(file, last)),
        Call::Burst => Ok(bounds::burst(file, last, words)),
        Call::Flight => Ok(bounds::flight_bound(file, last)),
        Call::Reset => Ok(done(reset::reset(file, state))),
        Call::Offer => Ok(done(offer::offer(Offerer::Sonar, state, last))),
        Call::Trial => Ok(done(offer::offer(Offerer::Generator, state, last))),
        Call::Set => Ok(offer_set(state, bytes, last)),
        Call::Step => step(rt, state, last),
        Call::Steps => steps(rt, state, bytes, last),
        Call::Why => step_reasons(rt, state, bytes, last),
        Call::Write => write(rt, state, file, last),
    }
}

// A line's answer behind a colon; a note has none, and a faulty line is refused with 0.
fn answer(rt: &impl Print, line: &[u8], file: &mut [u8], state: &mut [u32]) -> io::Result<()> {
    match Line::parse(line) {
        Some(Line::Note) => Ok(()),
        Some(Line::Byte { at, value }) if at < file.len() => {
            file[at] = value;
            tell(rt, Ok(0))
        }
        Some(Line::State { at, value }) if at < state.len() => {
            state[at] = value;
            tell(rt, Ok(0))
        }
        Some(Line::Call(name, numbers)) => {
            let answer = call(rt, name, numbers, file, state)?;
            tell(rt, answer)
        }
        _ => print!(rt; ": refused 0 0"),
    }
}

// Each line, written again, and its answer, on one plan file and one state.
fn run(rt: &impl Print, script: &[u8]) -> io::Result<()> {
    let mut file = [0u8; 65537];
    let mut state = [7u32; 156];
    for line in script.split_inclusive(|b| *b == b'\n') {
        let line = line.strip_suffix(b"\n").unwrap_or(line);
        io::writer(rt).write_all(line)?;
        answer(rt, line, &mut file, &mut state)?;
        println!(rt)?;
    }
    Ok(())
}

// A script has at most 16,384 bytes.
fn main(rt: HostRuntime) -> io::Result<()> {
    let mut script = [0u8; 16384];
    let n = input::read_full(&mut rt.stdin(), &mut script)?;
    run(&rt, &script[..n])
}
