// A line of the script: a word and three numbers, with a space between two. A label, a colon and a space may stand before them.

// The calls that a line can ask for.
#[derive(Clone, Copy, Debug, PartialEq, Eq)]
pub enum Call {
    Read,
    Window,
    Burst,
    Flight,
    Reset,
    Offer,
    Trial,
    Set,
    Step,
    Steps,
    Why,
    Write,
}

// The words of the script: a note has no answer, two words change a memory, and the others call.
#[derive(Clone, Copy, Debug, PartialEq, Eq)]
enum Word {
    Note,
    Byte,
    State,
    Call(Call),
}

const WORDS: [(&[u8], Word); 15] = [
    (b"#", Word::Note),
    (b"byte", Word::Byte),
    (b"word", Word::State),
    (b"read", Word::Call(Call::Read)),
    (b"window", Word::Call(Call::Window)),
    (b"burst", Word::Call(Call::Burst)),
    (b"flight", Word::Call(Call::Flight)),
    (b"reset", Word::Call(Call::Reset)),
    (b"offer", Word::Call(Call::Offer)),
    (b"trial", Word::Call(Call::Trial)),
    (b"set", Word::Call(Call::Set)),
    (b"step", Word::Call(Call::Step)),
    (b"steps", Word::Call(Call::Steps)),
    (b"why", Word::Call(Call::Why)),
    (b"write", Word::Call(Call::Write)),
];

// A call's numbers: so many bytes of the plan file and words of the state are lent, and the last is a flow, or the words of the
// delivery memory or the bytes of the target.
#[derive(Clone, Copy, Debug, PartialEq, Eq)]
pub struct Numbers {
    pub bytes: u32,
    pub words: u32,
    pub last: u32,
}

// What a line asks for.
#[derive(Clone, Copy, Debug, PartialEq, Eq)]
pub enum Line {
    Note,
    Byte { at: usize, value: u8 },
    State { at: usize, value: u32 },
    Call(Call, Numbers),
}

// A number is below this. What a field is worth so far is taken modulo this before each byte.
const LIMIT: u64 = 0x100000000000000;

// A digit counts in base 10, and any other byte in base 256, for words and numbers alike: so every line means what it always meant.
fn worth(field: &[u8]) -> u64 {
    field.iter().fold(0, |worth, b| match b {
        b'0'..=b'9' => worth % LIMIT * 10 + (b - b'0') as u64,
        _ => worth % LIMIT * 256 + *b as u64,
    })
}

// The number in a field, if it has a digit and isn't too large.
fn number(field: &[u8]) -> Option<u64> {
    let number = worth(field);
    (!field.is_empty() && number < LIMIT).then_some(number)
}

// The word that is worth as much as a field.
fn find_word(field: &[u8]) -> Option<Word> {
    let worth_of_field = worth(field);
    let (_, word) = WORDS
        .iter()
        .find(|(name, _)| worth(name) == worth_of_field)?;
    Some(*word)
}

// A call's last number and a word of the state have 32 bits.
const MOST: u64 = 0xffff_ffff;

impl Call {
    // The call with three numbers, if none of them is too large.
    fn with(self, bytes: u64, words: u64, last: u64) -> Option<Line> {
        let (most_bytes, most_last) = match self {
            Call::Set => (4, MOST),
            Call::Step => (0, 80),
            Call::Steps => (65537, 80),
            Call::Why => (2, 80),
            Call::Write => (65537, 24),
            _ => (65537, MOST),
        };
        if bytes <= most_bytes && words <= 156 && last <= most_last {
            let numbers = Numbers {
                bytes: bytes as u32,
                words: words as u32,
                last: last as u32,
            };
            Some(Line::Call(self, numbers))
        } else {
            None
        }
    }
}

impl Line {
    // The line, if it isn't faulty: a byte or a word is asked for by two numbers, and a call by three.
    pub fn parse(line: &[u8]) -> Option<Line> {
        if line.starts_with(b"#") {
            return Some(Line::Note);
        }
        let mut fields = line.rsplit(|b| *b == b':').next()?.split(|b| *b == b' ');
        // a label ends at the first space behind its colon
        if line.contains(&b':') {
            fields.next()?;
        }
        let word = find_word(fields.next()?)?;
        let numbers = [fields.next(), fields.next(), fields.next()];
        let numbers = numbers.map(|field| field.unwrap_or(&[]));
        if fields.next().is_some()
            || numbers
                .iter()
                .any(|field| !field.iter().all(u8::is_ascii_digit))
        {
            return None;
        }
        match (word, numbers.map(number)) {
            (Word::Note, [Some(0..=65537), Some(0..=156), Some(0..=MOST)]) => Some(Line::Note),
            (Word::Byte, [Some(at), Some(value @ 0..=255), None]) => Some(Line::Byte {
                at: at as usize,
                value: value as u8,
            }),
            (Word::State, [Some(at), Some(value @ 0..=MOST), None]) => {
                Some(Line::State {
                    at: at as usize,
                    value: value as u32,
                })
            }
            (Word::Call(call), [Some(bytes), Some(words), Some(last)]) => {
                call.with(bytes, words, last)
            }
            _ => None,
        }
    }
}
