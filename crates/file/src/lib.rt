// The numbers of a plan file, read where they stand: trailer, tag and records. Rests on flow.
#![tactic(auto)]

ghost use Rattle.std.specs.Prelude.{◌≡◌, ◌+◌, ◌≤◌, length};
ghost use Rattle.file.specs.Layout.{trailer_of, period_at, flow_from, tagged, trailer_size, record_size};

use flow::Flow;

// A plan file has at most this many bytes.
pub const MOST_FILE: usize = 65536;
// The bytes of a flow's record.
pub const RECORD_SIZE: usize = 8;
// The bytes of the trailer.
pub const TRAILER_SIZE: usize = 12;
// The bytes that end a plan file.
pub const TAG: &[u8; 4] = b"HRTP";
// The weight of a number's third byte; two bytes hold the numbers below it.
pub const THIRD_BYTE: u32 = 65536;

// A plan file's trailer before its tag.
#[derive(Clone, Copy, Debug, PartialEq, Eq)]
pub struct Trailer {
    pub start: u32,
    pub count: u32,
    pub sx: u32,
    pub sy: u32,
}

// Start, count, Sx and Sy.
#[tactic(auto, unfolding(crate::specs::Layout::trailer_of, crate::specs::Bytes::little_endian4, crate::specs::Bytes::little_endian2))]
pub fn trailer_of(file: &[u8]) -> Trailer
    requires { trailer_size ≤ length file.now }
    ensures { result ≡ trailer_of file.now }
{
    let at = file.len() - TRAILER_SIZE;
    Trailer {
        start: u32::from_le_bytes([file[at], file[at + 1], file[at + 2], file[at + 3]]),
        count: u32::from(u16::from_le_bytes([file[at + 4], file[at + 5]])),
        sx: u32::from(file[at + 6]),
        sy: u32::from(file[at + 7]),
    }
}

// The period of the record at a place, the record's last byte being its top byte.
#[tactic(auto, unfolding(crate::specs::Layout::period_at, crate::specs::Bytes::little_endian2))]
fn period_at(file: &[u8], at: usize) -> u32
    requires { at + record_size ≤ length file.now }
    ensures { result ≡ period_at file.now at }
{
    u32::from_le_bytes([file[at + 4], file[at + 5], file[at + 7], 0])
}

// The six plan numbers of the record at a place.
#[tactic(auto, unfolding(crate::specs::Layout::flow_from))]
pub fn flow_from(file: &[u8], at: usize) -> Flow
    requires { at + record_size ≤ length file.now }
    ensures { result ≡ flow_from file.now at }
{
    Flow {
        xs: u32::from(file[at]),
        ys: u32::from(file[at + 1]),
        xd: u32::from(file[at + 2]),
        yd: u32::from(file[at + 3]),
        period: period_at(file, at),
        burst: u32::from(file[at + 6]),
    }
}

// The last four bytes are the tag.
#[tactic(auto, using(crate::proofs::Tag::ends_tagged))]
pub fn tagged(file: &[u8]) -> bool
    requires { trailer_size ≤ length file.now }
    ensures { result ≡ tagged file.now }
{
    file.ends_with(TAG)
}
