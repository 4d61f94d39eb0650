// The record of a flow's recent flights, by value. Rests on laws.
#![tactic(auto)]

ghost use Rattle.std.specs.Prelude.{◌≡◌, ◌+◌, ◌-◌, ◌≤◌, length, take};
ghost use Rattle.recent.specs.Recent.{most_kept, largest, laid_out, held_by, one_more, with_delivery};

// A record keeps at most this many deliveries.
pub const MOST_KEPT: usize = 16;

// The last deliveries of a flow: how many are held, the longest flight, the most deflections, and each one's flight and deflections,
// oldest first, zeros behind. C sees it (include/hrt.h), so the flights and the deflections are two arrays.
#[repr(C)]
#[derive(Clone, Copy, Debug, PartialEq, Eq)]
pub struct Recent {
    pub held: u32,
    pub longest: u32,
    pub most: u32,
    pub flights: [u32; MOST_KEPT],
    pub deflections: [u32; MOST_KEPT],
}

// How many are held: none where a record says more than L.
fn held_by(last: u32, held: u32) -> u32
    ensures value { result ≡ held_by last held }
    ensures upper_bound { result ≤ last }
{
    if last < held { 0 } else { held }
}

// How many go when one more comes: the oldest where L are held.
fn gone(last: u32, held: u32) -> u32
    requires { (1 ≤ last) × (held ≤ last) }
    ensures { result ≡ held + 1 - last }
{
    if held < last { 0 } else { 1 }
}

// The last L of those held and one more, zeros behind.
fn one_more(last: u32, held: u32, old: [u32; MOST_KEPT], x: u32) -> [u32; MOST_KEPT]
    requires { (1 ≤ last) × ((last ≤ most_kept) × (held ≤ last)) }
    ensures value { result ≡ laid_out (one_more last held old x) }
    ensures x_len { length (one_more last held old x) ≡ held + 1 - (held + 1 - last) }
{
    let from = gone(last, held) as usize;
    let n = (held as usize) - from;
    let mut new = [0u32; MOST_KEPT];
    new[..n].copy_from_slice(&old[from..held as usize]);
    new[n] = x;
    new
}

// The largest of the first n entries.
fn largest(a: [u32; MOST_KEPT], n: usize) -> u32
    requires { n ≤ most_kept }
    ensures { result ≡ largest (take n a) }
{
    a[..n].iter().fold(0, |most, &x| most.max(x))
}

// A flow's record after a delivery with this flight and D.
pub fn with_delivery(r: Recent, last: u32, flight: u32, d: u32) -> Recent
    requires { (1 ≤ last) × (last ≤ most_kept) }
    ensures { result ≡ with_delivery last flight d r }
{
    let held = held_by(last, r.held);
    let kept = held + 1 - gone(last, held);
    let flights = one_more(last, held, r.flights, flight);
    let deflections = one_more(last, held, r.deflections, d);
    Recent {
        held: kept,
        longest: largest(flights, kept as usize),
        most: largest(deflections, kept as usize),
        flights,
        deflections,
    }
}
