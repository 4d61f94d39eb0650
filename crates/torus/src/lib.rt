// The torus: offsets and neighbours along one row or column. Rests on laws.
#![tactic(auto)]

ghost use Rattle.std.specs.Prelude.{◌≡◌, ◌<◌, leb};
ghost use Rattle.torus.specs.Axis.{offset, next, lap};

// How far `to` lies after `from`, going round: 01's (to − from) mod size, by one comparison. For r, j and laps; ΔX and ΔY are
// flow's.
pub fn offset(size: u32, from: u32, to: u32) -> u32
    requires { (from < size) × (to < size) }
    ensures { result ≡ offset size from to }
{
    if from <= to {
        to - from
    } else {
        size - (from - to)
    }
}

// Whether `at` lies on the way from `from` to `to`, going round: no further after `from` than `to`.
#[tactic(auto, using(crate::proofs::Axis::on_way_lem, crate::proofs::Axis::offset_below))]
pub fn on_way(size: u32, from: u32, at: u32, to: u32) -> bool
    requires { (from < size) × ((at < size) × (to < size)) }
    ensures { result ≡ leb (offset size from at) (offset size from to) }
{
    offset(size, from, at) < size - offset(size, at, to)
}

// The offset, read as the size if it is 0.
#[tactic(auto, unfolding(crate::specs::Axis::lap))]
pub fn lap(size: u32, from: u32, to: u32) -> u32
    requires { (from < size) × (to < size) }
    ensures { result ≡ lap size from to }
{
    let d = offset(size, from, to);
    if d == 0 { size } else { d }
}

// The neighbour to the east of a column, or to the south of a row.
#[tactic(auto, unfolding(crate::specs::Axis::next))]
pub fn next(size: u32, at: u32) -> u32
    requires { at < size }
    ensures { result ≡ next size at }
{
    if at + 1 == size { 0 } else { at + 1 }
}
