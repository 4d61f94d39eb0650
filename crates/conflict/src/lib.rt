// How two flows conflict at the source of one of them. Rests on flow and turning.
#![tactic(auto)]

ghost use Rattle.std.specs.Prelude.{◌≡◌, ◌^◌, ◌<◌, ◌≤◌};
ghost use Rattle.laws.specs.Bits.{is_set};
ghost use Rattle.flow.specs.Offsets.{port_of};
ghost use Rattle.conflict.specs.Conflict.{laps, conflict_by, conflict_east, conflict_south};
ghost use Rattle.conflict.specs.Inner.{Pair};

use flow::{Flow, Port, Torus};

// Two flows of one plan, one at its own source, with the rows that turn for the other's destination column, a bit each.
#[derive(Clone, Copy, Debug)]
pub struct Meeting {
    pub torus: Torus,
    pub word: u32,
    pub own: Flow,
    pub other: Flow,
    ghost pair: { Pair torus.sx torus.sy own other },
    ghost rows: { word < 2 ^ torus.sy },
}

impl Meeting {
    // A lap round the row for each row of the word among the first n south of the other's source.
    #[tactic(auto, using(crate::proofs::Spread::laps_most))]
    fn laps(self, n: u32) -> u32
        requires { n ≤ self.torus.sy }
        ensures { result ≡ laps self.torus.sx self.torus.sy (is_set self.word) self.other n }
    {
        turning::rows_south(self.torus.sy, self.word, self.other.ys, n) * self.torus.sx
    }

    // With what spread J the two conflict, if they do: own's port is E and the other's client is another.
    #[tactic(auto, using(std::proofs::lemmas::Bool::Decides::nat_tests, torus::proofs::Axis::offset_below, laws::proofs::Bits::set_none), unfolding(crate::specs::Conflict::conflict_east))]
    fn east(self) -> Option<u32>
        ensures { result ≡ conflict_east self.torus.sx self.torus.sy (is_set self.word) self.own self.other }
    {
        let rows = torus::offset(self.torus.sy, self.other.ys, self.own.ys);
        if rows == 0 {
            let passes = 1 <= torus::offset(self.torus.sx, self.other.xs, self.own.xs)
                && torus::on_way(self.torus.sx, self.other.xs, self.own.xs, self.other.xd);
            return passes.then_some(0);
        }
        let on_way = torus::on_way(self.torus.sy, self.other.ys, self.own.ys, self.other.yd);
        // Off the way the word is 0, which has no row: one test tells both.
        let word = if on_way { self.word } else { 0 };
        if turning::has_row(word, self.own.ys) {
            Some(self.laps(rows - 1))
        } else {
            None
        }
    }

    // The same where own's port is S.
    #[tactic(auto, using(std::proofs::lemmas::Bool::Decides::nat_tests, torus::proofs::Axis::offset_below), unfolding(crate::specs::Conflict::conflict_south))]
    fn south(self) -> Option<u32>
        ensures { result ≡ conflict_south self.torus.sx self.torus.sy (is_set self.word) self.own self.other }
    {
        if self.other.xd == self.own.xs
            && torus::on_way(self.torus.sy, self.other.ys, self.own.ys, self.other.yd)
        {
            Some(self.laps(torus::offset(self.torus.sy, self.other.ys, self.own.ys)))
        } else {
            None
        }
    }

    // How the other conflicts with own at own's source, by own's port. A window asks it of each flow, and has its lines in the loop.
    #[inline(always)]
    #[tactic(auto, using(std::proofs::lemmas::Bool::Decides::nat_tests), unfolding(crate::specs::Conflict::conflict_by))]
    pub fn conflict(self, port: Port) -> Option<u32>
        requires { port ≡ port_of self.torus.sx self.own }
        ensures { result ≡ conflict_by self.torus.sx self.torus.sy (is_set self.word) self.own self.other }
    {
        if self.own.same_client(self.other) {
            return Some(0);
        }
        match port {
            Port::East => self.east(),
            Port::South => self.south(),
        }
    }
}
