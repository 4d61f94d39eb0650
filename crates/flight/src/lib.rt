// The flight bound of a flow. Rests on flow and turning.
#![tactic(auto)]

ghost use Rattle.std.specs.Prelude.{◌≡◌, ◌^◌, ◌<◌};
ghost use Rattle.laws.specs.Bits.{is_set};
ghost use Rattle.flow.specs.Offsets.{ΔY};
ghost use Rattle.flow.specs.Ranges.{FlowOk};
ghost use Rattle.turning.specs.Turning.{rows_south};
ghost use Rattle.flight.specs.Flight.{flight_of};

use flow::{Flow, Torus};

// The most cycles of a flow's packet from entry to exit, with 2. The word has the rows that turn for its destination column.
#[tactic(auto, using(crate::proofs::Flight::flight_most, turning::proofs::Turning::south_most, torus::proofs::Axis::offset_below))]
pub fn flight_bound(torus: Torus, word: u32, f: Flow) -> u32
    requires flow_ok { FlowOk torus.sx torus.sy f }
    requires word_bound { word < 2 ^ torus.sy }
    ensures { result ≡ flight_of torus.sx torus.sy f (rows_south torus.sy (is_set word) f.ys (ΔY torus.sy f)) }
{
    let dx = f.offset_x(torus.sx);
    let dy = f.offset_y(torus.sy);
    let most = turning::rows_south(torus.sy, word, f.ys, dy);
    dx + dy + most * torus.sx + 2
}
