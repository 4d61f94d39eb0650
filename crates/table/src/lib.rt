// The table of a plan file as text in lent memory. Rests on bounds.
#![tactic(auto)]

ghost use Rattle.std.specs.Prelude.{◌≡◌, [], ◌++◌, ◌+◌, ◌<◌, ◌≤◌, length};
ghost use Rattle.laws.specs.Written.{Wrote};
ghost use Rattle.refusal.specs.Cause.{cause_number};
ghost use Rattle.file.specs.Layout.{trailer_of, plan_of};
ghost use Rattle.window.specs.Window.{lone_wait};
ghost use Rattle.table.specs.Decimal.{decimal};
ghost use Rattle.table.specs.Table.{port_field, window_field, row, line, refused_line, table_of};
ghost use Rattle.table.specs.Inner.{most_digits, most_field, most_line, most_table, WaitFits};

use arrayvec::ArrayString;
use bounds::Bounds;
use flow::{Flow, Port};
use plan::PlanFile;
use refusal::Refusal;
use std::marker::Model;

// A line of the table, or its first fields, seen as its bytes. It isn't written by `write!`, which may fail for all that its
// contract says, while the table is promised whole.
#[derive(Drop)]
struct LineText {
    text: ArrayString<64>,
}

impl Model for LineText {
    ghost use Rattle.std.specs.Prelude.{List, ℕ};

    ghost Value = { List ℕ };

    ghost view = { λ l. l.text.bytes };
}

impl LineText {
    fn new() -> LineText
        ensures { result ≡ [] }
    {
        LineText {
            text: ArrayString::new(),
        }
    }

    fn push(&mut self, text: &str)
        requires { length self.old + length text.now ≤ most_line }
        ensures { self.new ≡ self.old ++ text.now }
    {
        self.text.push_str(text);
    }

    #[tactic(auto, using(crate::proofs::Digits::decimal_printed))]
    fn push_number(&mut self, n: u32)
        requires { length self.old + most_digits ≤ most_line }
        ensures bytes { self.new ≡ self.old ++ decimal n }
        ensures room { length self.new ≤ length self.old + most_digits }
    {
        self.push(itoa::Buffer::new().format(n));
    }

    // A space and a number, or `-` where there is none.
    fn push_field(&mut self, n: Option<u32>)
        requires { length self.old + most_field ≤ most_line }
        ensures bytes { self.new ≡ self.old ++ window_field (λ n. n) n }
        ensures room { length self.new ≤ length self.old + most_field }
    {
        match n {
            Some(n) => {
                self.push(" ");
                self.push_number(n);
            }
            None => self.push(" -"),
        }
    }

    fn push_port(&mut self, port: Port)
        requires { length self.old + 2 ≤ most_line }
        ensures bytes { self.new ≡ self.old ++ port_field port }
        ensures room { length self.new ≤ length self.old + 2 }
    {
        match port {
            Port::East => self.push(" E"),
            Port::South => self.push(" S"),
        }
    }

    fn as_str(&self) -> &str
        ensures value { result.now ≡ self.now }
        ensures room { length result.now ≤ most_line }
    {
        self.text.as_str()
    }
}

// The lone wait, if there is a window.
fn wait(flow: Flow, window: Option<u32>) -> Option<u32>
    requires { WaitFits flow window }
    ensures { window_field (λ n. n) result ≡ window_field (lone_wait flow) window }
{
    window.map(|least| window::lone_wait(flow, least))
}

#[tactic(auto, unfolding(crate::specs::Table::row))]
fn row(f: u32, flow: Flow, port: Port, window: Option<u32>, flight: u32) -> LineText
    requires { WaitFits flow window }
    ensures { result ≡ row f flow port window flight }
{
    let mut row = LineText::new();
    row.push_number(f);
    row.push_port(port);
    row.push_field(window);
    row.push_field(Some(flight));
    row.push_field(wait(flow, window));
    row.push("\n");
    row
}

// The line of flow f, by the bounds of its plan file.
fn line(plan: &PlanFile, bounds: &Bounds, f: u32) -> LineText
    requires { (plan.now ≡ bounds.now) × (f < (trailer_of plan.now).count) }
    ensures { result ≡ line (plan_of plan.now) f }
{
    let flow = plan.flow(f);
    let port = flow.port(plan.torus().sx);
    row(f, flow, port, bounds.window(f), bounds.flight(f))
}

fn refused_line(refusal: Refusal) -> LineText
    ensures { result ≡ refused_line (cause_number refusal.cause) refusal.place }
{
    let mut line = LineText::new();
    line.push("refused");
    line.push_field(Some(refusal.cause.number()));
    line.push_field(Some(refusal.place));
    line.push("\n");
    line
}

// Writes a text from a place on; answers the place behind it.
fn put(out: &mut [u8], at: usize, text: &str) -> usize
    requires { at + length text.now ≤ length out.old }
    ensures { Wrote out.old at text.now result out.new }
{
    let end = at + text.len();
    out[at..end].copy_from_slice(text.as_bytes());
    end
}

// The table of a plan file, from the start of the memory; answers its length.
pub fn write(file: &[u8], out: &mut [u8]) -> usize
    requires { most_table ≤ length out.old }
    ensures wrote { Wrote out.old 0 (table_of file.now) result out.new }
    ensures upper_bound { result ≤ most_table }
{
    let plan = match PlanFile::open(file) {
        Err(refusal) => return put(out, 0, refused_line(refusal).as_str()),
        Ok(plan) => plan,
    };
    let bounds = Bounds::of(&plan);
    let count = plan.trailer().count;
    let mut end = put(out, 0, "flow port window flight wait\n");
    for f in 0..count {
        end = put(out, end, line(&plan, &bounds, f).as_str());
    }
    end
}
