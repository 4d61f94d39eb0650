// Plan files: the reader, its refusals 1 to 7, and the notes. Rests on refusal and file.
#![tactic(auto)]

ghost use Rattle.std.specs.Prelude.{◌≡◌, ◌+◌, ◌*◌, ◌<◌, ◌≤◌, IfOk, length};
ghost use Rattle.refusal.specs.Answer.{Done, answer_with, told, number_in};
ghost use Rattle.flow.specs.Plan.{most_flows, flow_at};
ghost use Rattle.flow.specs.Ranges.{PlanOk};
ghost use Rattle.file.specs.Layout.{trailer_size, record_size, trailer_of, plan_of};
ghost use Rattle.plan.specs.Refusals.{trailer_number, header_number, size_ok, record_number, records_answer, plan_answer};
ghost use Rattle.plan.specs.Notes.{notes_of};

use file::Trailer;
use flow::{Flow, Torus};
use refusal::{Cause, Refusal};
use std::marker::Model;

// A plan has at most this many flows.
pub const MOST_FLOWS: u32 = 256;
// A size of the torus is at most this.
pub const MOST_SIZE: u32 = 16;

// A plan file that reading accepts, seen as its bytes; its trailer is at hand.
#[derive(Drop)]
pub struct PlanFile<'a> {
    bytes: &'a [u8],
    trailer: Trailer,
}

impl<'a> Model for PlanFile<'a> {
    ghost use Rattle.std.specs.Prelude.{List, ℕ, ◌≡◌};
    ghost use Rattle.flow.specs.Ranges.{PlanOk};
    ghost use Rattle.file.specs.Layout.{trailer_of, plan_of};
    ghost use Rattle.refusal.specs.Answer.{Done};
    ghost use Rattle.plan.specs.Refusals.{plan_answer};

    ghost Value = { List ℕ };

    ghost view = { λ p. p.bytes.now };

    ghost invariant = { λ p. (plan_answer p.bytes.now ≡ Done 0) × ((p.trailer ≡ trailer_of p.bytes.now) × PlanOk (plan_of p.bytes.now)) };
}

// A size of the torus is 1..16.
pub fn size_ok(s: u32) -> bool
    ensures { result ≡ size_ok s }
{
    1 <= s && s <= MOST_SIZE
}

// What sizes, count and start are refused for, or the torus of these sizes.
#[tactic(auto, unfolding(crate::specs::Refusals::header_number))]
fn check_header(t: Trailer, length: usize) -> Result<Torus, Cause>
    requires { trailer_size ≤ length }
    ensures number { number_in result ≡ header_number t length }
    ensures torus { IfOk result (λ torus. (torus.sx ≡ t.sx) × (torus.sy ≡ t.sy)) }
{
    if !(size_ok(t.sx) && size_ok(t.sy)) {
        return Err(Cause::TorusSize);
    }
    if t.count == 0 || MOST_FLOWS < t.count {
        return Err(Cause::FlowCount);
    }
    if (t.start as usize) + file::RECORD_SIZE * (t.count as usize) != length - file::TRAILER_SIZE {
        return Err(Cause::Start);
    }
    Ok(Torus { sx: t.sx, sy: t.sy })
}

// What a file is refused for before its records, or its torus.
#[tactic(auto, unfolding(crate::specs::Refusals::trailer_number))]
fn check_trailer(file: &[u8]) -> Result<Torus, Cause>
    ensures number { number_in result ≡ trailer_number file.now }
    ensures torus { IfOk result (λ torus. (torus.sx ≡ (trailer_of file.now).sx) × (torus.sy ≡ (trailer_of file.now).sy)) }
{
    let length = file.len();
    if length < file::TRAILER_SIZE || file::MOST_FILE < length {
        return Err(Cause::FileLength);
    }
    if !file::tagged(file) {
        return Err(Cause::Tag);
    }
    check_header(file::trailer_of(file), length)
}

// What a record is refused for.
#[tactic(auto, unfolding(crate::specs::Refusals::record_number))]
fn check_record(torus: Torus, f: Flow) -> Result<(), Cause>
    ensures { number_in result ≡ record_number torus.sx torus.sy f }
{
    if !f.on_torus(torus.sx, torus.sy) {
        return Err(Cause::OffTorus);
    }
    if f.period == 0 || f.burst == 0 {
        return Err(Cause::NoRate);
    }
    Ok(())
}

// The first refused record, if there is one.
fn check_records(file: &[u8], t: Trailer, torus: Torus) -> Result<(), Refusal>
    requires torus { (torus.sx ≡ t.sx) × (torus.sy ≡ t.sy) }
    requires count_in_bounds { t.start + record_size * t.count ≤ length file.now }
    requires count_le_most_flows { t.count ≤ most_flows }
    ensures { told result ≡ records_answer file.now t }
{
    for f in 0..t.count {
        let at = (t.start as usize) + file::RECORD_SIZE * (f as usize);
        if let Err(cause) = check_record(torus, file::flow_from(file, at)) {
            return Err(cause.at(f));
        }
    }
    Ok(())
}

// Reading a plan file: nothing, or the refusal with its place.
pub fn plan_answer(file: &[u8]) -> Result<(), Refusal>
    ensures { told result ≡ plan_answer file.now }
{
    let torus = check_trailer(file)?;
    let trailer = file::trailer_of(file);
    check_records(file, trailer, torus)
}

impl PlanFile<'_> {
    // Reading a plan file: the file, or the refusal with its place.
    pub fn open(bytes: &[u8]) -> Result<PlanFile<'_>, Refusal>
        ensures answer { answer_with (λ file. 0) result ≡ plan_answer bytes.now }
        ensures file { IfOk result (λ file. file ≡ bytes.now) }
    {
        plan_answer(bytes)?;
        Ok(PlanFile {
            bytes,
            trailer: file::trailer_of(bytes),
        })
    }

    // Start, count, Sx and Sy.
    pub fn trailer(&self) -> Trailer
        ensures value { result ≡ trailer_of self.now }
        ensures accepted { plan_answer self.now ≡ Done 0 }
        ensures plan_ok { PlanOk (plan_of self.now) }
    {
        self.trailer
    }

    // The torus of its Sx and Sy.
    #[tactic(auto, unfolding(file::specs::Layout::plan_of))]
    pub fn torus(&self) -> Torus
        ensures value { (result.sx ≡ (trailer_of self.now).sx) × (result.sy ≡ (trailer_of self.now).sy) }
        ensures plan { (result.sx ≡ (plan_of self.now).sx) × (result.sy ≡ (plan_of self.now).sy) }
        ensures plan_ok { PlanOk (plan_of self.now) }
    {
        Torus {
            sx: self.trailer.sx,
            sy: self.trailer.sy,
        }
    }

    // Flow number f.
    #[tactic(auto, using(crate::proofs::Ranges::flow_read))]
    pub fn flow(&self, f: u32) -> Flow
        requires { f < (trailer_of self.now).count }
        ensures { result ≡ flow_at (plan_of self.now) f }
    {
        let start = self.trailer.start as usize;
        file::flow_from(self.bytes, start + file::RECORD_SIZE * (f as usize))
    }
}

// The notes of a plan file as the leading part of the file; on a refusal that part is empty.
pub fn notes(file: &[u8]) -> &[u8]
    ensures { result.now ≡ notes_of file.now }
{
    match PlanFile::open(file) {
        Ok(plan) => &file[..plan.trailer().start as usize],
        Err(_) => &file[..0],
    }
}
