// What plays a stage: an element goes in where the stage needs one, and its outputs are written.

ghost use Rattle.std.specs.Prelude.{ℕ, List, ◌≡◌, ◌≢◌, ◌≤◌, ◌<◌, ◌+◌, ◌-◌, ◌^◌, Some, Result, length, IfOk, OnOk, OnErr, IsErrOf};
ghost use Rattle.zir_tree.specs.declared.format.Format.{Format};
ghost use Rattle.zir_tree.specs.declared.types.Base.{Base};
ghost use Rattle.zir_tree.specs.declared.value.Val.{Val};
ghost use Rattle.zir_meaning.specs.Elements.{Tail};
ghost use Rattle.zir_meaning.specs.Values.{Each};
ghost use Rattle.zir_laws.specs.Process.{Proc};
ghost use Rattle.zir_shapes.specs.Shapes.{Shaped};
ghost use Rattle.zir_flow.specs.Threads.{cells_from};
ghost use Rattle.zir_stage.specs.Standing.{given, shape_of, stage_of};
ghost use Rattle.zir_outside.specs.Causes.{HasCause, Rose};
ghost use Rattle.zir_outside.specs.Sinks.{Tells};
ghost use Rattle.zir_samples.specs.Writing.{Kept, Wrote, nothing_kept};
ghost use Rattle.zir_reader.specs.Inputs.{input_of};
ghost use Rattle.zir_play.specs.Performing.{Interface, Performs};
ghost use Rattle.zir_play.specs.Runs.{Closes, Comes};
ghost use Rattle.zir_play.specs.Turning.{Flushed, Goes, Hands, PutsFront, Turned, room_of};

use std::alloc::{AllocError, Global};
use zir_expr::frame::Frame;
use zir_flow::instruction::Instruction;
use zir_outside::{Failed, Sink};
use zir_reader::elements::{ElementSource, Next};
use zir_samples::Writer;
use zir_stage::event::{Event, Offer};
use zir_stage::source::Source;
use zir_stage::stage::Stage;
use zir_tree::ends::{Stamp, Trap};

/// The most turns that a stage takes until its next event, and the most events that it comes to.
const MOST: u64 = u64::MAX;

/// Where a run whose ticks were used up is told to have ended.
const NOWHERE: Stamp = Stamp { taken: 0, ticks: 0 };

/// How a run ended.
#[derive(Clone, Copy, Debug, PartialEq, Eq)]
pub enum Finish {
    /// With the control value of its component.
    Value,
    /// It needed an element behind the end of the input.
    Input,
    /// It needed an element where malformed input stands, behind the byte at this place.
    Malformed(u64),
    Trap(Trap),
    /// Its budget of ticks was used up.
    Spent,
}

/// How a run ended, how many elements it had taken and how many ticks it had used there, and how many outputs were written. A run whose ticks are spent has no
/// place, and 0 for both.
#[derive(Clone, Copy, Debug, PartialEq, Eq)]
pub struct Outcome {
    pub end: Finish,
    pub taken: u64,
    pub ticks: u64,
    pub written: u64,
}

/// Why a run broke off.
#[derive(Clone, Copy, Debug, PartialEq, Eq)]
pub enum PlayError {
    /// A read failed.
    Read,
    /// A put failed.
    Write,
    /// The turns were used up.
    Exhausted,
}

/// Plays stages. It has room for the cells of an element.
#[derive(Debug, Drop)]
pub struct Player {
    element: Vec<i64>,
}

impl Outcome {
    /// How a run ended at a point.
    fn new(end: Finish, point: Stamp, written: u64) -> Outcome
        ensures { result ≡ record { end = end; taken = point.taken; ticks = point.ticks; written = written } }
    {
        Outcome {
            end,
            taken: point.taken,
            ticks: point.ticks,
            written,
        }
    }
}

/// Writes the whole bytes that are left, unless a put failed.
fn break_off<K: Sink>(why: PlayError, writer: &mut Writer, sink: &mut K) -> PlayError
    ensures flushed { Flushed K.stands_for sink.old sink.new writer.old why result }
    ensures write { result ≡ PlayError.Write → why ≢ PlayError.Write → Rose (K.faults sink.old) (K.faults sink.new) }
    ensures later { K.faults sink.old ≤ K.faults sink.new }
    ensures untold { Tells (K.stands_for sink.new) → Tells (K.stands_for sink.old) }
{
    if why == PlayError::Write {
        return why;
    }
    match writer.flush_whole(sink) {
        Ok(()) => why,
        Err(Failed) => PlayError::Write,
    }
}

/// Writes the cells of an output.
fn put<K: Sink>(
    frame: &Frame,
    offer: Offer,
    writer: &mut Writer,
    sink: &mut K,
) -> Result<(), Failed>
    ensures ok { OnOk result (Wrote K.stands_for sink.old sink.new writer.old writer.new (cells_from offer.cells offer.at frame.now)) }
    ensures failed { OnErr result (PutsFront K.stands_for sink.old sink.new writer.old (cells_from offer.cells offer.at frame.now)) }
    ensures untold { Tells (K.stands_for sink.new) → Tells (K.stands_for sink.old) }
    ensures cause { HasCause (K.faults sink.old) (K.faults sink.new) result }
{
    let mut at = offer.at;
    for _past in 0..offer.cells {
        let cell = frame.cell(at);
        writer.push(&[cell], sink)?;
        at = at.wrapping_add(1);
    }
    Ok(())
}

impl Player {
    /// A player for elements of so many cells. No other call takes memory.
    pub fn open(alloc: Global, cells: usize) -> Result<Player, AllocError>
        ensures { IfOk result (λ player. room_of player ≡ cells) }
    {
        Ok(Player {
            element: vec![in alloc; 0; cells]?,
        })
    }

    /// Plays a stage to its end over the elements of a source, and writes its outputs, without what ends the output. An element is asked for only where the stage
    /// needs one.
    pub fn play<E: ElementSource, K: Sink>(
        &mut self,
        stage: &mut Stage,
        code: &[Instruction],
        elements: &mut E,
        writer: &mut Writer,
        sink: &mut K,
    ) -> Result<Outcome, PlayError>
        requires { room_of self.old ≡ E.size elements.old }
        ensures comes { (i : Interface) (p : Proc) (xs : List Val) (tail : Tail) → Performs i code.now p (stage_of code.now stage.old) →
            E.left elements.old ≡ Some (input_of xs tail) → Each (Shaped i.structs i.input) xs →
            Comes K.stands_for sink.old sink.new writer.old writer.new i code.now p xs tail (E.left elements.new)
            (given (stage_of code.now stage.new)) result }
        ensures room { room_of self.new ≡ room_of self.old }
        ensures size { E.size elements.new ≡ E.size elements.old }
        ensures keeps { E.keeps elements.old elements.new }
        ensures shape { shape_of stage.new ≡ shape_of stage.old }
        ensures read { IsErrOf result PlayError.Read → Rose (E.faults elements.old) (E.faults elements.new) }
        ensures write { IsErrOf result PlayError.Write → Rose (K.faults sink.old) (K.faults sink.new) }
        ensures reads_later { E.faults elements.old ≤ E.faults elements.new }
        ensures writes_later { K.faults sink.old ≤ K.faults sink.new }
        ensures untold { Tells (K.stands_for sink.new) → Tells (K.stands_for sink.old) }
    {
        let mut written = 0;
        for _events in 0..MOST {
            match self.turn(stage, code, elements, writer, sink, &mut written) {
                Ok(None) => {}
                Ok(Some(outcome)) => return Ok(outcome),
                Err(why) => return Err(why),
            }
        }
        Err(PlayError::Exhausted)
    }

    /// Brings a stage to its next event, and does what that asks for. An outcome where the run is at its end.
    fn turn<E: ElementSource, K: Sink>(
        &mut self,
        stage: &mut Stage,
        code: &[Instruction],
        elements: &mut E,
        writer: &mut Writer,
        sink: &mut K,
        written: &mut u64,
    ) -> Result<Option<Outcome>, PlayError>
        requires room { room_of self.old ≡ E.size elements.old }
        requires few { written.old + 1 < 2 ^ 64 }
        ensures turned { (before : K) (kept : Kept) (i : Interface) (p : Proc) (xs : List Val) (tail : Tail) (events : ℕ) →
            Goes K.stands_for before sink.old kept writer.old i code.now p xs tail (E.left elements.old) (stage_of code.now stage.old)
            written.old events →
            Turned K.stands_for before sink.new kept writer.new i code.now p xs tail (E.left elements.new) (stage_of code.now stage.new)
            (given (stage_of code.now stage.new)) written.new events result }
        ensures few { written.new ≤ written.old + 1 }
        ensures room { room_of self.new ≡ room_of self.old }
        ensures size { E.size elements.new ≡ E.size elements.old }
        ensures keeps { E.keeps elements.old elements.new }
        ensures shape { shape_of stage.new ≡ shape_of stage.old }
        ensures read { IsErrOf result PlayError.Read → Rose (E.faults elements.old) (E.faults elements.new) }
        ensures write { IsErrOf result PlayError.Write → Rose (K.faults sink.old) (K.faults sink.new) }
        ensures reads_later { E.faults elements.old ≤ E.faults elements.new }
        ensures writes_later { K.faults sink.old ≤ K.faults sink.new }
        ensures untold { Tells (K.stands_for sink.new) → Tells (K.stands_for sink.old) }
    {
        match stage.advance(code, MOST) {
            None => Err(PlayError::Exhausted),
            Some(Event::Gives(offer)) => match put(stage.given(code), offer, writer, sink) {
                Ok(()) => {
                    *written += 1;
                    Ok(None)
                }
                Err(Failed) => Err(PlayError::Write),
            },
            Some(Event::Needs(point)) => self.hand(stage, code, elements, point, *written),
            Some(Event::Ends(point)) => Ok(Some(Outcome::new(Finish::Value, point, *written))),
            Some(Event::Traps(trap, point)) => {
                Ok(Some(Outcome::new(Finish::Trap(trap), point, *written)))
            }
            Some(Event::Gone) => Ok(Some(Outcome::new(Finish::Spent, NOWHERE, *written))),
        }
    }

    /// Hands the next element to a stage that needs one at a point. An outcome where there is none.
    fn hand<E: ElementSource>(
        &mut self,
        stage: &mut Stage,
        code: &[Instruction],
        elements: &mut E,
        point: Stamp,
        written: u64,
    ) -> Result<Option<Outcome>, PlayError>
        requires room { room_of self.old ≡ E.size elements.old }
        ensures hands { Hands code.now (E.left elements.old) (E.left elements.new) (stage_of code.now stage.old) (stage_of code.now stage.new) point
            written result }
        ensures room { room_of self.new ≡ room_of self.old }
        ensures size { E.size elements.new ≡ E.size elements.old }
        ensures keeps { E.keeps elements.old elements.new }
        ensures shape { shape_of stage.new ≡ shape_of stage.old }
        ensures read { IsErrOf result PlayError.Read → Rose (E.faults elements.old) (E.faults elements.new) }
        ensures later { E.faults elements.old ≤ E.faults elements.new }
    {
        match elements.next(&mut self.element) {
            Next::Element => {
                stage.hand(code, Source::Listed(&self.element));
                Ok(None)
            }
            Next::End => Ok(Some(Outcome::new(Finish::Input, point, written))),
            Next::Malformed(at) => Ok(Some(Outcome::new(Finish::Malformed(at), point, written))),
            Next::Failed => Err(PlayError::Read),
        }
    }

    /// Plays a stage to its end over the elements of a source, and writes its outputs with what ends the output. Where a read failed, or the turns were used up, the
    /// whole bytes of the outputs were written. A put that fails goes before any other error.
    pub fn run<E: ElementSource, K: Sink>(
        &mut self,
        stage: &mut Stage,
        code: &[Instruction],
        elements: &mut E,
        writer: Writer,
        sink: &mut K,
    ) -> Result<Outcome, PlayError>
        requires { room_of self.old ≡ E.size elements.old }
        ensures closes { (format : Format) (base : Base) (i : Interface) (p : Proc) (xs : List Val) (tail : Tail) → writer ≡ nothing_kept format base →
            Performs i code.now p (stage_of code.now stage.old) →
            E.left elements.old ≡ Some (input_of xs tail) → Each (Shaped i.structs i.input) xs →
            Closes format base (K.stands_for sink.old) (K.stands_for sink.new) i code.now p xs tail (E.left elements.new)
            (given (stage_of code.now stage.new)) result }
        ensures room { room_of self.new ≡ room_of self.old }
        ensures size { E.size elements.new ≡ E.size elements.old }
        ensures keeps { E.keeps elements.old elements.new }
        ensures shape { shape_of stage.new ≡ shape_of stage.old }
        ensures read { IsErrOf result PlayError.Read → Rose (E.faults elements.old) (E.faults elements.new) }
        ensures write { IsErrOf result PlayError.Write → Rose (K.faults sink.old) (K.faults sink.new) }
        ensures reads_later { E.faults elements.old ≤ E.faults elements.new }
        ensures writes_later { K.faults sink.old ≤ K.faults sink.new }
        ensures untold { Tells (K.stands_for sink.new) → Tells (K.stands_for sink.old) }
    {
        let mut writer = writer;
        match self.play(stage, code, elements, &mut writer, sink) {
            Ok(outcome) => match writer.finish(sink) {
                Ok(()) => Ok(outcome),
                Err(Failed) => Err(PlayError::Write),
            },
            Err(why) => Err(break_off(why, &mut writer, sink)),
        }
    }
}
