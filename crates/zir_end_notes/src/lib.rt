//! The notes that say how a run ended.
#![tactic(auto)]

ghost use Rattle.std.specs.Prelude.{◌≡◌, ◌++◌, OnErr, OnOk};
ghost use Rattle.zir_outside.specs.Causes.{HasCause};
ghost use Rattle.zir_outside.specs.Sinks.{Grew, GrewPart, Tells};
ghost use Rattle.zir_end_notes.specs.Endings.{end_note};
ghost use Rattle.zir_meaning.specs.Notes.{ended_note, trap_note};

mod pieces;
mod texts;
mod values;

use pieces::{Held, add, put_held};
use texts::{counts_text, input_text, malformed_text, spent_text, trap_back, trap_front};
use values::{add_value, kind_of};
use zir_outside::{Failed, Sink};
use zir_tree::ends::Trap;
use zir_tree::types::{StructDef, Ty};
use zir_tree::value::Val;

/// How a run ended that has a note.
#[derive(Clone, Copy, Debug)]
pub enum Ending<'a> {
    /// With this control value, which has this type among these structs.
    Value(&'a Val, &'a Ty, &'a [StructDef]),
    /// With the end of its input.
    Input,
    /// With a trap in the program of this name.
    Trap(Trap, &'a [u8]),
    /// With its budget of ticks used up.
    Spent,
    /// At malformed input, behind the byte at this place, from 0.
    Malformed(u64),
    /// At a read that failed.
    ReadFault,
}

/// Puts the note on how a run ended. `ticks` is the budget of the run, and `taken` and `written` count the elements of its input
/// and its output. After `Failed` a front part of the note may have been put.
pub fn write_end<N: Sink>(
    end: &Ending<'_>,
    ticks: u64,
    taken: u64,
    written: u64,
    notes: &mut N,
) -> Result<(), Failed>
    ensures ok { OnOk result (Grew (N.stands_for notes.old) (N.stands_for notes.new) (end_note end.now ticks taken written)) }
    ensures failed { OnErr result (GrewPart (end_note end.now ticks taken written) (N.stands_for notes.old) (N.stands_for notes.new)) }
    ensures untold { Tells (N.stands_for notes.new) → Tells (N.stands_for notes.old) }
    ensures cause { HasCause (N.faults notes.old) (N.faults notes.new) result }
{
    match end {
        Ending::Value(value, ty, structs) => write_value(value, ty, structs, taken, written, notes),
        Ending::Input => notes.put(input_text(taken, written).as_bytes()),
        Ending::Trap(trap, name) => write_trap(name, *trap, taken, written, notes),
        Ending::Spent => notes.put(spent_text(ticks, written).as_bytes()),
        Ending::Malformed(at) => notes.put(malformed_text(*at, taken, written).as_bytes()),
        Ending::ReadFault => notes.put(b"read fault\n"),
    }
}

/// Puts the note on a run that ended with this control value of a type, in pieces of 4,096 bytes and a last one.
fn write_value<N: Sink>(
    value: &Val,
    ty: &Ty,
    structs: &[StructDef],
    taken: u64,
    written: u64,
    notes: &mut N,
) -> Result<(), Failed>
    ensures ok { OnOk result (Grew (N.stands_for notes.old) (N.stands_for notes.new) (ended_note structs.now ty.now value.now taken written)) }
    ensures failed { OnErr result (GrewPart (ended_note structs.now ty.now value.now taken written) (N.stands_for notes.old) (N.stands_for notes.new)) }
    ensures untold { Tells (N.stands_for notes.new) → Tells (N.stands_for notes.old) }
    ensures cause { HasCause (N.faults notes.old) (N.faults notes.new) result }
{
    let mut held = Held::new();
    add(b"ended ", &mut held, notes)?;
    add_value(value, structs, kind_of(ty), &mut held, notes)?;
    add(counts_text(taken, written).as_bytes(), &mut held, notes)?;
    put_held(&mut held, notes)
}

/// Puts the note on a run that ended with a trap in the program of this name.
fn write_trap<N: Sink>(
    name: &[u8],
    trap: Trap,
    taken: u64,
    written: u64,
    notes: &mut N,
) -> Result<(), Failed>
    ensures ok { OnOk result (Grew (N.stands_for notes.old) (N.stands_for notes.new) (trap_note name.now trap taken written)) }
    ensures failed { OnErr result (GrewPart (trap_note name.now trap taken written) (N.stands_for notes.old) (N.stands_for notes.new)) }
    ensures untold { Tells (N.stands_for notes.new) → Tells (N.stands_for notes.old) }
    ensures cause { HasCause (N.faults notes.old) (N.faults notes.new) result }
{
    let front = trap_front(trap.code);
    let back = trap_back(trap.at, taken, written);
    put_three(front.as_bytes(), name, back.as_bytes(), notes)
}

/// Puts three pieces, one behind the other.
fn put_three<N: Sink>(first: &[u8], second: &[u8], third: &[u8], sink: &mut N) -> Result<(), Failed>
    ensures ok { OnOk result (Grew (N.stands_for sink.old) (N.stands_for sink.new) (first.now ++ (second.now ++ third.now))) }
    ensures failed { OnErr result (GrewPart (first.now ++ (second.now ++ third.now)) (N.stands_for sink.old) (N.stands_for sink.new)) }
    ensures untold { Tells (N.stands_for sink.new) → Tells (N.stands_for sink.old) }
    ensures cause { HasCause (N.faults sink.old) (N.faults sink.new) result }
{
    sink.put(first)?;
    sink.put(second)?;
    sink.put(third)
}

#[cfg(test)]
mod tests {
    use super::*;
    use sqlite_items::Items;
    use std::alloc::{AllocError, Global};
    use std::test::Fail;
    use zir_outside::memory::MemSink;
    use zir_tree::name::Name;
    use zir_tree::place::Place;
    use zir_tree::types::{Base, FieldDef};

    /// A type that is no array.
    fn plain(alloc: Global, base: Base) -> Ty {
        Ty {
            lengths: Items::new(alloc),
            base,
        }
    }

    #[test]
    fn each_end_has_its_note(rt: HostRuntime) -> Result<(), Fail> {
        let trap = Trap {
            code: 1,
            at: Place { line: 2, col: 38 },
        };
        let cases = [
            (Ending::Input, "input ended\ntaken 3\nwritten 2\n"),
            (
                Ending::Trap(trap, b"p"),
                "trap 1 in p at 2:38\ntaken 3\nwritten 2\n",
            ),
            (Ending::Spent, "out of ticks 5\nwritten 2\n"),
            (
                Ending::Malformed(u64::MAX),
                "malformed input at 18446744073709551615\ntaken 3\nwritten 2\n",
            ),
            (Ending::ReadFault, "read fault\n"),
        ];
        for (end, want) in cases {
            let mut notes = MemSink::new(rt.alloc(), 200, Vec::new(rt.alloc()))?;
            assert_eq!(rt; write_end(&end, 5, 3, 2, &mut notes), Ok(()));
            assert_eq!(rt; notes.bytes(), want.as_bytes());
        }
        Ok(())
    }

    /// An array.
    fn array(alloc: Global, length: u64, base: Base) -> Result<Ty, AllocError> {
        Ok(Ty {
            lengths: Items::from_slice(alloc, &[length])?,
            base,
        })
    }

    /// A field of a struct.
    fn field(alloc: Global, name: &[u8], ty: Ty) -> Result<FieldDef, AllocError> {
        Ok(FieldDef {
            name: Name::from_slice(alloc, name)?,
            ty,
        })
    }

    /// `struct Pulse = { at : int32; bits : arr[2] bit }`
    fn pulse(alloc: Global) -> Result<StructDef, AllocError> {
        let at = field(alloc, b"at", plain(alloc, Base::Int32))?;
        let bits = field(alloc, b"bits", array(alloc, 2, Base::Bit)?)?;
        Ok(StructDef {
            name: Name::from_slice(alloc, b"Pulse")?,
            fields: Items::from_vec(vec![in alloc; at, bits]?),
        })
    }

    /// `Pulse(-4,{'1,'0})`
    fn one_pulse(alloc: Global) -> Result<Val, AllocError> {
        let bits = vec![in alloc; Val::Bit(true), Val::Bit(false)]?;
        let fields = vec![in alloc; Val::Num(-4), Val::List(Items::from_vec(bits))]?;
        Ok(Val::List(Items::from_vec(fields)))
    }

    #[test]
    fn values_have_values_in_them(rt: HostRuntime) -> Result<(), Fail> {
        let alloc = rt.alloc();
        let structs = vec![in alloc; pulse(alloc)?]?;
        let pulses = vec![in alloc; one_pulse(alloc)?, one_pulse(alloc)?]?;
        let value = Val::List(Items::from_vec(pulses));
        let ty = array(alloc, 2, Base::Struct(0))?;
        let end = Ending::Value(&value, &ty, structs.as_slice());
        let mut notes = MemSink::new(alloc, 200, Vec::new(alloc))?;
        assert_eq!(rt; write_end(&end, 5, 3, 2, &mut notes), Ok(()));
        assert_eq!(rt;
            notes.bytes(),
            b"ended {Pulse(-4,{'1,'0}),Pulse(-4,{'1,'0})}\ntaken 3\nwritten 2\n".as_slice()
        );
        Ok(())
    }

    #[test]
    fn complex_numbers_are_pairs(rt: HostRuntime) -> Result<(), Fail> {
        let alloc = rt.alloc();
        let value = Val::Pair(i32::MIN, 7);
        let ty = plain(alloc, Base::Complex32);
        let mut notes = MemSink::new(alloc, 200, Vec::new(alloc))?;
        let put = write_end(&Ending::Value(&value, &ty, &[]), 5, 3, 2, &mut notes);
        assert_eq!(rt; put, Ok(()));
        assert_eq!(rt;
            notes.bytes(),
            b"ended (-2147483648,7)\ntaken 3\nwritten 2\n".as_slice()
        );
        Ok(())
    }

    #[test]
    fn long_values_go_out_in_pieces(rt: HostRuntime) -> Result<(), Fail> {
        let alloc = rt.alloc();
        let mut elements = Vec::new(alloc);
        for _ in 0..2_000 {
            elements.push(Val::Bool(true))?;
        }
        let value = Val::List(Items::from_vec(elements));
        let ty = array(alloc, 2_000, Base::Bool)?;
        let end = Ending::Value(&value, &ty, &[]);
        let third = vec![in alloc; 3]?;
        let mut notes = MemSink::new(alloc, 20_000, third)?;
        assert_eq!(rt; write_end(&end, 5, 3, 2, &mut notes), Err(Failed));
        assert_eq!(rt; notes.bytes().len(), 8_192);
        assert_eq!(rt; write_end(&end, 5, 3, 2, &mut notes), Ok(()));
        assert_eq!(rt; notes.bytes().len(), 8_192 + 10_026);
        Ok(())
    }
}
