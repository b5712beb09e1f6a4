// Texts that go to a sink in pieces.

ghost use Rattle.std.specs.Prelude.{◌≡◌, [], ◌∷◌, OnErr, OnOk};
ghost use Rattle.zir_outside.specs.Causes.{HasCause};
ghost use Rattle.zir_outside.specs.Sinks.{Grew, GrewPart, Tells};
ghost use Rattle.zir_end_notes.specs.Pieces.{Adds, AddsPart};

use arrayvec::ArrayVec;
use zir_outside::{Failed, Sink};

/// The bytes of a piece.
const PIECE: usize = 4_096;

/// Bytes on their way to a sink, less than a piece of them or a whole one.
pub type Held = ArrayVec<u8, PIECE>;

/// Adds bytes behind those that are held, and puts each piece that is full as soon as a byte is behind it.
pub fn add<N: Sink>(bytes: &[u8], held: &mut Held, notes: &mut N) -> Result<(), Failed>
    ensures ok { OnOk result (Adds (N.stands_for notes.old) (N.stands_for notes.new) held.old.items held.new.items bytes.now) }
    ensures failed { OnErr result (AddsPart (N.stands_for notes.old) (N.stands_for notes.new) held.old.items bytes.now) }
    ensures untold { Tells (N.stands_for notes.new) → Tells (N.stands_for notes.old) }
    ensures cause { HasCause (N.faults notes.old) (N.faults notes.new) result }
{
    for byte in bytes {
        add_byte(*byte, held, notes)?;
    }
    Ok(())
}

/// Adds a byte behind those that are held, which are put before if they are a whole piece.
fn add_byte<N: Sink>(byte: u8, held: &mut Held, notes: &mut N) -> Result<(), Failed>
    ensures ok { OnOk result (Adds (N.stands_for notes.old) (N.stands_for notes.new) held.old.items held.new.items (byte ∷ [])) }
    ensures failed { OnErr result (AddsPart (N.stands_for notes.old) (N.stands_for notes.new) held.old.items (byte ∷ [])) }
    ensures untold { Tells (N.stands_for notes.new) → Tells (N.stands_for notes.old) }
    ensures cause { HasCause (N.faults notes.old) (N.faults notes.new) result }
{
    if held.is_full() {
        put_held(held, notes)?;
    }
    held.push(byte);
    Ok(())
}

/// Puts what is held. Afterwards nothing is held.
pub fn put_held<N: Sink>(held: &mut Held, notes: &mut N) -> Result<(), Failed>
    ensures ok { OnOk result (Grew (N.stands_for notes.old) (N.stands_for notes.new) held.old.items) }
    ensures failed { OnErr result (GrewPart held.old.items (N.stands_for notes.old) (N.stands_for notes.new)) }
    ensures empty { held.new.items ≡ [] }
    ensures untold { Tells (N.stands_for notes.new) → Tells (N.stands_for notes.old) }
    ensures cause { HasCause (N.faults notes.old) (N.faults notes.new) result }
{
    let put = notes.put(held.as_slice());
    held.clear();
    put
}
