// Texts that go to a sink in pieces.

ghost use Rattle.std.specs.Prelude.{◌++◌, OnErr, OnOk};
ghost use Rattle.zir_outside.specs.Causes.{HasCause};
ghost use Rattle.zir_outside.specs.Sinks.{Grew, GrewPart, Tells};

use zir_outside::{Failed, Sink};

/// The bytes of a whole piece.
const PIECE: usize = 4_096;

/// Puts a text in pieces of 4,096 bytes, the last of which may be shorter. After `Failed` a front part of the text may have
/// been put.
pub fn put_in_pieces<N: Sink>(text: &[u8], sink: &mut N) -> Result<(), Failed>
    ensures ok { OnOk result (Grew (N.stands_for sink.old) (N.stands_for sink.new) text.now) }
    ensures failed { OnErr result (GrewPart text.now (N.stands_for sink.old) (N.stands_for sink.new)) }
    ensures untold { Tells (N.stands_for sink.new) → Tells (N.stands_for sink.old) }
    ensures cause { HasCause (N.faults sink.old) (N.faults sink.new) result }
{
    let mut rest = text;
    while rest.len() > PIECE {
        let (piece, after) = rest.split_at(PIECE);
        sink.put(piece)?;
        rest = after;
    }
    put_some(rest, sink)
}

/// Puts a piece that may be empty: then nothing is put.
pub fn put_some<N: Sink>(piece: &[u8], sink: &mut N) -> Result<(), Failed>
    ensures ok { OnOk result (Grew (N.stands_for sink.old) (N.stands_for sink.new) piece.now) }
    ensures failed { OnErr result (GrewPart piece.now (N.stands_for sink.old) (N.stands_for sink.new)) }
    ensures untold { Tells (N.stands_for sink.new) → Tells (N.stands_for sink.old) }
    ensures cause { HasCause (N.faults sink.old) (N.faults sink.new) result }
{
    if piece.is_empty() {
        return Ok(());
    }
    sink.put(piece)
}

/// Puts two pieces, one behind the other.
pub fn put_two<N: Sink>(first: &[u8], second: &[u8], sink: &mut N) -> Result<(), Failed>
    ensures ok { OnOk result (Grew (N.stands_for sink.old) (N.stands_for sink.new) (first.now ++ second.now)) }
    ensures failed { OnErr result (GrewPart (first.now ++ second.now) (N.stands_for sink.old) (N.stands_for sink.new)) }
    ensures untold { Tells (N.stands_for sink.new) → Tells (N.stands_for sink.old) }
    ensures cause { HasCause (N.faults sink.old) (N.faults sink.new) result }
{
    put_some(first, sink)?;
    put_some(second, sink)
}
