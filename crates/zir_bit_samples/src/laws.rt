//! Laws on what bits spell, for callers' proofs. The functions do nothing.

ghost use Rattle.zir_bit_samples.specs.Laws.{SpellsBytes, SpellsFront};

/// The bits of bytes spell the bytes again, and what follows them spells what it spells alone.
pub fn spells_bytes()
    ensures { SpellsBytes }
{}

/// What a front part of bits spells without padding is a front part of what all of them spell.
pub fn spells_front()
    ensures { SpellsFront }
{}
