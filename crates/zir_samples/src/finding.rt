//! The first element of bytes.

ghost use Rattle.std.specs.Prelude.{◌≡◌, ◌<◌, [], length};
ghost use Rattle.zir_cells.specs.Layout.{layout_of};
ghost use Rattle.zir_samples.specs.Finding.{elements_from, Finds, IsStreamType};

use crate::bits::find_in_bits;
use crate::text::find_in_text;
use zir_tree::format::Format;
use zir_tree::types::Ty;

/// What stands at the front of bytes.
#[derive(Clone, Copy, Debug, PartialEq, Eq)]
pub enum Found {
    /// A whole element, and how many bits it takes.
    Element(u64),
    /// The beginning of an element, which more bytes decide.
    More,
    /// No whole element before the end of the input.
    End,
    /// What is no element, whatever follows it.
    Malformed,
}

/// Reads the first element of this type from a bit of the first byte on, which is 0 in a text, and puts its cells into
/// `into`. The bytes are all that the input has left where it has `ended`.
pub fn find(format: Format, ty: &Ty, bytes: &[u8], bit: u8, ended: bool, into: &mut [i64]) -> Found
    requires stream { IsStreamType ty.now }
    requires cells { length into.old ≡ layout_of [] ty.now }
    requires within { bit < 8 }
    ensures { Finds format (elements_from format ty.now bytes.now bit ended) result into.new }
{
    match format {
        Format::Binary => find_in_bits(ty.base, bytes, bit, ended, into),
        Format::Text => find_in_text(ty, bytes, ended, into),
    }
}
