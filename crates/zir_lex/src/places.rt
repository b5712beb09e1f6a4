// Places in a text.

ghost use Rattle.std.specs.Prelude.{◌≡◌, ◌+◌, ◌<◌, ◌≤◌, ◌^◌, length};
ghost use Rattle.zir_lex.specs.Places.{place_past, place_of};

use zir_tree::place::Place;

/// The place of the byte at the offset `at`: line and column from 1, columns in bytes. A newline
/// is the last byte of its line. Past the end of the text it is the place after the last byte.
pub fn place_at(text: &[u8], at: u32) -> Place
    requires { at < u32.MAX }
    ensures { result ≡ place_of text.now at }
{
    let end = text.len().min(at as usize);
    place_past(Place { line: 1, col: 1 }, &text[..end])
}

/// The place after these bytes.
pub fn place_past(start: Place, bytes: &[u8]) -> Place
    requires lines { start.line + length bytes.now < 2 ^ 32 }
    requires columns { start.col + length bytes.now < 2 ^ 32 }
    ensures place { result ≡ place_past start bytes.now }
    ensures line { result.line ≤ start.line + length bytes.now }
    ensures column { result.col ≤ start.col + length bytes.now }
{
    let mut place = start;
    for byte in bytes {
        place = if *byte == b'\n' {
            Place {
                line: place.line + 1,
                col: 1,
            }
        } else {
            Place {
                line: place.line,
                col: place.col + 1,
            }
        };
    }
    place
}
