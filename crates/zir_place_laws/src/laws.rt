// What holds of programs whatever their places are.

ghost use Rattle.zir_place_laws.specs.Laws.{PlacesAlone, SameText, ShowsAgain};

/// Tokens that differ in their places alone spell programs that differ in their places alone, at the same height.
pub fn places_alone()
    ensures { PlacesAlone }
{}

/// Programs that differ in their places alone have the same canonical text.
pub fn same_text()
    ensures { SameText }
{}

/// Where some text spells a program, its canonical text spells that program up to places, no higher; and its canonical text is that text.
pub fn shows_again()
    ensures { ShowsAgain }
{}
