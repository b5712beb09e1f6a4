//! Shapes of values: which cells are those of a value's parts. Each law holds of all values, whatever the structs.
#![tactic(auto)]

ghost use Rattle.zir_shapes.specs.Laws.{SizesFit, ElementsStand, ElementsEnd, RangesStand, RangesEnd, FieldsStand, ComplexPartsStand};
ghost use Rattle.zir_shapes.specs.Laws.{ListsStand, ArraysHave, StructsHave, BlanksHave};
ghost use Rattle.zir_shapes.specs.Laws.{ElementsReplaced, RangesReplaced, FieldsReplaced, ComplexPartsReplaced};
ghost use Rattle.zir_shapes.specs.Laws.{OverlaidBetween, OverlaidInside};

/// A value has as many cells as its type.
pub fn sizes()
    ensures { SizesFit }
{}

/// Where the cells of an element of an array stand.
pub fn elements()
    ensures stand { ElementsStand }
    ensures end { ElementsEnd }
{}

/// Where the cells of a slice of an array stand.
pub fn ranges()
    ensures stand { RangesStand }
    ensures end { RangesEnd }
{}

/// Where the cells of a field of a struct stand.
pub fn fields()
    ensures { FieldsStand }
{}

/// Where the cells of the parts of a complex number stand.
pub fn complex_parts()
    ensures { ComplexPartsStand }
{}

/// The cells of a list of values are theirs, one after the other.
pub fn lists()
    ensures { ListsStand }
{}

/// Values of one shape are an array.
pub fn arrays()
    ensures { ArraysHave }
{}

/// Values of the shapes of a struct's fields are that struct.
pub fn structs()
    ensures { StructsHave }
{}

/// The value of a variable without an initial value.
pub fn blanks()
    ensures { BlanksHave }
{}

/// An array with another element.
pub fn replaced_elements()
    ensures { ElementsReplaced }
{}

/// An array with another slice.
pub fn replaced_ranges()
    ensures { RangesReplaced }
{}

/// A struct with another field.
pub fn replaced_fields()
    ensures { FieldsReplaced }
{}

/// A complex number with another part.
pub fn replaced_complex_parts()
    ensures { ComplexPartsReplaced }
{}

/// Cells over those between others.
pub fn overlays()
    ensures between { OverlaidBetween }
    ensures inside { OverlaidInside }
{}
