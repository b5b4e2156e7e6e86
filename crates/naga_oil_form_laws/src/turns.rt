//! A module stays of good form while functions and items are imported one after another.
ghost use Rattle.naga_oil_form_laws.specs.TurnForm.{SourceFormLaw, ItemLaw, TypeLaw, MadeFormLaw, TargetFormLaw, WholeLaw, HeaderLaw};
ghost use Rattle.naga_oil_form_laws.specs.TurnForm.{InTurnFormLaw, AllInTurnLaw, PassingInTurnLaw, FromNothingLaw, StubsInTurnLaw, NewInTurnLaw, ItemsInTurnLaw};

/// After a module of good form is set as a source, or items that are there are copied, the derived module is still of good form,
/// and knows the same functions. The module that it becomes is of good form.
pub fn what_a_source_has_may_come()
    ensures source { SourceFormLaw }
    ensures item { ItemLaw }
    ensures named { TypeLaw }
    ensures made { MadeFormLaw }
    ensures target { TargetFormLaw }
{}

/// Functions may be imported one after another if their names aren't known by then. All functions of a module of good form may
/// be, as may those that pass a test, with their bodies or as stubs.
pub fn functions_come_in_turn()
    ensures imported { InTurnFormLaw }
    ensures all { AllInTurnLaw }
    ensures passing { PassingInTurnLaw }
    ensures stubs { StubsInTurnLaw }
    ensures from_nothing { FromNothingLaw }
{}

/// Functions may be imported one after another if they are new, and items if they are there.
pub fn what_is_new_comes_in_turn()
    ensures functions { NewInTurnLaw }
    ensures items { ItemsInTurnLaw }
{}

/// A build's whole module and its header are of good form, if the module that they are copied from is.
pub fn builds_are_formed()
    ensures whole { WholeLaw }
    ensures header { HeaderLaw }
{}
