// What holds of every copy.
ghost use Rattle.naga_oil_derive.specs.World.{value_of};
ghost use Rattle.naga_oil_derive.specs.Copyable.{CopyableItems};
ghost use Rattle.std.specs.Prelude.{◌≡◌, ◌↔◌, IsTrue};
ghost use Rattle.naga_oil_ir.specs.Parts.{Parts};
ghost use Rattle.naga_oil_ir.specs.Rows.{Row};
ghost use Rattle.naga_oil_derive.specs.Equal.{row_eq, parts_eq};
ghost use Rattle.naga_oil_derive.specs.CopiedLaw.{AreSpecial, CopyableLaw, KindLaw, PutLaw, TypePutLaw, CopiedLaw, AllCopiedLaw, AgainLaw, TypeCopiedLaw, TypeAgainLaw};
ghost use Rattle.naga_oil_derive.specs.DerivedLaw.{IsDerivation, kept_by, NothingLaw, ClearedLaw, PlacedLaw, ImportLaw, RenameLaw, SetLaw};
ghost use Rattle.naga_oil_derive.specs.AnsweredLaw.{HaveCopies, AnswerLaw, CallLaw, FunctionLaw, AddingLaw, LocalizedLaw};

use super::*;

/// The tests of equality of rows, and of the parts of expressions, hold exactly if both are equal.
pub fn equal_items()
    ensures rows { (a b : Row) → IsTrue (row_eq a b) ↔ (a ≡ b) }
    ensures parts { (a b : Parts) → IsTrue (parts_eq a b) ↔ (a ≡ b) }
{}

/// In a module's value each item stands in the arena of its kind. If items can be copied, each names items that are there and
/// have a lower rank.
pub fn copyable_values()
    ensures kinds { KindLaw }
    ensures items { CopyableLaw }
{}

/// The special types of a module are there; no two have the same key.
pub fn are_special(source: &Module)
    requires { CopyableItems source.now }
    ensures { AreSpecial (value_of source.now) }
{
    // a map whose keys are read has none twice
    let _keys = source.special_types.predeclared_types.iter();
}

/// Copying an item, after what it names is mapped, makes one copy.
pub fn one_copy()
    ensures item { PutLaw }
    ensures named { TypePutLaw }
{}

/// An item is copied once, after what it names: the module gets the first occurrences of the items that it reaches, and the
/// copy reads as the item to every depth.
pub fn copies_with_names()
    ensures item { CopiedLaw }
    ensures all { AllCopiedLaw }
    ensures again { AgainLaw }
{}

/// A type that is copied under a name reads with that name from then on.
pub fn copies_under_a_name()
    ensures named { TypeCopiedLaw }
    ensures again { TypeAgainLaw }
{}

/// Each derived module is a derivation, by the special types that it has now; `copy_function` of a function of its source is a
/// copy of that function.
pub fn is_derivation(derived: &DerivedModule<'_>)
    ensures derivation { IsDerivation (kept_by derived.now) derived.now }
    ensures copies { HaveCopies derived.now }
{
    // what holds of a value is known where it is read
    let _source = derived.shader;
}

/// The empty module is a derivation, and a derivation without its source is one. In a derivation each mapped item reads as its
/// source.
pub fn derivations()
    ensures nothing { NothingLaw }
    ensures cleared { ClearedLaw }
    ensures placed { PlacedLaw }
{}

/// After an item of the source is imported, or a type under a name, the module is still a derivation.
pub fn derivations_with_items()
    ensures import { ImportLaw }
    ensures rename { RenameLaw }
{}

/// After a module whose items can be copied is set as the source, each of its special types maps to the target's special type
/// of one of its keys.
pub fn derivations_with_a_source()
    ensures { SetLaw }
{}

/// After requests are answered, and functions imported after what they name, the module is still a derivation.
pub fn derivations_with_functions()
    ensures answers { AnswerLaw }
    ensures call { CallLaw }
    ensures function { FunctionLaw }
    ensures adding { AddingLaw }
    ensures localized { LocalizedLaw }
{}
