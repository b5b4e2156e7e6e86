//! Items that are copied into a derived module stay formed.
ghost use Rattle.naga_oil_form_laws.specs.DerivedForm.{NothingItemsLaw, ClearedItemsLaw, ImportItemsLaw, RenameItemsLaw, SetItemsLaw};
ghost use Rattle.naga_oil_form_laws.specs.ItemsStand.{CopyableItemsLaw};

/// Items that pass the test of form can be copied.
pub fn formed_items_can_be_copied()
    ensures { CopyableItemsLaw }
{}

/// The items of a derived module pass the test of form if those of its sources do: in the empty module, without a source, and
/// after an item is imported, a type is imported under a name, or a source is set.
pub fn items_stay_formed()
    ensures nothing { NothingItemsLaw }
    ensures cleared { ClearedItemsLaw }
    ensures import { ImportItemsLaw }
    ensures rename { RenameItemsLaw }
    ensures set { SetItemsLaw }
{}
