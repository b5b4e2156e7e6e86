//! Laws of copies by tree.
ghost use Rattle.naga_oil_copy_laws.specs.ByTreeLaw.{ReflexiveLaw, ComposeLaw, AsCopiedLaw};
ghost use Rattle.naga_oil_copy_laws.specs.CopiedByTree.{AtHandLaw, MadeLaw, CallsLaw, GivenLaw};
ghost use Rattle.naga_oil_copy_laws.specs.EntryByTree.{EntryComposeLaw};
ghost use Rattle.naga_oil_copy_laws.specs.Frame.{AlikeLaw, TargetLaw, SourceLaw, ThereLaw, KeysLaw};
ghost use Rattle.naga_oil_copy_laws.specs.InTurn.{InTurnLaw, InOrderLaw};
ghost use Rattle.naga_oil_copy_laws.specs.ItemsByTree.{SourceItemsLaw, ImportedItemsLaw, RenamedItemsLaw, AnsweredItemsLaw, FunctionItemsLaw, HeldItemsLaw};
ghost use Rattle.naga_oil_copy_laws.specs.SentByTree.{SendLaw, RedirectedLaw, RedirectedEntryLaw};
ghost use Rattle.naga_oil_copy_laws.specs.HeldCopies.{SourceHoldsLaw, ItemsHoldLaw, AnswersHoldLaw, FunctionHoldsLaw, HeldCopiesLaw, LocalizedCopyLaw};

/// A function in the form of copies is a copy of itself, a copy of a copy is a copy, and copies are in the form of copies.
pub fn copies_compose()
    ensures reflexive { ReflexiveLaw }
    ensures compose { ComposeLaw }
    ensures as_copied { AsCopiedLaw }
{}

/// A derived module's copy of a function of its source is a copy by tree, if everything that the function names is at hand: that
/// is what the function requests.
pub fn copies_of_a_source()
    ensures at_hand { AtHandLaw }
    ensures made { MadeLaw }
{}

/// A derived module holds copies of functions over the handles of its source: none after the source is set, no more after items
/// are copied, and more after requests are answered and functions are imported.
pub fn copies_are_held()
    ensures source { SourceHoldsLaw }
    ensures items { ItemsHoldLaw }
    ensures answers { AnswersHoldLaw }
    ensures function { FunctionHoldsLaw }
{}

/// The functions that a derived module holds or localizes are copies by tree of their sources.
pub fn held_copies()
    ensures held { HeldCopiesLaw }
    ensures localized { LocalizedCopyLaw }
{}

/// A copy stays a copy while its module gets more, as everything that the copy names is there. The source keeps reading as it was
/// copied, if its special types are kept.
pub fn copies_stay()
    ensures alike { AlikeLaw }
    ensures target { TargetLaw }
    ensures source { SourceLaw }
    ensures there { ThereLaw }
    ensures keys { KeysLaw }
{}

/// A function whose calls are redirected is a copy, except that one name stands for another. Each function of a redirected module
/// is such a copy of the one at its place, and so is each entry point's function.
pub fn sent_calls_are_copies()
    ensures function { SendLaw }
    ensures redirected { RedirectedLaw }
    ensures entry_point { RedirectedEntryLaw }
{}

/// After the functions of a module are sorted, each is a copy of one of them, and each entry point's function is a copy too.
pub fn ordered_functions_are_copies()
    ensures in_turn { InTurnLaw }
    ensures in_order { InOrderLaw }
{}

/// An item of the source maps to each item that a derived module gets, and reads like it.
pub fn items_of_sources()
    ensures source { SourceItemsLaw }
    ensures item { ImportedItemsLaw }
    ensures named { RenamedItemsLaw }
    ensures answers { AnsweredItemsLaw }
    ensures function { FunctionItemsLaw }
    ensures held { HeldItemsLaw }
{}

/// A function in which only results name functions calls what it names, if it calls the functions whose results it takes; its
/// copies do too.
pub fn functions_call_what_they_name()
    ensures given { GivenLaw }
    ensures copies { CallsLaw }
{}

/// A copy of a copy of an entry point is a copy.
pub fn copies_of_entry_points_compose()
    ensures { EntryComposeLaw }
{}
