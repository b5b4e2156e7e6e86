//! What all layers share: the marks in the names of modules' items, and which names get a decoration; results that may
//! run out of memory. Its definitions are shared too: names of bytes, lists and sets of texts, steps of `do`.
//!
//! In the composed shader, a module's item is named `item` `X_naga_oil_mod_X` `CODE` `X`; a function that overrides the
//! item has `X_naga_oil_vrt_X` in place of `X_naga_oil_mod_X`. The part after the item is the decoration. A module's own
//! names get the decoration; names that already have the mark belong to other modules.
//!
//! Every function takes time linear in the name.
#![tactic(auto)]

ghost use Rattle.std.specs.Prelude.{◌≡◌, not, IfOk, OnOk, OnErr, string_bytes};
ghost use Rattle.naga_oil_words.specs.Marks.{has_module_mark, with_decoration};

use std::alloc::AllocError;
use std::collections::BTreeSet;

/// A value, or out of memory.
pub type AllocResult<T = ()> = Result<T, AllocError>;

/// A set of names, in byte order.
pub type NameSet = BTreeSet<String>;

/// The mark between an item and the code of its module.
pub const DECORATION_PRE: &str = "X_naga_oil_mod_X";

/// The mark after the code of a module.
pub const DECORATION_POST: &str = "X";

/// The mark in place of `DECORATION_PRE` in the name of a function that overrides the item. Both
/// marks have one length, so that positions stay the same.
pub const DECORATION_OVERRIDE_PRE: &str = "X_naga_oil_vrt_X";

/// Whether a name has the mark of a module.
pub fn has_module_mark(name: &str) -> bool
    ensures { result ≡ has_module_mark name.now }
{
    name.contains(DECORATION_PRE)
}

/// Appends the decoration to a name, unless the name has the mark of a module. Returns whether the
/// decoration was appended.
pub fn add_decoration(name: &mut String, decoration: &str) -> Result<bool, AllocError>
    ensures name { let decorated = with_decoration decoration.now (string_bytes name.old) in
        OnOk result (string_bytes name.new ≡ decorated) }
    ensures reported { IfOk result (λ got. got ≡ not (has_module_mark (string_bytes name.old))) }
    ensures refused { OnErr result (string_bytes name.new ≡ string_bytes name.old) }
{
    if has_module_mark(name.as_str()) {
        return Ok(false);
    }
    name.push_str(decoration)?;
    Ok(true)
}
