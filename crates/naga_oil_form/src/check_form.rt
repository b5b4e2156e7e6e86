//! The test of form of a whole module.
ghost use Rattle.std.specs.Prelude.{◌≡◌, IfErr, OnOk, Some, None, if◌then◌else◌};
ghost use Rattle.naga_oil_ir.specs.ModuleValue.{module_value};
ghost use Rattle.naga_oil_form.specs.Form.{is_formed};
ghost use Rattle.naga_oil_form.specs.FormView.{GivesFormed};
ghost use Rattle.naga_oil_form.specs.WellFormed.{WellFormed};
ghost use Rattle.naga_oil_form.specs.declared.check_form.FormFault.TheVariants.{WrongForm};

use super::form_function::entries_are_fine;
use super::form_items::{items_are_fine, spans_are_fine};
use super::form_names::{entries_are_distinct, functions_are_fine};
use naga_oil_ir::Module;
use std::alloc::{AllocError, Global};

/// Why `check_form` refuses a module.
#[derive(Clone, Copy, Debug, PartialEq, Eq)]
pub enum FormFault {
    /// The module doesn't pass the test of form.
    WrongForm,
    /// Out of memory.
    Memory,
}

/// A value, or why the test of form has none.
pub type FormResult<T = ()> = Result<T, FormFault>;

impl From<AllocError> for FormFault {
    ghost use Rattle.std.specs.Prelude.{◌≡◌};
    ghost use Rattle.naga_oil_form.specs.declared.check_form.FormFault.TheVariants.{Memory};

    ghost from_gives = { λ _ e. e ≡ Memory };

    fn from(_error: AllocError) -> FormFault {
        FormFault::Memory
    }
}

// Tests each clause of the form of a module.
fn test_form(of: &Module, alloc: Global, decoration: &str, text_len: usize) -> Result<(), FormFault>
    ensures ok { OnOk result (WellFormed of.now decoration.now text_len) }
    ensures err { IfErr result (λ e.
        e ≡ WrongForm → WellFormed of.now decoration.now text_len → ⊥) }
{
    let items = items_are_fine(of, alloc)?;
    let functions = functions_are_fine(of, decoration, text_len, alloc)?;
    let names = entries_are_distinct(&of.entry_points, decoration, alloc)?;
    let entries = entries_are_fine(of, text_len, alloc)?;
    if items & functions & names & entries & spans_are_fine(of, text_len) {
        return Ok(());
    }
    Err(FormFault::WrongForm)
}

/// Tests the form of a module over a text of `text_len` bytes; the names of functions are compared with `decoration` added.
///
/// # Errors
/// `WrongForm` if the module isn't well formed, `Memory` if out of memory.
pub fn check_form(
    of: &Module,
    alloc: Global,
    decoration: &str,
    text_len: usize,
) -> Result<(), FormFault>
    ensures ok { OnOk result (WellFormed of.now decoration.now text_len) }
    ensures err { IfErr result (λ e.
        e ≡ WrongForm → WellFormed of.now decoration.now text_len → ⊥) }
    ensures value { let passes = is_formed (module_value of.now) decoration.now text_len in
        GivesFormed (λ done. done) result (if passes then Some tt else None) }
{
    test_form(of, alloc, decoration, text_len)
}
