//! The intermediate form of a shader, and the test of form of a module.
ghost use Rattle.std.specs.Prelude.{◌≡◌, IfErr, OnOk, Some, None, if◌then◌else◌};
ghost use Rattle.naga_oil_form.specs.Form.{is_formed};
ghost use Rattle.naga_oil_form.specs.FormView.{GivesFormed};
ghost use Rattle.naga_oil_form.specs.WellFormed.{WellFormed};
ghost use Rattle.naga_oil_form.specs.declared.check_form.FormFault.TheVariants.{WrongForm};
ghost use Rattle.naga_oil_ir.specs.ModuleValue.{module_value};

use naga_oil_form::check_form::check_form;
pub use naga_oil_form::{FormFault, FormResult};
pub use naga_oil_ir::{
    Arena, ArraySize, Backend, BackendRefusal, Block, Capabilities, Constant, EntryPoint,
    Expression, ExpressionParts, FIRST_OPERATION_KIND, FIRST_RESULT_KIND, Function,
    FunctionArgument, FunctionResult, GLOBAL_VARIABLE_KIND, GlobalVariable, Handle, ImageLoad,
    ImageQuery, ImageSample, Index, Item, ItemPlace, LAST_EXTERNAL_KIND, LAST_RESULT_KIND,
    LocalVariable, MAX_MODULES, Math, Merge, MeshInfo, Module, NameList, Named, NamedExpressions,
    Names, Operand, Override, ParseFault, PlaceRange, Range, RayQueryFunction, RedirectError,
    SPAN_SHIFT, SampleLevel, ShaderLanguage, Span, SpecialTypes, Statement, StructMember,
    SwitchCase, Token, Type, TypeInner, UniqueArena, ValidFault, WriteFault, arena, backend,
    expression, firsts, handle, kind, language, module, named_expressions, names, parts,
    push_block, redirect_error, room, rounded_room, span, statement, tokens, types,
};
use std::alloc::Global;

/// The test of form, as a call of a module.
pub trait CheckForm {
    /// Tests the form of a module over a text of `text_len` bytes; the names of functions are
    /// compared with `decoration` added.
    ///
    /// # Errors
    /// `WrongForm` if the module isn't well formed, `Memory` if out of memory.
    fn check_form(&self, alloc: Global, decoration: &str, text_len: usize) -> FormResult;
}

impl CheckForm for Module {
    fn check_form(&self, alloc: Global, decoration: &str, text_len: usize) -> FormResult
        ensures ok { OnOk result (WellFormed self.now decoration.now text_len) }
        ensures err { IfErr result (λ e.
            e ≡ WrongForm → WellFormed self.now decoration.now text_len → ⊥) }
        ensures value { let passes = is_formed (module_value self.now) decoration.now text_len in
            GivesFormed (λ done. done) result (if passes then Some tt else None) }
    {
        check_form(self, alloc, decoration, text_len)
    }
}
