//! The law of the test of form as a value.
ghost use Rattle.std.specs.Prelude.{ℕ, List};
ghost use Rattle.std.specs.Bool.{Decides};
ghost use Rattle.naga_oil_ir.specs.ModuleValue.{module_value};
ghost use Rattle.naga_oil_form.specs.WellFormed.{WellFormed};
ghost use Rattle.naga_oil_ir.specs.declared.module.Module.{Module as ModuleOf};
ghost use Rattle.naga_oil_form.specs.Form.{is_formed};

/// A module passes the test of form exactly if the module is well formed.
pub fn form_is_tested()
    ensures { (m : ModuleOf) (d : List ℕ) (n : ℕ) →
        Decides (is_formed (module_value m) d n) (WellFormed m d n) }
{}
