// What writing knows of a function.
ghost use Rattle.std.specs.Prelude.{◌≡◌, option_map};
ghost use Rattle.naga_oil_ir.specs.ModuleValue.{function_value};
ghost use Rattle.naga_oil_ir.specs.Parts.{parts};
ghost use Rattle.yettuvam_wgsl_write_bodies.specs.Setting as spec;
ghost use Rattle.yettuvam_wgsl_write_bodies.specs.Setting.{setting_of};
ghost use Rattle.yettuvam_wgsl_write_expressions.specs.Context.{scope_of};

use naga_oil_ir::{Expression, Function, Index, LocalVariable, Operand, Span};
use yettuvam_wgsl_local_names::LocalNames;
use yettuvam_wgsl_uses::Uses;
use yettuvam_wgsl_write_expressions::context::{Context, Own, Scope};
use yettuvam_wgsl_write_expressions::shapes::Shape;
use yettuvam_wgsl_written_names::name_at;

/// What writing knows of a function.
#[derive(Clone, Copy)]
pub struct Setting<'a, 'm> {
    pub context: &'a Context<'m>,
    pub of: &'m Function,
    pub names: &'m LocalNames,
    pub uses: &'a Uses,
    /// The types of the values of its expressions.
    pub shapes: &'a [Shape],
}

impl<'a, 'm> Setting<'a, 'm> {
    /// Returns where an expression with a span stands.
    #[tactic(auto, using(crate::proofs::Types::same_types))]
    pub fn scope(&self, span: Span) -> Scope<'a, 'm>
        ensures { scope_of result ≡ spec.scope (setting_of self.now) span }
    {
        Scope {
            context: self.context,
            own: Own {
                arguments: &self.names.arguments,
                locals: &self.names.locals,
            },
            arguments: &self.of.arguments,
            shapes: self.shapes,
            span,
        }
    }

    /// Returns the name of the expression at a place, if the text declares it.
    pub fn value_name(&self, place: usize) -> Option<&'m str>
        ensures { option_map (λ n. n.now) result ≡ spec.value_name (setting_of self.now) place }
    {
        name_at(&self.names.values, place)
    }

    /// Returns the name of a local variable.
    pub fn local_name(&self, local: usize) -> Option<&'m str>
        ensures { option_map (λ n. n.now) result ≡ spec.local_name (setting_of self.now) local }
    {
        name_at(&self.names.locals, local)
    }

    /// Returns the name of a function of the module.
    pub fn function_name(&self, function: usize) -> Option<&'m str>
        ensures { option_map (λ n. n.now) result ≡ spec.function_name (setting_of self.now) function }
    {
        name_at(&self.context.names.functions, function)
    }
}

/// Returns the expression at a place.
pub fn expression_at(of: &Function, place: Operand) -> Option<&Expression>
    ensures { option_map (λ e. parts e.now) result ≡ spec.expression_at (function_value of.now) place }
{
    of.expressions.try_get(place)
}

/// Returns the type of a local variable.
pub fn local_type(of: &Function, local: usize) -> usize
    ensures { result ≡ spec.local_type (function_value of.now) local }
{
    let local: Option<&LocalVariable> = of.local_variables.try_get(Index::new(local));
    match local {
        Some(local) => local.ty.index(),
        None => 0,
    }
}
