//! What a build holds of the module that its whole text is parsed to.
ghost use Rattle.std.specs.Prelude.{◌≡◌, ◌<◌, IfOk, length, string_bytes};
ghost use Rattle.naga_oil_ir.specs.ModuleValue.{module_value};
ghost use Rattle.naga_oil_form.specs.WellFormed.{WellFormed};
ghost use Rattle.naga_oil_form_laws.specs.EntryForm.{IsModuleFormed};
ghost use Rattle.naga_oil_conditions.specs.View.{Gives};
ghost use Rattle.naga_oil_link.specs.BuiltModule.{built_of};
ghost use Rattle.naga_oil_link.specs.OwnPlaces.{own_of};
ghost use Rattle.naga_oil_build.specs.Held.{parse_whole, copy_tested, hold};
ghost use Rattle.naga_oil_build.specs.BuildView.{settings_in};
ghost use Rattle.naga_oil_build.specs.HeldView.{FormedAs};
ghost use Rattle.naga_oil_ir.specs.Spans.{span_stride};

use super::*;
use naga_oil_form::check_form::check_form;
use naga_oil_form_laws::shape::modules_pass_the_test_of_shape;
use naga_oil_link::copied::copy_build;
use naga_oil_link::items::own;

// A result of the test of form, where a wrong form is an error of the composer.
fn or_wrong_form<T>(answer: FormResult<T>) -> InnerResult<T>
    ensures { FormedAs answer result }
{
    match answer {
        Ok(value) => Ok(value),
        Err(FormFault::WrongForm) => Err(Inner::WrongForm),
        Err(FormFault::Memory) => Err(Inner::Memory),
    }
}

impl<B: Backend> Builder<'_, B> {
    // The module that a whole text is parsed to, which must be of good form under a decoration. That its
    // plain data has the shape of modules is a law.
    fn parse_whole(
        &self,
        language: ShaderLanguage,
        text: &str,
        decoration: &str,
    ) -> InnerResult<Module>
        ensures form { IfOk result (λ m. WellFormed m decoration.now (length text.now)) }
        ensures fits { IfOk result (λ m. length text.now < span_stride) }
        ensures value { let read = parse_whole (settings_in B.front self.now).front in
            Gives module_value result (read language text.now decoration.now) }
    {
        if text.len() >= 1 << SPAN_SHIFT {
            return Err(Inner::TextTooLarge);
        }
        let source = self.parsed(text, language)?;
        modules_pass_the_test_of_shape(&source);
        or_wrong_form(check_form(&source, self.alloc, decoration, text.len()))?;
        Ok(source)
    }

    // Copies a module into a build. When validating, the names of a module without special types
    // must survive the round trip.
    fn copy_tested(
        &self,
        source: &Module,
        own: &OwnItems,
        built: &mut Build,
        functions: usize,
    ) -> InnerResult
        requires { IsModuleFormed (module_value source.now) }
        ensures { let s = settings_in B.front self.now in
            let m = module_value source.now in
            let copied = copy_tested s m (own_of own.now) (built_of built.old) functions in
            Gives (λ done. built_of built.new) result copied }
    {
        let special = copy_build(self.alloc, source, own, built)?;
        if (index_of(built) > 0) & self.settings.validate & !special {
            return self.came_back(source, own, built, functions);
        }
        Ok(())
    }

    // Parses a whole text, whose module must be of good form, and puts copies of the module into
    // the build.
    pub(crate) fn hold(
        &self,
        language: ShaderLanguage,
        text: &str,
        built: &mut Build,
    ) -> InnerResult
        ensures { let s = settings_in B.front self.now in
            let whole = hold s language text.now (built_of built.old) in
            Gives (λ done. built_of built.new) result whole }
    {
        let mut source = self.parse_whole(language, text, built.decorated_name.as_str())?;
        note_functions(built, source.functions.len());
        let (own, functions) = own(self.alloc, &mut source, built)?;
        self.copy_tested(&source, &own, built, functions)
    }
}
