//! Makes one shader out of a text and the registered modules that it imports: the modules are built,
//! each over the modules that it imports itself, and then the shader over all.
ghost use Rattle.std.specs.Prelude.{◌≡◌, ◌≤◌, ◌==◌, ◌+◌, [], drop, find, map, option_map, slice_get, string_bytes, IfOk, Some, Ok, Err, OnErr};
ghost use Rattle.std.specs.Arc.{arc_value};
ghost use Rattle.naga_oil_ir.specs.Backend.{labels, valid_fault};
ghost use Rattle.naga_oil_ir.specs.ModuleValue.{ModuleValue, module_value};
ghost use Rattle.naga_oil_imports.specs.Uses.{use_of};
ghost use Rattle.naga_oil_pre.specs.KnownView.{output_of};
ghost use Rattle.naga_oil_conditions.specs.View.{Gives};
ghost use Rattle.naga_oil_registry.specs.Registered.{definition_of, defs_of};
ghost use Rattle.naga_oil_registry.specs.Descriptor.{shader_source};
ghost use Rattle.naga_oil_registry.specs.Merged.{overwritten};
ghost use Rattle.naga_oil_registry.specs.Registry.{IsRegistry};
ghost use Rattle.naga_oil_link.specs.BuiltModule.{built_of, builds_of};
ghost use Rattle.naga_oil_link.specs.Linked.{link_whole};
ghost use Rattle.naga_oil_build.specs.Build.{build};
ghost use Rattle.naga_oil_build.specs.Built.{preprocessed_of};
ghost use Rattle.naga_oil.specs.Answer.{of_shader, refusal, read_and_build_first, read_and_build_second, module_of_text, reach_uses};
ghost use Rattle.naga_oil.specs.Chain.{chain, with_stages};
ghost use Rattle.naga_oil.specs.Finish.{built_in_text, compose, finish};
ghost use Rattle.naga_oil.specs.MakeDefs.{defs_merged, defs_of_text};
ghost use Rattle.naga_oil.specs.MakeView.{settings_by, defs_in, builds_in, kept_in, modules_in, rule_of, unreached_of, BuildsMore, IsReady, KeepsBuild, KeepsMore, KeepsUnder, PlacesAs, Reaches, RefusesBy, Replies, TellsUnreached};
ghost use Rattle.naga_oil.specs.Reach.{defined, enter_build, preprocess_module, reach, reach_each, reach_module, unless_built};
ghost use Rattle.naga_oil.specs.Refused.{Answers, Tells, in_text, placed, refused_of};
ghost use Rattle.naga_oil.specs.Store.{key_under, kept_under};
ghost use Rattle.naga_oil.specs.StoreLaw.{IsStore};
ghost use Rattle.naga_oil.specs.StoreView.{key_of};
ghost use Rattle.naga_oil.specs.Validate.{last_index, invalid_shader, validate};
ghost use Rattle.naga_oil_ir.specs.Spans.{max_modules};

use super::chain::{chain, set_stages};
use super::error::{memory, refused, refused_in};
use super::reach::{Rule, Unreached, enter};
use super::shader::{may_use, merge, read_shader};
use super::store::{Key, Store, keep, kept_build, project};
use super::*;
use naga_oil_build::builder::answered;
use naga_oil_link::link::link_whole;
use naga_oil_link::reads::{index_of, offset_of};
use naga_oil_registry::merge::overwrite;
use naga_oil_registry::registry::Registry;

/// A make: the builder with the builds so far, the definitions that it builds under, the registry,
/// and the builds that are kept between makes.
#[derive(Drop)]
pub(crate) struct Maker<'c, B: Backend> {
    pub(crate) builder: Builder<'c, B>,
    pub(crate) defs: Defs,
    pub(crate) modules: &'c Registry,
    pub(crate) store: Store,
}

// Modules are reached recursively, as deep as modules import one another: at most 2,047 levels.
// What a level does apart from its imports isn't inlined, so that a level takes little of the
// stack.
impl<B: Backend> Maker<'_, B> {
    // Preprocesses a module.
    #[inline(never)]
    fn preprocess(&self, of: &Registered) -> Result<PreprocessOutput, Unreached>
        ensures { let d = definition_of of.now in
            let defs = defs_in self.now in
            let done = preprocess_module defs d (preprocessed_of (defined defs) d) in
            Reaches output_of result self.now (done (builds_in self.now)) }
    {
        match self.builder.preprocessed(of, &self.defs) {
            Ok(output) => Ok(output),
            Err(inner) => {
                let unbuilt = Unbuilt { inner, offset: 0 };
                Err(Unreached::unbuilt(self.builder.alloc, of.name.as_str(), unbuilt))
            }
        }
    }

    // Builds a module over the builds that it imports, keeps the build under a key, and enters it.
    #[inline(never)]
    fn enter_build(
        &mut self,
        of: &Registered,
        output: &PreprocessOutput,
        key: Key,
    ) -> Result<(), Unreached>
        requires { of.now.module_index ≤ max_modules }
        ensures entered { let s = settings_by B.front self.old in
            let d = definition_of of.now in
            let built = build s d (output_of output.now) (builds_in self.old) in
            Reaches (λ done. done) result self.new (enter_build d.name built (builds_in self.old)) }
        ensures kept { let s = settings_by B.front self.old in
            let d = definition_of of.now in
            let built = build s d (output_of output.now) (builds_in self.old) in
            KeepsBuild result (key_of key) built (kept_in self.old) (kept_in self.new) }
        ensures refused { OnErr result (builds_in self.new ≡ builds_in self.old) }
        ensures rest { BuildsMore self.old self.new }
    {
        let (alloc, name) = (self.builder.alloc, of.name.as_str());
        let built = match self.builder.build(of, output) {
            Ok(built) => built,
            Err(unbuilt) => return Err(Unreached::unbuilt(alloc, name, unbuilt)),
        };
        let built = Arc::new(alloc, built)?;
        keep(&mut self.store, key, built.clone()?)?;
        Ok(enter(alloc, &mut self.builder.builds, name, built)?)
    }

    // Why an import isn't allowed by a rule, or `None` if it is.
    #[inline(never)]
    fn refuse(&self, rule: Rule<'_>, import: &Use) -> Option<Unreached>
        ensures { let allowed = rule_of (modules_in self.now) (defs_in self.now) rule.entry in
            RefusesBy allowed (use_of import.now) result }
    {
        let name = import.definition().import.as_str();
        let (allowed, offset) = match rule {
            Rule::Any => (true, 0),
            Rule::Recorded(of) => (of.may_import(name), 0),
            Rule::Merged => (may_use(import, self.modules, &self.defs), import.offset()),
        };
        if allowed {
            return None;
        }
        Some(Unreached::missing(self.builder.alloc, name, offset))
    }

    /// Reaches imported modules in order, if a rule allows them. They are looked up among the
    /// modules from a place of the registry on.
    #[cycle(ensure)]
    pub(crate) fn ensure_each(
        &mut self,
        rule: Rule<'_>,
        uses: &[Use],
        from: usize,
    ) -> Result<(), Unreached>
        requires { IsReady B.front self.old from }
        ensures reached { let s = settings_by B.front self.old in
            let ds = modules_in self.old in
            let defs = defs_in self.old in
            let reaching = unless_built (reach s defs (drop from ds)) in
            let each = reach_each (rule_of ds defs rule.entry) reaching (map use_of uses.now) in
            Reaches (λ done. done) result self.new (each (builds_in self.old)) }
        ensures keeps { KeepsMore B.front unreached_of result self.old self.new }
        ensures rest { BuildsMore self.old self.new }
    {
        for import in uses {
            if let Some(why) = self.refuse(rule, import) {
                return Err(why);
            }
            self.ensure(import.definition().import.as_str(), from)?;
        }
        Ok(())
    }

    // Reaches what a kept build imports, and enters the build. Only what isn't kept is built.
    #[cycle(ensure)]
    fn ensure_kept(
        &mut self,
        of: &Registered,
        place: usize,
        kept: Arc<Build>,
    ) -> Result<(), Unreached>
        requires ready { IsReady B.front self.old (place + 1) }
        requires at { slice_get (modules_in self.old) place ≡ Some (definition_of of.now) }
        requires found { let key = key_under (definition_of of.now) (defs_in self.old) in
            kept_under (kept_in self.old) key ≡ Some (built_of (arc_value kept)) }
        ensures reached { let s = settings_by B.front self.old in
            let defs = defs_in self.old in
            let reaching = unless_built (reach s defs (drop (place + 1) (modules_in self.old))) in
            let done = reach_module s defs (definition_of of.now) reaching in
            Reaches (λ done. done) result self.new (done (builds_in self.old)) }
        ensures keeps { KeepsMore B.front unreached_of result self.old self.new }
        ensures rest { BuildsMore self.old self.new }
    {
        let imports = kept.imports.as_slice();
        for import in imports {
            self.ensure(import.import.as_str(), place + 1)?;
        }
        let (alloc, name) = (self.builder.alloc, of.name.as_str());
        Ok(enter(alloc, &mut self.builder.builds, name, kept)?)
    }

    // Builds a module, after the modules that it imports, which have to be recorded of its text or
    // listed in addition to it.
    #[cycle(ensure)]
    fn ensure_built(&mut self, of: &Registered, place: usize, key: Key) -> Result<(), Unreached>
        requires ready { IsReady B.front self.old (place + 1) }
        requires at { slice_get (modules_in self.old) place ≡ Some (definition_of of.now) }
        requires key { key_of key ≡ key_under (definition_of of.now) (defs_in self.old) }
        ensures reached { let s = settings_by B.front self.old in
            let defs = defs_in self.old in
            let reaching = unless_built (reach s defs (drop (place + 1) (modules_in self.old))) in
            let done = reach_module s defs (definition_of of.now) reaching in
            Reaches (λ done. done) result self.new (done (builds_in self.old)) }
        ensures keeps { KeepsMore B.front unreached_of result self.old self.new }
        ensures rest { BuildsMore self.old self.new }
    {
        let output = self.preprocess(of)?;
        self.ensure_each(Rule::Recorded(of), &output.imports, place + 1)?;
        self.enter_build(of, &output, key)
    }

    // Reaches a module, which is looked up from a place of the registry on: unless it was built in
    // this make, or its build is kept, it is built, after the modules that it imports.
    #[cycle(ensure)]
    fn ensure(&mut self, name: &str, from: usize) -> Result<(), Unreached>
        requires { IsReady B.front self.old from }
        ensures reached { let ds = modules_in self.old in
            let reaching = reach (settings_by B.front self.old) (defs_in self.old) (drop from ds) in
            let done = unless_built reaching name.now in
            Reaches (λ done. done) result self.new (done (builds_in self.old)) }
        ensures keeps { KeepsMore B.front unreached_of result self.old self.new }
        ensures rest { BuildsMore self.old self.new }
    {
        if self.builder.builds.contains_key(name) {
            return Ok(());
        }
        let modules = self.modules;
        let Some((place, of)) = modules.following(name, from) else {
            return Err(Unreached::missing(self.builder.alloc, name, 0));
        };
        let key = project(self.builder.alloc, of, &self.defs)?;
        match kept_build(&self.store, &key)? {
            Some(kept) => self.ensure_kept(of, place, kept),
            None => self.ensure_built(of, place, key),
        }
    }
}

// The index of the module that the last span of a fault lies in; 0 is the shader's.
fn last_index(fault: &ValidFault) -> usize
    ensures { result ≡ last_index (labels fault.now.spans.items) }
{
    let range = fault.spans.last().and_then(|(span, _)| span.to_range());
    range.map_or(0, |range| range.start / (1 << SPAN_SHIFT))
}

// The build of the module with an index, and its name.
fn build_at(builds: &Builds, index: usize) -> Option<(&str, &Build)>
    ensures { let found = find (λ b. b.1.index == index) (builds_of builds.now) in
        option_map (λ b. (b.0.now, built_of b.1.now)) result ≡ found }
{
    for (name, build) in builds.iter() {
        if index_of(build) == index {
            return Some((name.as_str(), build));
        }
    }
    None
}

// The answer, with the offset of the text as the place of an error.
fn in_text<T>(
    alloc: Global,
    path: &str,
    text: &str,
    offset: usize,
    answer: InnerResult<T>,
) -> ComposerResult<T>
    ensures { PlacesAs (in_text path.now text.now offset) answer result }
{
    match answer {
        Ok(value) => Ok(value),
        Err(inner) => Err(refused(alloc, inner, path, text, offset)),
    }
}

// The definitions of a shader: the given ones, overwritten by its own.
fn own_defs(alloc: Global, given: Defs, shader: &Registered) -> ComposerResult<Defs>
    ensures { let own = (definition_of shader.now).defs in
        Answers defs_of result (Ok (overwritten (defs_of given) own)) }
{
    let mut defs = given;
    match overwrite(&mut defs, &shader.shader_defs) {
        Ok(()) => Ok(defs),
        Err(_) => Err(memory(alloc)),
    }
}

impl<B: Backend> Maker<'_, B> {
    // The error of a shader that imports a module which can't be reached.
    fn refusal(&self, why: Unreached, shader: &Registered, text: &str) -> ComposerError
        ensures { let path = (definition_of shader.now).file_path in
            TellsUnreached (refusal path text.now (defs_in self.now)) why result }
    {
        let (alloc, path) = (self.builder.alloc, shader.file_path.as_str());
        match why {
            Unreached::Missing(name, offset) => {
                refused(alloc, Inner::ImportNotFound(name, offset), path, text, 0)
            }
            Unreached::Unbuilt(name, unbuilt) => {
                let Unbuilt { inner, offset } = unbuilt;
                refused_in(alloc, inner, name.as_str(), offset, &self.defs)
            }
            Unreached::Memory => memory(alloc),
        }
    }

    // Reaches the modules that a shader imports, if a rule allows them.
    fn reach_uses(
        &mut self,
        rule: Rule<'_>,
        uses: &[Use],
        shader: &Registered,
        text: &str,
    ) -> ComposerResult
        requires { IsReady B.front self.old 0 }
        ensures reached { let s = settings_by B.front self.old in
            let ds = modules_in self.old in
            let defs = defs_in self.old in
            let reaching =
            reach_uses s ds defs (rule_of ds defs rule.entry) (map use_of uses.now) in
            let told = of_shader (definition_of shader.now).file_path text.now defs reaching in
            Replies (λ done. done) result self.new (told (builds_in self.old)) }
        ensures keeps { KeepsMore B.front refused_of result self.old self.new }
        ensures rest { BuildsMore self.old self.new }
    {
        match self.ensure_each(rule, uses, 0) {
            Ok(()) => Ok(()),
            Err(why) => Err(self.refusal(why, shader, text)),
        }
    }

    // Preprocesses a shader.
    fn preprocess_shader(&self, shader: &Registered, text: &str) -> ComposerResult<PreprocessOutput>
        ensures { let d = definition_of shader.now in
            let told = preprocessed_of (defined (defs_in self.now)) d in
            Answers output_of result (placed (in_text d.file_path text.now 0) told) }
    {
        let output = self.builder.preprocessed(shader, &self.defs);
        in_text(
            self.builder.alloc,
            shader.file_path.as_str(),
            text,
            0,
            output,
        )
    }

    // Reads a shader a first time: adds the definitions of the modules that it imports, and builds
    // these.
    fn read_and_build_first(&mut self, shader: &Registered, text: &str) -> ComposerResult
        requires registry { IsRegistry (modules_in self.old) }
        requires store { let s = settings_by B.front self.old in
            IsStore s (modules_in self.old) (kept_in self.old) }
        requires begins { builds_in self.old ≡ [] }
        ensures read { let s = settings_by B.front self.old in
            let d = definition_of shader.now in
            let read = read_and_build_first s (modules_in self.old) text.now d (defs_in self.old) in
            Replies (λ done. defs_in self.new) result self.new (read (builds_in self.old)) }
        ensures keeps { let own = defs_in self.old in
            let defs = defs_merged (modules_in self.old) (definition_of shader.now) own in
            KeepsUnder B.front refused_of defs result self.old self.new }
        ensures rest { BuildsMore (record self.old { defs = self.new.defs }) self.new }
    {
        let output = self.preprocess_shader(shader, text)?;
        let (alloc, path) = (self.builder.alloc, shader.file_path.as_str());
        let merged = merge(&mut self.defs, &output.imports, self.modules);
        in_text(alloc, path, text, 0, merged)?;
        self.reach_uses(Rule::Any, &output.imports, shader, text)
    }

    // Reads a shader a second time, under the merged definitions, and builds the modules that it
    // imports then.
    fn read_and_build_second(
        &mut self,
        shader: &Registered,
        text: &str,
    ) -> ComposerResult<PreprocessOutput>
        requires { IsReady B.front self.old 0 }
        ensures read { let s = settings_by B.front self.old in
            let d = definition_of shader.now in
            let read = read_and_build_second s (modules_in self.old) text.now d (defs_in self.old) in
            Replies output_of result self.new (read (builds_in self.old)) }
        ensures keeps { KeepsMore B.front refused_of result self.old self.new }
        ensures rest { BuildsMore self.old self.new }
    {
        let output = self.preprocess_shader(shader, text)?;
        self.reach_uses(Rule::Merged, &output.imports, shader, text)?;
        Ok(output)
    }

    // The error of a made module that isn't valid, in the text of the module that the last span
    // lies in.
    fn invalid(
        &self,
        fault: ValidFault,
        of: &Registered,
        text: &str,
        offset: usize,
    ) -> ComposerError
        ensures { let place = in_text (definition_of of.now).file_path text.now offset in
            let told = invalid_shader (builds_in self.now) (defs_in self.now) place in
            Tells {Y = ModuleValue} result (Err (told (valid_fault fault))) }
    {
        let alloc = self.builder.alloc;
        let built = build_at(&self.builder.builds, last_index(&fault));
        let inner = Inner::ShaderValidationError(fault);
        match built {
            Some((name, at)) => refused_in(alloc, inner, name, offset_of(at), &self.defs),
            None => refused(alloc, inner, of.file_path.as_str(), text, offset),
        }
    }

    // The made module, or an error if it isn't valid and the make validates.
    fn validated(
        &self,
        made: Module,
        of: &Registered,
        text: &str,
        offset: usize,
    ) -> ComposerResult<Module>
        ensures { let s = settings_by B.front self.now in
            let place = in_text (definition_of of.now).file_path text.now offset in
            let told = validate s (builds_in self.now) (defs_in self.now) place in
            Answers module_value result (told (module_value made)) }
    {
        let (alloc, settings) = (self.builder.alloc, self.builder.settings);
        if !settings.validate {
            return Ok(made);
        }
        let valid = settings.front.validate(alloc, &made, settings.capabilities);
        let path = of.file_path.as_str();
        match in_text(alloc, path, text, offset, answered(valid))? {
            Ok(()) => Ok(made),
            Err(fault) => Err(self.invalid(fault, of, text, offset)),
        }
    }

    // Links the whole of a shader's build, sets the stages of the shader's type, and redirects the
    // calls of overridden functions.
    fn chained(&self, built: &Build, shader_type: ShaderType) -> InnerResult<Module>
        ensures { let b = built_of built.now in
            let whole = with_stages shader_type (link_whole (builds_in self.now) b) in
            Gives module_value result (chain b.overriding whole) }
    {
        let mut whole = link_whole(self.builder.alloc, &self.builder.builds, built)?;
        set_stages(&mut whole, shader_type);
        chain(self.builder.alloc, whole, &built.override_functions)
    }

    // Links a shader's build, and validates it.
    fn compose(
        &self,
        built: &Build,
        of: &Registered,
        text: &str,
        shader_type: ShaderType,
    ) -> ComposerResult<Module>
        ensures { let s = settings_by B.front self.now in
            let b = built_of built.now in
            let place = in_text (definition_of of.now).file_path text.now b.offset in
            let told = compose s (defs_in self.now) (builds_in self.now) b shader_type place in
            Answers module_value result told }
    {
        let (alloc, path, offset) = (self.builder.alloc, of.file_path.as_str(), offset_of(built));
        let made = in_text(alloc, path, text, offset, self.chained(built, shader_type))?;
        self.validated(made, of, text, offset)
    }

    // Builds a preprocessed shader.
    fn build_shader(&self, of: &Registered, output: &PreprocessOutput) -> ComposerResult<Build>
        requires { of.now.module_index ≤ max_modules }
        ensures { let d = definition_of of.now in
            let out = output_of output.now in
            let built = build (settings_by B.front self.now) d out (builds_in self.now) in
            Answers built_of result (built_in_text d.file_path out.text built) }
    {
        match self.builder.build(of, output) {
            Ok(built) => Ok(built),
            Err(Unbuilt { inner, offset }) => {
                let text = output.preprocessed_source.as_str();
                Err(refused(
                    self.builder.alloc,
                    inner,
                    of.file_path.as_str(),
                    text,
                    offset,
                ))
            }
        }
    }

    // Makes a module of a preprocessed shader.
    fn finish(
        &self,
        of: &Registered,
        output: &PreprocessOutput,
        shader_type: ShaderType,
    ) -> ComposerResult<Module>
        requires { of.now.module_index ≤ max_modules }
        ensures { let d = definition_of of.now in
            let out = output_of output.now in
            let made = finish (settings_by B.front self.now) (defs_in self.now) in
            Answers module_value result (made (builds_in self.now) d out shader_type) }
    {
        let built = self.build_shader(of, output)?;
        self.compose(&built, of, output.preprocessed_source.as_str(), shader_type)
    }

    /// Makes a shader out of its text. Nothing may be built before.
    pub(crate) fn make(
        &mut self,
        desc: NagaModuleDescriptor<'_>,
        text: &str,
    ) -> ComposerResult<Module>
        requires registry { IsRegistry (modules_in self.old) }
        requires store { let s = settings_by B.front self.old in
            IsStore s (modules_in self.old) (kept_in self.old) }
        requires begins { builds_in self.old ≡ [] }
        ensures made { let s = settings_by B.front self.old in
            let made = module_of_text s (modules_in self.old) (shader_source desc.entry) text.now in
            Replies module_value result self.new (made (builds_in self.old)) }
        ensures keeps { let ds = modules_in self.old in
            let defs = defs_of_text ds (shader_source desc.entry) text.now in
            KeepsUnder B.front refused_of defs result self.old self.new }
        ensures rest { BuildsMore (record self.old { defs = self.new.defs }) self.new }
    {
        let (alloc, shader_type) = (self.builder.alloc, desc.shader_type);
        let shader = in_text(
            alloc,
            desc.file_path,
            text,
            0,
            read_shader(alloc, &desc, text),
        )?;
        self.defs = own_defs(alloc, desc.shader_defs, &shader)?;
        self.read_and_build_first(&shader, text)?;
        let output = self.read_and_build_second(&shader, text)?;
        self.finish(&shader, &output, shader_type)
    }
}
