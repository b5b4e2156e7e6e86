//! Builds of texts: the module that each text says, over the builds of what it imports.
ghost use Rattle.std.specs.Prelude.{◌≡◌, ◌≤◌, [], map, string_bytes, IfOk, OnOk};
ghost use Rattle.std.specs.BTreeMap.{get_by_text};
ghost use Rattle.naga_oil_ir.specs.ModuleValue.{module_value};
ghost use Rattle.naga_oil_words.specs.Texts.{texts};
ghost use Rattle.naga_oil_imports.specs.Uses.{import_of, use_of};
ghost use Rattle.naga_oil_pre.specs.KnownView.{output_of};
ghost use Rattle.naga_oil_conditions.specs.View.{Gives};
ghost use Rattle.naga_oil_registry.specs.Registered.{definition_of};
ghost use Rattle.naga_oil_link.specs.BuiltModule.{overriding_of, built_of, builds_of};
ghost use Rattle.naga_oil_build.specs.Build.{decoration_of, first_lines, begin_build, write_header, write_heading, write_whole, from_offset, build};
ghost use Rattle.naga_oil_build.specs.BuildView.{settings_in, whole_with, GivesBuilt, IsFromOffset};
ghost use Rattle.naga_oil_build.specs.Built.{answered, preprocessed_of, header_text, parsed_text};
ghost use Rattle.naga_oil_build.specs.Overriding.{overridden_by, with_overriding, build_named, with_build, imported_overriding};
ghost use Rattle.naga_oil_ir.specs.Spans.{max_modules};

use super::virtuals::{Over, add_override, read_functions};
use super::*;
use naga_oil_registry::merge::{imports_of, push_additional};

/// The settings of builds, and the builds so far.
#[derive(Drop)]
pub struct Builder<'c, B: Backend> {
    pub alloc: Global,
    pub settings: &'c Settings<B>,
    pub builds: Builds,
}

/// Why a text isn't built: an error, whose places count from an offset, in bytes.
#[derive(Debug, Drop)]
pub struct Unbuilt {
    pub inner: Inner,
    pub offset: usize,
}

/// What a front end returns, a value or a fault, unless out of memory.
pub fn answered<T, F>(answer: Result<T, BackendRefusal<F>>) -> InnerResult<Result<T, F>>
    ensures { result ≡ answered answer }
{
    match answer {
        Ok(value) => Ok(Ok(value)),
        Err(BackendRefusal::Fault(fault)) => Ok(Err(fault)),
        Err(BackendRefusal::Memory) => Err(Inner::Memory),
    }
}

// An answer, or a fault whose places count from an offset.
fn from_offset<T>(offset: usize, answer: InnerResult<T>) -> Result<T, Unbuilt>
    ensures { IsFromOffset offset answer result }
{
    match answer {
        Ok(value) => Ok(value),
        Err(inner) => Err(Unbuilt { inner, offset }),
    }
}

// Adds functions that override a function.
fn add_overriding(alloc: Global, all: &mut Overrides, base: &str, names: &[String]) -> AllocResult
    ensures { let more = overridden_by (overriding_of all.old) base.now (texts names.now) in
        OnOk result (overriding_of all.new ≡ more) }
{
    for name in names {
        add_override(alloc, all, base, name.as_str())?;
    }
    Ok(())
}

// Adds overridden functions, each with those that override it.
fn add_overrides(alloc: Global, all: &mut Overrides, others: &Overrides) -> AllocResult
    ensures { let more = with_overriding (overriding_of all.old) (overriding_of others.now) in
        OnOk result (overriding_of all.new ≡ more) }
{
    for (base, names) in others.iter() {
        add_overriding(alloc, all, base.as_str(), names)?;
    }
    Ok(())
}

// The first lines of a text: a module's directives, or the version line of GLSL.
fn first_lines(alloc: Global, of: &Registered) -> AllocResult<String>
    ensures { let d = definition_of of.now in
        IfOk result (λ text. string_bytes text ≡ first_lines d.language d.directives) }
{
    match of.language {
        ShaderLanguage::Wgsl => of.wgsl_directives.to_wgsl_string(alloc),
        ShaderLanguage::Glsl => String::from_str(alloc, "#version 450\n"),
    }
}

// Adds the functions that are overridden in the build with a name, if there is one.
fn add_imported(alloc: Global, all: &mut Overrides, builds: &Builds, name: &str) -> AllocResult
    ensures { let build = build_named (builds_of builds.now) name.now in
        OnOk result (overriding_of all.new ≡ with_build (overriding_of all.old) build) }
{
    match builds.get(name) {
        Some(build) => add_overrides(alloc, all, &build.override_functions),
        None => Ok(()),
    }
}

// The decoration of the names of a module's items; nothing for the shader.
fn decoration_of(alloc: Global, of: &Registered) -> AllocResult<String>
    ensures { IfOk result (λ t. string_bytes t ≡ decoration_of (definition_of of.now)) }
{
    match of.module_index {
        0 => Ok(String::new(alloc)),
        _ => decorated_name(alloc, Some(of.name.as_str()), ""),
    }
}

impl<B: Backend> Builder<'_, B> {
    /// The preprocessed text of a module under definitions, with its imports: those that the text
    /// uses, then the additional ones.
    pub fn preprocessed(&self, of: &Registered, defs: &Defs) -> InnerResult<PreprocessOutput>
        ensures { let told = preprocessed_of (get_by_text defs.now) (definition_of of.now) in
            Gives output_of result told }
    {
        let source = of.sanitized_source.as_str();
        let mut output = Preprocessor.preprocess(self.alloc, source, defs)?;
        push_additional(&mut output.imports, &of.additional_imports)?;
        Ok(output)
    }

    /// The text that the front end writes for a header, if the header is valid.
    pub fn written(&self, header: &Module, language: ShaderLanguage) -> InnerResult<String>
        ensures { let s = settings_in B.front self.now in
            let m = module_value header.now in
            Gives string_bytes result (header_text s.front s.capabilities language m) }
    {
        let settings = self.settings;
        let front = &settings.front;
        let valid = front.validate(self.alloc, header, settings.capabilities);
        if let Err(fault) = answered(valid)? {
            return Err(Inner::HeaderValidationError(fault));
        }
        let text = front.write(self.alloc, header, language, settings.capabilities);
        match (answered(text)?, language) {
            (Ok(text), _) => Ok(text),
            (Err(fault), ShaderLanguage::Wgsl) => Err(Inner::WgslBackError(fault)),
            (Err(fault), ShaderLanguage::Glsl) => Err(Inner::GlslBackError(fault)),
        }
    }

    /// The module that a text is parsed to.
    pub fn parsed(&self, text: &str, language: ShaderLanguage) -> InnerResult<Module>
        ensures { let front = (settings_in B.front self.now).front in
            Gives module_value result (parsed_text front language text.now) }
    {
        let parsed = answered(self.settings.front.parse(self.alloc, language, text))?;
        match (parsed, language) {
            (Ok(parsed), _) => Ok(parsed),
            (Err(fault), ShaderLanguage::Wgsl) => Err(Inner::WgslParseError(fault)),
            (Err(fault), ShaderLanguage::Glsl) => Err(Inner::GlslParseError(fault)),
        }
    }

    // The functions that are overridden in the builds of imports.
    fn imported_overrides(&self, imports: &[Import]) -> AllocResult<Overrides>
        ensures { let imported = imported_overriding (builds_of self.now.builds) [] in
            IfOk result (λ all. overriding_of all ≡ imported (map import_of imports.now)) }
    {
        let mut all = Overrides::new(self.alloc);
        for import in imports {
            add_imported(self.alloc, &mut all, &self.builds, import.import.as_str())?;
        }
        Ok(all)
    }

    // The header of imports, as the front end writes it.
    fn header(&self, imports: &[Import], language: ShaderLanguage) -> InnerResult<String>
        ensures { let s = settings_in B.front self.now in
            let builds = builds_of self.now.builds in
            Gives string_bytes result (write_header s language builds (map import_of imports.now)) }
    {
        let header = link_header(self.alloc, &self.builds, imports)?;
        self.written(&header, language)
    }

    // What precedes a text: its first lines, and the header of what is imported.
    fn heading(&self, of: &Registered, imports: &[Import]) -> InnerResult<String>
        ensures { let s = settings_in B.front self.now in
            let d = definition_of of.now in
            let builds = builds_of self.now.builds in
            Gives string_bytes result (write_heading s d builds (map import_of imports.now)) }
    {
        let first = first_lines(self.alloc, of)?;
        let mut heading = self.header(imports, of.language)?;
        if !first.is_empty() {
            heading.insert_str(0, &first)?;
        }
        Ok(heading)
    }

    // A build with nothing held yet: its decoration, its imports, and the functions that are
    // overridden in their builds.
    fn new_build(&self, of: &Registered, output: &PreprocessOutput) -> AllocResult<Build>
        requires { of.now.module_index ≤ max_modules }
        ensures { let empty = begin_build (builds_of self.now.builds) (definition_of of.now) in
            IfOk result (λ built. built_of built ≡ empty (map use_of output.now.imports.items)) }
    {
        let decoration = decoration_of(self.alloc, of)?;
        let imports = imports_of(self.alloc, &output.imports)?;
        let overrides = self.imported_overrides(&imports)?;
        let mut built = empty_build(self.alloc, decoration, of.module_index);
        built.imports = imports;
        built.override_functions = overrides;
        Ok(built)
    }

    // The whole text of a build: its heading, then the text, whose functions are read.
    fn whole_text(&self, of: &Registered, text: &str, built: &mut Build) -> InnerResult<String>
        ensures { let s = settings_in B.front self.now in
            let whole = write_whole s (definition_of of.now) (builds_of self.now.builds) in
            Gives (whole_with built.new) result (whole text.now (built_of built.old)) }
    {
        let over = Over {
            builds: &self.builds,
            imports: &built.imports,
            decoration: built.decorated_name.as_str(),
            override_any: self.settings.override_any,
        };
        let overriding = &mut built.override_functions;
        let (virtuals, text) = read_functions(self.alloc, text, over, overriding)?;
        built.virtual_functions = virtuals;
        let mut whole = self.heading(of, &built.imports)?;
        set_offset(built, whole.as_str().len());
        whole.push_str(&text)?;
        Ok(whole)
    }

    // A build with its whole text, and nothing held yet.
    fn prepare(&self, of: &Registered, output: &PreprocessOutput) -> InnerResult<(Build, String)>
        requires { of.now.module_index ≤ max_modules }
        ensures { let s = settings_in B.front self.now in
            let d = definition_of of.now in
            let out = output_of output.now in
            let builds = builds_of self.now.builds in
            let empty = begin_build builds d out.uses in
            Gives (λ r. whole_with r.0 r.1) result (write_whole s d builds out.text empty) }
    {
        let mut built = self.new_build(of, output)?;
        let text = output.preprocessed_source.as_str();
        let whole = self.whole_text(of, text, &mut built)?;
        Ok((built, whole))
    }

    /// Builds a text over the builds of what it imports.
    ///
    /// # Errors
    /// The first fault, in this order: a function that overrides what isn't imported or may not be
    /// overridden, a header that isn't valid or can't be written, a text that is too large, a fault
    /// of the front end, a wrong form, a name that doesn't survive the round trip. Or out of
    /// memory. From the size of the text on, places count from where the text begins after its
    /// heading.
    pub fn build(&self, of: &Registered, output: &PreprocessOutput) -> Result<Build, Unbuilt>
        requires { of.now.module_index ≤ max_modules }
        ensures { let s = settings_in B.front self.now in
            let d = definition_of of.now in
            let out = output_of output.now in
            GivesBuilt built_of result (build s d out (builds_of self.now.builds)) }
    {
        let (mut built, whole) = from_offset(0, self.prepare(of, output))?;
        let offset = offset_of(&built);
        from_offset(offset, self.hold(of.language, &whole, &mut built))?;
        Ok(built)
    }
}
