//! What other stages read of a build, and set.
ghost use Rattle.std.specs.Prelude.{◌≡◌, ◌≤◌, string_bytes};
ghost use Rattle.naga_oil_ir.specs.ModuleValue.{module_value};
ghost use Rattle.naga_oil_link.specs.BuiltModule.{built_of, nothing_built};
ghost use Rattle.naga_oil_ir.specs.Spans.{max_modules};

use super::*;

/// A build of nothing, with this decoration for the names of its items.
pub fn empty_build(alloc: Global, decorated_name: String, index: usize) -> Build
    requires { index ≤ max_modules }
    ensures { built_of result ≡ nothing_built (string_bytes decorated_name) index }
{
    ComposableModule {
        decorated_name,
        imports: Vec::new(alloc),
        owned_types: NameSet::new(alloc),
        owned_constants: NameSet::new(alloc),
        owned_pipeline_overrides: NameSet::new(alloc),
        owned_vars: NameSet::new(alloc),
        owned_functions: NameSet::new(alloc),
        virtual_functions: NameSet::new(alloc),
        override_functions: Overrides::new(alloc),
        module_ir: FormedModule::nothing(alloc),
        header_ir: Header::nothing(alloc),
        own_in_module: OwnItems::new(alloc),
        own_in_header: OwnItems::new(alloc),
        start_offset: 0,
        text_functions: 0,
        index,
    }
}

/// Where the source of a build begins in the text that was parsed, in bytes.
pub fn offset_of(build: &Build) -> usize
    ensures { result ≡ (built_of build.now).offset }
{
    build.start_offset
}

/// Sets where the source of a build begins in the text that was parsed, in bytes.
pub fn set_offset(build: &mut Build, offset: usize)
    ensures { built_of build.new ≡ record (built_of build.old) { offset = offset } }
{
    build.start_offset = offset;
}

/// Notes the number of functions in the parsed text, which changes nothing of what is built.
pub fn note_functions(build: &mut Build, count: usize)
    ensures { built_of build.new ≡ built_of build.old }
{
    build.text_functions = count;
}

/// The index of a build's module in the registry; index 0 is the shader's.
pub fn index_of(build: &Build) -> usize
    ensures { result ≡ (built_of build.now).index }
{
    build.index
}

/// The header of a build.
pub fn header_of(build: &Build) -> &Module
    ensures { module_value result.now ≡ (built_of build.now).header }
{
    let (header, _) = build.header_ir.named();
    header
}
