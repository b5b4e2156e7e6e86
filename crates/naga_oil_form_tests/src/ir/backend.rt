ghost use Rattle.std.specs.Prelude.{◌≡◌, [], Ok, Some, IfSome, string_bytes};
ghost use Rattle.naga_oil_ir.specs.ModuleValue.{module_value, no_items};

use naga_oil_ir::*;
use std::alloc::Global;

// A front end that reads no items and writes nothing.
struct Empty;

impl Backend for Empty {
    ghost use Rattle.std.specs.Prelude.{[], Ok};
    ghost use Rattle.naga_oil_ir.specs.ModuleValue.{no_items};

    ghost front = { λ _. record {
      parse = λ _ _. Ok no_items;
      write = λ _ _ _. Ok [];
      valid = λ _ _. Ok tt;
    } };

    fn parse(
        &self,
        alloc: Global,
        _language: ShaderLanguage,
        _text: &str,
    ) -> Result<Module, BackendRefusal<ParseFault>> {
        Ok(Module::new(alloc))
    }

    fn write(
        &self,
        alloc: Global,
        _module: &Module,
        _language: ShaderLanguage,
        _capabilities: Capabilities,
    ) -> Result<String, BackendRefusal<WriteFault>> {
        Ok(String::new(alloc))
    }

    fn validate(
        &self,
        _alloc: Global,
        _module: &Module,
        _capabilities: Capabilities,
    ) -> Result<(), BackendRefusal<ValidFault>> {
        Ok(())
    }
}

// What a call gives where it gives something.
fn given<T: Drop, F: Drop>(answer: Result<T, F>) -> Option<T>
    ensures { IfSome result (λ value. answer ≡ Ok value) }
{
    match answer {
        Ok(value) => Some(value),
        Err(_) => None,
    }
}

fn both<T: Drop>(first: Option<T>, second: Option<T>) -> Option<(T, T)>
    ensures first { IfSome result (λ r. first ≡ Some r.0) }
    ensures second { IfSome result (λ r. second ≡ Some r.1) }
{
    match (first, second) {
        (Some(first), Some(second)) => Some((first, second)),
        _ => None,
    }
}

fn read<B: Backend>(
    alloc: Global,
    front: &B,
    language: ShaderLanguage,
    text: &str,
) -> Option<Module>
    ensures { let told = (B.front front.now).parse language text.now in
        IfSome result (λ r. told ≡ Ok (module_value r)) }
{
    given(front.parse(alloc, language, text))
}

// A front end reads equal texts alike.
fn read_twice<B: Backend>(
    alloc: Global,
    front: &B,
    language: ShaderLanguage,
    text: &str,
) -> Option<(Module, Module)>
    ensures { IfSome result (λ r. module_value r.0 ≡ module_value r.1) }
{
    let first = read(alloc, front, language, text);
    both(first, read(alloc, front, language, text))
}

fn written<B: Backend>(
    alloc: Global,
    front: &B,
    language: ShaderLanguage,
    of: &Module,
) -> Option<String>
    ensures { let writes = (B.front front.now).write (module_value of.now) language in
        IfSome result (λ r. writes (record { 0 = 0 }) ≡ Ok (string_bytes r)) }
{
    given(front.write(alloc, of, language, Capabilities(0)))
}

// It writes the same of modules that are read alike.
fn written_alike<B: Backend>(
    alloc: Global,
    front: &B,
    language: ShaderLanguage,
    modules: &(Module, Module),
) -> Option<(String, String)>
    requires { module_value modules.now.0 ≡ module_value modules.now.1 }
    ensures { IfSome result (λ r. string_bytes r.0 ≡ string_bytes r.1) }
{
    let first = written(alloc, front, language, &modules.0);
    both(first, written(alloc, front, language, &modules.1))
}

fn written_twice<B: Backend>(
    alloc: Global,
    front: &B,
    language: ShaderLanguage,
    text: &str,
) -> Option<(String, String)>
    ensures { IfSome result (λ r. string_bytes r.0 ≡ string_bytes r.1) }
{
    let modules = read_twice(alloc, front, language, text)?;
    written_alike(alloc, front, language, &modules)
}

/// Whether a text of a language is written in one way.
fn is_written_alike(language: ShaderLanguage, alloc: Global) -> bool {
    match written_twice(alloc, &Empty, language, "x") {
        Some((first, second)) => first.as_str() == second.as_str(),
        None => false,
    }
}

fn is_new_module_valid(alloc: Global) -> bool {
    let module = Module::new(alloc);
    matches!(Empty.validate(alloc, &module, Capabilities(0)), Ok(()))
}

#[test]
fn one_text_is_written_in_one_way(rt: HostRuntime) {
    let wgsl = is_written_alike(ShaderLanguage::Wgsl, rt.alloc());
    let glsl = is_written_alike(ShaderLanguage::Glsl, rt.alloc());
    assert!(rt; wgsl && glsl && is_new_module_valid(rt.alloc()));
}
