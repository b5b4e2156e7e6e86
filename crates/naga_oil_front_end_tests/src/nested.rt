// A front end whose one function holds blocks within blocks.
ghost use Rattle.std.specs.Prelude.{◌≡◌, ◌∷◌, [], IfOk, map};
ghost use Rattle.naga_oil_ir.specs.Body.{block_tokens};
ghost use Rattle.naga_oil_ir.specs.ModuleValue.{FunctionValue, module_value, function_value};
ghost use Rattle.naga_oil_ir.specs.Spans.{undefined};
ghost use Rattle.naga_oil_front_end_tests.specs.Nested.{nested_tokens, nested_function, nested_said};

use naga_oil::compose::{Composer, NagaModuleDescriptor};
use naga_oil_ir::{
    Arena, Backend, BackendRefusal, Block, Capabilities, Function, Module, NamedExpressions,
    ParseFault, ShaderLanguage, Span, Statement, ValidFault, WriteFault,
};
use std::alloc::{AllocError, Global};
use std::process::Abort;
use std::test::Fail;

// How deep the blocks are.
#[derive(Drop)]
struct Nested {
    levels: usize,
}

// A block within `levels` blocks.
fn blocks(alloc: Global, levels: usize) -> Result<Block, AllocError>
    ensures { IfOk result (λ b. block_tokens b ≡ nested_tokens levels) }
{
    let mut block = Block {
        body: Vec::new(alloc),
    };
    for _ in 0..levels {
        let mut body = Vec::new(alloc);
        body.push((Statement::Block(block), Span::UNDEFINED))?;
        block = Block { body };
    }
    Ok(block)
}

fn function(alloc: Global, levels: usize) -> Result<Function, AllocError>
    ensures { IfOk result (λ f. function_value f ≡ nested_function levels) }
{
    Ok(Function {
        name: Some(String::from_str(alloc, "f")?),
        arguments: Vec::new(alloc),
        result: None,
        local_variables: Arena::new(alloc),
        expressions: Arena::new(alloc),
        named_expressions: NamedExpressions::new(),
        body: blocks(alloc, levels)?,
        diagnostic_filter_leaf: None,
    })
}

fn functions(alloc: Global, levels: usize) -> Result<Arena<Function>, AllocError>
    ensures { IfOk result (λ a.
        map {B = FunctionValue × Span} (λ e. (function_value e.0, e.1)) a ≡
        (nested_function levels, undefined) ∷ []) }
{
    let mut functions = Arena::new(alloc);
    functions.append(function(alloc, levels)?, Span::UNDEFINED)?;
    Ok(functions)
}

impl Backend for Nested {
    ghost use Rattle.std.specs.Prelude.{[], Ok};

    ghost front = { λ n. record {
      parse = λ language text. Ok (nested_said n.levels);
      write = λ m language capabilities. Ok [];
      valid = λ m capabilities. Ok tt;
    } };

    fn parse(
        &self,
        alloc: Global,
        _language: ShaderLanguage,
        _text: &str,
    ) -> Result<Module, BackendRefusal<ParseFault>> {
        let mut said = Module::new(alloc);
        said.functions = functions(alloc, self.levels)?;
        Ok(said)
    }

    fn write(
        &self,
        alloc: Global,
        _module_: &Module,
        _language: ShaderLanguage,
        _capabilities: Capabilities,
    ) -> Result<String, BackendRefusal<WriteFault>> {
        Ok(String::new(alloc))
    }

    fn validate(
        &self,
        _alloc: Global,
        _module_: &Module,
        _capabilities: Capabilities,
    ) -> Result<(), BackendRefusal<ValidFault>> {
        Ok(())
    }
}

// Whether the first function of a built shader has exactly this depth of nested blocks.
fn is_nested(made: &Module, levels: usize) -> bool {
    let Some((function, _)) = made.functions.as_slice().first() else {
        return false;
    };
    let mut block = &function.body;
    for _ in 0..levels {
        match block.body.first() {
            Some((Statement::Block(inside), _)) => block = inside,
            _ => return false,
        }
    }
    block.body.is_empty()
}

// As deep as a front end may nest.
#[test]
fn nests_as_deep_as_it_may(rt: HostRuntime) -> Result<(), Fail> {
    let mut composer = Composer::new(rt.alloc(), Nested { levels: 256 });
    let mut desc = NagaModuleDescriptor::new(rt.alloc());
    desc.source = "nested";
    desc.file_path = "top.txt";
    let made = composer.make_naga_module(desc);
    assert!(rt; made.is_ok_and(|made| is_nested(&made, 256)));
    Ok(())
}
