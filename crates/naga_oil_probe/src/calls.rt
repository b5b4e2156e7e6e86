// One call of each function that allocates nothing. The arguments are built before the first call.
ghost use Rattle.std.specs.Prelude.{IfOk};
ghost use Rattle.naga_oil_redirect.specs.Redirectable.{Redirectable};

use super::failure::Failure;
use naga_oil::compose::preprocess::Preprocessor;
use naga_oil::compose::{
    Capabilities, ComposableModuleDescriptor, Composer, ComposerError, ComposerErrorInner,
    EnsureImportsError, ErrSource, ImportDefWithOffset, ImportDefinition, NagaModuleDescriptor,
    OwnedShaderDefs, ShaderDefValue, ShaderLanguage, ShaderType, WgslDirectives,
};
use naga_oil::derive::DerivedModule;
use naga_oil::redirect::{RedirectError, Redirector};
use naga_oil_form::check_form::{FormFault, check_form};
use naga_oil_ir::{
    Arena, Constant, Expression, Index, Module, PlaceRange, Span, Type, TypeInner, UniqueArena,
};
use naga_oil_lines::comment_strip_iter::CommentReplaceExt;
use naga_oil_lines::tokenizer::{Token, Tokenizer};
use naga_oil_mini_front::Mini;
use std::alloc::{AllocError, Global};
use std::borrow::CowStr;
use std::collections::BTreeMap;

// The tokens of a text, and its lines without comments.
fn texts(alloc: Global) -> bool {
    let mut tokens = Tokenizer::new("a +", false);
    let name = tokens.next();
    let sign = tokens.next();
    let are_tokens = matches!(name, Some(Token::Identifier("a", 0)))
        && matches!(sign, Some(Token::Other('+', 2)))
        && tokens.next().is_none();
    let is_read = Token::Other('+', 2).pos() == 2
        && Token::Identifier("a", 0).identifier() == Some("a");
    let mut lines = "a\n".lines();
    let line = lines.replace_comments(alloc).next();
    are_tokens && is_read && matches!(line, Some(Ok(CowStr::Borrowed("a"))))
}

// Empty directives, uses, definitions and descriptors.
fn values(alloc: Global) -> bool {
    let _ = Preprocessor::default();
    let used = ImportDefWithOffset::new(ImportDefinition::new(alloc), 7);
    let module_ = ComposableModuleDescriptor::new(alloc);
    let shader = NagaModuleDescriptor::new(alloc);
    let _ = OwnedShaderDefs::new(alloc);
    WgslDirectives::new(alloc).is_empty()
        && used.offset() == 7
        && used.definition().import.is_empty()
        && ShaderDefValue::default() == ShaderDefValue::Bool(true)
        && module_.as_name.is_none()
        && ShaderLanguage::from(shader.shader_type) == ShaderLanguage::Wgsl
        && ShaderLanguage::from(ShaderType::GlslVertex) == ShaderLanguage::Glsl
}

// The reads of a module of one type and one constant.
fn arenas(alloc: Global, module_: &Module) -> bool {
    let no_types: UniqueArena<Type> = UniqueArena::new(alloc);
    let no_constants: Arena<Constant> = Arena::new(alloc);
    let (ty, constant) = (Index::new(0), Index::new(0));
    let span = Span::new(1, 2);
    let types = &module_.types;
    let constants = &module_.constants;
    no_types.len() == 0
        && no_constants.len() == 0
        && types.len() == 1
        && constants.len() == 1
        && types.get_handle(ty).is_some()
        && constants.try_get(constant).is_some()
        && types.get_span(ty) == span
        && constants.get_span(constant) == Span::UNDEFINED
        && types.iter().next().is_some()
        && constants.iter().next().is_some()
        && span.to_range() == Some(1..2)
        && ty.index() == 0
        && PlaceRange::<Constant>::new(1, 2).end() == 2
}

// A module that nothing is copied into, and a module whose calls aren't redirected.
fn copies(alloc: Global, module_: Module) -> bool
    requires { Redirectable module_ }
{
    let mut derived = DerivedModule::new(alloc);
    derived.clear_shader_source();
    let is_bare = !derived.has_required_special_types();
    let is_same = derived.map_span(Span::new(1, 2)) == Span::new(1, 2);
    let made = Module::from(derived);
    let redirector = Redirector::new(alloc, module_);
    is_bare && is_same && made.types.len() == 0 && redirector.module().types.len() == 1
}

// The reads of a composer with the module m.
fn reads(composer: &Composer<Mini>, defs: &BTreeMap<String, ShaderDefValue>) -> bool {
    composer.validate()
        && composer.capabilities() == Capabilities(0)
        && composer.contains_module("m")
        && composer.module("m").is_some()
        && composer.module_at(1).is_some()
        && composer.binding_counter() == 0
        && composer.builds() == 0
        && !composer.has_build("m", defs)
}

// Composers without modules, the removal of an unknown name, and the removal of all modules.
fn composers(alloc: Global, mut composer: Composer<Mini>) -> bool {
    let is_removed = composer.remove_composable_module("n").is_ok();
    let bare = composer.with_capabilities(Capabilities(3));
    let validating = Composer::new(alloc, Mini);
    is_removed
        && !bare.contains_module("m")
        && validating.validate()
        && !Composer::non_validating(alloc, Mini).validate()
}

// The reads of an error in the module m, and the errors that are converted from others.
fn errors(composer: &Composer<Mini>, error: ComposerError) -> bool {
    let is_there = error.source.path(composer) == "m.txt" && error.source.offset() == 7;
    let imports = EnsureImportsError::from(error);
    let inner = ComposerErrorInner::from(RedirectError::Memory);
    is_there && matches!(imports, EnsureImportsError::ComposerError(_)) && inner.is_memory()
}

fn defs_of(alloc: Global) -> Result<BTreeMap<String, ShaderDefValue>, AllocError> {
    let mut defs = BTreeMap::new(alloc);
    defs.insert(String::from_str(alloc, "K")?, ShaderDefValue::Int(1))?;
    Ok(defs)
}

fn error_of(alloc: Global) -> Result<ComposerError, AllocError> {
    Ok(ComposerError {
        inner: ComposerErrorInner::NotEnoughEndIfs(3),
        source: ErrSource::Module {
            name: String::from_str(alloc, "m")?,
            offset: 7,
            defs: defs_of(alloc)?,
        },
    })
}

fn composer_of(alloc: Global) -> Result<Composer<Mini>, Failure> {
    let mut composer = Composer::new(alloc, Mini);
    let mut desc = ComposableModuleDescriptor::new(alloc);
    desc.file_path = "m.txt";
    desc.as_name = Some(String::from_str(alloc, "m")?);
    match composer.add_module(desc) {
        Ok(_) => Ok(composer),
        Err(_) => Err(Failure::Memory),
    }
}

// A module of one type, and one constant of it.
fn module_of(alloc: Global) -> Result<Module, AllocError> {
    let mut module_ = Module::new(alloc);
    let unnamed = Type {
        name: None,
        inner: TypeInner::Scalar(1),
    };
    module_.types.insert(unnamed, Span::new(1, 2))?;
    let one = Expression::Literal { kind: 1, bits: 1 };
    module_.global_expressions.append(one, Span::UNDEFINED)?;
    let constant = Constant {
        name: None,
        ty: Index::new(0),
        init: Index::new(0),
    };
    module_.constants.append(constant, Span::UNDEFINED)?;
    Ok(module_)
}

fn checked(alloc: Global, module_: Module) -> Result<Module, FormFault>
    ensures { IfOk result (λ m. Redirectable m) }
{
    check_form(&module_, alloc, "", 2)?;
    Ok(module_)
}

fn make_module(alloc: Global) -> Result<Module, Failure>
    ensures { IfOk result (λ m. Redirectable m) }
{
    let module_ = module_of(alloc)?;
    match checked(alloc, module_) {
        Ok(module_) => Ok(module_),
        Err(_) => Err(Failure::Memory),
    }
}

// The arguments of the calls, besides a module.
#[derive(Drop)]
struct Given {
    composer: Composer<Mini>,
    defs: BTreeMap<String, ShaderDefValue>,
    error: ComposerError,
}

fn make_given(alloc: Global) -> Result<Given, Failure> {
    let composer = composer_of(alloc)?;
    let defs = defs_of(alloc)?;
    let error = error_of(alloc)?;
    #[rattlefmt::skip]
    Ok(Given { composer, defs, error })
}

// Does each call, and returns whether all results are the expected ones.
fn all_answer(alloc: Global, given: Given, module_: Module) -> bool
    requires { Redirectable module_ }
{
    let Given {
        composer,
        defs,
        error,
    } = given;
    let of_texts = texts(alloc) && values(alloc);
    let of_modules = arenas(alloc, &module_) && copies(alloc, module_);
    let of_reads = reads(&composer, &defs) && errors(&composer, error);
    let of_composers = composers(alloc, composer);
    of_texts && of_modules && of_reads && of_composers
}

/// Does each call, and prints whether all results are the expected ones. A line is printed before the first call
/// and one after the last.
pub fn print<R: Print + AllocGlobal>(rt: &R) -> Result<(), Failure> {
    let alloc = rt.alloc();
    let given = make_given(alloc)?;
    let module_ = make_module(alloc)?;
    println!(rt; "without memory")?;
    let holds = all_answer(alloc, given, module_);
    println!(rt; "with memory")?;
    println!(rt; "each call answered: {holds}")?;
    Ok(())
}
