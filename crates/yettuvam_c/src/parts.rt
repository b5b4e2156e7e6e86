// The fields of a text, of its metadata or of an error.
ghost use Rattle.std.specs.Prelude.{◌≡◌, ◌++◌, fold, map, flat_map, option_map, string_bytes, OnOk};
ghost use Rattle.naga_oil_words.specs.Texts.{texts};
ghost use Rattle.naga_oil_imports.specs.Uses.{use_of};
ghost use Rattle.naga_oil_pre.specs.KnownView.{output_of};
ghost use Rattle.naga_oil_conditions.specs.View.{fault_of};
ghost use Rattle.naga_oil_registry.specs.Registered.{defs_of};
ghost use Rattle.naga_oil_registry.specs.Report.{fault_places};
ghost use Rattle.yettuvam_c.specs.Laid.{with_part, laid_of, part_of};
ghost use Rattle.yettuvam_c.specs.Parts.{use_parts, output_parts, define_part, recorded_part, path_parts, metadata_parts, fault_kind, fault_place, fault_part};

use super::*;

pub const TEXT: u32 = 1;

pub const IMPORT: u32 = 2;

pub const ITEM: u32 = 3;

pub const PATH: u32 = 4;

pub const BOOL: u32 = 5;

pub const INT: u32 = 6;

pub const UINT: u32 = 7;

pub const RECORDED: u32 = 8;

pub const DIRECTIVES: u32 = 9;

pub const FAULT: u32 = 10;

pub const FAULT_LINE: u32 = 11;

pub const FAULT_WHOLE: u32 = 12;

// Pushes the use of a module: its name, and each item.
fn push_use(sheet: &mut Sheet, used: &ImportDefWithOffset) -> Result<(), AllocError>
    ensures { let parts = use_parts (use_of used.now) in
        OnOk result (laid_of sheet.new ≡ fold with_part (laid_of sheet.old) parts) }
{
    let import = used.definition();
    sheet.push(Part::new(IMPORT, import.import.as_str(), used.offset()))?;
    for item in import.items.as_slice() {
        sheet.push(Part::new(ITEM, item.as_str(), 0))?;
    }
    Ok(())
}

// Pushes the uses of modules.
fn push_uses(sheet: &mut Sheet, uses: &[ImportDefWithOffset]) -> Result<(), AllocError>
    ensures { let parts = flat_map use_parts (map use_of uses.now) in
        OnOk result (laid_of sheet.new ≡ fold with_part (laid_of sheet.old) parts) }
{
    for used in uses {
        push_use(sheet, used)?;
    }
    Ok(())
}

// A definition.
fn define_part(name: &str, value: ShaderDefValue) -> Part<'_>
    ensures { part_of result ≡ define_part (name.now, value) }
{
    let (kind, value) = match value {
        ShaderDefValue::Bool(truth) => (BOOL, i64::from(truth)),
        ShaderDefValue::Int(number) => (INT, i64::from(number)),
        ShaderDefValue::UInt(number) => (UINT, i64::from(number)),
    };
    Part {
        kind,
        text: name,
        place: 0,
        value,
    }
}

// Pushes definitions.
fn push_defines(
    sheet: &mut Sheet,
    defines: &BTreeMap<String, ShaderDefValue>,
) -> Result<(), AllocError>
    ensures { let parts = map define_part (defs_of defines.now) in
        OnOk result (laid_of sheet.new ≡ fold with_part (laid_of sheet.old) parts) }
{
    for (name, value) in defines {
        sheet.push(define_part(name.as_str(), *value))?;
    }
    Ok(())
}

// Pushes the names that a text records.
fn push_names(sheet: &mut Sheet, names: &BTreeSet<String>) -> Result<(), AllocError>
    ensures { let parts = map recorded_part (texts names.now.keys) in
        OnOk result (laid_of sheet.new ≡ fold with_part (laid_of sheet.old) parts) }
{
    for name in names {
        sheet.push(Part::new(RECORDED, name.as_str(), 0))?;
    }
    Ok(())
}

// Pushes the import path that a text defines, if there is one.
fn push_path(sheet: &mut Sheet, path: &Option<String>) -> Result<(), AllocError>
    ensures { let parts = path_parts (option_map string_bytes path.now) in
        OnOk result (laid_of sheet.new ≡ fold with_part (laid_of sheet.old) parts) }
{
    match path {
        Some(path) => sheet.push(Part::new(PATH, path.as_str(), 0)),
        None => Ok(()),
    }
}

/// Pushes a preprocessed text and its imports.
pub fn push_output(sheet: &mut Sheet, output: &PreprocessOutput) -> Result<(), AllocError>
    ensures { let parts = output_parts (output_of output.now) in
        OnOk result (laid_of sheet.new ≡ fold with_part (laid_of sheet.old) parts) }
{
    sheet.push(Part::new(TEXT, output.preprocessed_source.as_str(), 0))?;
    push_uses(sheet, output.imports.as_slice())
}

/// Pushes metadata: the cleaned text, its import path, its imports, its defines, the names that it records, and its directives.
pub fn push_metadata(
    alloc: Global,
    sheet: &mut Sheet,
    found: &PreprocessorMetaData,
) -> Result<(), AllocError>
    ensures { let parts = metadata_parts found.now in
        OnOk result (laid_of sheet.new ≡ fold with_part (laid_of sheet.old) parts) }
{
    sheet.push(Part::new(TEXT, found.cleaned_source.as_str(), 0))?;
    push_path(sheet, &found.name)?;
    push_uses(sheet, found.imports.as_slice())?;
    push_defines(sheet, &found.defines)?;
    push_names(sheet, &found.effective_defs)?;
    let directives = found.wgsl_directives.to_wgsl_string(alloc)?;
    sheet.push(Part::new(DIRECTIVES, directives.as_str(), 0))
}

// The kind of an error's place, and the place.
#[rattlefmt::skip]
fn fault_place(inner: &Inner) -> (u32, usize)
    ensures kind { result.0 ≡ fault_kind (fault_places (fault_of inner.now)) }
    ensures place { result.1 ≡ fault_place (fault_places (fault_of inner.now)) }
{
    match inner {
        Inner::ImportParseError(_, place) | Inner::ImportNotFound(_, place)
        | Inner::NotEnoughEndIfs(place) | Inner::TooManyEndIfs(place)
        | Inner::ElseWithoutCondition(place) | Inner::UnknownShaderDefOperator { pos: place, .. }
        | Inner::UnknownShaderDef { pos: place, .. } | Inner::InvalidShaderDefComparisonValue { pos: place, .. }
        | Inner::GlslInvalidVersion(place) | Inner::OverrideNotVirtual { pos: place, .. }
        | Inner::InvalidShaderDefDefinitionValue { pos: place, .. } | Inner::DefineInModule(place) => (FAULT, *place),
        Inner::DecorationInSource(range) => (FAULT, range.start),
        Inner::RedirectError(_) => (FAULT, 0),
        Inner::InvalidWgslDirective { position, .. } => (FAULT_LINE, *position),
        Inner::InvalidIdentifier { .. } | Inner::WgslParseError(_) | Inner::GlslParseError(_)
        | Inner::HeaderValidationError(_) | Inner::ShaderValidationError(_)
        | Inner::WgslBackError(_) | Inner::GlslBackError(_) | Inner::InconsistentShaderDefValue { .. }
        | Inner::NoModuleName | Inner::Memory | Inner::TooManyModules
        | Inner::BindingsExhausted | Inner::TextTooLarge | Inner::WrongForm => (FAULT_WHOLE, 0),
    }
}

/// Pushes the report of an error.
pub fn push_fault(
    alloc: Global,
    sheet: &mut Sheet,
    path: &str,
    text: &str,
    inner: &Inner,
) -> Result<(), AllocError>
    ensures { let more = fault_part path.now text.now (fault_of inner.now) in
        OnOk result (laid_of sheet.new ≡ with_part (laid_of sheet.old) more) }
{
    let reply = report(alloc, path, text, 0, inner)?;
    let (kind, place) = fault_place(inner);
    sheet.push(Part::new(kind, reply.as_str(), place))
}
