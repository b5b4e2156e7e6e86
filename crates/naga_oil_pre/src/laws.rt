// Laws that hold for every text.
ghost use Rattle.std.specs.Prelude.{◌≡◌, ◌↔◌, ℕ, List, codes};
ghost use Rattle.naga_oil_conditions.specs.Line.{Line};
ghost use Rattle.naga_oil_conditions.specs.LineKinds as grammar;
ghost use Rattle.naga_oil_conditions.specs.LineGrammar.{Reads, Tests, IsVersion, IsIfdef, IsIfndef, IsIf, IsElse, IsEndif, IsImport, IsImportPath, IsDefine};
ghost use Rattle.naga_oil_conditions.specs.Kind.{LineKind, kind_of, unversioned_kind_of};
ghost use Rattle.naga_oil_conditions.specs.KindGrammar.{IsKind, IsUnversionedKind};
ghost use Rattle.naga_oil_pre.specs.DirectiveLines.{Directive, directive_of};
ghost use Rattle.naga_oil_pre.specs.DirectiveGrammar.{IsDirective};
ghost use Rattle.naga_oil_conditions.specs.Fault.{Definitions};
ghost use Rattle.naga_oil_pre.specs.Reading.{Block, IsReading, reading};
ghost use Rattle.naga_oil_pre.specs.Recorded.{is_recorded, AgreeOn};
ghost use Rattle.naga_oil_pre.specs.Preprocessed.{preprocessed};

/// The reader of each kind accepts the text after a line's `#` exactly if the text has the form
/// that the kind's grammar gives; so a text is read in one way.
pub fn kinds_by_grammar()
    ensures version { Reads grammar.version IsVersion }
    ensures ifdef { Reads grammar.ifdef (λ g. IsIfdef g.0 g.1) }
    ensures ifndef { Reads grammar.ifndef (λ g. IsIfndef g.0 g.1) }
    ensures condition { Reads grammar.if_condition (λ g. IsIf g.0 g.1 g.2 g.3) }
    ensures plain_else { Tests (grammar.has_keyword (codes "else")) IsElse }
    ensures endif { Tests (grammar.has_keyword (codes "endif")) IsEndif }
    ensures imports { Tests grammar.has_import IsImport }
    ensures import_path { Reads grammar.import_path IsImportPath }
    ensures define { Reads grammar.define (λ g. IsDefine g.0 g.1) }
{}

/// Each line has exactly one kind: the first of the table that fits.
pub fn one_kind()
    ensures kind { (line : List ℕ) (k : LineKind) → IsKind line k ↔ (k ≡ kind_of line) }
    ensures unversioned { (line : List ℕ) (k : LineKind) →
        IsUnversionedKind line k ↔ (k ≡ unversioned_kind_of line) }
{}

/// Each line, without surrounding white space, is of exactly one kind among directives.
pub fn one_directive()
    ensures { (line : List ℕ) (d : Directive) → IsDirective d line ↔ (d ≡ directive_of line) }
{}

/// Under any definitions a text is read as exactly one tree.
pub fn one_reading()
    ensures { (defs : Definitions) (lines : List Line) (block : Block) →
        IsReading defs lines block ↔ (block ≡ reading defs lines) }
{}

/// The result of preprocessing depends only on the names that the text records: two definitions
/// that agree on them, presence included, give the same result.
pub fn recorded_names_decide()
    ensures { (text : List ℕ) (d e : Definitions) →
        AgreeOn (is_recorded text) d e → preprocessed d text ≡ preprocessed e text }
{}
