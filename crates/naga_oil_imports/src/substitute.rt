// Writes what identifiers stand for, and records what they use of imported modules.
ghost use Rattle.std.specs.Prelude.{◌≡◌, ℕ, ◌+◌, ◌<◌, true, ◌≤◌, ◌^◌, ◌++◌, ◌∷◌, [], List, None, not, ◌&&◌, ◌||◌, ◌==◌, nat_lt, length, map, IfOk, IfErr, OnOk, OnErr, MatchOption, IsTrue, false};
ghost use Rattle.std.specs.Cow.{cow_str_bytes};
ghost use Rattle.std.specs.List.{flat_map, list_any};
ghost use Rattle.std.specs.Str.{chars, IsUtf8};
ghost use Rattle.std.specs.Str.Pattern.{LacksTextAt};
ghost use Rattle.std.specs.String.{string_bytes};
ghost use Rattle.naga_oil_words.specs.Bytes.{colon};
ghost use Rattle.naga_oil_imports.specs.Declarations.{declared_of, paths_of};
ghost use Rattle.naga_oil_lines.specs.Decorate.{decorated_name};
ghost use Rattle.naga_oil_imports.specs.NameMarks.{Covers};
ghost use Rattle.naga_oil_imports.specs.SubstituteFault.{RefusesUses};
ghost use Rattle.naga_oil_imports.specs.Substituted.{first_part, past_first, longer_path, longer_paths, paths_for, path_text, mentions_at, with_mentions, Site, substituted, sites, usize_sites, mentions_in, first_ambiguous, BeginsUses};
ghost use Rattle.naga_oil_imports.specs.Sites.{HasNoSite, FindsSite, is_own, gap_keeps};
ghost use Rattle.naga_oil_lines.specs.Tokens.{lexemes, starts_identifier};
ghost use Rattle.naga_oil_imports.specs.Uses.{uses_of, with_use};

use crate::declared_names::DeclaredNames;
use crate::import_definition::ImportDefWithOffset;
use indexmap::IndexMap;
use naga_oil_lines::decorate::push_decorated;
use naga_oil_lines::text::{split_first_char, text_before};
use naga_oil_lines::tokenizer::{past_identifier, split_gap, starts_identifier};
use std::alloc::{AllocError, Global};
use std::borrow::CowStr;

/// Why identifiers are not substituted.
#[derive(Debug, Drop, PartialEq, Eq)]
pub enum SubstituteFault {
    /// The identifier at this place, in bytes, stands for more than one path.
    Ambiguous(usize),
    Memory,
}

impl From<AllocError> for SubstituteFault {
    ghost use Rattle.naga_oil_imports.specs.declared.substitute.SubstituteFault.TheVariants.{Memory};

    ghost from_gives = { λ _ r. r ≡ Memory };

    fn from(_error: AllocError) -> SubstituteFault {
        SubstituteFault::Memory
    }
}

// Records the use of an item at a place.
fn record_use(
    alloc: Global,
    used_imports: &mut IndexMap<String, ImportDefWithOffset>,
    module_name: &str,
    item: &str,
    place: usize,
) -> Result<(), AllocError>
    ensures ok { let more = with_use (uses_of used_imports.old) module_name.now item.now place in
        OnOk result (uses_of used_imports.new ≡ more) }
    ensures err { OnErr result (uses_of used_imports.new ≡ uses_of used_imports.old) }
{
    let item = String::from_str(alloc, item)?;
    if let Some(used) = used_imports.get_mut(module_name) {
        return used.push_item(item);
    }
    let key = String::from_str(alloc, module_name)?;
    let first = ImportDefWithOffset::first_use(alloc, module_name, item, place)?;
    used_imports.insert(key, first)?;
    Ok(())
}

// The part of an identifier before its first `::`, and the text after it.
fn split_identifier(name: &str) -> (&str, &str)
    ensures first { result.0.now ≡ first_part name.now }
    ensures following { result.1.now ≡ past_first name.now }
{
    match name.split_once("::") {
        Some(parts) => parts,
        None => (name, ""),
    }
}

// A path, followed by `::` and the rest, if any.
fn longer_path<'a>(alloc: Global, path: &'a str, following: &str) -> Result<CowStr<'a>, AllocError>
    ensures { IfOk result (λ whole. cow_str_bytes whole ≡ longer_path path.now following.now) }
{
    if following.is_empty() {
        return Ok(CowStr::Borrowed(path));
    }
    let mut whole = String::from_str(alloc, path)?;
    whole.push_str("::")?;
    whole.push_str(following)?;
    Ok(CowStr::Owned(whole))
}

// The path of an identifier that is not declared.
fn own_path<'a>(identifier: &'a str, first: &'a str, following: &str) -> &'a str
    requires first { first.now ≡ first_part identifier.now }
    requires following { following.now ≡ past_first identifier.now }
    ensures { result.now ≡ longer_path (first_part identifier.now) (past_first identifier.now) }
{
    if following.is_empty() {
        first
    } else {
        identifier
    }
}

// Whether an identifier after this gap stays as it is: by the gap's last byte, or by `kept` if the
// gap is empty.
fn gap_keeps(gap: &str, kept: bool) -> bool
    ensures { result ≡ gap_keeps kept gap.now }
{
    match gap.as_bytes().last() {
        Some(last) => *last == b'.' || *last == b'@',
        None => kept,
    }
}

// Whether a character begins an identifier, if every ASCII character would, as after a gap.
fn starts_after_gap(first: char) -> bool
    requires { first < 128 → starts_identifier first ≡ true }
    ensures { result ≡ starts_identifier first }
{
    first.is_ascii() || starts_identifier(first)
}

/// An identifier that is substituted, with the text from it on and the text after it. A word has no
/// `:`.
#[derive(Clone, Copy)]
struct SiteText<'a> {
    name: &'a str,
    is_word: bool,
    from: &'a str,
    following: &'a str,
}

// The first identifier of a text that is substituted.
#[inline(always)]
fn next_site(text: &str) -> Option<SiteText<'_>>
    ensures { MatchOption result (HasNoSite text.now) (λ site.
        FindsSite text.now site.name.now site.is_word site.from.now site.following.now) }
{
    let mut kept = false;
    let mut rest = text;
    while !rest.is_empty() {
        let (gap, from) = split_gap(rest);
        kept = gap_keeps(gap, kept);
        let Some((first, more)) = split_first_char(from) else {
            return None;
        };
        if !starts_after_gap(first) {
            kept = false;
            rest = more;
            continue;
        }
        let (following, is_word) = past_identifier(first, more);
        if !kept {
            return Some(SiteText {
                name: text_before(from, following),
                is_word,
                from,
                following,
            });
        }
        kept = false;
        rest = following;
    }
    None
}

/// How the identifiers of a text are substituted.
#[derive(Clone, Copy)]
pub struct Substitution<'a> {
    pub alloc: Global,
    pub declared_imports: &'a IndexMap<String, Vec<String>>,
    /// The marks of the declared names.
    pub names: &'a DeclaredNames,
    /// Whether an identifier may stand for several paths.
    pub allow_ambiguous: bool,
    /// The place of the text, which the places of uses are counted from.
    pub offset: usize,
    /// Whether the text is written. If not, uses are only recorded.
    pub writes: bool,
}

impl Substitution<'_> {
    // Writes a text, if anything is to be written.
    fn write(&self, output: &mut String, text: &str) -> Result<(), AllocError>
        ensures text { let written = string_bytes output.old ++ text.now in
            IsTrue self.now.writes → OnOk result (string_bytes output.new ≡ written) }
        ensures unwritten { let unwritten = string_bytes output.old in
            self.now.writes ≡ false → OnOk result (string_bytes output.new ≡ unwritten) }
    {
        if self.writes {
            output.push_str(text)
        } else {
            Ok(())
        }
    }

    // Writes a path that an identifier stands for, and records its use.
    fn write_path(
        &self,
        identifier: &str,
        path: &str,
        place: usize,
        used_imports: &mut IndexMap<String, ImportDefWithOffset>,
        output: &mut String,
    ) -> Result<(), AllocError>
        ensures text { let more = path_text identifier.now path.now in
            let written = string_bytes output.old ++ more in
            IsTrue self.now.writes → OnOk result (string_bytes output.new ≡ written) }
        ensures unwritten { let unwritten = string_bytes output.old in
            self.now.writes ≡ false → OnOk result (string_bytes output.new ≡ unwritten) }
        ensures used { let more = mentions_at place path.now in
            OnOk result (uses_of used_imports.new ≡ with_mentions (uses_of used_imports.old) more) }
        ensures begun { let more = mentions_at place path.now in
            OnErr result (BeginsUses more (uses_of used_imports.old) (uses_of used_imports.new)) }
    {
        if let Some((module_name, item)) = path.rsplit_once("::") {
            record_use(self.alloc, used_imports, module_name, item, place)?;
            if self.writes {
                return push_decorated(output, module_name, item);
            }
            return Ok(());
        }
        if path.as_bytes().contains(&b'"') {
            return self.write(output, identifier);
        }
        self.write(output, path)
    }

    // Writes the paths that an identifier stands for one after another, each with the rest of the
    // identifier, and records their uses.
    fn write_paths(
        &self,
        identifier: &str,
        paths: &[String],
        following: &str,
        place: usize,
        used_imports: &mut IndexMap<String, ImportDefWithOffset>,
        output: &mut String,
    ) -> Result<(), AllocError>
        ensures text { let whole = longer_paths (map string_bytes paths.now) following.now in
            let more = flat_map (path_text identifier.now) whole in
            let written = string_bytes output.old ++ more in
            IsTrue self.now.writes → OnOk result (string_bytes output.new ≡ written) }
        ensures unwritten { let unwritten = string_bytes output.old in
            self.now.writes ≡ false → OnOk result (string_bytes output.new ≡ unwritten) }
        ensures used { let whole = longer_paths (map string_bytes paths.now) following.now in
            let more = flat_map (mentions_at place) whole in
            OnOk result (uses_of used_imports.new ≡ with_mentions (uses_of used_imports.old) more) }
        ensures begun { let whole = longer_paths (map string_bytes paths.now) following.now in
            let more = flat_map (mentions_at place) whole in
            OnErr result (BeginsUses more (uses_of used_imports.old) (uses_of used_imports.new)) }
    {
        for path in paths {
            let whole = longer_path(self.alloc, path.as_str(), following)?;
            self.write_path(identifier, whole.as_str(), place, used_imports, output)?;
        }
        Ok(())
    }

    // The paths that are declared for a name.
    #[inline]
    fn declared_paths(&self, name: &str) -> &[String]
        requires { Covers self.now.names.now (declared_of self.now.declared_imports.now) }
        ensures { let declared = declared_of self.now.declared_imports.now in
            map string_bytes result.now ≡ paths_of declared name.now }
    {
        if !self.names.may_have(name) {
            return &[];
        }
        match self.declared_imports.get(name) {
            Some(paths) => paths.as_slice(),
            None => &[],
        }
    }

    // Whether one identifier has more paths than allowed.
    fn is_refused(&self, paths: &[String]) -> bool
        ensures { result ≡ (not self.now.allow_ambiguous && nat_lt 1 (length paths.now)) }
    {
        !self.allow_ambiguous && paths.len() > 1
    }

    // Writes what an identifier stands for, and records its uses.
    fn write_identifier(
        &self,
        identifier: &str,
        place: usize,
        used_imports: &mut IndexMap<String, ImportDefWithOffset>,
        output: &mut String,
    ) -> Result<(), SubstituteFault>
        requires { Covers self.now.names.now (declared_of self.now.declared_imports.now) }
        ensures text { let declared = declared_of self.now.declared_imports.now in
            let more = flat_map (path_text identifier.now) (paths_for declared identifier.now) in
            let written = string_bytes output.old ++ more in
            IsTrue self.now.writes → OnOk result (string_bytes output.new ≡ written) }
        ensures unwritten { let unwritten = string_bytes output.old in
            self.now.writes ≡ false → OnOk result (string_bytes output.new ≡ unwritten) }
        ensures used { let declared = declared_of self.now.declared_imports.now in
            let site : Site = record { name = identifier.now; place = place } in
            let more = mentions_in declared (site ∷ []) in
            OnOk result (uses_of used_imports.new ≡ with_mentions (uses_of used_imports.old) more) }
        ensures allowed { let declared = declared_of self.now.declared_imports.now in
            let site : Site = record { name = identifier.now; place = place } in
            let first = first_ambiguous declared self.now.allow_ambiguous (site ∷ []) in
            OnOk result (first ≡ None) }
        ensures fault { let declared = declared_of self.now.declared_imports.now in
            let site : Site = record { name = identifier.now; place = place } in
            let refuses = RefusesUses declared self.now.allow_ambiguous (site ∷ []) in
            IfErr result (λ e. refuses (uses_of used_imports.old) (uses_of used_imports.new) e) }
    {
        let (first, following) = split_identifier(identifier);
        let paths = self.declared_paths(first);
        if paths.is_empty() {
            let path = own_path(identifier, first, following);
            self.write_path(identifier, path, place, used_imports, output)?;
            return Ok(());
        }
        if self.is_refused(paths) {
            return Err(SubstituteFault::Ambiguous(place));
        }
        self.write_paths(identifier, paths, following, place, used_imports, output)?;
        Ok(())
    }

    // Whether an identifier stands for itself alone.
    #[inline]
    fn is_own(&self, site: SiteText<'_>) -> bool
        requires covers { Covers self.now.names.now (declared_of self.now.declared_imports.now) }
        requires word { IsTrue site.is_word → list_any (λ b. b == colon) site.name.now ≡ false }
        ensures { result ≡ is_own (declared_of self.now.declared_imports.now) site.entry.name.now }
    {
        (site.is_word || !site.name.as_bytes().contains(&b':'))
            && self.declared_paths(site.name).is_empty()
    }

    /// Appends a text to `output`, if `writes` is set, with its identifiers substituted as by
    /// `substitute_identifiers`, and records their uses in `used_imports` likewise. `names` must mark
    /// each declared name. After an error the content of `output` is unspecified.
    #[inline(always)]
    pub fn walk(
        &self,
        input: &str,
        used_imports: &mut IndexMap<String, ImportDefWithOffset>,
        output: &mut String,
    ) -> Result<(), SubstituteFault>
        requires { Covers self.now.names.now (declared_of self.now.declared_imports.now) }
        ensures text { let declared = declared_of self.now.declared_imports.now in
            let more = substituted declared (lexemes 0 0 (chars input.now)) in
            let written = string_bytes output.old ++ more in
            IsTrue self.now.writes → OnOk result (string_bytes output.new ≡ written) }
        ensures unwritten { let unwritten = string_bytes output.old in
            self.now.writes ≡ false → OnOk result (string_bytes output.new ≡ unwritten) }
        ensures used { let tokens = lexemes 0 0 (chars input.now) in
            let found = usize_sites (sites self.now.offset tokens) in
            let more = mentions_in (declared_of self.now.declared_imports.now) found in
            OnOk result (uses_of used_imports.new ≡ with_mentions (uses_of used_imports.old) more) }
        ensures allowed { let declared = declared_of self.now.declared_imports.now in
            let found = usize_sites (sites self.now.offset (lexemes 0 0 (chars input.now))) in
            OnOk result (first_ambiguous declared self.now.allow_ambiguous found ≡ None) }
        ensures fault { let declared = declared_of self.now.declared_imports.now in
            let found = usize_sites (sites self.now.offset (lexemes 0 0 (chars input.now))) in
            let refuses = RefusesUses declared self.now.allow_ambiguous found in
            IfErr result (λ e. refuses (uses_of used_imports.old) (uses_of used_imports.new) e) }
    {
        if self.declared_imports.is_empty() && lacks_colons(input) {
            self.write(output, input)?;
            return Ok(());
        }
        let mut unwritten = input;
        let mut rest = input;
        while let Some(site) = next_site(rest) {
            rest = site.following;
            if self.is_own(site) {
                continue;
            }
            self.write(output, text_before(unwritten, site.from))?;
            let place = self.offset.saturating_add(input.len() - site.from.len());
            self.write_identifier(site.name, place, used_imports, output)?;
            unwritten = rest;
        }
        self.write(output, unwritten)?;
        Ok(())
    }
}

// Whether the text has no `::`. Most texts have no `:` at all.
fn lacks_colons(text: &str) -> bool
    ensures { IsTrue result →
        (i : ℕ) → i ≤ length text.now → LacksTextAt (colon ∷ colon ∷ []) text.now i }
{
    !text.as_bytes().contains(&b':') || !text.contains("::")
}

/// Returns a text with each identifier replaced by what it stands for under the declared imports,
/// and records in `used_imports` what the identifiers use, at their places: in bytes, counted from
/// `offset`, and at most the greatest `usize`. An identifier after `.` or `@` is kept. An
/// identifier with several paths is an error, or, where `allow_ambiguous` is set, all its paths are
/// written. After an error `used_imports` holds the first of the uses; after `Ambiguous`, those
/// before its place.
pub fn substitute_identifiers(
    alloc: Global,
    input: &str,
    offset: usize,
    declared_imports: &IndexMap<String, Vec<String>>,
    used_imports: &mut IndexMap<String, ImportDefWithOffset>,
    allow_ambiguous: bool,
) -> Result<String, SubstituteFault>
    ensures text { let given = lexemes 0 0 (chars input.now) in
        let expected = substituted (declared_of declared_imports.now) given in
        IfOk result (λ t. string_bytes t ≡ expected) }
    ensures used { let found = usize_sites (sites offset (lexemes 0 0 (chars input.now))) in
        let more = mentions_in (declared_of declared_imports.now) found in
        OnOk result (uses_of used_imports.new ≡ with_mentions (uses_of used_imports.old) more) }
    ensures allowed { let found = usize_sites (sites offset (lexemes 0 0 (chars input.now))) in
        let first = first_ambiguous (declared_of declared_imports.now) allow_ambiguous found in
        OnOk result (first ≡ None) }
    ensures fault { let found = usize_sites (sites offset (lexemes 0 0 (chars input.now))) in
        let refuses = RefusesUses (declared_of declared_imports.now) allow_ambiguous found in
        IfErr result (λ e. refuses (uses_of used_imports.old) (uses_of used_imports.new) e) }
{
    let mut names = DeclaredNames::new();
    names.mark_from(declared_imports, 0);
    let mut output = String::with_capacity(alloc, input.len())?;
    let substitution = Substitution {
        alloc,
        declared_imports,
        names: &names,
        allow_ambiguous,
        offset,
        writes: true,
    };
    substitution.walk(input, used_imports, &mut output)?;
    Ok(output)
}

/// The place of a use is the offset plus its place in the text, wherever a `usize` can hold the
/// place of the text's end.
pub fn exact_places()
    ensures { (offset : ℕ) (text : List ℕ) → IsUtf8 text → offset + length text < 2 ^ 64 →
        let found = sites offset (lexemes 0 0 (chars text)) in
        usize_sites found ≡ found }
{}
