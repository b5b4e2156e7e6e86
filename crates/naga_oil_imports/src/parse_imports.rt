//! Import lines and what they declare.
ghost use Rattle.std.specs.Prelude.{false, ◌≡◌, ℕ, ◌<◌, ◌≤◌, ◌++◌, ◌∷◌, [], List, length, map, drop, Ok, Err, OnOk, OnErr, IfOk, IsOk, IfErr, IfSome, MatchOption, unwrap_or, string_bytes};
ghost use Rattle.std.specs.List.{concat};
ghost use Rattle.naga_oil_imports.specs.Declarations.{Declared, declared_of, with_path};
ghost use Rattle.std.specs.Str.{chars};
ghost use Rattle.naga_oil_lines.specs.Tokens.{place_of, lexemes, emit};
ghost use Rattle.naga_oil_lines.specs.Tokenizer.{lexeme_of};
ghost use Rattle.naga_oil_imports.specs.Leaves.{leaf, close, after_hash, after_last_colons, before_brace, at_semicolon, alias_after, alias_len, key_of, unit_part, unit_len, brace_len, mark_part, parts, after_import, line_leaves, import_leaves, with_import, with_leaves};
ghost use Rattle.naga_oil_imports.specs.ImportReader.{at_start, step, may_end, without_path};
ghost use Rattle.naga_oil_imports.specs.ImportView.{head_of, RefusesImport, alias_of, part_of, leaf_of, reader_of};

pub use crate::substitute::{SubstituteFault, Substitution, substitute_identifiers};
use indexmap::IndexMap;
use naga_oil_lines::tokenizer::{Token, Tokenizer};
use std::alloc::{AllocError, AllocFailed, Global};

/// Why an import line is refused.
#[derive(Debug, Drop, PartialEq, Eq)]
pub enum ImportFault {
    /// The reason, and its place in bytes from the start of the text.
    Syntax(&'static str, usize),
    /// Out of memory.
    Memory,
}

impl From<AllocError> for ImportFault {
    ghost use Rattle.naga_oil_imports.specs.declared.parse_imports.ImportFault.TheVariants.{Memory};

    ghost from_gives = { λ _ e. e ≡ Memory };

    fn from(_error: AllocError) -> ImportFault {
        ImportFault::Memory
    }
}

impl<T: Drop> From<AllocFailed<T>> for ImportFault {
    ghost use Rattle.naga_oil_imports.specs.declared.parse_imports.ImportFault.TheVariants.{Memory};

    ghost from_gives = { λ _ e. e ≡ Memory };

    fn from(_error: AllocFailed<T>) -> ImportFault {
        ImportFault::Memory
    }
}

// The alias after a name: an `as` may lack its identifier.
#[derive(Clone, Copy)]
enum Alias<'a> {
    NoAlias,
    Name(&'a str),
    Lacking(usize),
}

// A part of an import line: a head, by its name and whether it is of the old form; an item, by its
// key and name.
#[derive(Clone, Copy)]
enum ImportPart<'a> {
    Head(&'a str, bool),
    Item(&'a str, &'a str),
    Close(usize),
    Nothing,
    Wrong(&'static str, usize),
}

// An item that an import line names.
#[derive(Drop)]
struct Leaf {
    key: String,
    path: String,
}

// The part of an import line read so far.
#[derive(Drop)]
struct ImportLine {
    heads: Vec<String>,
    has_old_form: bool,
    leaves: Vec<Leaf>,
}

fn alias_len(alias: Alias<'_>) -> usize
    ensures { result ≡ alias_len (alias_of alias.entry) }
{
    match alias {
        Alias::NoAlias => 0,
        Alias::Name(_) => 2,
        Alias::Lacking(_) => 1,
    }
}

fn alias_after<'a>(tokens: &[Token<'a>]) -> Alias<'a>
    ensures alias { alias_of result ≡ alias_after (map lexeme_of tokens.now) }
    ensures fits { alias_len (alias_of result) ≤ length tokens.now }
{
    let [first, following @ ..] = tokens else {
        return Alias::NoAlias;
    };
    let Token::Identifier(word, at) = first else {
        return Alias::NoAlias;
    };
    if *word != "as" {
        return Alias::NoAlias;
    }
    match following {
        [Token::Identifier(name, _), ..] => Alias::Name(name),
        _ => Alias::Lacking(*at),
    }
}

// The text after the last `::` of a name, else the name.
fn last_segment(name: &str) -> &str
    ensures { result.now ≡ unwrap_or (after_last_colons name.now) name.now }
{
    match name.rsplit_once("::") {
        Some((_, last)) => last,
        None => name,
    }
}

fn key_of<'a>(name: &'a str, alias: Alias<'a>) -> &'a str
    ensures { result.now ≡ key_of name.now (alias_of alias.entry) }
{
    match alias {
        Alias::Name(alias) => alias,
        Alias::NoAlias | Alias::Lacking(_) => last_segment(name),
    }
}

fn before_brace(name: &str, at: usize) -> ImportPart<'_>
    ensures { part_of result ≡ before_brace name.now at }
{
    if name.ends_with("::") {
        ImportPart::Head(name, false)
    } else {
        ImportPart::Wrong("open brace must follow `::`", at)
    }
}

fn unit_part<'a>(name: &'a str, alias: Alias<'a>, following: &[Token<'a>]) -> ImportPart<'a>
    ensures { let more = map lexeme_of following.now in
        part_of result ≡ unit_part name.now (alias_of alias.entry) more }
{
    if let Alias::Lacking(at) = alias {
        return ImportPart::Wrong("expected identifier after `as`", at);
    }
    match following {
        [Token::Identifier(..), ..] => ImportPart::Head(name, true),
        [Token::Other('{', at), ..] => before_brace(name, *at),
        _ => ImportPart::Item(key_of(name, alias), name),
    }
}

fn brace_len(tokens: &[Token<'_>]) -> usize
    ensures len { result ≡ brace_len (map lexeme_of tokens.now) }
    ensures fits { result ≤ length tokens.now }
{
    match tokens {
        [Token::Other('{', _), ..] => 1,
        _ => 0,
    }
}

fn place_of(token: &Token<'_>) -> usize
    ensures { result ≡ place_of (lexeme_of token.now) }
{
    match token {
        Token::Identifier(_, at) | Token::Other(_, at) | Token::Whitespace(_, at) => *at,
    }
}

fn at_semicolon<'a>(following: &[Token<'a>]) -> ImportPart<'a>
    ensures { part_of result ≡ at_semicolon (map lexeme_of following.now) }
{
    match following {
        [] => ImportPart::Nothing,
        [next, ..] => ImportPart::Wrong("unexpected token after ';'", place_of(next)),
    }
}

fn mark_part<'a>(mark: char, at: usize, following: &[Token<'a>]) -> ImportPart<'a>
    ensures { part_of result ≡ mark_part mark at (map lexeme_of following.now) }
{
    match mark {
        ',' => ImportPart::Nothing,
        '}' => ImportPart::Close(at),
        '{' => ImportPart::Wrong("open brace must follow `::`", at),
        ';' => at_semicolon(following),
        _ => ImportPart::Wrong("unexpected token", at),
    }
}

// A unit with the `{` after it, if there is one, and the remaining tokens.
fn unit<'t, 'a>(name: &'a str, following: &'t [Token<'a>]) -> (ImportPart<'a>, &'t [Token<'a>])
    ensures part { let more = map lexeme_of following.now in
        let renamed = alias_after more in
        part_of result.0 ≡ unit_part name.now renamed (drop (alias_len renamed) more) }
    ensures rest { let more = map lexeme_of following.now in
        map lexeme_of result.1.now ≡ drop (unit_len more) more }
    ensures shorter { length result.1.now ≤ length following.now }
{
    let alias = alias_after(following);
    let (_, after) = following.split_at(alias_len(alias));
    let (_, rest) = after.split_at(brace_len(after));
    (unit_part(name, alias, after), rest)
}

// The part that the tokens begin with, and the remaining tokens.
fn next_part<'t, 'a>(tokens: &'t [Token<'a>]) -> Option<(ImportPart<'a>, &'t [Token<'a>])>
    ensures parts { let whole = parts 0 (map lexeme_of tokens.now) in
        MatchOption result (whole ≡ []) (λ r.
        whole ≡ part_of r.0 ∷ parts 0 (map lexeme_of r.1.now)) }
    ensures shorter { IfSome result (λ r. length r.1.now < length tokens.now) }
{
    let Some((first, following)) = tokens.split_first() else {
        return None;
    };
    match first {
        Token::Identifier(name, _) => Some(unit(name, following)),
        Token::Other(mark, at) => Some((mark_part(*mark, *at, following), following)),
        Token::Whitespace(..) => Some((ImportPart::Nothing, following)),
    }
}

// The tokens after `#` and `import`, given the place of the text's end.
fn after_import<'t, 'a>(tokens: &'t [Token<'a>], end: usize) -> Result<&'t [Token<'a>], ImportFault>
    ensures ok { let left = after_import end (map lexeme_of tokens.now) in
        IfOk result (λ r. left ≡ Ok (map lexeme_of r.now)) }
    ensures err { let left = after_import end (map lexeme_of tokens.now) in
        IfErr result (λ e. RefusesImport e left) }
{
    let [first, following @ ..] = tokens else {
        return Err(ImportFault::Syntax("expected #import", end));
    };
    let Token::Other('#', _) = first else {
        return Err(ImportFault::Syntax("expected `#import`", place_of(first)));
    };
    after_hash(following, end)
}

fn after_hash<'t, 'a>(tokens: &'t [Token<'a>], end: usize) -> Result<&'t [Token<'a>], ImportFault>
    ensures ok { let left = after_hash end (map lexeme_of tokens.now) in
        IfOk result (λ r. left ≡ Ok (map lexeme_of r.now)) }
    ensures err { let left = after_hash end (map lexeme_of tokens.now) in
        IfErr result (λ e. RefusesImport e left) }
{
    let [first, following @ ..] = tokens else {
        return Err(ImportFault::Syntax("expected `#import`", end));
    };
    let Token::Identifier(word, at) = first else {
        return Err(ImportFault::Syntax("expected `#import`", place_of(first)));
    };
    if *word != "import" {
        return Err(ImportFault::Syntax("expected `#import`", *at));
    }
    Ok(following)
}

impl ImportLine {
    fn new(alloc: Global) -> ImportLine
        ensures { reader_of result ≡ at_start }
    {
        ImportLine {
            heads: Vec::new(alloc),
            has_old_form: false,
            leaves: Vec::new(alloc),
        }
    }

    fn push_head(&mut self, alloc: Global, name: &str, is_old: bool) -> Result<(), AllocError>
        ensures { let next = step (reader_of self.old) (head_of name.now is_old) in
            OnOk result (next ≡ Ok (reader_of self.new)) }
    {
        let mut text = String::from_str(alloc, name)?;
        if is_old {
            text.push_str("::")?;
        }
        self.heads.push(text)?;
        self.has_old_form = self.has_old_form || is_old;
        Ok(())
    }

    // The texts of all heads, then the name.
    fn path_of(&self, alloc: Global, name: &str) -> Result<String, AllocError>
        ensures { let front = concat (map string_bytes self.now.heads.items) in
            IfOk result (λ t. string_bytes t ≡ front ++ name.now) }
    {
        let mut path = String::new(alloc);
        for head in &self.heads {
            path.push_str(head.as_str())?;
        }
        path.push_str(name)?;
        Ok(path)
    }

    fn push_leaf(&mut self, alloc: Global, key: &str, name: &str) -> Result<(), AllocError>
        ensures { let next = step (reader_of self.old) (leaf key.now name.now) in
            OnOk result (next ≡ Ok (reader_of self.new)) }
    {
        let path = self.path_of(alloc, name)?;
        let key = String::from_str(alloc, key)?;
        self.leaves.push(Leaf { key, path })?;
        Ok(())
    }

    fn close(&mut self, at: usize) -> Result<(), ImportFault>
        ensures ok { OnOk result (step (reader_of self.old) (close at) ≡ Ok (reader_of self.new)) }
        ensures err { IfErr result (λ e. RefusesImport e (step (reader_of self.old) (close at))) }
    {
        match self.heads.pop() {
            Some(_) => Ok(()),
            None => Err(ImportFault::Syntax("close brace without open", at)),
        }
    }

    fn take_part(&mut self, alloc: Global, part: ImportPart<'_>) -> Result<(), ImportFault>
        ensures ok { let next = step (reader_of self.old) (part_of part.entry) in
            OnOk result (next ≡ Ok (reader_of self.new)) }
        ensures err { let next = step (reader_of self.old) (part_of part.entry) in
            IfErr result (λ e. RefusesImport e next) }
    {
        match part {
            ImportPart::Head(name, is_old) => Ok(self.push_head(alloc, name, is_old)?),
            ImportPart::Item(key, name) => Ok(self.push_leaf(alloc, key, name)?),
            ImportPart::Close(at) => self.close(at),
            ImportPart::Nothing => Ok(()),
            ImportPart::Wrong(text, at) => Err(ImportFault::Syntax(text, at)),
        }
    }

    fn may_end(&self) -> bool
        ensures { result ≡ may_end (reader_of self.now) }
    {
        self.heads.len() <= if self.has_old_form { 1 } else { 0 }
    }
}

fn tokens_of<'a>(alloc: Global, input: &'a str) -> Result<Vec<Token<'a>>, AllocError>
    ensures { let expected = emit false (lexemes 0 0 (chars input.now)) in
        IfOk result (λ v. map lexeme_of v.items ≡ expected) }
{
    Tokenizer::new(input, false).collect(alloc)
}

// The leaves of a text read as an import line.
fn read_leaves(alloc: Global, input: &str) -> Result<Vec<Leaf>, ImportFault>
    ensures ok { IfOk result (λ ls. import_leaves input.now ≡ Ok (map leaf_of ls.items)) }
    ensures err { IfErr result (λ e. RefusesImport e (import_leaves input.now)) }
{
    let tokens = tokens_of(alloc, input)?;
    let mut rest = after_import(tokens.as_slice(), input.len())?;
    let mut line = ImportLine::new(alloc);
    while let Some((part, following)) = next_part(rest) {
        line.take_part(alloc, part)?;
        rest = following;
    }
    if !line.may_end() {
        return Err(ImportFault::Syntax("missing close brace", input.len()));
    }
    Ok(line.leaves)
}

// Appends a path at a key. When out of memory, the map stays unchanged.
fn push_path(
    alloc: Global,
    declared: &mut IndexMap<String, Vec<String>>,
    key: &str,
    path: &str,
) -> Result<(), AllocError>
    ensures ok { let more = with_path (declared_of declared.old) key.now path.now in
        OnOk result (declared_of declared.new ≡ more) }
    ensures err { OnErr result (declared_of declared.new ≡ declared_of declared.old) }
{
    let path = String::from_str(alloc, path)?;
    if let Some(index) = declared.get_index_of(key) {
        declared[index].push(path)?;
        return Ok(());
    }
    let key = String::from_str(alloc, key)?;
    let mut paths = Vec::new(alloc);
    paths.push(path)?;
    declared.insert(key, paths)?;
    Ok(())
}

// Removes the last path at a key.
fn pop_path(declared: &mut IndexMap<String, Vec<String>>, key: &str)
    ensures { declared_of declared.new ≡ without_path (declared_of declared.old) key.now }
{
    if let Some(index) = declared.get_index_of(key) {
        declared[index].pop();
    }
}

// Removes the leaves that were appended last to a map of `len` keys.
fn take_back(declared: &mut IndexMap<String, Vec<String>>, len: usize, leaves: &[Leaf])
    ensures { (before : Declared) → length before ≡ len →
        declared_of declared.old ≡ with_leaves before (map leaf_of leaves.now) →
        declared_of declared.new ≡ before }
{
    let mut rest = leaves;
    while let Some((last, front)) = rest.split_last() {
        pop_path(declared, last.key.as_str());
        rest = front;
    }
    declared.truncate(len);
}

// Appends the path of each leaf at its key; when out of memory, none of them.
fn push_leaves(
    alloc: Global,
    declared: &mut IndexMap<String, Vec<String>>,
    leaves: &[Leaf],
) -> Result<(), AllocError>
    ensures ok { let more = with_leaves (declared_of declared.old) (map leaf_of leaves.now) in
        OnOk result (declared_of declared.new ≡ more) }
    ensures err { OnErr result (declared_of declared.new ≡ declared_of declared.old) }
{
    let len = declared.len();
    for (i, leaf) in leaves.iter().enumerate() {
        if let Err(error) = push_path(alloc, declared, leaf.key.as_str(), leaf.path.as_str()) {
            let (pushed, _) = leaves.split_at(i);
            take_back(declared, len, pushed);
            return Err(error);
        }
    }
    Ok(())
}

/// Reads a text as an import line, in the forms that naga_oil's README shows, and appends the path
/// of each item to the paths of the item's key. The key is the item's alias, else the text after
/// the last `::` of its name, else its name. A new key is appended last; a path that a key already
/// has is appended again. On an error the map stays unchanged.
pub fn parse_imports(
    alloc: Global,
    input: &str,
    declared_imports: &mut IndexMap<String, Vec<String>>,
) -> Result<(), ImportFault>
    ensures ok { let old = declared_of declared_imports.old in
        let more = with_import old (import_leaves input.now) in
        OnOk result (more ≡ Ok (declared_of declared_imports.new)) }
    ensures fault { IfErr result (λ e. RefusesImport e (import_leaves input.now)) }
    ensures unchanged { let old = declared_of declared_imports.old in
        OnErr result (declared_of declared_imports.new ≡ old) }
{
    let leaves = read_leaves(alloc, input)?;
    push_leaves(alloc, declared_imports, leaves.as_slice())?;
    Ok(())
}

/// Reads a text as an import line, as `parse_imports` does, only for its fault.
pub fn check_imports(alloc: Global, input: &str) -> Result<(), ImportFault>
    ensures ok { OnOk result (IsOk (import_leaves input.now)) }
    ensures err { IfErr result (λ e. RefusesImport e (import_leaves input.now)) }
{
    read_leaves(alloc, input)?;
    Ok(())
}
