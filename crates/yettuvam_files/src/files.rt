// What files say of themselves, and the order in which their modules are registered.
ghost use Rattle.std.specs.Prelude.{◌≡◌, ◌++◌, IfOk, OnOk, map, option_map, string_bytes};
ghost use Rattle.naga_oil_imports.specs.Uses.{import_of};
ghost use Rattle.yettuvam_files.specs.Files as spec;
ghost use Rattle.yettuvam_files.specs.Files.{Gives, Orders, header_of, headers_of, places_of};
ghost use Rattle.yettuvam_files.specs.Rounds.{uses_view};

use crate::rounds::{Unordered, ordered};
use indexmap::IndexMap;
use naga_oil_imports::ImportDefinition;
use naga_oil_pre::get_preprocessor_data;
use std::alloc::{AllocError, Global};

/// Why files have no order.
#[derive(Drop)]
pub enum Unsorted {
    /// Two files, by their places, whose texts have one import path.
    Twins(usize, usize),
    /// Files of which each imports the next, and the last the first.
    Cycle(Vec<usize>),
    Memory,
}

impl From<AllocError> for Unsorted {
    ghost use Rattle.std.specs.Prelude.{◌≡◌};
    ghost use Rattle.yettuvam_files.specs.declared.files.Unsorted.TheVariants.{Memory};

    ghost from_gives = { λ _ refusal. refusal ≡ Memory };

    fn from(_: AllocError) -> Self {
        Unsorted::Memory
    }
}

/// The import path of a text, and what it imports.
#[derive(Drop)]
struct Header {
    name: Option<String>,
    imports: Vec<ImportDefinition>,
}

// The import path of a text, and what it imports. A text with an error has neither.
#[tactic(auto, unfolding(crate::specs::Files::header))]
fn read_header(alloc: Global, text: &str) -> Result<Header, AllocError>
    ensures { IfOk result (λ h. header_of h ≡ spec.header text.now) }
{
    let (name, imports, _) = get_preprocessor_data(alloc, text)?;
    Ok(Header { name, imports })
}

fn read_headers(alloc: Global, texts: &[&str]) -> Result<Vec<Header>, AllocError>
    ensures { IfOk result (λ v. headers_of v.items ≡ map spec.header (spec.texts_of texts.now)) }
{
    let mut headers = Vec::new(alloc);
    let mut rest = texts;
    while let [text, more @ ..] = rest {
        headers.push(read_header(alloc, *text)?)?;
        rest = more;
    }
    Ok(headers)
}

// The place of the file with an import path.
fn place_of(places: &IndexMap<String, usize>, name: &str) -> Option<usize>
    ensures { result ≡ spec.place_of (places_of places.now) name.now }
{
    places.get(name).copied()
}

fn set_place(
    alloc: Global,
    places: &mut IndexMap<String, usize>,
    name: &str,
    place: usize,
) -> Result<(), AllocError>
    ensures { OnOk result (places_of places.new ≡ spec.with_place (places_of places.old) name.now place) }
{
    let name = String::from_str(alloc, name)?;
    places.insert(name, place)?;
    Ok(())
}

// Adds the file at a place by its import path, which no file has yet.
fn add_name(
    alloc: Global,
    places: &mut IndexMap<String, usize>,
    name: &str,
    place: usize,
) -> Result<(), Unsorted>
    ensures { Gives result (places_of places.new)
        (spec.add_name (places_of places.old) name.now place) }
{
    if let Some(first) = place_of(places, name) {
        return Err(Unsorted::Twins(first, place));
    }
    Ok(set_place(alloc, places, name, place)?)
}

fn add_header(
    alloc: Global,
    places: &mut IndexMap<String, usize>,
    header: &Header,
    place: usize,
) -> Result<(), Unsorted>
    ensures { Gives result (places_of places.new)
        (spec.add_header (places_of places.old) (header_of header.now) place) }
{
    match &header.name {
        Some(name) => add_name(alloc, places, name.as_str(), place),
        None => Ok(()),
    }
}

#[tactic(auto, unfolding(crate::specs::Files::add_headers))]
fn add_headers(
    alloc: Global,
    places: &mut IndexMap<String, usize>,
    count: usize,
    headers: &[Header],
) -> Result<(), Unsorted>
    ensures { Gives result (places_of places.new)
        (spec.add_headers count (places_of places.old) (headers_of headers.now)) }
{
    let mut rest = headers;
    while let [header, more @ ..] = rest {
        add_header(alloc, places, header, count.saturating_sub(rest.len()))?;
        rest = more;
    }
    Ok(())
}

fn push_any(out: &mut Vec<usize>, place: Option<usize>) -> Result<(), AllocError>
    ensures { OnOk result (out.new.items ≡ out.old.items ++ spec.some_place place) }
{
    match place {
        Some(place) => Ok(out.push(place)?),
        None => Ok(()),
    }
}

// The places of the files that are imported; what no file is, is left out.
fn used_places(
    alloc: Global,
    places: &IndexMap<String, usize>,
    imports: &[ImportDefinition],
) -> Result<Vec<usize>, AllocError>
    ensures { IfOk result (λ v. v.items ≡
        spec.used_places (places_of places.now) (map import_of imports.now)) }
{
    let mut used = Vec::new(alloc);
    let mut rest = imports;
    while let [import, more @ ..] = rest {
        push_any(&mut used, place_of(places, import.import.as_str()))?;
        rest = more;
    }
    Ok(used)
}

fn all_uses(
    alloc: Global,
    places: &IndexMap<String, usize>,
    headers: &[Header],
) -> Result<Vec<Vec<usize>>, AllocError>
    ensures { IfOk result (λ v. uses_view v.items ≡
        spec.all_uses (places_of places.now) (headers_of headers.now)) }
{
    let mut uses = Vec::new(alloc);
    let mut rest = headers;
    while let [header, more @ ..] = rest {
        uses.push(used_places(alloc, places, &header.imports)?)?;
        rest = more;
    }
    Ok(uses)
}

fn in_order(alloc: Global, uses: &[Vec<usize>]) -> Result<Vec<usize>, Unsorted>
    ensures { Orders result (spec.in_order (uses_view uses.now)) }
{
    match ordered(alloc, uses) {
        Ok(order) => Ok(order),
        Err(Unordered::Cycle(members)) => Err(Unsorted::Cycle(members)),
        Err(Unordered::Memory) => Err(Unsorted::Memory),
    }
}

#[tactic(auto, unfolding(crate::specs::Files::sorted_headers))]
fn sorted_headers(alloc: Global, headers: &[Header]) -> Result<Vec<usize>, Unsorted>
    ensures { Orders result (spec.sorted_headers (headers_of headers.now)) }
{
    let mut places = IndexMap::new(alloc);
    add_headers(alloc, &mut places, headers.len(), headers)?;
    let uses = all_uses(alloc, &places, headers)?;
    in_order(alloc, &uses)
}

/// Returns the places of files in an order in which each stands after the files whose modules its text imports. Imports of other
/// modules, and texts that have an error, are no hindrance.
///
/// # Errors
/// `Twins` if two texts have one import path, or else `Cycle` if a module imports itself through others. `Memory` if out of
/// memory.
pub fn sorted_files(alloc: Global, texts: &[&str]) -> Result<Vec<usize>, Unsorted>
    ensures { Orders result (spec.sorted_files (spec.texts_of texts.now)) }
{
    let headers = read_headers(alloc, texts)?;
    sorted_headers(alloc, &headers)
}
