// The order in which the modules of files are added, or the report of why there is none.
ghost use Rattle.std.specs.Prelude.{◌≡◌, ◌++◌, IfOk, OnOk, map, string_bytes};
ghost use Rattle.std.specs.List.{flat_map};
ghost use Rattle.yettuvam_build.specs.Files.{file_of};
ghost use Rattle.yettuvam_build.specs.Order as spec;
ghost use Rattle.yettuvam_build.specs.Refusals.{Gives};
ghost use Rattle.yettuvam_files.specs.Files.{texts_of};

use super::refusal::Refusal;
use std::alloc::{AllocError, Global};
use yettuvam_files::{Unsorted, sorted_files};

// The path of the file at a place.
#[tactic(auto, using(crate::proofs::FileLemmas::file_at))]
fn path_at<'a>(files: &[(&'a str, String)], place: usize) -> &'a str
    ensures { result.now ≡ spec.path_at (map file_of files.now) place }
{
    match files.get(place) {
        Some(file) => file.0,
        None => "",
    }
}

// The report of two files that have the same import path.
fn twins_report(alloc: Global, first: &str, second: &str) -> Result<String, AllocError>
    ensures { IfOk result (λ t. string_bytes t ≡ spec.twins_report first.now second.now) }
{
    let mut report = String::from_str(alloc, "error: ")?;
    report.push_str(first)?;
    report.push_str(" and ")?;
    report.push_str(second)?;
    report.push_str(" have the same import path\n")?;
    Ok(report)
}

// Writes the files at places, each of which imports the next.
fn push_importers(
    report: &mut String,
    files: &[(&str, String)],
    places: &[usize],
) -> Result<(), AllocError>
    ensures { let told = flat_map (spec.importer (map file_of files.now)) places.now in
        OnOk result (string_bytes report.new ≡ string_bytes report.old ++ told) }
{
    let mut rest = places;
    while let [place, more @ ..] = rest {
        report.push_str(path_at(files, *place))?;
        report.push_str(" imports ")?;
        rest = more;
    }
    Ok(())
}

// The path of the file at the first of places.
fn first_path<'a>(files: &[(&'a str, String)], places: &[usize]) -> &'a str
    ensures { result.now ≡ spec.first_path (map file_of files.now) places.now }
{
    match places {
        [place, ..] => path_at(files, *place),
        [] => "",
    }
}

// The report of files of which each imports the next, and the last the first.
fn cycle_report(
    alloc: Global,
    files: &[(&str, String)],
    places: &[usize],
) -> Result<String, AllocError>
    ensures { let told = spec.cycle_report (map file_of files.now) places.now in
        IfOk result (λ t. string_bytes t ≡ told) }
{
    let mut report = String::from_str(alloc, "error: a module imports itself: ")?;
    push_importers(&mut report, files, places)?;
    report.push_str(first_path(files, places))?;
    report.push_str("\n")?;
    Ok(report)
}

fn module_texts<'f>(alloc: Global, files: &'f [(&str, String)]) -> Result<Vec<&'f str>, AllocError>
    ensures { let texts = map (λ f. f.text) (map file_of files.now) in
        IfOk result (λ v. texts_of v.items ≡ texts) }
{
    let mut texts = Vec::new(alloc);
    let mut rest = files;
    while let [file, more @ ..] = rest {
        texts.push(file.1.as_str())?;
        rest = more;
    }
    Ok(texts)
}

/// The places of files in an order in which each stands after those whose modules it imports, or the report of why there is none.
pub fn module_order<'a>(alloc: Global, files: &[(&str, String)]) -> Result<Vec<usize>, Refusal<'a>>
    ensures { Gives (λ v. v.items) result (spec.module_order (map file_of files.now)) }
{
    let texts = module_texts(alloc, files)?;
    match sorted_files(alloc, &texts) {
        Ok(order) => Ok(order),
        Err(Unsorted::Twins(first, second)) => {
            let report = twins_report(alloc, path_at(files, first), path_at(files, second))?;
            Err(Refusal::Fault(report))
        }
        Err(Unsorted::Cycle(places)) => {
            Err(Refusal::Fault(cycle_report(alloc, files, &places)?))
        }
        Err(Unsorted::Memory) => Err(Refusal::Memory),
    }
}
