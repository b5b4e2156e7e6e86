// The costs of shaders in a tree of 500 modules of 8 functions each, in which module n imports modules 2n and 2n + 1.
//
// A build parses its whole text, and where it is validated its header again; a shader is parsed once. So a make that builds
// k modules parses 2k + 1 texts, or k + 1 without validation.
use naga_oil_projects::{Cost, Counting, Project, Refusal, Tree};
use std::cell::Cell;
use std::process::Abort;
use std::test::Fail;

// The last `recording` modules record the name.
fn tree(recording: usize) -> Tree {
    Tree {
        modules: 500,
        functions: 8,
        terms: 1,
        recording,
    }
}

// A shader has this cost.
fn costs(
    rt: &impl Abort,
    project: &mut Project<'_>,
    parses: usize,
    builds: u64,
) -> Result<(), Refusal> {
    let cost = project.make(1)?;
    assert_eq!(rt; cost, Cost { parses, builds });
    Ok(())
}

// Nothing but the shader is parsed again. What reaches module 500 by imports are 250, 125, 62, 31, 15, 7, 3 and 1: with it 9
// modules, which are removed when module 500 is added again.
#[test]
fn builds_what_reaches_a_leaf(rt: HostRuntime) -> Result<(), Fail> {
    let (parses, limit) = (Cell::new(0), Cell::new(usize::MAX));
    let front = Counting::new(&parses, &limit);
    let mut project = Project::new(rt.alloc(), tree(0), front);
    assert_eq!(rt; project.add_missing()?, 500);
    costs(&rt, &mut project, 2 * 500 + 1, 500)?;
    costs(&rt, &mut project, 1, 0)?;
    project.add(500)?;
    assert_eq!(rt; project.add_missing()?, 8);
    costs(&rt, &mut project, 2 * 9 + 1, 9)?;
    Ok(())
}

// Memory runs out after 500 texts, those of 250 modules.
#[test]
fn builds_what_was_not_built_before_memory_ran_out(rt: HostRuntime) -> Result<(), Fail> {
    let (parses, limit) = (Cell::new(0), Cell::new(500));
    let front = Counting::new(&parses, &limit);
    let mut project = Project::new(rt.alloc(), tree(0), front);
    assert_eq!(rt; project.add_missing()?, 500);
    assert!(rt; matches!(&project.make(1), Err(Refusal::Memory)));
    assert_eq!(rt; parses.get(), 501);
    limit.set(usize::MAX);
    costs(&rt, &mut project, 2 * 250 + 1, 250)?;
    Ok(())
}

// A hundred variants, of a name that modules 491 to 500 record. What reaches these by imports are 245 to 250, 122 to 125, 61
// and 62, 30 and 31, 15, 7, 3 and 1: with them 28 modules, of which each value has builds of its own.
#[test]
fn builds_what_reaches_a_name(rt: HostRuntime) -> Result<(), Fail> {
    let (parses, limit) = (Cell::new(0), Cell::new(usize::MAX));
    let front = Counting::new(&parses, &limit);
    let mut project = Project::new(rt.alloc(), tree(10), front);
    assert_eq!(rt; project.add_missing()?, 500);
    let want = Cost {
        parses: 2 * (500 + 99 * 28) + 100,
        builds: 500 + 99 * 28,
    };
    assert_eq!(rt; project.make_each(1, 100)?, want);
    Ok(())
}

// The same without validation.
#[test]
fn builds_what_reaches_a_name_without_validation(rt: HostRuntime) -> Result<(), Fail> {
    let (parses, limit) = (Cell::new(0), Cell::new(usize::MAX));
    let front = Counting::new(&parses, &limit);
    let mut project = Project::non_validating(rt.alloc(), tree(10), front);
    assert_eq!(rt; project.add_missing()?, 500);
    let want = Cost {
        parses: 500 + 99 * 28 + 100,
        builds: 500 + 99 * 28,
    };
    assert_eq!(rt; project.make_each(1, 100)?, want);
    Ok(())
}
