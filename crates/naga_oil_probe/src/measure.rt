// The costs of builds in one composer, a line for each step.
use super::failure::Failure;
use super::words::{Measurement, Task};
use naga_oil_projects::{Cost, Counting, Project, Tree};
use std::cell::Cell;
use std::fmt::Display;
use std::io;
use std::rt::Clock;
use std::time::Instant;

// The number of functions of each module.
const FUNCTIONS: usize = 8;

// The number of terms of each function but the first.
const TERMS: usize = 16;

// Prints steps. `since` is the start of the next step, where times are printed.
#[derive(Drop)]
struct Printer<'r, R: Print + Clock> {
    rt: &'r R,
    since: Option<Instant>,
}

impl<'r, R: Print + Clock> Printer<'r, R> {
    fn new(rt: &'r R, times: bool) -> io::Result<Printer<'r, R>> {
        let since = if times { Some(Instant::now(rt)?) } else { None };
        Ok(Printer { rt, since })
    }

    // Ends a line, after the time of its step where times are printed.
    fn end(&mut self) -> io::Result<()> {
        let Some(since) = self.since else {
            return println!(self.rt; "");
        };
        let took = since.elapsed(self.rt)?.as_millis();
        println!(self.rt; ", {took} ms")?;
        self.since = Some(Instant::now(self.rt)?);
        Ok(())
    }

    fn print_added(&mut self, modules: usize) -> io::Result<()> {
        print!(self.rt; "{modules} modules added")?;
        self.end()
    }

    fn print_cost(&mut self, what: impl Display + Drop, cost: Cost) -> io::Result<()> {
        let Cost { parses, builds } = cost;
        print!(self.rt; "{what}: {parses} parses, {builds} builds")?;
        self.end()
    }
}

// Adds a leaf of the tree again, and the modules that reach it by imports.
fn reload<R: Print + Clock>(
    project: &mut Project<'_>,
    printer: &mut Printer<'_, R>,
    leaf: usize,
) -> Result<(), Failure> {
    printer.print_cost("first make", project.make(1)?)?;
    printer.print_cost("second make", project.make(1)?)?;
    project.add(leaf)?;
    let more = project.add_missing()?;
    printer.print_added(more.saturating_add(1))?;
    printer.print_cost("make after that", project.make(1)?)?;
    Ok(())
}

// Builds a shader for each of `values` values of a name, and each of them again.
fn variants<R: Print + Clock>(
    project: &mut Project<'_>,
    printer: &mut Printer<'_, R>,
    values: u16,
) -> Result<(), Failure> {
    printer.print_cost("first variant", project.make(1)?)?;
    let others = values.saturating_sub(1);
    let cost = project.make_each(2, others)?;
    printer.print_cost(format_args!("{others} more variants"), cost)?;
    let cost = project.make_each(1, values)?;
    printer.print_cost(format_args!("all {values} variants again"), cost)?;
    Ok(())
}

/// Runs the steps of a measurement, and prints the cost of each.
pub fn print<R: Print + Clock + AllocGlobal>(
    rt: &R,
    measurement: Measurement,
) -> Result<(), Failure> {
    let recording = match measurement.task {
        Task::Reload => 0,
        Task::Variants { recording, .. } => recording,
    };
    let tree = Tree {
        modules: usize::from(measurement.modules),
        functions: FUNCTIONS,
        terms: TERMS,
        recording: usize::from(recording),
    };
    let (parses, limit) = (Cell::new(0), Cell::new(usize::MAX));
    let front = Counting::new(&parses, &limit);
    let mut project = Project::new(rt.alloc(), tree, front);
    let mut printer = Printer::new(rt, measurement.times)?;
    printer.print_added(project.add_missing()?)?;
    match measurement.task {
        Task::Reload => reload(&mut project, &mut printer, tree.modules),
        Task::Variants { values, .. } => variants(&mut project, &mut printer, values),
    }
}
