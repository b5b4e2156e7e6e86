// Modules that import one another as a tree.
use std::alloc::{AllocError, Global};
use std::fmt::Write;
use std::ops::Range;

/// A tree of modules: module 1 is its root, and module n imports modules 2n and 2n + 1, where there are such. The first
/// function of a module calls the first one of each module that it imports; its others call none.
#[derive(Clone, Copy, Debug)]
pub struct Tree {
    pub modules: usize,
    /// The number of functions of each module, at least one.
    pub functions: usize,
    /// The number of terms of each function but the first, besides its parameter.
    pub terms: usize,
    /// The number of modules that record the name `SHADE`. These are the last ones.
    pub recording: usize,
}

impl Tree {
    /// The name of a module.
    pub fn name(alloc: Global, number: usize) -> Result<String, AllocError> {
        format!(in alloc; "m{number}")
    }

    // The modules that a module imports.
    fn children(&self, number: usize) -> Range<usize> {
        let first = number.saturating_mul(2);
        let end = self.modules.saturating_add(1);
        first..first.saturating_add(2).min(end)
    }

    // Whether a module records the name `SHADE`.
    fn records(&self, number: usize) -> bool {
        number > self.modules.saturating_sub(self.recording)
    }

    // The first function of a module.
    fn push_first(&self, text: &mut String, number: usize) -> Result<(), AllocError> {
        text.push_str("fn f0(a) = a")?;
        if self.records(number) {
            text.push_str(" + #SHADE")?;
        }
        for child in self.children(number) {
            write!(text, " + m{child}::f0(a)")?;
        }
        text.push('\n')
    }

    // Another function of a module.
    fn push_other(&self, text: &mut String, function: usize) -> Result<(), AllocError> {
        write!(text, "fn f{function}(a) = a")?;
        for term in 0..self.terms {
            write!(text, " + {term}")?;
        }
        text.push('\n')
    }

    /// The text of a module.
    pub fn text(&self, alloc: Global, number: usize) -> Result<String, AllocError> {
        let mut text = format!(in alloc; "#define_import_path m{number}\n")?;
        for child in self.children(number) {
            writeln!(text, "#import m{child}")?;
        }
        self.push_first(&mut text, number)?;
        for function in 1..self.functions {
            self.push_other(&mut text, function)?;
        }
        Ok(text)
    }
}
