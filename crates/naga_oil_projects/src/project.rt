// Modules in a composer, and shaders that are built from them.
use super::counting::Counting;
use super::tree::Tree;
use naga_oil::compose::{
    ComposableModuleDescriptor, Composer, ComposerError, NagaModuleDescriptor, ShaderDefValue,
};
use std::alloc::{AllocError, Global};
use std::cell::Cell;
use std::fmt;

const TOP: &str = "#import m1\nentry main = m1::f0(1)\n";

/// The cost of builds.
#[derive(Clone, Copy, Debug, Default, PartialEq, Eq)]
pub struct Cost {
    /// The number of texts that were parsed.
    pub parses: usize,
    /// The number of builds that were newly kept.
    pub builds: u64,
}

impl Cost {
    /// The sum of two costs.
    pub fn plus(self, other: Cost) -> Cost {
        Cost {
            parses: self.parses.saturating_add(other.parses),
            builds: self.builds.saturating_add(other.builds),
        }
    }
}

/// The errors of a project.
#[derive(Debug, Drop)]
pub enum Refusal {
    /// The report of an error.
    Fault(String),
    Memory,
}

impl fmt::Display for Refusal {
    fn fmt<W: fmt::Write>(&self, f: &mut fmt::Formatter<W>) -> fmt::Result {
        match self {
            Refusal::Fault(report) => write!(f, "{report}"),
            Refusal::Memory => write!(f, "error: out of memory\n"),
        }
    }
}

impl From<AllocError> for Refusal {
    fn from(_: AllocError) -> Self {
        Refusal::Memory
    }
}

/// The modules of a tree in a composer, with the costs of builds.
#[derive(Drop)]
pub struct Project<'c> {
    alloc: Global,
    tree: Tree,
    parses: &'c Cell<usize>,
    composer: Composer<Counting<'c>>,
}

impl<'c> Project<'c> {
    /// A project without modules. Shaders are validated.
    pub fn new(alloc: Global, tree: Tree, front: Counting<'c>) -> Project<'c> {
        Project {
            alloc,
            tree,
            parses: front.parses(),
            composer: Composer::new(alloc, front),
        }
    }

    /// A project without modules. Nothing is validated.
    pub fn non_validating(alloc: Global, tree: Tree, front: Counting<'c>) -> Project<'c> {
        Project {
            alloc,
            tree,
            parses: front.parses(),
            composer: Composer::non_validating(alloc, front),
        }
    }

    // The refusal of an error.
    fn told(&self, error: ComposerError) -> Refusal {
        match error.emit_to_string(&self.composer) {
            Ok(report) if !error.inner.is_memory() => Refusal::Fault(report),
            _ => Refusal::Memory,
        }
    }

    /// Adds a module. A module with that name, and all that reach it by imports, are removed before.
    pub fn add(&mut self, number: usize) -> Result<(), Refusal> {
        let name = Tree::name(self.alloc, number)?;
        let text = self.tree.text(self.alloc, number)?;
        let mut desc = ComposableModuleDescriptor::new(self.alloc);
        desc.source = text.as_str();
        desc.file_path = name.as_str();
        match self.composer.add_module(desc) {
            Ok(_) => Ok(()),
            Err(error) => Err(self.told(error)),
        }
    }

    /// Adds the missing modules, each after its imports, and returns their number.
    pub fn add_missing(&mut self) -> Result<usize, Refusal> {
        let mut added = 0usize;
        for number in (1..=self.tree.modules).rev() {
            let name = Tree::name(self.alloc, number)?;
            if !self.composer.contains_module(name.as_str()) {
                self.add(number)?;
                added = added.saturating_add(1);
            }
        }
        Ok(added)
    }

    /// Builds a shader of the root under a value of the name `SHADE`, and returns the cost.
    pub fn make(&mut self, shade: i32) -> Result<Cost, Refusal> {
        let (parses, builds) = (self.parses.get(), self.composer.builds());
        let mut desc = NagaModuleDescriptor::new(self.alloc);
        desc.source = TOP;
        desc.file_path = "top";
        let name = String::from_str(self.alloc, "SHADE")?;
        let shade = ShaderDefValue::Int(shade);
        desc.shader_defs
            .insert(name, shade)
            .map_err(AllocError::from)?;
        if let Err(error) = self.composer.make_naga_module(desc) {
            return Err(self.told(error));
        }
        Ok(Cost {
            parses: self.parses.get().saturating_sub(parses),
            builds: self.composer.builds().saturating_sub(builds),
        })
    }

    /// Builds a shader for each of `count` values of the name `SHADE`, from `first` on, and returns the cost.
    pub fn make_each(&mut self, first: i32, count: u16) -> Result<Cost, Refusal> {
        let mut cost = Cost::default();
        for step in 0..count {
            let shade = first.saturating_add(i32::from(step));
            cost = cost.plus(self.make(shade)?);
        }
        Ok(cost)
    }
}
