// The open chains of conditions.
ghost use Rattle.std.specs.Prelude.{◌≡◌, ◌∷◌, OnOk, IfOk, [], false};

use std::alloc::{AllocError, Global};
use std::marker::Model;

/// The state of the chain at an arm.
#[derive(Clone, Copy, Debug, PartialEq, Eq)]
pub enum ScopeLevel {
    Active,
    PreviouslyActive,
    NotActive,
}

impl ScopeLevel {
    ghost use Rattle.naga_oil_conditions.specs.Scope.{level, has_met};

    // The level of an arm, by whether the block around its chain is active, whether an earlier arm
    // held and whether this one holds.
    fn of_arm(is_active: bool, has_met: bool, holds: bool) -> ScopeLevel
        ensures { result ≡ level is_active has_met holds }
    {
        if !is_active {
            ScopeLevel::NotActive
        } else if has_met {
            ScopeLevel::PreviouslyActive
        } else if holds {
            ScopeLevel::Active
        } else {
            ScopeLevel::NotActive
        }
    }

    fn has_met(self) -> bool
        ensures { result ≡ has_met self }
    {
        !matches!(self, ScopeLevel::NotActive)
    }
}

/// The levels of the open chains. Clauses see the innermost first.
#[derive(Debug, Drop)]
pub struct Scope {
    levels: Vec<ScopeLevel>,
}

impl Model for Scope {
    ghost use Rattle.std.specs.Prelude.{List, reverse};
    ghost use Rattle.naga_oil_conditions.specs.declared.scope.ScopeLevel.{ScopeLevel};

    ghost Value = { List ScopeLevel };

    ghost view = { λ s. reverse s.levels.items };
}

impl Scope {
    ghost use Rattle.naga_oil_conditions.specs.Scope.{level, is_active, is_open, next_arm, outer_levels};

    pub fn new(alloc: Global) -> Scope
        ensures { result ≡ [] }
    {
        Scope {
            levels: Vec::new(alloc),
        }
    }

    pub fn is_open(&self) -> bool
        ensures { result ≡ is_open self.now }
    {
        !self.levels.is_empty()
    }

    pub fn is_active(&self) -> bool
        ensures { result ≡ is_active self.now }
    {
        match self.levels.last() {
            None => true,
            Some(level) => matches!(level, ScopeLevel::Active),
        }
    }

    pub fn open(&mut self, holds: bool) -> Result<(), AllocError>
        ensures { OnOk result (self.new ≡ level (is_active self.old) false holds ∷ self.old) }
    {
        let level = ScopeLevel::of_arm(self.is_active(), false, holds);
        self.levels.push(level)?;
        Ok(())
    }

    /// Moves on to the next arm of the innermost chain. Returns whether a chain is open.
    pub fn next_arm(&mut self, holds: bool) -> Result<bool, AllocError>
        ensures { let next = next_arm self.old holds in
            IfOk result (λ found. (found ≡ is_open self.old) × (self.new ≡ next)) }
    {
        let Some(previous) = self.levels.pop() else {
            return Ok(false);
        };
        let level = ScopeLevel::of_arm(self.is_active(), previous.has_met(), holds);
        self.levels.push(level)?;
        Ok(true)
    }

    /// Ends the innermost chain. Returns whether a chain was open.
    pub fn close(&mut self) -> bool
        ensures found { result ≡ is_open self.old }
        ensures after { self.new ≡ outer_levels self.old }
    {
        self.levels.pop().is_some()
    }
}
