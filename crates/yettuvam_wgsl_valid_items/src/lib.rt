//! What WGSL forbids in items, in the arms of a `switch`, in constructors and at entry points, as far as a module's shape tells.
//!
//! - `faults`: what is wrong, where, and the fault of a front end.
//! - `distinct`: numbers that stand twice in a list.
//! - `types`: the types that handles name, and what they are.
//! - `members`: the members of structs.
//! - `variables`: overrides and variables of the module.
//! - `switches`: the arms of a `switch`.
//! - `constructors`: the numbers of values of structs and arrays.
//! - `built_ins`: the built-in values, and which stages have them.
//! - `stages`: the inputs and outputs of entry points, and the sizes of workgroups.
//! - `items`: all tests of a module's items.
#![tactic(auto)]

pub mod built_ins;
pub mod constructors;
pub mod distinct;
pub mod faults;
pub mod items;
pub mod members;
pub mod stages;
pub mod switches;
pub mod types;
pub mod variables;

pub use constructors::test_constructors;
pub use items::test_items;
pub use stages::test_stage;
pub use switches::test_switches;
