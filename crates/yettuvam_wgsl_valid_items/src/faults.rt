//! What is wrong with a module, and where.
ghost use Rattle.std.specs.Prelude.{◌≡◌, IfOk};
ghost use Rattle.naga_oil_ir.specs.Backend.{valid_fault as value_of};
ghost use Rattle.yettuvam_wgsl_valid_items.specs.Faults as spec;

use naga_oil_ir::{Span, ValidFault};
use std::alloc::{AllocError, AllocFailed, Global};
use std::fmt;

/// What is wrong.
#[derive(Clone, Copy, PartialEq, Eq, Debug)]
pub enum Reason {
    /// A call has too few arguments, or too many.
    ArgumentCount,
    /// Two variables that an entry point uses have the same binding.
    BoundTwice,
    /// The end of a function that has a result can be reached.
    NoReturn,
    /// An input or an output of an entry point has no binding.
    Unbound,
    /// A vertex shader has no `@builtin(position)` among its outputs.
    NoPosition,
    /// A compute shader has a result.
    ComputeResult,
    /// A variable has a binding, and its address space forbids one, or it has none, and its address space requires one.
    SpaceBinding,
    /// `break` outside of a loop or a switch, or `continue` outside of a loop.
    NoLoop,
    /// `return` in a `continuing` block.
    ReturnInContinuing,
    /// Two members of a struct have the same name.
    MemberTwice,
    /// A variable or an override has neither a type nor a value.
    NoTypeOrValue,
    /// A variable has an initial value, and its address space forbids one.
    SpaceValue,
    /// Two overrides have the same `@id`.
    IdTwice,
    /// A `switch` has no default.
    NoDefault,
    /// Two arms of a `switch` have the same value, or both are the default.
    ArmTwice,
    /// A constructor of a struct or an array has too few values, or too many.
    ValueCount,
    /// The stage of an entry point has no such input or output.
    WrongStage,
    /// Two inputs or two outputs of an entry point have the same location or the same built-in value.
    SlotTwice,
    /// A compute shader has a workgroup size of 0, or another shader has a workgroup size.
    WorkgroupSize,
}

impl Reason {
    /// Returns the message of a fault.
    pub fn message(self) -> &'static str
        ensures { result.now ≡ spec.message self }
    {
        match self {
            Reason::ArgumentCount => "wrong number of arguments",
            Reason::BoundTwice => "two variables that an entry point uses have this binding",
            Reason::NoReturn => "a function with a result must return a value",
            Reason::Unbound => "an input or output of an entry point needs @location or @builtin",
            Reason::NoPosition => "a vertex shader must return @builtin(position)",
            Reason::ComputeResult => "a compute shader has no result",
            Reason::SpaceBinding =>
                "only uniform, storage, texture and sampler variables have @group and @binding",
            Reason::NoLoop => "no loop or switch to leave, or no loop to continue",
            Reason::ReturnInContinuing => "a continuing block has no return",
            Reason::MemberTwice => "two members of this struct have the same name",
            Reason::NoTypeOrValue => "a variable or an override needs a type or a value",
            Reason::SpaceValue => "only variables in the address space private have a value",
            Reason::IdTwice => "another override has the same @id",
            Reason::NoDefault => "a switch needs a default",
            Reason::ArmTwice => "two cases of a switch have the same value",
            Reason::ValueCount => "wrong number of values for a struct or an array",
            Reason::WrongStage => "the stage of this entry point has no such input or output",
            Reason::SlotTwice =>
                "two inputs or two outputs of an entry point have the same location or built-in value",
            Reason::WorkgroupSize =>
                "a compute shader needs a workgroup size above 0, and other shaders have none",
        }
    }
}

impl fmt::Display for Reason {
    fn fmt<W: fmt::Write>(&self, f: &mut fmt::Formatter<W>) -> fmt::Result {
        f.write_str(self.message())
    }
}

/// What is wrong, and where.
#[derive(Clone, Copy, PartialEq, Eq, Debug)]
pub struct Fault {
    pub reason: Reason,
    pub span: Span,
}

/// Returns a fault as that of a front end: its message, and its span with an empty message.
///
/// # Errors
/// If out of memory.
pub fn valid_fault(alloc: Global, fault: Fault) -> Result<ValidFault, AllocError>
    ensures { IfOk result (λ f. value_of f ≡ spec.fault_value fault) }
{
    Ok(ValidFault {
        message: String::from_str(alloc, fault.reason.message())?,
        spans: vec![in alloc; (fault.span, String::new(alloc))]?,
        notes: Vec::new(alloc),
    })
}

/// Why a test has no result: the module has a fault, or memory has run out.
#[derive(Clone, Copy, PartialEq, Eq, Debug)]
pub enum Invalid {
    Fault(Fault),
    Memory,
}

/// The result of a test.
pub type TestResult = Result<(), Invalid>;

/// Returns the fault with a reason and a span.
pub fn refuse(reason: Reason, span: Span) -> TestResult
    ensures { spec.Tests (spec.fault reason span) result }
{
    Err(Invalid::Fault(Fault { reason, span }))
}

impl From<AllocError> for Invalid {
    ghost use Rattle.std.specs.Prelude.{◌≡◌};
    ghost use Rattle.yettuvam_wgsl_valid_items.specs.declared.faults.Invalid.TheVariants.{Memory};

    ghost from_gives = { λ _ e. e ≡ Memory };

    fn from(_: AllocError) -> Self {
        Invalid::Memory
    }
}

impl<T: Drop> From<AllocFailed<T>> for Invalid {
    ghost use Rattle.std.specs.Prelude.{◌≡◌};
    ghost use Rattle.yettuvam_wgsl_valid_items.specs.declared.faults.Invalid.TheVariants.{Memory};

    ghost from_gives = { λ _ e. e ≡ Memory };

    fn from(_: AllocFailed<T>) -> Self {
        Invalid::Memory
    }
}
