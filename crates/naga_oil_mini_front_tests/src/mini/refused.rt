// Where memory is refused, a result is that with ample memory, or out of memory. So these tests pass whichever
// allocation is refused.
use super::{EXAMPLE, Mini};
use naga_oil_ir::{Backend, BackendRefusal, Capabilities, Module, ShaderLanguage};
use std::alloc::Global;

// Whether the module is written as this text, or not at all where there is none.
fn is_written(alloc: Global, of: &Module, text: Option<&str>) -> bool {
    match Mini.write(alloc, of, ShaderLanguage::Wgsl, Capabilities(0)) {
        Ok(written) => text == Some(written.as_str()),
        Err(BackendRefusal::Fault(fault)) => {
            text.is_none() && fault.message.as_str() == "not in Mini"
        }
        Err(BackendRefusal::Memory) => true,
    }
}

fn is_told_valid(alloc: Global, of: &Module, valid: bool) -> bool {
    match Mini.validate(alloc, of, Capabilities(0)) {
        Ok(()) => valid,
        Err(BackendRefusal::Fault(fault)) => {
            !valid && fault.message.as_str() == "wrong number of arguments"
        }
        Err(BackendRefusal::Memory) => true,
    }
}

// Whether a text is read as a module that is written as the text, and is valid or not.
fn is_read(alloc: Global, text: &str, valid: bool) -> bool {
    match &Mini.parse(alloc, ShaderLanguage::Wgsl, text) {
        Ok(read) => is_written(alloc, read, Some(text)) && is_told_valid(alloc, read, valid),
        Err(BackendRefusal::Fault(_)) => false,
        Err(BackendRefusal::Memory) => true,
    }
}

fn is_faulty(alloc: Global, text: &str, message: &str) -> bool {
    match &Mini.parse(alloc, ShaderLanguage::Glsl, text) {
        Ok(_) => false,
        Err(BackendRefusal::Fault(fault)) => fault.message.as_str() == message,
        Err(BackendRefusal::Memory) => true,
    }
}

#[test]
fn a_refused_text_says_no_other_module(rt: HostRuntime) {
    assert!(rt; is_read(rt.alloc(), EXAMPLE, true));
    let locals = "var G = 3\nfn f(x) with V = 1 + 2, W = 1 + 2 = G + V + W\n";
    assert!(rt; is_read(rt.alloc(), locals, true));
    let wrong = "fn f(x)\nentry main = f(f(1), 2) + f()\n";
    assert!(rt; is_read(rt.alloc(), wrong, false));
}

#[test]
fn a_refused_module_is_not_written(rt: HostRuntime) {
    let mut other = Module::new(rt.alloc());
    other.diagnostic_filter_leaf = Some(0);
    assert!(rt; is_written(rt.alloc(), &other, None));
}

#[test]
fn a_refused_text_has_no_other_fault(rt: HostRuntime) {
    let text = "fn f(x) = x\nfn g(x) = f(x + h(1), y)\n";
    assert!(rt; is_faulty(rt.alloc(), text, "unknown name h"));
    let text = "const N = 1\nfn f(x) = x + 2147483648\n";
    assert!(rt; is_faulty(rt.alloc(), text, "line not understood"));
}
