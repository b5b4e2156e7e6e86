//! The redirector: a module whose calls can be redirected to other functions.
ghost use Rattle.std.specs.Prelude.{◌≡◌, ◌<◌, ◌↔◌, Ok, IsErr, IsSome, length, map, IfOk, OnOk, OnErr, nat_eq};
ghost use Rattle.std.specs.List.{enumerate_from};
ghost use Rattle.std.specs.BTreeSet.{contains_text};
ghost use Rattle.std.specs.Cmp.Lexicographic.{pointwise};
ghost use Rattle.naga_oil_ir.specs.ModuleValue.{module_value, function_value, entry_value};
ghost use Rattle.naga_oil_redirect.specs.Redirectable.{Redirectable};
ghost use Rattle.naga_oil_ir.specs.RedirectFault.{Gives};
ghost use Rattle.naga_oil_redirect.specs.Level.{HasCycle};
ghost use Rattle.naga_oil_redirect.specs.Ordered.{calls_of, ordered};
ghost use Rattle.naga_oil_derive.specs.World.{value_of};
ghost use Rattle.naga_oil_derive.specs.DerivedEntries.{CanCopyEntries};
ghost use Rattle.naga_oil_derive.specs.DerivedValue.{set_source};
ghost use Rattle.naga_oil_redirect.specs.ChainLaw.{BeginsChains, SendsOn, SendsApart, KeepsSent};
ghost use Rattle.naga_oil_redirect.specs.PutInOrder.{import_in_turn, in_turn, put_in_order};
ghost use Rattle.naga_oil_redirect.specs.Redirected.{function_values, is_named, same_results, found, matched, send_at, send_entry, redirected};

use super::*;
pub use naga_oil_ir::RedirectError;

/// The handles of a function and its replacement.
pub type Pair = (Handle<Function>, Handle<Function>);

fn is_named(function: &Function, name: &str) -> bool
    ensures { result ≡ is_named (pointwise nat_eq name.now) (function_value function.now).name }
{
    let own = function.name.as_ref();
    own.is_some_and(|own| name == own.as_str())
}

fn is_omitted(function: &Function, omit: &BTreeSet<String>) -> bool
    ensures { result ≡ is_named (contains_text omit.now) (function_value function.now).name }
{
    let own = function.name.as_ref();
    own.is_some_and(|own| omit.contains(own.as_str()))
}

fn same_arguments(a: &[FunctionArgument], b: &[FunctionArgument]) -> bool
    ensures { result ≡ pointwise nat_eq (map (λ x. x.ty) a.now) (map (λ x. x.ty) b.now) }
{
    a.len() == b.len() && a.iter().zip(b).all(|(x, y)| x.ty == y.ty)
}

fn same_results(original: &Function, replacement: &Function) -> bool
    ensures { result ≡ same_results (function_value original.now) (function_value replacement.now) }
{
    original.result.map(|gives| gives.ty) == replacement.result.map(|gives| gives.ty)
}

/// Redirects the calls in all functions except the replacement and the omitted ones.
fn send_functions(arena: &mut Arena<Function>, pair: Pair, omit: &BTreeSet<String>, alloc: Global)
    ensures { let sends = send_at pair.0 pair.1 (contains_text omit.now) in
        function_values arena.new ≡ map sends (enumerate_from 0 (function_values arena.old)) }
{
    let mut items = mem::replace(arena, Arena::new(alloc)).into_items();
    for place in 0..items.len() {
        if place != pair.1.index() && !is_omitted(&items[place].0, omit) {
            send_calls(&mut items[place].0, pair.0, pair.1, alloc);
        }
    }
    *arena = Arena::from_items(items);
}

/// Redirects the calls in all entry points.
fn send_entries(entries: &mut Vec<EntryPoint>, pair: Pair, alloc: Global)
    ensures { let sends = send_entry pair.0 pair.1 in
        map entry_value entries.new.items ≡ map sends (map entry_value entries.old.items) }
{
    for entry in entries.iter_mut() {
        send_calls(&mut entry.function, pair.0, pair.1, alloc);
    }
}

/// Sets a module as the source, and imports its functions in the given order.
fn import_in_turn<'a>(
    derived: &mut DerivedModule<'a>,
    source: &'a Module,
    order: &[usize],
) -> AllocResult
    requires source { Redirectable source.now }
    requires order { ordered (function_values source.now.functions) ≡ Ok order.now }
    ensures value { let shader = value_of source.now in
        OnOk result (derived.new ≡
        import_in_turn shader (set_source derived.old shader 0) order.now) }
    ensures set { OnOk result (IsSome derived.new.source) }
    ensures entries { OnOk result (CanCopyEntries derived.new) }
{
    derived.set_shader_source(source, 0)?;
    let functions = source.functions.as_slice();
    for place in order {
        let entry = &functions[*place];
        derived.import_function(&entry.0, entry.1)?;
    }
    Ok(())
}

/// Returns a module with its functions in the given order.
fn in_order(source: &Module, order: &[usize], alloc: Global) -> AllocResult<Module>
    requires source { Redirectable source.now }
    requires order { ordered (function_values source.now.functions) ≡ Ok order.now }
    ensures { IfOk result (λ m. value_of m ≡ in_turn (value_of source.now) order.now) }
{
    let mut derived = DerivedModule::new(alloc);
    import_in_turn(&mut derived, source, order)?;
    derived.into_module_with_entrypoints()
}

/// A module whose calls can be redirected to other functions.
#[derive(Drop)]
pub struct Redirector {
    module: Module,
    alloc: Global,
}

impl Model for Redirector {
    ghost use Rattle.naga_oil_ir.specs.ModuleValue.{ModuleValue, module_value};
    ghost use Rattle.naga_oil_redirect.specs.Redirectable.{Redirectable};

    ghost Value = { ModuleValue };

    ghost view = { λ r. module_value r.module };

    ghost invariant = { λ r. Redirectable r.module };
}

impl Redirector {
    /// Returns a redirector of a module. The module passes the test of form, except that a function may call any function. Each
    /// chain of replacements begins here: `redirect_function` extends it.
    pub fn new(alloc: Global, shader: Module) -> Self
        requires { Redirectable shader }
        ensures value { result ≡ module_value shader }
        ensures begins { BeginsChains result }
    {
        #[rattlefmt::skip]
        Redirector { module: shader, alloc }
    }

    /// Returns the module as redirected so far.
    pub fn module(&self) -> &Module
        ensures { module_value result.now ≡ self.now }
    {
        &self.module
    }

    /// Returns the first function with a name, and its place.
    fn find(&self, name: &str) -> Result<(usize, &Function), RedirectError>
        ensures found { let first = found name.now self.now.functions in
            Gives (λ f. (f.0, function_value f.1.now)) result first }
        ensures within { IfOk result (λ f. f.0 < length self.now.functions) }
    {
        let functions = self.module.functions.as_slice();
        for (place, entry) in functions.iter().enumerate() {
            if is_named(&entry.0, name) {
                return Ok((place, &entry.0));
            }
        }
        let name = String::from_str(self.alloc, name)?;
        Err(RedirectError::FunctionNotFound(name))
    }

    /// Returns the handles of a function and its replacement, if their signatures match.
    fn matched(&self, original: &str, replacement: &str) -> Result<Pair, RedirectError>
        ensures matched { let both = matched self.now.functions original.now replacement.now in
            Gives (λ pair. (pair.0, pair.1)) result both }
        ensures within { IfOk result (λ pair. pair.1 < length self.now.functions) }
    {
        let (from, function) = self.find(original)?;
        let (to, other) = self.find(replacement)?;
        let arguments = same_arguments(&function.arguments, &other.arguments);
        if arguments && same_results(function, other) {
            return Ok((Index::new(from), Index::new(to)));
        }
        let original = String::from_str(self.alloc, original)?;
        let replacement = String::from_str(self.alloc, replacement)?;
        Err(if arguments {
            RedirectError::ReturnTypeMismatch(replacement, original)
        } else {
            RedirectError::ArgumentMismatch(replacement, original)
        })
    }

    /// Redirects the calls of one function to another, its replacement, both given by name: in all entry points, and in all
    /// functions except the replacement and the omitted ones. Returns the handles of both.
    ///
    /// If the original is the last of a chain of replacements, all of which are omitted, the replacement extends the chain: calls
    /// of the chain's base are then redirected along the longer chain. Calls of a base whose chain doesn't have the original stay
    /// as they are.
    ///
    /// # Errors
    /// If the original isn't found; if the replacement isn't; if their arguments differ in number or types; if their results
    /// do (in this order); or if there is no memory. After an error nothing has changed.
    pub fn redirect_function(
        &mut self,
        original: &str,
        replacement: &str,
        omit: &BTreeSet<String>,
    ) -> Result<Pair, RedirectError>
        ensures handles { let both = matched self.old.functions original.now replacement.now in
            Gives (λ pair. (pair.0, pair.1)) result both }
        ensures redirected { let omitted = contains_text omit.now in
            IfOk result (λ pair. self.new ≡ redirected self.old pair.0 pair.1 omitted) }
        ensures chain { let sends = SendsOn original.now replacement.now (contains_text omit.now) in
            OnOk result (sends self.old self.new) }
        ensures apart { OnOk result (SendsApart original.now self.old self.new) }
        ensures err { OnErr result (self.new ≡ self.old) }
    {
        let (from, to) = self.matched(original, replacement)?;
        send_functions(&mut self.module.functions, (from, to), omit, self.alloc);
        send_entries(&mut self.module.entry_points, (from, to), self.alloc);
        Ok((from, to))
    }

    /// Returns the module with its functions sorted by level, then by place: each stands after what it calls. The module has the
    /// items that functions, entry points or special types reach. Redirected calls stay redirected.
    ///
    /// # Errors
    /// If functions call each other in a circle, or if there is no memory. The module is dropped then.
    pub fn into_module(self) -> Result<Module, RedirectError>
        ensures order { Gives module_value result (put_in_order self) }
        ensures chain { IfOk result (λ m. KeepsSent self (module_value m)) }
        ensures cycle { IsErr (ordered self.functions) ↔ HasCycle (calls_of self.functions) }
    {
        let order = ordered(self.module.functions.as_slice(), self.alloc)?;
        Ok(in_order(&self.module, &order, self.alloc)?)
    }
}

impl TryFrom<Redirector> for Module {
    type Error = RedirectError;

    ghost use Rattle.naga_oil_redirect.specs.PutInOrder.{PutsInOrder};

    ghost try_from_gives = { PutsInOrder };

    fn try_from(redirector: Redirector) -> Result<Module, RedirectError> {
        redirector.into_module()
    }
}
