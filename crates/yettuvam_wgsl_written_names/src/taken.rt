// The names that are taken, and free names.
ghost use Rattle.std.specs.Prelude.{◌≡◌, ◌≤◌, ◌^◌, length, OnOk, IfOk, option_map, string_bytes, false};
ghost use Rattle.yettuvam_wgsl_written_names.specs.Language as language;
ghost use Rattle.yettuvam_wgsl_written_names.specs.Taken as spec;
ghost use Rattle.yettuvam_wgsl_written_names.specs.Taken.{taken_of, outer_of, numbers_of};

use crate::spelled::is_name;
use indexmap::IndexMap;
use std::alloc::{AllocError, Global};
use yettuvam_wgsl_names::names::{Predeclared, read_predeclared};
use yettuvam_wgsl_names::words::read_word;

/// The first number that makes another name.
const FIRST: u64 = 1;

/// The greatest number from which a free one is looked for, so that none is too great for 64 bits.
const GREATEST_START: u64 = 4_611_686_018_427_387_904;

/// The number of keywords, reserved words and predeclared names.
const WORDS_OF_LANGUAGE: usize = 437;

/// The most names of a module or of a function. A list of more is refused as one without memory.
const MOST_NAMES: usize = 1_152_921_504_606_846_976;

/// The names that are taken: the words of the language, and others, each with the first number that may make another name of
/// it. Each call takes expected constant time for each name that is tried, and time logarithmic in the number of the words of the
/// language.
#[derive(Drop)]
pub struct Taken<'a> {
    alloc: Global,
    // The names of the module, inside of a function.
    outer: Option<&'a IndexMap<String, u64>>,
    numbers: IndexMap<String, u64>,
}

// Whether a map has a name.
fn is_among(numbers: &IndexMap<String, u64>, name: &str) -> bool
    ensures { result ≡ spec.is_among (numbers_of numbers.now) name.now }
{
    number_of(numbers, name).is_some()
}

// The number of a name.
fn number_of(numbers: &IndexMap<String, u64>, name: &str) -> Option<u64>
    ensures { result ≡ spec.number_of (numbers_of numbers.now) name.now }
{
    numbers.get(name).copied()
}

// Gives a name a number.
fn set_number(
    alloc: Global,
    numbers: &mut IndexMap<String, u64>,
    name: &str,
    number: u64,
) -> Result<(), AllocError>
    ensures { OnOk result (numbers_of numbers.new ≡ spec.with_number (numbers_of numbers.old) name.now number) }
{
    let name = String::from_str(alloc, name)?;
    numbers.insert(name, number)?;
    Ok(())
}

// A name with a number.
fn numbered_name(alloc: Global, base: &str, number: u64) -> Result<String, AllocError>
    ensures { IfOk result (λ name. string_bytes name ≡ spec.numbered base.now number) }
{
    let mut name = String::from_str(alloc, base)?;
    name.push_str("_")?;
    write!(name, "{number}")?;
    Ok(name)
}

// Whether a name is a keyword, a reserved word or predeclared.
#[tactic(auto, unfolding(crate::specs::Language::is_in_language))]
fn is_in_language(name: &str) -> bool
    ensures { result ≡ language.is_in_language name.now }
{
    read_word(name).is_some() || read_predeclared(name).is_some()
}

// Whether a name is that of a built-in function.
#[tactic(auto, unfolding(crate::specs::Language::is_built_in_function))]
fn is_built_in_function(name: &str) -> bool
    ensures { result ≡ language.is_built_in_function name.now }
{
    match read_predeclared(name) {
        Some(Predeclared::Function(_)) => true,
        _ => false,
    }
}

// The number from which a free one is looked for.
fn start_by(number: Option<u64>) -> u64
    ensures value { result ≡ spec.start_by number }
    ensures small { result ≤ 2 ^ 62 }
{
    match number {
        Some(number) => {
            if number <= GREATEST_START {
                number
            } else {
                FIRST
            }
        }
        None => FIRST,
    }
}

// The number of names.
fn length_of(numbers: &IndexMap<String, u64>) -> Result<usize, AllocError>
    ensures value { IfOk result (λ n. n ≡ length (numbers_of numbers.now)) }
    ensures small { IfOk result (λ n. n ≤ 2 ^ 60) }
{
    let count = numbers.len();
    if count > MOST_NAMES {
        return Err(AllocError);
    }
    Ok(count)
}

impl<'a> Taken<'a> {
    /// Returns the struct without names: nothing is taken but the words of the language.
    pub fn new(alloc: Global) -> Taken<'a>
        ensures { taken_of result ≡ spec.none_taken }
    {
        Taken {
            alloc,
            outer: None,
            numbers: IndexMap::new(alloc),
        }
    }

    /// Returns the struct with the names of a module, for a function.
    pub fn inside(alloc: Global, outer: &'a Taken<'_>) -> Taken<'a>
        ensures { taken_of result ≡ spec.inside (taken_of outer.now) }
    {
        Taken {
            alloc,
            outer: Some(&outer.numbers),
            numbers: IndexMap::new(alloc),
        }
    }

    // The number of an outer name.
    fn outer_number(&self, name: &str) -> Option<u64>
        ensures { result ≡ spec.number_of (taken_of self.now).outer name.now }
    {
        match self.outer {
            Some(outer) => number_of(outer, name),
            None => None,
        }
    }

    /// Returns whether a name is taken.
    pub fn has(&self, name: &str) -> bool
        ensures { result ≡ spec.has (taken_of self.now) name.now }
    {
        self.outer_number(name).is_some() || is_among(&self.numbers, name) || is_in_language(name)
    }

    /// Takes a name.
    ///
    /// # Errors
    /// If out of memory.
    pub fn take(&mut self, name: &str) -> Result<(), AllocError>
        ensures { OnOk result (taken_of self.new ≡ spec.take (taken_of self.old) name.now) }
    {
        if is_among(&self.numbers, name) {
            return Ok(());
        }
        set_number(self.alloc, &mut self.numbers, name, FIRST)
    }

    fn is_built_in(&self, name: &str) -> bool
        ensures { result ≡ spec.is_built_in (taken_of self.now) name.now }
    {
        is_built_in_function(name) && !is_among(&self.numbers, name)
    }

    // The number of taken names.
    fn count(&self) -> Result<usize, AllocError>
        ensures value { IfOk result (λ n. n ≡ spec.count_of (taken_of self.now)) }
        ensures small { IfOk result (λ n. n ≤ 2 ^ 62) }
    {
        let own = WORDS_OF_LANGUAGE + length_of(&self.numbers)?;
        match self.outer {
            Some(outer) => Ok(length_of(outer)? + own),
            None => Ok(own),
        }
    }

    // The number that makes a free name.
    #[tactic(auto, using(crate::proofs::Steps::free_step, crate::proofs::Steps::free_end))]
    fn free_number(&self, base: &str) -> Result<u64, AllocError>
        ensures value { IfOk result (λ n. n ≡ spec.free_number (taken_of self.now) base.now) }
        ensures small { IfOk result (λ n. n ≤ 2 ^ 63) }
        ensures count { OnOk result (spec.count_of (taken_of self.now) ≤ 2 ^ 62) }
    {
        let mut rest = self.count()?;
        let mut number = start_by(number_of(&self.numbers, base));
        while rest > 0 {
            let name = numbered_name(self.alloc, base, number)?;
            if !self.has(&name) {
                return Ok(number);
            }
            number += 1;
            rest -= 1;
        }
        Ok(number)
    }

    // A free name with a number.
    fn numbered(&mut self, base: &str) -> Result<String, AllocError>
        ensures free { IfOk result (λ name. spec.has (taken_of self.old) (string_bytes name) ≡ false) }
        ensures made { IfOk result (λ name. spec.make_numbered (taken_of self.old) base.now
            ≡ record { name = string_bytes name; taken = taken_of self.new }) }
    {
        let number = self.free_number(base)?;
        set_number(self.alloc, &mut self.numbers, base, number + 1)?;
        let name = numbered_name(self.alloc, base, number)?;
        Ok(name)
    }

    /// Takes a free name: this one if the name is free, else the name with a number after it.
    ///
    /// # Errors
    /// If out of memory.
    pub fn fresh(&mut self, name: &str) -> Result<String, AllocError>
        ensures free { IfOk result (λ made. spec.has (taken_of self.old) (string_bytes made) ≡ false) }
        ensures made { IfOk result (λ made. spec.fresh (taken_of self.old) name.now
            ≡ record { name = string_bytes made; taken = taken_of self.new }) }
    {
        let name = if self.has(name) {
            self.numbered(name)?
        } else {
            String::from_str(self.alloc, name)?
        };
        self.take(&name)?;
        Ok(name)
    }

    // Takes a name that hides a built-in function.
    fn hide(&mut self, name: &str) -> Result<String, AllocError>
        ensures { IfOk result (λ made. spec.hidden (taken_of self.old) name.now
            ≡ record { name = string_bytes made; taken = taken_of self.new }) }
    {
        self.take(name)?;
        String::from_str(self.alloc, name)
    }

    /// Takes a free name for a local or a value, by the name that it has, if that is a name. The name may be that of a built-in
    /// function if `may_hide` holds.
    ///
    /// # Errors
    /// If out of memory.
    pub fn fresh_for(
        &mut self,
        name: Option<&str>,
        other: &str,
        may_hide: bool,
    ) -> Result<String, AllocError>
        ensures { IfOk result (λ made. spec.fresh_for (taken_of self.old) (option_map (λ n. n.now) name.entry) other.now may_hide
            ≡ record { name = string_bytes made; taken = taken_of self.new }) }
    {
        let Some(name) = name else {
            return self.fresh(other);
        };
        if may_hide && self.is_built_in(name) {
            return self.hide(name);
        }
        if is_name(name) {
            self.fresh(name)
        } else {
            self.fresh(other)
        }
    }
}
