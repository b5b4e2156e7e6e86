// What the command line requests.
ghost use Rattle.std.specs.Prelude.{◌≤◌, IfSome};
ghost use Rattle.naga_oil_ir.specs.Spans.{max_modules};

// The largest number of modules that a composer takes.
const MAX_MODULES: u16 = 2047;

/// The steps to measure.
#[derive(Clone, Copy)]
pub enum Task {
    /// A leaf of the tree is added again.
    Reload,
    /// `values` values of a name that `recording` modules record.
    Variants { values: u16, recording: u16 },
}

/// Steps to measure in a tree of modules.
#[derive(Clone, Copy)]
pub struct Measurement {
    pub task: Task,
    pub modules: u16,
    /// Whether the time of each step is printed.
    pub times: bool,
}

// A number from 1 to `max`.
fn number(word: &String, max: u16) -> Option<u16>
    ensures { IfSome result (λ number. (1 ≤ number) × (number ≤ max)) }
{
    let number = word.parse::<u16>().ok()?;
    (1..=max).contains(&number).then_some(number)
}

// The steps and the number of modules, from the words before `--times`.
fn task_and_modules(words: &[String]) -> Option<(Task, u16)>
    ensures { IfSome result (λ asked. (1 ≤ asked.1) × (asked.1 ≤ max_modules)) }
{
    let (task, numbers) = words.split_first()?;
    match (task.as_str(), numbers) {
        ("reload", [modules]) => Some((Task::Reload, number(modules, MAX_MODULES)?)),
        ("variants", [modules, values, recording]) => {
            let modules = number(modules, MAX_MODULES)?;
            let values = number(values, u16::MAX)?;
            let recording = number(recording, modules)?;
            Some((Task::Variants { values, recording }, modules))
        }
        _ => None,
    }
}

/// The measurement that the words request, or `None` where they request none.
pub fn measurement_of(words: &[String]) -> Option<Measurement>
    ensures { IfSome result (λ asked. (1 ≤ asked.modules) × (asked.modules ≤ max_modules)) }
{
    let (words, times) = match words.split_last() {
        Some((last, rest)) if last.as_str() == "--times" => (rest, true),
        _ => (words, false),
    };
    let (task, modules) = task_and_modules(words)?;
    Some(Measurement {
        task,
        modules,
        times,
    })
}
