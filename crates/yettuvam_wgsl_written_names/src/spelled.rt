// Which texts have the form of a name.
ghost use Rattle.std.specs.Prelude.{◌≡◌};
ghost use Rattle.yettuvam_wgsl_written_names.specs.Spelled as spec;

use yettuvam_wgsl_words::class::{after_name, starts_name};

/// Returns whether a text has the form of a name: it begins with a letter or `_`, goes on with letters, digits and `_`, and
/// isn't `_` alone. Two `_` in front are reserved.
pub fn is_name(text: &str) -> bool
    ensures { result ≡ spec.is_name text.now }
{
    let bytes = text.as_bytes();
    starts_name(bytes) && after_name(bytes).is_empty() && !is_reserved(bytes)
}

// Whether a text is `_`, or begins with two of them.
fn is_reserved(text: &[u8]) -> bool
    ensures { result ≡ spec.is_reserved text.now }
{
    match text {
        [b'_'] | [b'_', b'_', ..] => true,
        _ => false,
    }
}
