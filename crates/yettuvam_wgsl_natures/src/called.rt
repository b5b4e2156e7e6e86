// The built-in functions that expressions call.
ghost use Rattle.std.specs.Prelude.{◌≡◌};
ghost use Rattle.naga_oil_ir.specs.Parts.{parts, query_code};
ghost use Rattle.yettuvam_wgsl_natures.specs.Called as spec;

use naga_oil_ir::{Expression, ImageQuery};
use yettuvam_wgsl_names::form_codes::{BITCAST_CONVERSION, COMPONENT_UNIT};
use yettuvam_wgsl_names::functions::{
    ARRAY_LENGTH, BITCAST, SELECT, TEXTURE_DIMENSIONS, TEXTURE_LOAD,
};

/// The code of no function.
pub const NO_FUNCTION: u64 = 0;

fn queried_function(query: ImageQuery) -> u64
    ensures { result ≡ spec.queried_function (query_code query) }
{
    match query {
        ImageQuery::Size { .. } => TEXTURE_DIMENSIONS,
        ImageQuery::Other(code) => code,
    }
}

fn conversion_function(convert: u64) -> u64
    ensures { result ≡ spec.conversion_function convert }
{
    if convert == BITCAST_CONVERSION {
        BITCAST
    } else {
        NO_FUNCTION
    }
}

/// Returns the code of the built-in function that an expression calls, or `NO_FUNCTION`.
pub fn called_function(of: &Expression) -> u64
    ensures { result ≡ spec.called_function (parts of.now) }
{
    match of {
        Expression::Math(math) => math.fun,
        Expression::Relational { fun, .. } => *fun,
        Expression::Derivative { axis, .. } => *axis,
        Expression::ImageSample(sample) => sample.gather % COMPONENT_UNIT,
        Expression::ImageLoad(_) => TEXTURE_LOAD,
        Expression::ImageQuery { query, .. } => queried_function(*query),
        Expression::Select { .. } => SELECT,
        Expression::ArrayLength(_) => ARRAY_LENGTH,
        Expression::As { convert, .. } => conversion_function(*convert),
        _ => NO_FUNCTION,
    }
}
