//! What faults say.
ghost use Rattle.std.specs.Prelude.{◌≡◌};
ghost use Rattle.yettuvam_wgsl_faults.specs.Tables.{rows, text_in};

use yettuvam_wgsl_machine::symbol::Rule;
use yettuvam_wgsl_scope::Reason as Meaning;
use yettuvam_wgsl_words::refusal::Reason as Words;
use yettuvam_wgsl_words::token::Kind;

/// What a kind of token is called.
#[rattlefmt::skip]
pub static KINDS: [(Kind, &str); 77] = [
    (Kind::End, "the end of the text"), (Kind::Name, "a name"), (Kind::Number, "a number"),
    (Kind::TemplateOpen, "`<`"), (Kind::TemplateClose, "`>`"), (Kind::ShiftRightEqual, "`>>=`"),
    (Kind::ShiftLeftEqual, "`<<=`"), (Kind::AndAnd, "`&&`"), (Kind::OrOr, "`||`"), (Kind::EqualEqual, "`==`"),
    (Kind::NotEqual, "`!=`"), (Kind::LessEqual, "`<=`"), (Kind::GreaterEqual, "`>=`"),
    (Kind::ShiftLeft, "`<<`"), (Kind::ShiftRight, "`>>`"), (Kind::Arrow, "`->`"), (Kind::PlusPlus, "`++`"),
    (Kind::MinusMinus, "`--`"), (Kind::PlusEqual, "`+=`"), (Kind::MinusEqual, "`-=`"),
    (Kind::StarEqual, "`*=`"), (Kind::SlashEqual, "`/=`"), (Kind::PercentEqual, "`%=`"),
    (Kind::AndEqual, "`&=`"), (Kind::OrEqual, "`|=`"), (Kind::XorEqual, "`^=`"),
    (Kind::OpenParenthesis, "`(`"), (Kind::CloseParenthesis, "`)`"), (Kind::OpenBracket, "`[`"),
    (Kind::CloseBracket, "`]`"), (Kind::OpenBrace, "`{`"), (Kind::CloseBrace, "`}`"), (Kind::Comma, "`,`"),
    (Kind::Dot, "`.`"), (Kind::Colon, "`:`"), (Kind::Semicolon, "`;`"), (Kind::At, "`@`"),
    (Kind::Plus, "`+`"), (Kind::Minus, "`-`"), (Kind::Star, "`*`"), (Kind::Slash, "`/`"),
    (Kind::Percent, "`%`"), (Kind::And, "`&`"), (Kind::Or, "`|`"), (Kind::Xor, "`^`"), (Kind::Bang, "`!`"),
    (Kind::Tilde, "`~`"), (Kind::Less, "`<`"), (Kind::Greater, "`>`"), (Kind::Equal, "`=`"),
    (Kind::Underscore, "`_`"), (Kind::Alias, "`alias`"), (Kind::Break, "`break`"), (Kind::Case, "`case`"),
    (Kind::Const, "`const`"), (Kind::ConstAssert, "`const_assert`"), (Kind::Continue, "`continue`"),
    (Kind::Continuing, "`continuing`"), (Kind::Default, "`default`"), (Kind::Diagnostic, "`diagnostic`"),
    (Kind::Discard, "`discard`"), (Kind::Else, "`else`"), (Kind::Enable, "`enable`"),
    (Kind::False, "`false`"), (Kind::Fn, "`fn`"), (Kind::For, "`for`"), (Kind::If, "`if`"),
    (Kind::Let, "`let`"), (Kind::Loop, "`loop`"), (Kind::Override, "`override`"),
    (Kind::Requires, "`requires`"), (Kind::Return, "`return`"), (Kind::Struct, "`struct`"),
    (Kind::Switch, "`switch`"), (Kind::True, "`true`"), (Kind::Var, "`var`"), (Kind::While, "`while`"),
];

/// What may stand where a rule begins.
#[rattlefmt::skip]
pub static RULES: [(Rule, &str); 71] = [
    (Rule::Module, "an item"), (Rule::Directives, "an item"), (Rule::Extensions, "the name of an extension"),
    (Rule::MoreExtensions, "`,` or `;`"), (Rule::ExtensionsOrEnd, "the name of an extension"),
    (Rule::Items, "an item"), (Rule::AttributedItem, "an item"), (Rule::Attributes, "an attribute"),
    (Rule::Attribute, "an attribute"), (Rule::OptionalArguments, "`(`"),
    (Rule::AttributeArguments, "an argument of the attribute"), (Rule::MoreAttributeArguments, "`,` or `)`"),
    (Rule::TypedName, "a name and a type"), (Rule::OptionalType, "`:`, `=` or `;`"),
    (Rule::Initial, "`=` or `;`"), (Rule::Parameters, "a parameter"), (Rule::MoreParameters, "`,` or `)`"),
    (Rule::Result, "`->` or `{`"), (Rule::Member, "a member"), (Rule::MoreMembers, "`,` or `}`"),
    (Rule::MembersOrEnd, "a member"), (Rule::Type, "a type"), (Rule::Template, "`<`"),
    (Rule::MoreTemplateArguments, "`,` or `>`"), (Rule::TemplateArgumentsOrEnd, "a template argument"),
    (Rule::Block, "`{`"), (Rule::Statements, "a statement"), (Rule::Statement, "a statement"),
    (Rule::Else, "`else`"), (Rule::AfterElse, "`if` or `{`"), (Rule::Cases, "`case`, `default` or `}`"),
    (Rule::Selectors, "an expression or `default`"), (Rule::AfterSelector, "`,`, `:` or `{`"),
    (Rule::SelectorsOrBlock, "an expression or `{`"), (Rule::CaseBlock, "`{`"), (Rule::LoopBlock, "`{`"),
    (Rule::LoopStatements, "a statement"), (Rule::ContinuingBlock, "`{`"),
    (Rule::ContinuingStatements, "a statement"), (Rule::ContinuingBreak, "`if` or `;`"),
    (Rule::For, "`var`, `let`, `const` or `;`"), (Rule::ForRest, "an expression or `;`"),
    (Rule::ForCondition, "an expression or `;`"), (Rule::ForUpdate, "a statement or `)`"),
    (Rule::AfterReturn, "an expression or `;`"), (Rule::Simple, "a statement"),
    (Rule::AfterSimpleName, "`(` or an assignment"), (Rule::Target, "a place to assign to"),
    (Rule::TargetStart, "a place to assign to"), (Rule::Assignment, "an assignment"),
    (Rule::Expression, "an expression"), (Rule::AfterFirst, "an operator"),
    (Rule::BitAndChain, "an expression"), (Rule::BitOrChain, "an expression"),
    (Rule::BitXorChain, "an expression"), (Rule::Products, "an expression"), (Rule::Sums, "an expression"),
    (Rule::Relation, "an expression"), (Rule::Shift, "an expression"), (Rule::ShiftTail, "an operator"),
    (Rule::Logic, "an expression"), (Rule::OrChain, "an expression"), (Rule::AndChain, "an expression"),
    (Rule::Comparison, "an expression"), (Rule::ComparisonTail, "an operator"),
    (Rule::Unary, "an expression"), (Rule::Primary, "an expression"), (Rule::AfterName, "an operator"),
    (Rule::Arguments, "an expression"), (Rule::MoreArguments, "`,` or `)`"), (Rule::Postfix, "an operator"),
];

/// What is wrong with a part of a text that is no token.
#[rattlefmt::skip]
pub static NO_TOKEN: [(Words, &str); 6] = [
    (Words::UnknownCharacter, "no token begins with this character"), (Words::BadNumber, "no number of WGSL"),
    (Words::OpenComment, "a comment has no end"), (Words::ReservedWord, "WGSL reserves this word"),
    (Words::TwoUnderscores, "a name begins with two underscores"),
    (Words::TooLong, "the text has 2^32 bytes or more"),
];

/// What is wrong with a module.
#[rattlefmt::skip]
pub static NO_MEANING: [(Meaning, &str); 17] = [
    (Meaning::UnknownName, "unknown name"), (Meaning::DeclaredTwice, "declared twice in one scope"),
    (Meaning::Cycle, "the item depends on itself"),
    (Meaning::NoConstant, "expected an expression whose value is known"),
    (Meaning::NoNumber, "the number does not fit its type"), (Meaning::NoValue, "expected a value"),
    (Meaning::NoFunction, "expected a function or a type"),
    (Meaning::NoReference, "expected a place in memory"), (Meaning::NoPointer, "expected a pointer"),
    (Meaning::NoType, "expected a type"), (Meaning::NoMember, "the type has no such member"),
    (Meaning::Arguments, "wrong number of arguments"),
    (Meaning::Attribute, "the attribute is unknown, or does not fit here"),
    (Meaning::Template, "wrong template arguments"),
    (Meaning::Assertion, "the condition of `const_assert` is false"), (Meaning::Unsupported, "not supported"),
    (Meaning::Broken, "no syntax tree of WGSL"),
];

/// Words of GLSL, and what WGSL has in their place.
#[rattlefmt::skip]
pub static GLSL: [(&str, &str); 21] = [
    ("float", "WGSL calls this type `f32`"), ("double", "the largest floats of WGSL are `f32`"),
    ("int", "WGSL calls this type `i32`"), ("uint", "WGSL calls this type `u32`"),
    ("ivec2", "WGSL calls this type `vec2<i32>`"), ("ivec3", "WGSL calls this type `vec3<i32>`"),
    ("ivec4", "WGSL calls this type `vec4<i32>`"), ("uvec2", "WGSL calls this type `vec2<u32>`"),
    ("uvec3", "WGSL calls this type `vec3<u32>`"), ("uvec4", "WGSL calls this type `vec4<u32>`"),
    ("bvec2", "WGSL calls this type `vec2<bool>`"), ("bvec3", "WGSL calls this type `vec3<bool>`"),
    ("bvec4", "WGSL calls this type `vec4<bool>`"), ("mat2", "WGSL calls this type `mat2x2<f32>`"),
    ("mat3", "WGSL calls this type `mat3x3<f32>`"), ("mat4", "WGSL calls this type `mat4x4<f32>`"),
    ("void", "a function of WGSL without a result has no `->`"),
    ("sampler2D", "WGSL has `texture_2d<f32>` and `sampler` apart"),
    ("texture", "WGSL calls this function `textureSample`"),
    ("gl_Position", "WGSL has a result with `@builtin(position)`"),
    ("gl_FragCoord", "WGSL has a parameter with `@builtin(position)`"),
];

/// Returns the text of the first row with a key, or no text.
pub fn text_of<K: PartialEq>(table: &[(K, &'static str)], key: &K) -> &'static str
    ensures { result.now ≡ text_in K.eq (rows table.now) key.now }
{
    let mut rest = table;
    while let [(each, text), more @ ..] = rest {
        if key == each {
            return *text;
        }
        rest = more;
    }
    ""
}
