//! What a table of a grammar is made of.

ghost use Rattle.std.specs.Prelude.{◌≡◌, drop, option_map, map};
ghost use Rattle.yettuvam_wgsl_machine.specs.Machine as spec;

use yettuvam_wgsl_words::same_kind;
use yettuvam_wgsl_words::token::{Kind, Span};

/// A part of a text that the grammar names.
#[derive(Clone, Copy, Debug, PartialEq, Eq)]
pub enum Rule {
    Module,
    Directives,
    Extensions,
    MoreExtensions,
    ExtensionsOrEnd,
    Items,
    AttributedItem,
    Attributes,
    Attribute,
    OptionalArguments,
    AttributeArguments,
    MoreAttributeArguments,
    TypedName,
    OptionalType,
    Initial,
    Parameters,
    MoreParameters,
    Result,
    Member,
    MoreMembers,
    MembersOrEnd,
    Type,
    Template,
    MoreTemplateArguments,
    TemplateArgumentsOrEnd,
    Block,
    Statements,
    Statement,
    Else,
    AfterElse,
    Cases,
    Selectors,
    AfterSelector,
    SelectorsOrBlock,
    CaseBlock,
    LoopBlock,
    LoopStatements,
    ContinuingBlock,
    ContinuingStatements,
    ContinuingBreak,
    For,
    ForRest,
    ForCondition,
    ForUpdate,
    AfterReturn,
    Simple,
    AfterSimpleName,
    Target,
    TargetStart,
    Assignment,
    Expression,
    AfterFirst,
    BitAndChain,
    BitOrChain,
    BitXorChain,
    Products,
    Sums,
    Relation,
    Shift,
    ShiftTail,
    Logic,
    OrChain,
    AndChain,
    Comparison,
    ComparisonTail,
    Unary,
    Primary,
    AfterName,
    Arguments,
    MoreArguments,
    Postfix,
}

/// What a node says. Its operands are the nodes before it.
#[derive(Clone, Copy, Debug, PartialEq, Eq)]
pub enum Form {
    Enable,
    Requires,
    DiagnosticStart,
    Diagnostic,
    Extension,
    ConstAssert,
    AliasName,
    Alias,
    StructName,
    Struct,
    Const,
    FunctionName,
    Function,
    VarStart,
    Var,
    Override,
    AttributeName,
    Attribute,
    AttributeArgument,
    Declared,
    Typed,
    Untyped,
    Initial,
    NoInitial,
    ParameterName,
    Parameter,
    Result,
    NoResult,
    MemberName,
    StructMember,
    TypeName,
    Template,
    TemplateArgument,
    TemplateEnd,
    Block,
    BlockEnd,
    BlockStatement,
    If,
    IfEnd,
    Switch,
    SwitchEnd,
    Loop,
    LoopEnd,
    Break,
    NoBreakIf,
    Continue,
    Discard,
    Let,
    LocalConst,
    CaseEnd,
    DefaultSelector,
    Selector,
    FallThrough,
    BreakIf,
    Return,
    ReturnValue,
    LocalVar,
    Phony,
    Name,
    StatementCall,
    CallStatement,
    Dereference,
    AddressOf,
    Assign,
    Again,
    Left,
    Add,
    Subtract,
    Multiply,
    Divide,
    Remainder,
    BitAnd,
    BitOr,
    BitXor,
    ShiftLeft,
    ShiftRight,
    One,
    Negate,
    Less,
    LessEqual,
    Greater,
    GreaterEqual,
    Equal,
    NotEqual,
    OrStart,
    Or,
    AndStart,
    And,
    Not,
    Complement,
    Number,
    True,
    False,
    Call,
    CallEnd,
    Argument,
    Member,
    IndexStart,
    Index,
}

/// What a row of a table wants next.
#[derive(Clone, Copy, Debug)]
pub enum Symbol {
    /// A token of a kind.
    Token(Kind),
    /// The tokens of a rule.
    Rule(Rule),
    /// A new node, with the place and the text of the last token.
    Node(Form),
    /// A block opens.
    Enter,
    /// A block closes.
    Leave,
}

/// One way to read a rule: the rule, the token that it begins with, which is taken, or any, and then what follows.
pub type Row = (Rule, Option<Kind>, &'static [Symbol]);

/// A node, with the place and the text of the token before which it was made.
#[derive(Clone, Copy, Debug, PartialEq, Eq)]
pub struct Node<'t> {
    pub form: Form,
    pub span: Span,
    pub text: &'t [u8],
}

/// Whether a row that begins with a kind of token, or with any, fits a token.
fn fits(first: Option<Kind>, kind: Kind) -> bool
    ensures { result ≡ spec.fits first kind }
{
    match first {
        None => true,
        Some(wanted) => same_kind(wanted, kind),
    }
}

fn same_rule(a: Rule, b: Rule) -> bool
    ensures { result ≡ spec.same_rule a b }
{
    a == b
}

/// The first row of a rule that fits a token, if rows of the rule are at the front.
fn first_fit(rows: &[Row], rule: Rule, kind: Kind) -> Option<Row>
    ensures { option_map (λ r. (r.0, r.1, r.2.now)) result ≡ spec.first_fit (map (λ r. (r.0, r.1, r.2.now)) rows.now) rule kind }
{
    let mut left = rows;
    while let [row, more @ ..] = left {
        if !same_rule(row.0, rule) {
            return None;
        }
        if fits(row.1, kind) {
            return Some(*row);
        }
        left = more;
    }
    None
}

fn rows_from(rows: &[Row], place: usize) -> &[Row]
    ensures { result.now ≡ drop place rows.now }
{
    if place <= rows.len() {
        &rows[place..]
    } else {
        &[]
    }
}

/// The place of the first row of a rule.
fn place_of(places: &[u16], rule: Rule) -> usize
    ensures { result ≡ spec.place_of places.now rule }
{
    match places.get(rule as usize) {
        Some(place) => *place as usize,
        None => 0,
    }
}

/// The row of a rule that fits a token. `places` has the place of the first row of each rule, in the order of the rules.
pub fn find(rows: &[Row], places: &[u16], rule: Rule, kind: Kind) -> Option<Row>
    ensures { option_map (λ r. (r.0, r.1, r.2.now)) result ≡ spec.find (spec.table (map (λ r. (r.0, r.1, r.2.now)) rows.now) places.now) rule kind }
{
    first_fit(rows_from(rows, place_of(places, rule)), rule, kind)
}
