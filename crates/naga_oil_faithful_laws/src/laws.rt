//! A whole small make, and modules that the definition of a faithful module refuses in its place.
ghost use Rattle.naga_oil_faithful_laws.specs.ClauseLaws.{GlslLaw, OntoLaw};
ghost use Rattle.naga_oil_faithful_laws.specs.OwnNames.{OwnNamesLaw, TwiceLaw};
ghost use Rattle.naga_oil_faithful_laws.specs.PromiseLaw.{BothLaw, NoneLaw, PromiseLaw, TrickyLaw, UnsentLaw};
ghost use Rattle.naga_oil_faithful_laws.specs.SmallMake.{right};
ghost use Rattle.naga_oil_faithful_laws.specs.SmallMakeLaw.{AnswerLaw, IsFaithfulSo, MeshLaw, OtherChainLaw, IsRefused, IsUnfaithful, unmapped, of_another_key, of_another_entry, calling_itself, without_body, with_declaration, without_special};
ghost use Rattle.naga_oil_faithful_laws.specs.SpecialTypes.{SpecialTypesLaw, HasWrongSpecialTypes};
ghost use Rattle.naga_oil_faithful_laws.specs.WrongModules.{calling_another, calling_base, calling_none, dangling, ending_early, in_another_order, nothing, of_another_name, of_another_size, of_another_stage, of_number, spoiled, turned, with_another_name, with_base, with_depth_test, with_expression_span, with_first, with_leaf, with_name_of_none, with_number_argument, with_other_type, with_own_span, with_payload, with_plain_struct, with_result, with_size_override, with_statement_span, with_turned_special_types, with_unreached, without_argument, without_helper, without_initialiser, without_result, without_second, without_statement};

/// The small make answers its module.
pub fn small_make_answers()
    ensures { AnswerLaw }
{}

/// The module of the small make is faithful.
pub fn small_make_is_faithful()
    ensures { IsFaithfulSo right }
{}

/// An operand that isn't mapped in a copied build is refused.
pub fn unmapped_operand_is_refused()
    ensures { IsRefused unmapped }
{}

/// A special type of another key is refused.
pub fn type_of_another_key_is_refused()
    ensures { IsRefused of_another_key }
{}

/// An entry point with the body of another is refused.
pub fn body_of_another_entry_is_refused()
    ensures { IsRefused of_another_entry }
{}

/// A function that overrides another, and calls itself in place of the other, is refused.
pub fn redirected_call_in_the_override_is_refused()
    ensures { IsRefused calling_itself }
{}

/// A function of an imported module without its body is refused.
pub fn dropped_body_is_refused()
    ensures { IsRefused without_body }
{}

/// The shader's own declaration of an imported function, in place of the function, is refused.
pub fn declaration_is_refused()
    ensures { IsUnfaithful with_declaration }
{}

/// A module without its special types is refused.
pub fn untold_special_types_are_refused()
    ensures { IsUnfaithful without_special }
{}

/// A function with the span that it has in its own text is refused.
pub fn span_of_its_own_text_is_refused()
    ensures { IsUnfaithful (with_base with_own_span) }
{}

/// A function that calls a missing one is refused.
pub fn call_of_a_missing_function_is_refused()
    ensures { IsUnfaithful (with_base calling_none) }
{}

/// A function that calls another one is refused.
pub fn call_of_another_function_is_refused()
    ensures { IsUnfaithful (with_base calling_another) }
{}

/// An emitted range that ends early is refused.
pub fn range_that_ends_early_is_refused()
    ensures { IsUnfaithful (with_base ending_early) }
{}

/// A statement with the span that it has in its own text is refused.
pub fn span_of_a_statement_is_refused()
    ensures { IsUnfaithful (with_base with_statement_span) }
{}

/// A body without one of its statements is refused.
pub fn missing_statement_is_refused()
    ensures { IsUnfaithful (with_base without_statement) }
{}

/// An expression that nothing reaches is refused.
pub fn unreached_expression_is_refused()
    ensures { IsUnfaithful (with_base with_unreached) }
{}

/// A name of an expression that isn't there is refused.
pub fn name_of_no_expression_is_refused()
    ensures { IsUnfaithful (with_base with_name_of_none) }
{}

/// A name of an expression that its source lacks is refused.
pub fn name_of_its_own_is_refused()
    ensures { IsUnfaithful (with_base with_another_name) }
{}

/// A leaf of diagnostic filters is refused.
pub fn diagnostic_leaf_is_refused()
    ensures { IsUnfaithful (with_base with_leaf) }
{}

/// A function without its argument is refused.
pub fn missing_argument_is_refused()
    ensures { IsUnfaithful (with_base without_argument) }
{}

/// A function with a result that its source lacks is refused.
pub fn another_result_is_refused()
    ensures { IsUnfaithful (with_base with_result) }
{}

/// An argument of another type is refused.
pub fn argument_of_another_type_is_refused()
    ensures { IsUnfaithful (with_base with_number_argument) }
{}

/// A local variable without its initialiser is refused.
pub fn missing_initialiser_is_refused()
    ensures { IsUnfaithful (with_base without_initialiser) }
{}

/// A module without a function that others call is refused.
pub fn missing_function_is_refused()
    ensures { IsUnfaithful without_helper }
{}

/// A type that no parse has is refused.
pub fn type_of_no_parse_is_refused()
    ensures { IsUnfaithful with_other_type }
{}

/// A copy that calls the function of another chain is refused.
pub fn call_of_another_chain_is_refused()
    ensures { OtherChainLaw }
{}

/// A call of an overridden function, which isn't redirected, is refused.
pub fn call_of_an_overridden_function_is_refused()
    ensures { IsUnfaithful (with_first calling_base) }
{}

/// An expression that names another type is refused.
pub fn type_of_an_expression_is_refused()
    ensures { IsUnfaithful (with_first of_number) }
{}

/// An entry point without its result is refused.
pub fn dropped_result_is_refused()
    ensures { IsUnfaithful without_result }
{}

/// An entry point of another name is refused.
pub fn another_entry_name_is_refused()
    ensures { IsUnfaithful (with_first of_another_name) }
{}

/// An entry point of another stage is refused.
pub fn another_stage_is_refused()
    ensures { IsUnfaithful (with_first of_another_stage) }
{}

/// An entry point with another depth test is refused.
pub fn another_depth_test_is_refused()
    ensures { IsUnfaithful (with_first with_depth_test) }
{}

/// An entry point of another workgroup size is refused.
pub fn another_workgroup_size_is_refused()
    ensures { IsUnfaithful (with_first of_another_size) }
{}

/// A workgroup override that the shader lacks is refused.
pub fn workgroup_override_is_refused()
    ensures { IsUnfaithful (with_first with_size_override) }
{}

/// An output of a mesh shader that the shader lacks is refused.
pub fn mesh_output_is_refused()
    ensures { MeshLaw }
{}

/// A task payload that the shader lacks is refused.
pub fn task_payload_is_refused()
    ensures { IsUnfaithful (with_first with_payload) }
{}

/// A module without one of the shader's entry points is refused.
pub fn missing_entry_point_is_refused()
    ensures { IsUnfaithful without_second }
{}

/// Entry points in another order are refused.
pub fn another_order_of_entry_points_is_refused()
    ensures { IsUnfaithful in_another_order }
{}

/// A module of nothing, with a special type where no type is, is refused.
pub fn nothing_is_refused()
    ensures { IsUnfaithful nothing }
{}

/// A special type that isn't there is refused.
pub fn dangling_special_type_is_refused()
    ensures { IsUnfaithful dangling }
{}

/// Right bodies with wrong spans and entry points are refused.
pub fn spoiled_module_is_refused()
    ensures { IsUnfaithful spoiled }
{}

/// Interchanged special types, with an expression that nothing reaches, are refused.
pub fn turned_module_is_refused()
    ensures { IsUnfaithful turned }
{}

/// Each special type of a module that a make answers comes from the one that a parse has for its
/// key.
pub fn special_types_come_from_parses()
    ensures { SpecialTypesLaw }
{}

/// Interchanged special types, and nothing else wrong, come from no parse.
pub fn interchanged_special_types_are_refused()
    ensures { HasWrongSpecialTypes with_turned_special_types }
{}

/// No two functions of a module that a make answers have the same name.
pub fn made_functions_have_own_names()
    ensures { OwnNamesLaw }
{}

/// Two functions of one name are refused.
pub fn two_functions_of_one_name_are_refused()
    ensures { TwiceLaw }
{}

/// The small make keeps the whole promise of a make: its module is faithful, and its calls go down its chain.
pub fn small_make_keeps_the_promise()
    ensures { PromiseLaw }
{}

/// Calls of an overridden function that stay haven't gone down its chain.
pub fn unredirected_calls_are_refused()
    ensures { UnsentLaw }
{}

/// A text whose comment ends early overrides a function that overrides another.
pub fn text_overrides_an_overriding_function()
    ensures { TrickyLaw }
{}

/// Then a function both overrides and is overridden.
pub fn one_function_is_both()
    ensures { BothLaw }
{}

/// No function of the small make's chain both overrides and is overridden.
pub fn none_of_the_small_make_is_both()
    ensures { NoneLaw }
{}

/// An expression with the span that it has in its own text is refused.
pub fn span_of_an_expression_is_refused()
    ensures { IsUnfaithful (with_base with_expression_span) }
{}

/// A struct of an imported module under the name that it has in its own text is refused.
pub fn undecorated_type_is_refused()
    ensures { IsUnfaithful with_plain_struct }
{}

/// What a body uses is copied onto what its copy uses: not nothing onto something, and not two
/// expressions onto one unless initialisers reach both.
pub fn copies_go_onto()
    ensures { OntoLaw }
{}

/// In a faithful module of a shader in GLSL each entry point has the stage of the shader's type.
pub fn stages_of_glsl_shaders()
    ensures { GlslLaw }
{}
