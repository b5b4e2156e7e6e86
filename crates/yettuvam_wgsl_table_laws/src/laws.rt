//! What holds of the grammar and of whatever it reads.

ghost use Rattle.std.specs.Prelude.{◌≡◌, ◌<◌, ◌^◌, List, length, true};
ghost use Rattle.yettuvam_wgsl_words.specs.Scan.{Token};
ghost use Rattle.yettuvam_wgsl_grammar.specs.Module.{grammar, parse, rows};
ghost use Rattle.yettuvam_wgsl_table_laws.specs.Numbers.{rules, value_effects, list_effects, block_effects, finished_effects};
ghost use Rattle.yettuvam_wgsl_table_laws.specs.Rows.{no_row_is_dead, is_in_order};
ghost use Rattle.yettuvam_wgsl_table_laws.specs.Run.{GivesBalanced, HasEnd};

/// Every row of the table can be taken: none stands after one of its rule that fits every token.
pub fn rows_are_alive()
    ensures { no_row_is_dead rows ≡ true }
{}

/// Each rule has rows, which stand together and begin at the place of the rule.
pub fn rows_are_in_order()
    ensures { is_in_order rules grammar ≡ true }
{}

/// Each node of a module finds its operands: among the nodes before it there are as many values, open lists, open
/// blocks and finished blocks as it takes, and none are left after the last node.
pub fn nodes_are_balanced()
    ensures values { (tokens : List Token) → GivesBalanced value_effects (parse tokens) }
    ensures lists { (tokens : List Token) → GivesBalanced list_effects (parse tokens) }
    ensures blocks { (tokens : List Token) → GivesBalanced block_effects (parse tokens) }
    ensures finished { (tokens : List Token) → GivesBalanced finished_effects (parse tokens) }
{}

/// The turns of the machine don't run out: no text is refused as `Endless`.
pub fn turns_suffice()
    ensures { (tokens : List Token) → length tokens < 2 ^ 32 → HasEnd (parse tokens) }
{}
