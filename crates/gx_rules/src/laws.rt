//! Laws of the settings, each as what a function without a body ensures.

ghost use Rattle.gx_rules.specs.{Laws.{NamesAndScopesStay, OtherRulesStay, OtherStocksStay, RestrictedAreListed, RulesAfterOneMore, SetLimitsAreInForce, UnrestrictedAreNotListed}, Settings.{with_stock_restricted, with_stock_unrestricted}};

/// The rules in force after one more record are those before it, changed by the command that it grants.
pub fn rules_after_one_more()
    ensures { RulesAfterOneMore }
{}

/// A setting changes the rule of its name alone, to what was asked: its limit, or the one stock on its list.
pub fn other_rules_stay()
    ensures others { OtherRulesStay }
    ensures limit { SetLimitsAreInForce }
    ensures listed { RestrictedAreListed }
    ensures not_listed { UnrestrictedAreNotListed }
    ensures kept_by_restrict { OtherStocksStay with_stock_restricted }
    ensures kept_by_unrestrict { OtherStocksStay with_stock_unrestricted }
{}

/// A setting changes no rule's name, no rule's scope and not the order of the rules.
pub fn a_setting_changes_no_name()
    ensures { NamesAndScopesStay }
{}
