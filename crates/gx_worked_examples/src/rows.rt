//! Worked rows: runs on a sample policy with what comes of them, each as what a function without a body ensures.

ghost use Rattle.gx_worked_examples.specs.{OrderRows.{AUsedTokenIsDenied, CancelsLowerTheSize, AReplaceLosesItsPlace, SizesAndPricesAreChecked, ImmediateOrdersExpire, TheGreatestOrderIsGranted, PricesBelowADollarMayBeFiner, LoginsAndRolesAreChecked}, CommandRows.{AKillEndsASweep, ALiftLetsTradeAgain, ASetLimitIsInForce, UselessCommandsAreDenied, NamesAreWrittenInEitherCase, ReadersComeAndGo, AKillStandsUntilTheLift}, RuleRows.{ValueAboveTheLimit, TheFileOrderDecides, TheFileOrderTurned, ACollarFollowsTheLastFill, SharesCountTogether, APositionIsNet, IncomingOrdersCount, EqualOrdersAreCounted, WindowsGoByTheMoments, ARestrictedStockComesFirst, ARestrictedStockComesLast, AnOrderMayBeTooBig}, MatchingRows.{SettlingTakesAllThatWait, TheBestPriceComesFirst, AnImmediateOrderTakesWhatThereIs, ACutOrderKeepsItsPlace}, ReportRows.{AKillIsTold, ADeniedValueIsTold, AKilledAccountIsTold, ALiftIsTold, ACancelIsTold, ACutIsTold, AReplaceIsTold, AnExpiryIsTold, TheEndOfTheDayIsTold, TheSampleIsSound, TheSweepIsShowable, ADropCopyIsWritten}};

/// Runs of traders' orders on the sample policy: tokens, sizes, prices, cancels, replaces and logins.
pub fn rows_of_orders()
    ensures a_used_token_is_denied { AUsedTokenIsDenied }
    ensures cancels_lower_the_size { CancelsLowerTheSize }
    ensures a_replace_loses_its_place { AReplaceLosesItsPlace }
    ensures sizes_and_prices_are_checked { SizesAndPricesAreChecked }
    ensures immediate_orders_expire { ImmediateOrdersExpire }
    ensures the_greatest_order_is_granted { TheGreatestOrderIsGranted }
    ensures prices_below_a_dollar_may_be_finer { PricesBelowADollarMayBeFiner }
    ensures logins_and_roles_are_checked { LoginsAndRolesAreChecked }
{}

/// Runs with officers' commands on the sample policy: kills, lifts, limits, readers and the end of the day.
pub fn rows_of_commands()
    ensures a_kill_ends_a_sweep { AKillEndsASweep }
    ensures a_lift_lets_trade_again { ALiftLetsTradeAgain }
    ensures a_set_limit_is_in_force { ASetLimitIsInForce }
    ensures useless_commands_are_denied { UselessCommandsAreDenied }
    ensures names_are_written_in_either_case { NamesAreWrittenInEitherCase }
    ensures readers_come_and_go { ReadersComeAndGo }
    ensures a_kill_stands_until_the_lift { AKillStandsUntilTheLift }
{}

/// Runs under rules of the file: values, collars, sums over accounts, windows and repeats.
pub fn rows_of_rules()
    ensures value_above_the_limit { ValueAboveTheLimit }
    ensures the_file_order_decides { TheFileOrderDecides }
    ensures the_file_order_turned { TheFileOrderTurned }
    ensures a_collar_follows_the_last_fill { ACollarFollowsTheLastFill }
    ensures shares_count_together { SharesCountTogether }
    ensures a_position_is_net { APositionIsNet }
    ensures incoming_orders_count { IncomingOrdersCount }
    ensures equal_orders_are_counted { EqualOrdersAreCounted }
    ensures windows_go_by_the_moments { WindowsGoByTheMoments }
    ensures a_restricted_stock_comes_first { ARestrictedStockComesFirst }
    ensures a_restricted_stock_comes_last { ARestrictedStockComesLast }
    ensures an_order_may_be_too_big { AnOrderMayBeTooBig }
{}

/// Runs in which orders meet: who trades first, how far matching goes, and what a cut leaves.
pub fn rows_of_matching()
    ensures settling_takes_all_that_wait { SettlingTakesAllThatWait }
    ensures the_best_price_comes_first { TheBestPriceComesFirst }
    ensures an_immediate_order_takes_what_there_is { AnImmediateOrderTakesWhatThereIs }
    ensures a_cut_order_keeps_its_place { ACutOrderKeepsItsPlace }
{}

/// What users are told in these runs.
pub fn rows_of_reports()
    ensures a_kill_is_told { AKillIsTold }
    ensures a_denied_value_is_told { ADeniedValueIsTold }
    ensures a_killed_account_is_told { AKilledAccountIsTold }
    ensures a_lift_is_told { ALiftIsTold }
    ensures a_cancel_is_told { ACancelIsTold }
    ensures a_cut_is_told { ACutIsTold }
    ensures a_replace_is_told { AReplaceIsTold }
    ensures an_expiry_is_told { AnExpiryIsTold }
    ensures the_end_of_the_day_is_told { TheEndOfTheDayIsTold }
    ensures the_sample_is_sound { TheSampleIsSound }
    ensures the_sweep_is_showable { TheSweepIsShowable }
    ensures a_drop_copy_is_written { ADropCopyIsWritten }
{}
