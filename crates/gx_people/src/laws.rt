//! Laws of the definitions, each as what a function without a body ensures.

ghost use Rattle.gx_people.specs.Laws.{AccountsStay, EntitlementsAreKept, FirstAsThePolicySays, GrantsAddOnePair, GrantsGoToTheNamed, NamedReadersSee, NamesStay, NextByTheCommand, OfficersStay, PasswordsStay, PowersStay, ReadersHaveRoom, ReadersStay, RevocationsGoToTheNamed, RevocationsTakeOnePair, ScopesStay, TradersStay, UsersStay, UsersStaySound};

/// Under a sound policy a reader sees an account exactly where the policy and the day's records entitle him to it.
pub fn entitlements_are_kept()
    ensures by_name { EntitlementsAreKept }
    ensures as_written { NamedReadersSee }
{}

/// The users in force are the policy's at first, and each granted command changes them.
pub fn people_after_one_more()
    ensures none { FirstAsThePolicySays }
    ensures next { NextByTheCommand }
{}

/// No command changes who is known, what he is, his password, his powers or the accounts that he trades or watches over.
pub fn powers_stay()
    ensures powers { PowersStay }
    ensures scopes { ScopesStay }
    ensures traders { TradersStay }
    ensures officers { OfficersStay }
    ensures readers { ReadersStay }
    ensures accounts { AccountsStay }
    ensures passwords { PasswordsStay }
    ensures users { UsersStay }
    ensures names { NamesStay }
{}

/// A grant and a revocation change what one reader sees, of one account.
pub fn commands_change_one_pair()
    ensures granted { GrantsAddOnePair }
    ensures revoked { RevocationsTakeOnePair }
    ensures grant { GrantsGoToTheNamed }
    ensures revoke { RevocationsGoToTheNamed }
{}

/// In a legal day under a sound policy the users in force are sound, so a reader's accounts are the policy's, none of
/// them twice: he has one of the policy's already, or there is room for it.
pub fn readers_have_room()
    ensures sound { UsersStaySound }
    ensures room { ReadersHaveRoom }
{}
