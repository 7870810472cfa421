//! Laws of the definitions, each as what a function without a body ensures.

ghost use Rattle.gx_streams.specs.Laws.{AcceptedAreRecorded, AllAreTold, AllOwedAreShown, AllOwedAreTold, EachHasAPlace, EndedAndAnswerAreTold, EndedAreCounted, EndedAreOwed, EndedAreTold, FirstNothingIsTold, KeptLastIsShown, KnownAreThePolicys, LastIsShown, NoPlaceIsTaken, NoneForOneIsNone, NobodyIsTold, NothingOwedIsTold, OneOwedIsTold, OnePlaceIsTaken, OneIsAmongAll, OneIsTold, OnlyKnownAreTold, OthersKeepPlaces, OwedGoOn, OwedTakePlaces, PartsAreRecorded, PlacesAreKept, PlacesAreNotShown, ReportsAreStreams, StaysToldByAll, StaysToldByNone, StaysToldByOne, TellingGoesOn, TwoAreAmongAll, UsersStay, FillsAloneAreSent, FillsAreShown, ReadersAreSentCopies, SentIsKept, StaysToldByFill};

/// What a day's records tell each user goes on record by record: each adds what it owes to the end.
pub fn streams_go_on()
    ensures none { FirstNothingIsTold }
    ensures next { TellingGoesOn }
    ensures one { OneIsTold }
    ensures all { AllAreTold }
    ensures nobody { NobodyIsTold }
    ensures ended { EndedAreOwed }
    ensures counted { EndedAreCounted }
{}

/// A report that is put last is shown last of its user, and places are not shown.
pub fn changes_are_shown()
    ensures last { LastIsShown }
    ensures kept { KeptLastIsShown }
    ensures places { PlacesAreNotShown }
    ensures fills { FillsAreShown }
    ensures owed { AllOwedAreShown }
    ensures next { OwedGoOn }
{}

/// Streams that show what was told go on doing so, once what the next record owes is put last.
pub fn streams_stay_told()
    ensures one { StaysToldByOne }
    ensures all { StaysToldByAll }
    ensures none { StaysToldByNone }
    ensures fill { StaysToldByFill }
{}

/// What a record owes is what it adds to the streams.
pub fn owed_is_told()
    ensures one { OneOwedIsTold }
    ensures all { AllOwedAreTold }
    ensures none { NothingOwedIsTold }
    ensures empty { NoneForOneIsNone }
    ensures single { OneIsAmongAll }
    ensures both { TwoAreAmongAll }
    ensures ended { EndedAreTold }
    ensures answered { EndedAndAnswerAreTold }
{}

/// What a change of one user's list does to the reserved places.
pub fn places_are_taken()
    ensures users { UsersStay }
    ensures others { OthersKeepPlaces }
    ensures last { NoPlaceIsTaken }
    ensures one { OnePlaceIsTaken }
    ensures kept { PlacesAreKept }
    ensures owed { OwedTakePlaces }
    ensures each { EachHasAPlace }
{}

/// In a legal history nobody is told anything whom the policy does not know.
pub fn only_the_known_are_told()
    ensures { OnlyKnownAreTold }
{}

/// Where the streams show what was told, they give each user's stream, and know the policy's users.
pub fn reports_are_streams()
    ensures reports { ReportsAreStreams }
    ensures known { KnownAreThePolicys }
{}

/// A reader's stream is exactly the drop copies of the fills of accounts then his, and nothing but a fill adds to it:
/// what is granted or revoked later changes nothing that he was told.
pub fn readers_are_sent_copies()
    ensures copies { ReadersAreSentCopies }
    ensures kept { SentIsKept }
    ensures alone { FillsAloneAreSent }
{}

/// An Accepted need not be kept: in a legal day each that a user is told is what the record of its order tells, and so is each of
/// a part of what he is told.
pub fn accepted_are_recorded()
    ensures all { AcceptedAreRecorded }
    ensures part { PartsAreRecorded }
{}
