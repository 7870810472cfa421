//! Laws of the definitions, each as what a function without a body ensures.

ghost use Rattle.gx_matching.specs.Laws.{BooksAreLive, BooksAreSound, BooksAreUncrossed, BooksGoOn, FirstIsLatest, LiveWaitOrRest, NextIsMet, NextRecordIsMet, NoneRestsAtFirst, RestingAreLive};

/// Before any record nothing rests.
pub fn book_at_first()
    ensures { NoneRestsAtFirst }
{}

/// What one more record does is done to the book: a Cancel takes so many shares from its order and a fill from the best on
/// the other side, which stay where they stand, or go where none are left; a Replace takes the old order out, a Kill or
/// Close Day those that it ends; an order that comes to rest is put behind all of equal or better price. Nothing else
/// changes it.
pub fn books_go_on()
    ensures { BooksGoOn }
{}

/// The first that waits has a number above those that rest at its price.
pub fn first_can_rest()
    ensures { FirstIsLatest }
{}

/// The first that waits, against the best that rests on the other side, is what matching takes next.
pub fn next_match_is_found()
    ensures verdict { NextIsMet }
    ensures entry { NextRecordIsMet }
{}

/// The book has the live orders that do not wait, and no other.
pub fn live_orders_wait_or_rest()
    ensures rest { LiveWaitOrRest }
    ensures live { RestingAreLive }
{}

/// What rests is a live order, on its side of its stock and of its account. So a Kill that takes
/// the account's live orders out, one after the other, takes out all that rests of the account,
/// and nothing else.
pub fn a_kill_takes_live_orders()
    ensures { BooksAreLive }
{}

/// Each side has the better price first.
pub fn books_are_sound()
    ensures { BooksAreSound }
{}

/// No buy that rests is at or above a sell that rests in its stock.
pub fn books_are_not_crossed()
    ensures { BooksAreUncrossed }
{}
