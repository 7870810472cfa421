//! What the gate keeps of its records.

ghost use Rattle.std.specs.Prelude.{◌≡◌, [], IfOk, OnOk};
ghost use Rattle.gx_book.specs.Books.{empty_book};
ghost use Rattle.gx_laws.specs.Changing.{no_positions};
ghost use Rattle.gx_streams.specs.{Streams.empty_streams, Telling.shown_streams};
ghost use Rattle.gx_ledger.specs.StandsFor.{StandsFor};
ghost use Rattle.gx_trading_status.specs.InForce.{fresh_status};
ghost use Rattle.gx_gate_state.specs.State.{AreInForce, AreSentTo, HaveEnough, HaveReservedReports};

use crate::reserve::reserve_enough_for_all;
use gx_book::Book;
use gx_ledger::Ledger;
use gx_orders::Orders;
use gx_people::People;
use gx_policy::Policy;
use gx_rules::RuleBook;
use gx_streams::Streams;
use gx_trading_status::TradingStatus;
use gx_units::OutOfMemory;
use std::alloc::Global;

/// People, rules, lines and kills, live orders, the order book, the figures that the file's rules
/// ask for and what each user was told, as they are after the gate's records: so that no step walks
/// these. It ends by [`GateState::release`], and is never dropped.
pub struct GateState {
    /// The users, and what each may do and see.
    pub people: People,
    /// The rules of the policy file, with the limits and the lists in force.
    pub rules: RuleBook,
    /// The lines that users are on, the kills, and whether the day is closed.
    pub status: TradingStatus,
    /// The live orders, by number and by token.
    pub orders: Orders,
    /// The orders that rest.
    pub book: Book,
    /// The figures that rules of the file ask for.
    pub ledger: Ledger,
    /// What each user was told.
    pub streams: Streams,
}

/// Each reader gets the fills of the accounts that the policy gives him.
#[tactic(auto, using(crate::proofs::Readers_next::shown_stays))]
fn send_to_readers(
    streams: &mut Streams,
    policy: &Policy,
    people: &People,
) -> Result<(), OutOfMemory>
    requires of_people { people.now ≡ policy.now.users }
    requires of_streams { streams.old ≡ empty_streams policy.now }
    ensures shown { shown_streams streams.new ≡ shown_streams streams.old }
    ensures sent { OnOk result (AreSentTo policy.now people.now streams.new.readers) }
{
    // What this ensures: no two users have one name.
    let _ = policy.rules();
    for user in policy.users() {
        streams.entitle(user.name, people.mask(policy, user.name))?;
    }
    Ok(())
}

/// What the day begins with that is told, and to whom.
struct Telling {
    people: People,
    streams: Streams,
}

/// What the day begins with that commands change.
struct Settings {
    rules: RuleBook,
    status: TradingStatus,
}

/// What the day begins with that orders change.
struct Trading {
    orders: Orders,
    book: Book,
    ledger: Ledger,
}

/// Each reader gets the fills of his accounts, and the places are reserved that a day begins with.
fn make_ready(
    streams: &mut Streams,
    orders: &Orders,
    policy: &Policy,
    people: &People,
) -> Result<(), OutOfMemory>
    requires of_people { people.now ≡ policy.now.users }
    requires of_streams { streams.old ≡ empty_streams policy.now }
    requires of_orders { orders.now.live ≡ [] }
    ensures shown { shown_streams streams.new ≡ shown_streams streams.old }
    ensures sent { OnOk result (AreSentTo policy.now people.now streams.new.readers) }
    ensures enough { OnOk result
        (HaveEnough [] people.now policy.now streams.new policy.now.users) }
{
    send_to_readers(streams, policy, people)?;
    reserve_enough_for_all(streams, orders, people, policy)
}

fn first_telling(alloc: Global, orders: &Orders, policy: &Policy) -> Result<Telling, OutOfMemory>
    requires of_orders { orders.now.live ≡ [] }
    ensures people { IfOk result (λ t. t.people ≡ policy.now.users) }
    ensures shown { IfOk result
        (λ t. shown_streams t.streams ≡ shown_streams (empty_streams policy.now)) }
    ensures sent { IfOk result (λ t. AreSentTo policy.now t.people t.streams.readers) }
    ensures enough { IfOk result
        (λ t. HaveEnough [] t.people policy.now t.streams policy.now.users) }
{
    let people = People::new(alloc, policy)?;
    let Ok(mut streams) = Streams::new(alloc, policy) else {
        people.release();
        return Err(OutOfMemory);
    };
    match make_ready(&mut streams, orders, policy, &people) {
        Ok(()) => Ok(Telling { people, streams }),
        Err(refused) => {
            people.release();
            streams.release();
            Err(refused)
        }
    }
}

fn first_settings(alloc: Global, policy: &Policy) -> Result<Settings, OutOfMemory>
    ensures rules { IfOk result (λ s. s.rules ≡ policy.now.rules) }
    ensures status { IfOk result (λ s. s.status ≡ fresh_status policy.now) }
{
    let rules = RuleBook::new(alloc, policy)?;
    match TradingStatus::new(alloc, policy) {
        Ok(status) => Ok(Settings { rules, status }),
        Err(refused) => {
            rules.release();
            Err(refused)
        }
    }
}

fn first_trading(alloc: Global, policy: &Policy) -> Result<Trading, OutOfMemory>
    ensures live { IfOk result (λ t. t.orders.live ≡ []) }
    ensures used { IfOk result (λ t. t.orders.used ≡ []) }
    ensures book { IfOk result (λ t. t.book ≡ empty_book policy.now) }
    ensures ledger { IfOk result (λ t. StandsFor policy.now t.ledger no_positions) }
{
    let orders = Orders::new(alloc, policy)?;
    let Ok(book) = Book::new(alloc, policy) else {
        orders.release();
        return Err(OutOfMemory);
    };
    match Ledger::new(alloc, policy) {
        Ok(ledger) => Ok(Trading {
            orders,
            book,
            ledger,
        }),
        Err(refused) => {
            orders.release();
            book.release();
            Err(refused)
        }
    }
}

impl GateState {
    /// As they are at the beginning of a day under the policy, with the places that are reserved then.
    ///
    /// # Errors
    ///
    /// `OutOfMemory` where memory was refused.
    pub fn new(alloc: Global, policy: &Policy) -> Result<GateState, OutOfMemory>
        ensures in_force { IfOk result (λ state. AreInForce policy.now [] state) }
        ensures kept { IfOk result (λ state. HaveReservedReports policy.now [] state.streams) }
    {
        let trading = first_trading(alloc, policy)?;
        let Ok(telling) = first_telling(alloc, &trading.orders, policy) else {
            trading.release();
            return Err(OutOfMemory);
        };
        let Ok(settings) = first_settings(alloc, policy) else {
            trading.release();
            telling.release();
            return Err(OutOfMemory);
        };
        let Trading {
            orders,
            book,
            ledger,
        } = trading;
        let Telling { people, streams } = telling;
        let Settings { rules, status } = settings;
        Ok(GateState {
            people,
            rules,
            status,
            orders,
            book,
            ledger,
            streams,
        })
    }

    /// Lets them go. The drop of all that they keep is proved once, in the crate of each.
    pub fn release(self) {
        let GateState {
            people,
            rules,
            status,
            orders,
            book,
            ledger,
            streams,
        } = self;
        people.release();
        rules.release();
        status.release();
        orders.release();
        book.release();
        ledger.release();
        streams.release();
    }
}

impl Telling {
    fn release(self) {
        let Telling { people, streams } = self;
        people.release();
        streams.release();
    }
}

impl Trading {
    fn release(self) {
        let Trading {
            orders,
            book,
            ledger,
        } = self;
        orders.release();
        book.release();
        ledger.release();
    }
}

impl Settings {
    fn release(self) {
        let Settings { rules, status } = self;
        rules.release();
        status.release();
    }
}
