//! Each public call once, with the lines as a user sees them.

use gx_desk::{Action, Answer, AnswerCode, Command, DropCopy, Tag, WrittenName};
use gx_history::report::Message;
use gx_lines::{LimitForm, answer_line, copy_line, earlier_answer_line, order_line};
use gx_ouch::{
    Accepted, CancelReason, Canceled, EventCode, Executed, Inbound, Liquidity, OrderTerms,
    Outbound, RejectReason, Rejected, Replaced,
};
use gx_terminal::{
    ExpectedInput, HELP, Lifetime, NewOrder, NewTerms, Side, Status, TypedLimit, Wish, WrongWord,
    accounts_named,
};
use gx_text::Form;
use gx_units::{AccountName, Firm, OutOfMemory, RuleId, Symbol, Token};

const MOMENT: u64 = 37_783_698_373_000;

const ALFA: AccountName = AccountName {
    bytes: *b"ALFA    ",
};

const BETA: AccountName = AccountName {
    bytes: *b"BETA    ",
};

const TEST: Symbol = Symbol {
    bytes: *b"TEST    ",
};

const D1: Token = Token {
    bytes: *b"D1            ",
};

fn is_read(line: &[u8], wish: Wish) -> bool {
    match Wish::read(line) {
        Ok(read) => read == wish,
        Err(_) => false,
    }
}

fn is_wrong(line: &[u8], word: usize, wanted: ExpectedInput) -> bool {
    match Wish::read(line) {
        Ok(_) => false,
        Err(wrong) => wrong == WrongWord { word, wanted },
    }
}

fn is_shown(line: Result<Vec<u8>, OutOfMemory>, text: &[u8]) -> bool {
    match line {
        Ok(line) => line.as_slice() == text,
        Err(_) => false,
    }
}

fn order(side: Side, price: u32, lifetime: Lifetime) -> Wish {
    Wish::Enter(NewOrder {
        side,
        shares: 100,
        stock: TEST,
        price,
        lifetime,
    })
}

#[test]
fn commands_are_read(rt: HostRuntime) {
    let halt = RuleId {
        bytes: *b"HALT    ",
    };
    let rita = WrittenName { bytes: *b"rita  " };
    let kill = is_read(b"kill ALFA", Wish::Ask(Action::Kill(ALFA)));
    let lift = is_read(b"  lift   ALFA  \r", Wish::Ask(Action::Lift(ALFA)));
    let limit = is_read(
        b"limit HALT 18446744073709551615",
        Wish::Limit(
            halt,
            TypedLimit {
                amount: u64::MAX,
                is_money: false,
            },
        ),
    );
    let restrict = is_read(
        b"restrict HALT TEST",
        Wish::Ask(Action::Restrict(halt, TEST)),
    );
    let unrestrict = is_read(
        b"unrestrict HALT TEST",
        Wish::Ask(Action::Unrestrict(halt, TEST)),
    );
    let grant = is_read(b"grant rita ALFA", Wish::Ask(Action::Grant(rita, ALFA)));
    let revoke = is_read(b"revoke rita ALFA", Wish::Ask(Action::Revoke(rita, ALFA)));
    let close = is_read(b"close --yes", Wish::Ask(Action::CloseDay));
    assert!(rt; kill && lift && limit && restrict && unrestrict && grant && revoke && close);
}

#[test]
fn orders_are_read(rt: HostRuntime) {
    let buy = is_read(b"buy 100 TEST 10", order(Side::Buy, 100_000, Lifetime::Day));
    let sell = is_read(
        b"sell 100 TEST 10.5 ioc",
        order(Side::Sell, 105_000, Lifetime::ImmediateOrCancel),
    );
    let least = is_read(
        b"buy 100 TEST 0.0001 day",
        order(Side::Buy, 1, Lifetime::Day),
    );
    let most = is_read(
        b"buy 100 TEST 429496.7295",
        order(Side::Buy, u32::MAX, Lifetime::Day),
    );
    let terms = NewTerms {
        token: D1,
        shares: 5,
        price: 100_001,
        lifetime: Lifetime::Day,
    };
    let replace = is_read(b"replace D1 5 10.0001", Wish::Replace(terms));
    let nothing = is_read(b"", Wish::Nothing) && is_read(b"# kill ALFA", Wish::Nothing);
    let plain = is_read(b"watch", Wish::Watch)
        && is_read(b"help", Wish::Help)
        && is_read(b"quit", Wish::Quit);
    assert!(rt; buy && sell && least && most && replace && nothing && plain);
    assert!(rt; is_read(b"kill --all", Wish::KillAll));
}

#[test]
fn several_accounts_are_read(rt: HostRuntime) {
    let wish = is_read(b"kill ALFA  BETA", Wish::KillEach);
    let named = match accounts_named(rt.alloc(), b"kill ALFA  BETA\r") {
        Ok(names) => names.as_slice() == [ALFA, BETA].as_slice(),
        Err(_) => false,
    };
    let wrong = is_wrong(b"kill ALFA BETABETAB", 3, ExpectedInput::Account)
        && is_wrong(b"kill --all ALFA", 3, ExpectedInput::End);
    assert!(rt; wish && named && wrong);
}

#[test]
fn wrong_words_are_told(rt: HostRuntime) {
    let form = is_wrong(b"slay ALFA", 1, ExpectedInput::Form)
        && is_wrong(b"kill", 2, ExpectedInput::AccountOrAll);
    let account = is_wrong(b"lift ALFALFALF", 2, ExpectedInput::Account);
    let close = is_wrong(b"close", 2, ExpectedInput::Yes)
        && is_wrong(b"close --no", 2, ExpectedInput::Yes);
    let decimals = is_wrong(b"buy 1 TEST 10.00001", 4, ExpectedInput::Price);
    let digits = is_wrong(b"buy 1 TEST .5", 4, ExpectedInput::Price)
        && is_wrong(b"buy 1 TEST 5.", 4, ExpectedInput::Price);
    let large = is_wrong(b"buy 1 TEST 429496.7296", 4, ExpectedInput::Price);
    let lifetime = is_wrong(b"buy 1 TEST 1 gtc", 5, ExpectedInput::Lifetime);
    let end = is_wrong(b"cancel  D1 1 2", 4, ExpectedInput::End);
    assert!(rt; form && account && close && decimals && digits && large && lifetime && end);
}

#[test]
fn wishes_are_sent(rt: HostRuntime) {
    let tag = Tag {
        bytes: *b"1             ",
    };
    let action = Action::Kill(ALFA);
    let command = Wish::Ask(action).command(tag) == Some(Command { tag, action });
    let none = Wish::KillAll.command(tag).is_none() && Wish::Watch.order(D1).is_none();
    let entered = match order(Side::Sell, 100_000, Lifetime::Day).order(D1) {
        Some(Inbound::Enter(sent)) => sent.token == D1
            && sent.side == b'S'
            && sent.time_in_force == 99_999,
        _ => false,
    };
    assert!(rt; command && none && entered);
}

#[test]
fn a_status_is_told(rt: HostRuntime) {
    let mut status = Status::new();
    let begun = status.code();
    status.note(&Message::Answer(answer(AnswerCode::PartlyLifted)));
    let fine = status.code();
    status.note(&Message::Answer(answer(AnswerCode::NoPower)));
    status.note(&Message::Answer(answer(AnswerCode::Done)));
    assert!(rt; begun == 0 && fine == 0 && status.code() == 5);
}

fn answer(code: AnswerCode) -> Answer {
    Answer {
        tag: Tag {
            bytes: *b"\"1\" \x00\\        ",
        },
        command_type: b'K',
        code,
        record_number: 386_222,
    }
}

#[test]
fn answers_are_shown(rt: HostRuntime) {
    let alloc = rt.alloc();
    let kill = Action::Kill(ALFA);
    let done = answer_line(
        alloc,
        Form::Text,
        LimitForm::Number,
        MOMENT,
        &kill,
        &answer(AnswerCode::Done),
    );
    let small = Action::Lift(AccountName {
        bytes: *b"alfa    ",
    });
    let unknown = answer_line(
        alloc,
        Form::Text,
        LimitForm::Number,
        MOMENT,
        &small,
        &answer(AnswerCode::UnknownName),
    );
    let json = answer_line(
        alloc,
        Form::Json,
        LimitForm::Number,
        MOMENT,
        &kill,
        &answer(AnswerCode::NoChange),
    );
    let earlier = earlier_answer_line(alloc, Form::Text, MOMENT, &answer(AnswerCode::NoChange));
    let done = is_shown(done, b"ALFA killed: record 386222 at 10:29:43.698373000\n");
    let unknown = is_shown(
        unknown,
        b"gate: denied Q1: the policy has no account alfa; names are in capitals\n",
    );
    let json = is_shown(
        json,
        b"{\"at\":\"10:29:43.698373000\",\"event\":\"answer\",\"command\":\"kill\",\
            \"account\":\"ALFA\",\"code\":\"Q4\",\"tag\":\"\\\"1\\\" \\u0000\\\\\",\"record\":386222}\n",
    );
    let earlier = is_shown(
        earlier,
        b"kill with tag \"1\"\\x20\\x00\\x5c answered Q4: record 386222 at 10:29:43.698373000\n",
    );
    assert!(rt; done && unknown && json && earlier);
}

fn terms() -> OrderTerms {
    OrderTerms {
        side: b'B',
        shares: 100,
        stock: TEST,
        price: 100_500,
        time_in_force: 99_999,
        firm: Firm { bytes: *b"ALF " },
        display: b'Y',
        capacity: b'A',
        intermarket_sweep: b'N',
        minimum_quantity: 0,
        cross_type: b'N',
    }
}

fn executed() -> Executed {
    Executed {
        token: D1,
        shares: 40,
        price: 100_001,
        liquidity: Liquidity::Removed,
        match_number: 18,
    }
}

#[test]
fn taken_orders_are_shown(rt: HostRuntime) {
    let alloc = rt.alloc();
    let accepted = Outbound::Accepted(Accepted {
        token: D1,
        terms: terms(),
        order_reference: 17,
    });
    let replaced = Outbound::Replaced(Replaced {
        token: D1,
        terms: terms(),
        order_reference: 19,
        previous_token: D1,
    });
    let accepted = order_line(alloc, Form::Text, 0, &accepted);
    let replaced = order_line(alloc, Form::Json, 0, &replaced);
    let accepted = is_shown(
        accepted,
        b"D1 accepted: buy 100 TEST at 10.05, order 17, at 00:00:00.000000000\n",
    );
    let replaced = is_shown(
        replaced,
        b"{\"at\":\"00:00:00.000000000\",\"event\":\"replaced\",\"token\":\"D1\",\"previous\":\"D1\",\
            \"side\":\"buy\",\"shares\":100,\"stock\":\"TEST\",\"price\":10.05,\"time_in_force\":99999,\"order\":19}\n",
    );
    assert!(rt; accepted && replaced);
}

#[test]
fn lost_orders_are_shown(rt: HostRuntime) {
    let alloc = rt.alloc();
    let canceled = Outbound::Canceled(Canceled {
        token: D1,
        decrement: 60,
        reason: CancelReason::Supervisory,
    });
    let rejected = Outbound::Rejected(Rejected {
        token: D1,
        reason: RejectReason::Halted,
    });
    let canceled = order_line(alloc, Form::Text, 0, &canceled);
    let rejected = order_line(alloc, Form::Text, 0, &rejected);
    let canceled = is_shown(
        canceled,
        b"D1 canceled: 60, supervisory, at 00:00:00.000000000\n",
    );
    let rejected = is_shown(
        rejected,
        b"D1 rejected: H, the stock is halted, at 00:00:00.000000000\n",
    );
    assert!(rt; canceled && rejected);
}

#[test]
fn fills_are_shown(rt: HostRuntime) {
    let alloc = rt.alloc();
    let copy = DropCopy {
        executed: executed(),
        account: ALFA,
        side: b'T',
    };
    let told = order_line(alloc, Form::Text, MOMENT, &Outbound::Executed(executed()));
    let text = copy_line(alloc, Form::Text, MOMENT, &copy);
    let json = copy_line(alloc, Form::Json, MOMENT, &copy);
    let ends = order_line(
        alloc,
        Form::Text,
        90_000_000_000_001,
        &Outbound::SystemEvent(EventCode::EndOfDay),
    );
    let told = is_shown(
        told,
        b"D1 executed: 40 at 10.0001, match 18, removed liquidity, at 10:29:43.698373000\n",
    );
    let text = is_shown(
        text,
        b"ALFA: sell short 40 at 10.0001, token D1, match 18, removed liquidity, at 10:29:43.698373000\n",
    );
    let json = is_shown(
        json,
        b"{\"at\":\"10:29:43.698373000\",\"event\":\"fill\",\"account\":\"ALFA\",\"side\":\"sell short\",\
            \"token\":\"D1\",\"shares\":40,\"price\":10.0001,\"match\":18,\"liquidity\":\"removed\"}\n",
    );
    let ends = is_shown(ends, b"the day ends, at 25:00:00.000000001\n");
    assert!(rt; told && text && json && ends);
}

#[test]
fn help_has_each_form(rt: HostRuntime) {
    assert!(rt; HELP.contains("close --yes") && HELP.contains("cancel TOKEN [SHARES]"));
}
