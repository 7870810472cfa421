//! A record, read from bytes.

ghost use Rattle.std.specs.{Prelude.{◌≡◌, ◌≢◌, ◌≤◌, IsTrue, IsFalse, IfSome, length, Some, None, bytes_eq}, Int.{w8, w16, w32, w64, from_be_bytes}, List.find};
ghost use Rattle.gx_units.specs.{Names.has_no_lower_case, Spelling.is_blank};
ghost use Rattle.gx_history.specs.declared.record.Request.TheVariants as requests;
ghost use Rattle.gx_history.specs.{Showing.{is_showable, is_verdict_of, is_askable, answers, is_rule_shown, has_its_first}};
ghost use Rattle.gx_policy.specs.RuleNames.{rule_id};
ghost use Rattle.gx_audit_bytes.specs.declared.version.AuditVersion.TheVariants as versions;
ghost use Rattle.gx_audit_bytes.specs.{Records.record_bytes, Reading.{record_of, shows_rule, IsRecordShown, content_in, step_of_bytes, verdict_of_bytes, rule_of_bytes, request_in, login_in, unreadable_in, message_size, step_shown, verdict_shown}};

use crate::draft::{RECORD_SIZE, whole};
use crate::version::AuditVersion;
use crate::written::is_written;
use gx_desk::{Action, Command, Tag, WrittenName};
use gx_history::record::{
    Asked, Fill, Login, Record, RecordData, Request, Step, Unreadable, Verdict,
};
use gx_ouch::Inbound;
use gx_policy::{BUILT_IN, RuleName, is_built_in};
use gx_units::{AccountName, RuleId, Symbol, UserName};

/// The record whose bytes these are in version 1; None where they are no record's. Takes no memory.
/// Part of the interface: `read_record_in`, which the program calls, for version 1 alone.
pub fn read_record(bytes: &[u8; RECORD_SIZE]) -> Option<Record>
    ensures shown { result ≡ record_of versions.One bytes.now }
    ensures bytes { IfSome result (λ r. record_bytes versions.One r ≡ bytes.now) }
{
    read_record_in(AuditVersion::One, bytes)
}

/// The record whose bytes these are in version 2; None where they are no record's. Takes no memory.
/// Part of the interface: `read_record_in`, which the program calls, for version 2 alone.
pub fn read_record_2(bytes: &[u8; RECORD_SIZE]) -> Option<Record>
    ensures shown { result ≡ record_of versions.Two bytes.now }
    ensures bytes { IfSome result (λ r. record_bytes versions.Two r ≡ bytes.now) }
{
    read_record_in(AuditVersion::Two, bytes)
}

/// The record whose bytes these are in this version; None where they are no record's. Takes no memory.
#[tactic(auto, unfolding(crate::specs::Reading::record_of), using(crate::proofs::Record_parts::shown_so))]
pub fn read_record_in(version: AuditVersion, bytes: &[u8; RECORD_SIZE]) -> Option<Record>
    ensures shown { result ≡ record_of version bytes.now }
    ensures bytes { IfSome result (λ r. record_bytes version r ≡ bytes.now) }
    ensures read_back { IfSome result (IsRecordShown version) }
{
    let content = content(bytes)?;
    if is_showable(&content) && is_written(version, &content, bytes) {
        Some(Record::new(content))
    } else {
        None
    }
}

/// What the bytes show.
#[tactic(auto, unfolding(crate::specs::Reading::content_in))]
pub(crate) fn content(bytes: &[u8]) -> Option<RecordData>
    requires { length bytes.now ≡ 128 }
    ensures { result ≡ content_in bytes.now }
{
    let step = step_shown(bytes)?;
    let verdict = verdict_shown(bytes)?;
    Some(RecordData {
        number: long(&bytes[4..12]),
        moment: long(&bytes[20..28]),
        step,
        verdict,
    })
}

#[tactic(auto, unfolding(crate::specs::Reading::step_shown))]
pub(crate) fn step_shown(bytes: &[u8]) -> Option<Step>
    requires { length bytes.now ≡ 128 }
    ensures { result ≡ step_shown bytes.now }
{
    let handed = long(&bytes[12..20]);
    let line = short(&bytes[28..30]);
    let user = whole(&bytes[30..36]);
    let kind = byte(&bytes[36..37]);
    step(kind, handed, line, user, &bytes[37..95])
}

#[tactic(auto, unfolding(crate::specs::Reading::verdict_shown))]
fn verdict_shown(bytes: &[u8]) -> Option<Verdict>
    requires { length bytes.now ≡ 128 }
    ensures { result ≡ verdict_shown bytes.now }
{
    let letter = byte(&bytes[95..96]);
    let rule = whole(&bytes[96..104]);
    let order = long(&bytes[104..112]);
    let maker = long(&bytes[112..120]);
    let shares = number(&bytes[120..124]);
    let price = number(&bytes[124..128]);
    verdict(letter, rule, order, maker, shares, price)
}

#[tactic(auto, unfolding(crate::specs::Reading::step_of_bytes))]
fn step(kind: u8, handed: u64, line: u16, user: [u8; 6], body: &[u8]) -> Option<Step>
    requires { length body.now ≡ 58 }
    ensures { result ≡ step_of_bytes kind handed line user body.now }
{
    if kind == b'4' {
        return Some(Step::Matching(handed));
    }
    let request = request(kind, body)?;
    Some(Step::Asked(Asked {
        line,
        user: UserName { bytes: user },
        request,
        handed,
    }))
}

#[tactic(auto, unfolding(crate::specs::Reading::request_in))]
fn request(kind: u8, body: &[u8]) -> Option<Request>
    requires { length body.now ≡ 58 }
    ensures { result ≡ request_in kind body.now }
{
    match kind {
        b'1' => Some(Request::Login(login(body))),
        b'2' => Some(Request::Logout),
        b'3' => Some(Request::Unreadable(unreadable(body))),
        _ => Some(Request::read(&body[..message_size(kind)?])),
    }
}

fn login(body: &[u8]) -> Login
    requires { length body.now ≡ 58 }
    ensures { requests.Login result ≡ login_in body.now }
{
    Login {
        password_is_right: body[0] == b'Y',
        session_is_right: body[1] == b'Y',
        wanted: long(&body[2..10]),
    }
}

fn unreadable(body: &[u8]) -> Unreadable
    requires { length body.now ≡ 58 }
    ensures { requests.Unreadable result ≡ unreadable_in body.now }
{
    Unreadable {
        length: short(&body[0..2]),
        first: body[2],
    }
}

/// How many bytes a message of this type has.
pub(crate) fn message_size(kind: u8) -> Option<usize>
    ensures size { result ≡ message_size kind }
    ensures within { IfSome result (λ size. size ≤ 58) }
{
    match kind {
        b'O' => Some(49),
        b'U' => Some(47),
        b'X' => Some(19),
        b'K' => Some(23),
        b'L' => Some(23),
        b'M' => Some(31),
        b'R' => Some(31),
        b'N' => Some(31),
        b'G' => Some(29),
        b'V' => Some(29),
        b'Z' => Some(15),
        _ => None,
    }
}

#[tactic(auto, unfolding(crate::specs::Reading::verdict_of_bytes))]
fn verdict(
    letter: u8,
    rule: [u8; 8],
    order: u64,
    maker: u64,
    shares: u32,
    price: u32,
) -> Option<Verdict>
    ensures { result ≡ verdict_of_bytes letter rule order maker shares price }
{
    match letter {
        b'G' => Some(Verdict::Granted),
        b'D' => Some(Verdict::Denied(rule_named(rule))),
        b'F' => Some(Verdict::Filled(Fill {
            taker: order,
            maker,
            shares,
            price,
        })),
        b'R' => Some(Verdict::Rested(order)),
        b'E' => Some(Verdict::Expired(order)),
        _ => None,
    }
}

/// The rule of this name: a built-in one, or else one of the file.
#[tactic(auto, unfolding(crate::specs::Reading::rule_of_bytes, gx_policy::specs::RuleNames::rules_before, gx_policy::specs::RuleNames::rules_behind))]
fn rule_named(name: [u8; 8]) -> RuleName
    ensures { result ≡ rule_of_bytes name }
{
    match found(&BUILT_IN, name) {
        Some(rule) => rule,
        None => RuleName::File(RuleId { bytes: name }),
    }
}

fn found(rules: &[RuleName], name: [u8; 8]) -> Option<RuleName>
    ensures { result ≡ find (λ rule. bytes_eq (rule_id rule).bytes name) rules.now }
{
    rules.iter().copied().find(|rule| rule.id().bytes == name)
}

pub(crate) fn is_showable(content: &RecordData) -> bool
    ensures { result ≡ is_showable content.now }
{
    content.number > 0 && is_verdict_of(&content.step, &content.verdict)
}

fn is_verdict_of(step: &Step, verdict: &Verdict) -> bool
    ensures { result ≡ is_verdict_of step.now verdict.now }
{
    match (step, verdict) {
        (Step::Asked(asked), _) => is_askable(asked) && answers(&asked.request, verdict),
        (Step::Matching(_), Verdict::Filled(_)) => true,
        (Step::Matching(_), Verdict::Rested(_)) => true,
        (Step::Matching(_), Verdict::Expired(_)) => true,
        (Step::Matching(_), _) => false,
    }
}

fn is_askable(asked: &Asked) -> bool
    ensures { result ≡ is_askable asked.now }
{
    asked.line > 0 && has_no_lower_case(&asked.user.bytes) && has_its_first(&asked.request)
}

pub(crate) fn has_no_lower_case(name: &[u8]) -> bool
    ensures { result ≡ has_no_lower_case name.now }
{
    name.iter().all(|byte| !(b'a' <= *byte && *byte <= b'z'))
}

fn has_its_first(request: &Request) -> bool
    ensures { result ≡ has_its_first request.now }
{
    match request {
        Request::Unreadable(payload) => payload.length != 0 || payload.first == 0,
        _ => true,
    }
}

fn answers(request: &Request, verdict: &Verdict) -> bool
    ensures { result ≡ answers request.now verdict.now }
{
    match (request, verdict) {
        (_, Verdict::Denied(rule)) => is_rule_shown(rule),
        (Request::Unreadable(_), Verdict::Granted) => false,
        (_, Verdict::Granted) => true,
        (_, _) => false,
    }
}

fn is_rule_shown(rule: &RuleName) -> bool
    ensures { result ≡ is_rule_shown rule.now }
{
    match rule {
        RuleName::File(name) => !is_built_in(*name) && !is_blank(&name.bytes),
        _ => true,
    }
}

fn is_blank(name: &[u8]) -> bool
    ensures { result ≡ is_blank name.now }
{
    name.iter().all(|byte| *byte == b' ')
}

/// The number in a field of eight bytes.
fn long(field: &[u8]) -> u64
    requires { length field.now ≡ 8 }
    ensures { result ≡ from_be_bytes w64 field.now }
{
    u64::from_be_bytes(whole(field))
}

/// The number in a field of four bytes.
pub(crate) fn number(field: &[u8]) -> u32
    requires { length field.now ≡ 4 }
    ensures { result ≡ from_be_bytes w32 field.now }
{
    u32::from_be_bytes(whole(field))
}

/// The number in a field of one byte.
pub(crate) fn byte(field: &[u8]) -> u8
    requires { length field.now ≡ 1 }
    ensures { result ≡ from_be_bytes w8 field.now }
{
    field[0]
}

/// The number in a field of two bytes.
pub(crate) fn short(field: &[u8]) -> u16
    requires { length field.now ≡ 2 }
    ensures { result ≡ from_be_bytes w16 field.now }
{
    u16::from_be_bytes(whole(field))
}

/// Whether this verdict was made, of which a record can name the rule.
pub fn shows_verdict(shown: &Verdict, made: &Verdict) -> bool
    requires { IsTrue (shows_rule shown.now) }
    ensures same { IsTrue result → shown.now ≡ made.now }
    ensures other { IsFalse result → shown.now ≢ made.now }
{
    match (shown, made) {
        (Verdict::Granted, Verdict::Granted) => true,
        (Verdict::Denied(rule), Verdict::Denied(other)) => shows_rule(rule, other),
        (Verdict::Filled(fill), Verdict::Filled(other)) => shows_fill(fill, other),
        (Verdict::Rested(order), Verdict::Rested(other)) => *order == *other,
        (Verdict::Expired(order), Verdict::Expired(other)) => *order == *other,
        _ => false,
    }
}

/// Whether this rule denied.
fn shows_rule(shown: &RuleName, made: &RuleName) -> bool
    requires { IsTrue (is_rule_shown shown.now) }
    ensures same { IsTrue result → shown.now ≡ made.now }
    ensures other { IsFalse result → shown.now ≢ made.now }
{
    shown.id().bytes == made.id().bytes && is_rule_shown(made)
}

/// Whether this fill was made.
#[tactic(auto, using(crate::proofs::Verdict_read::one_fill))]
fn shows_fill(shown: &Fill, made: &Fill) -> bool
    ensures same { IsTrue result → shown.now ≡ made.now }
    ensures other { IsFalse result → shown.now ≢ made.now }
{
    shown.taker == made.taker
        && shown.maker == made.maker
        && shown.shares == made.shares
        && shown.price == made.price
}
