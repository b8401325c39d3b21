// A command's items judged in reading order (document 01, test 3): the first code, or the values given.
// A code stays a number: the definitions tell it so (`Attempt.judge`, `Items.judge_items`), and the reply writes its digits.
#![tactic(auto)]

ghost use Rattle.std.specs.Prelude.{◌≡◌, ◌<◌, ◌+◌, ◌^◌, ℕ, true, false, [], ◌∷◌, length};
ghost use Rattle.std.proofs.Math.Option.{none, some};
ghost use Rattle.std.specs.declared.result.Result.{Result};
ghost use Rattle.judge_items.specs.declared.Reached.{Reached};
ghost use Rattle.protocol.specs.Types.{Values};
ghost use Rattle.megaco.specs.Tree.{plain};
ghost use Rattle.megaco.specs.Items.{mode_given, state_given, property_token, value_given, set_value, property_items, items_in, set_speech, speech_given, called_in, both, either, no_descriptors, media_items, top_items, audited_items, audit_items, audit_given, unchanged, media_given, no_items, judge_items};
ghost use Rattle.megaco.specs.Reading.{word_here, speech_here};
ghost use Rattle.read_command.specs.Places.{or_none_at, item_at, items_at, speech_at, media_item_at, media_at, top_item_at, top_at};
ghost use Rattle.command_places.specs.Found.{items_from, command_end_from, closed_end};
ghost use Rattle.judge_items.specs.Judging.{InMessage, mode_by, state_by, called_by, item_checked, called_unless, kind_of, side_of, stood_next, ended, ended_next, judge_list, speech_by, value_by, property_by, media_by, top_by, audited_by, audit_by, closed_by};

use command_places::{CommandPlaces, ItemPlaces, ValuePlace};
use megaco::{Descriptors, Kind, Op, SdpText, Side, Speech, Token, Values};

// What a command's items are judged, and where the command ends.
#[derive(Clone, Copy)]
pub struct JudgedItems {
    pub judged: Result<Values, u32>,
    pub end: usize,
}

// The values that items have given, and where they end.
#[derive(Clone, Copy)]
pub struct Reached {
    pub values: Values,
    pub end: usize,
}

// ---- values

fn mode_by(k: Token) -> Option<u32>
    ensures { result ≡ mode_by k }
{
    match k {
        Token::InactiveToken => Some(0),
        Token::SendonlyToken => Some(1),
        Token::RecvonlyToken => Some(2),
        Token::SendrecvToken => Some(3),
        Token::LoopbackToken => Some(4),
        _ => None,
    }
}

#[tactic(auto, using(crate::proofs::ValueLaws::mode_token, crate::proofs::ValueLaws::mode_none))]
fn mode_given(w: &[u8]) -> Option<u32>
    ensures { result ≡ mode_given w.now }
{
    mode_by(keywords::meaning_of(w)?)
}

fn state_by(k: Token) -> Option<u32>
    ensures { result ≡ state_by k }
{
    match k {
        Token::InSvcToken => Some(0),
        Token::OutOfSvcToken => Some(1),
        Token::TestToken => Some(2),
        _ => None,
    }
}

#[tactic(auto, using(crate::proofs::ValueLaws::state_token, crate::proofs::ValueLaws::state_none))]
fn state_given(w: &[u8]) -> Option<u32>
    ensures { result ≡ state_given w.now }
{
    state_by(keywords::meaning_of(w)?)
}

// What a plain value gives.
#[tactic(auto, unfolding(megaco::specs::Items::value_given))]
fn plain_given(k: Kind, w: &[u8]) -> Option<u32>
    ensures { result ≡ value_given k (some (plain w.now)) }
{
    match k {
        Kind::InControl => mode_given(w),
        Kind::InState => state_given(w),
    }
}

// What a value gives: nothing if it stands between quotes.
#[tactic(auto, unfolding(crate::specs::Judging::value_by, crate::specs::Judging::value_in, command_places::specs::Found::ValueWithin, base::specs::Lists::part))]
fn value_given(s: &[u8], p: ItemPlaces, k: Kind) -> Option<u32>
    requires { InMessage s.now p }
    ensures { result ≡ value_by k s.now p }
{
    match p.value {
        Some(ValuePlace::Plain(w)) => plain_given(k, &s[w.from..w.to]),
        Some(ValuePlace::Quoted(_)) => None,
        None => None,
    }
}

#[tactic(auto, unfolding(megaco::specs::Items::set_value))]
fn set_value(k: Kind, g: Option<u32>, values: Values) -> Result<Values, u32>
    ensures { result ≡ set_value k g values }
{
    let value = g.ok_or(449u32)?;
    match k {
        Kind::InControl => Ok(Values {
            mode: Some(value),
            ..values
        }),
        Kind::InState => Ok(Values {
            state: Some(value),
            ..values
        }),
    }
}

// ---- one item

// Whether an item is called by a keyword: a name with `/` is called by none.
#[tactic(auto, unfolding(crate::specs::Judging::called_by, base::specs::Lists::part))]
fn item_called(s: &[u8], p: ItemPlaces, k: Token) -> bool
    requires { InMessage s.now p }
    ensures { result ≡ called_by k s.now p }
{
    !p.second & keywords::spells(k, &s[p.word.from..p.word.to])
}

// The tests of an item's name and shape: `unknown` is the code of a name that is not called for.
#[tactic(auto, unfolding(crate::specs::Judging::item_checked, base::specs::Pick::pick))]
fn check_item(unknown: u32, known: bool, repeated: bool, shaped: bool) -> Result<(), u32>
    ensures { result ≡ item_checked unknown known repeated shaped }
{
    if !known {
        return Err(unknown);
    }
    if repeated {
        return Err(448);
    }
    if !shaped {
        return Err(442);
    }
    Ok(())
}

// Items and the brace that closes them.
#[tactic(auto, unfolding(crate::specs::Judging::closed_by))]
fn closed(s: &[u8], x: Result<Reached, u32>) -> Result<Reached, u32>
    ensures { result ≡ closed_by s.now x }
{
    let r = x?;
    Ok(Reached {
        end: command_places::past_closing(s, r.end),
        ..r
    })
}

// Items joined by commas, judged in reading order, each by `one`: it is given what stood before the item and the values so far, and tells
// what has stood then.
fn judge_list<S: Copy, F: Fn(usize, S, Values) -> Result<(Reached, S), u32>>(
    s: &[u8],
    at: usize,
    stood: S,
    values: Values,
    one: F,
) -> Result<Reached, u32>
    requires { F.IsAlwaysCallable one }
    ensures { (g : ℕ → S → Values → Result (Reached × S) ℕ) → ((i : ℕ) (st : S) (vs : Values) (r : Result (Reached × S) ℕ) → i < 2 ^ 64 → F.post one i st vs r → r ≡ g i st vs) → result ≡ judge_list g s.now (length s.now + 1) at stood values }
{
    let mut i = at;
    let mut st = stood;
    let mut vs = values;
    for n in 0..s.len() + 1 {
        let (x, next) = one(i, st, vs)?;
        match command_places::next_part(s, x.end) {
            Some(u) => {
                i = u;
                st = next;
                vs = x.values;
            }
            None => return Ok(x),
        }
    }
    Ok(Reached { values: vs, end: i })
}

// ---- in LocalControl and TerminationState

#[tactic(auto, unfolding(megaco::specs::Items::property_token))]
fn property_token(k: Kind) -> Token
    ensures { result ≡ property_token k }
{
    match k {
        Kind::InControl => Token::ModeToken,
        Kind::InState => Token::ServiceStatesToken,
    }
}

#[tactic(auto, unfolding(crate::specs::Judging::property_by, crate::specs::Judging::judged_by))]
fn property_item(
    s: &[u8],
    p: ItemPlaces,
    k: Kind,
    seen: bool,
    values: Values,
) -> Result<Values, u32>
    requires { InMessage s.now p }
    ensures { result ≡ property_by k seen values s.now p }
{
    let known = item_called(s, p, property_token(k));
    check_item(445, known, seen, p.value.is_some() & p.inside.is_none())?;
    set_value(k, value_given(s, p, k), values)
}

fn property_items(s: &[u8], at: usize, k: Kind, values: Values) -> Result<Reached, u32>
    ensures { result ≡ ended (property_items k (items_at 6 s.now at).tree false values) (items_at 6 s.now at).end }
{
    let one = |i: usize, seen: bool, vs: Values| -> Result<(Reached, bool), u32>
        ensures { result ≡ ended_next (property_items k ((item_at 5 (items_at 5 s.entry.now) s.entry.now i).tree ∷ []) seen vs) (item_at 5 (items_at 5 s.entry.now) s.entry.now i).end true }
    {
        let p = command_places::item_places(s, i);
        let values = property_item(s, p, k, seen, vs)?;
        Ok((Reached { values, end: p.end }, true))
    };
    judge_list(s, at, false, values, one)
}

// ---- Local and Remote

#[tactic(auto, unfolding(crate::specs::Judging::side_of, base::specs::Pick::pick))]
fn side_of(local: bool) -> Side
    ensures { result ≡ side_of local }
{
    if local {
        return Side::OfLocal;
    }
    Side::OfRemote
}

#[tactic(auto, unfolding(megaco::specs::Items::set_speech))]
fn set_speech(side: Side, x: Speech, values: Values) -> Values
    ensures { result ≡ set_speech side x values }
{
    match side {
        Side::OfLocal => Values { local: x, ..values },
        Side::OfRemote => Values {
            remote: x,
            ..values
        },
    }
}

// What a text gives.
#[tactic(auto, unfolding(megaco::specs::Items::speech_given))]
fn speech_given(side: Side, x: SdpText, values: Values) -> Result<Values, u32>
    ensures { result ≡ speech_given side x values }
{
    match x {
        SdpText::EmptyText => Ok(set_speech(side, Speech::Released, values)),
        SdpText::Described {
            address,
            port,
            payload,
        } => Ok(set_speech(side, Speech::Session(address, port, payload), values)),
        SdpText::NotInSubset => Err(449),
    }
}

// ---- in Media

// Which descriptor a word is.
#[tactic(auto, unfolding(megaco::specs::Items::called_in, megaco::specs::Items::called))]
fn word_called(w: &[u8]) -> Descriptors
    ensures { result ≡ called_in w.now none }
{
    Descriptors {
        control: keywords::spells(Token::LocalControlToken, w),
        state: keywords::spells(Token::TerminationStateToken, w),
        local: keywords::spells(Token::LocalToken, w),
        remote: keywords::spells(Token::RemoteToken, w),
    }
}

// Which descriptor an item is called by that word: a name with `/` is called by none.
#[tactic(auto, unfolding(crate::specs::Judging::called_unless))]
fn unless(second: bool, a: Descriptors) -> Descriptors
    ensures { result ≡ called_unless second a }
{
    Descriptors {
        control: !second & a.control,
        state: !second & a.state,
        local: !second & a.local,
        remote: !second & a.remote,
    }
}

// Whether Local or Remote stands here and a brace comes next, where the word's meaning is known already.
#[tactic(auto, using(crate::proofs::OneLaws::no_text))]
fn text_here(s: &[u8], at: usize, word: Descriptors) -> bool
    requires { word ≡ called_in (word_here s.now at) none }
    ensures { result ≡ speech_here s.now at }
{
    if word.local | word.remote {
        return read_command::speech_here(s, at);
    }
    false
}

// Whether both have a descriptor in common.
#[tactic(auto, unfolding(megaco::specs::Items::both))]
fn both(a: Descriptors, b: Descriptors) -> bool
    ensures { result ≡ both a b }
{
    a.control & b.control | a.state & b.state | a.local & b.local | a.remote & b.remote
}

// The descriptors that either has.
#[tactic(auto, unfolding(megaco::specs::Items::either))]
fn either(a: Descriptors, b: Descriptors) -> Descriptors
    ensures { result ≡ either a b }
{
    Descriptors {
        control: a.control | b.control,
        state: a.state | b.state,
        local: a.local | b.local,
        remote: a.remote | b.remote,
    }
}

#[tactic(auto, unfolding(crate::specs::Judging::kind_of, base::specs::Pick::pick))]
fn kind_of(control: bool) -> Kind
    ensures { result ≡ kind_of control }
{
    if control {
        return Kind::InControl;
    }
    Kind::InState
}

// An item without a text.
fn media_item(
    s: &[u8],
    p: ItemPlaces,
    called: Descriptors,
    stood: Descriptors,
    values: Values,
) -> Result<Reached, u32>
    ensures { result ≡ ended (media_by called stood values s.now p) (closed_end (λ i. (items_at 6 s.now i).end) s.now p.inside p.end) }
{
    let shaped = !called.local & !called.remote & p.value.is_none();
    check_item(444, both(called, called), both(called, stood), shaped)?;
    let inside = p.inside.ok_or(442u32)?;
    closed(
        s,
        property_items(s, inside, kind_of(called.control), values),
    )
}

// Local or Remote with a text.
#[tactic(auto, unfolding(crate::specs::Judging::speech_by, crate::specs::Judging::judged_by))]
fn speech_item(
    text: &[u8],
    called: Descriptors,
    stood: Descriptors,
    values: Values,
) -> Result<Values, u32>
    ensures { result ≡ speech_by called stood values text.now }
{
    let shaped = called.local | called.remote;
    check_item(444, both(called, called), both(called, stood), shaped)?;
    speech_given(side_of(called.local), sdp::read(text), values)
}

fn judge_speech(
    s: &[u8],
    at: usize,
    stood: Descriptors,
    values: Values,
) -> Result<(Reached, Descriptors), u32>
    ensures { result ≡ ended_next (media_items ((speech_at s.now at).tree ∷ []) stood values) (speech_at s.now at).end (stood_next (speech_at s.now at).tree stood) }
{
    let p = command_places::speech_places(s, at);
    let called = word_called(&s[p.word.from..p.word.to]);
    let values = speech_item(command_places::text_of(s, p), called, stood, values)?;
    Ok((Reached { values, end: p.end }, either(called, stood)))
}

fn judge_part(
    s: &[u8],
    at: usize,
    stood: Descriptors,
    values: Values,
) -> Result<(Reached, Descriptors), u32>
    ensures { result ≡ ended_next (media_items ((media_item_at s.now at).tree ∷ []) stood values) (media_item_at s.now at).end (stood_next (media_item_at s.now at).tree stood) }
{
    let p = command_places::item_places(s, at);
    let spelt = word_called(&s[p.word.from..p.word.to]);
    if text_here(s, at, spelt) {
        return judge_speech(s, at, stood, values);
    }
    let called = unless(p.second, spelt);
    let x = media_item(s, p, called, stood, values)?;
    Ok((x, either(called, stood)))
}

fn media_items(s: &[u8], at: usize, values: Values) -> Result<Reached, u32>
    ensures { result ≡ ended (media_items (media_at s.now at).tree no_descriptors values) (media_at s.now at).end }
{
    let none = Descriptors {
        control: false,
        state: false,
        local: false,
        remote: false,
    };
    let one = |i: usize, stood: Descriptors, vs: Values| -> Result<(Reached, Descriptors), u32>
        ensures { result ≡ ended_next (media_items ((media_item_at s.entry.now i).tree ∷ []) stood vs) (media_item_at s.entry.now i).end (stood_next (media_item_at s.entry.now i).tree stood) }
    { judge_part(s, i, stood, vs) };
    judge_list(s, at, none, values, one)
}

// ---- at the top

fn top_item(s: &[u8], p: ItemPlaces, seen: bool, values: Values) -> Result<Reached, u32>
    requires { InMessage s.now p }
    ensures { result ≡ ended (top_by seen values s.now p) (closed_end (λ i. (media_at s.now i).end) s.now p.inside p.end) }
{
    let known = item_called(s, p, Token::MediaToken);
    check_item(444, known, seen, p.value.is_none())?;
    let inside = p.inside.ok_or(442u32)?;
    closed(s, media_items(s, inside, values))
}

fn top_items(s: &[u8], at: usize, values: Values) -> Result<Reached, u32>
    ensures { result ≡ ended (top_items (top_at s.now at).tree false values) (top_at s.now at).end }
{
    let one = |i: usize, seen: bool, vs: Values| -> Result<(Reached, bool), u32>
        ensures { result ≡ ended_next (top_items ((top_item_at s.entry.now i).tree ∷ []) seen vs) (top_item_at s.entry.now i).end true }
    {
        let p = command_places::item_places(s, i);
        let x = top_item(s, p, seen, vs)?;
        Ok((x, true))
    };
    judge_list(s, at, false, values, one)
}

// ---- in Audit

#[tactic(auto, unfolding(crate::specs::Judging::audited_by, crate::specs::Judging::judged_by))]
fn audited_item(s: &[u8], p: ItemPlaces, seen: bool) -> Result<Values, u32>
    requires { InMessage s.now p }
    ensures { result ≡ audited_by seen s.now p }
{
    let known = item_called(s, p, Token::MediaToken);
    check_item(444, known, seen, p.value.is_none() & p.inside.is_none())?;
    Ok(Values {
        audited: true,
        ..unchanged()
    })
}

fn audited_items(s: &[u8], at: usize, values: Values) -> Result<Reached, u32>
    ensures { result ≡ ended (audited_items (items_at 7 s.now at).tree false values) (items_at 7 s.now at).end }
{
    let one = |i: usize, seen: bool, vs: Values| -> Result<(Reached, bool), u32>
        ensures { result ≡ ended_next (audited_items ((item_at 6 (items_at 6 s.entry.now) s.entry.now i).tree ∷ []) seen vs) (item_at 6 (items_at 6 s.entry.now) s.entry.now i).end true }
    {
        let p = command_places::item_places(s, i);
        let values = audited_item(s, p, seen)?;
        Ok((Reached { values, end: p.end }, true))
    };
    judge_list(s, at, false, values, one)
}

// What stands in Audit's braces: items, or nothing.
#[tactic(auto, using(crate::proofs::OneLaws::inside_none, crate::proofs::OneLaws::inside_some))]
fn audit_inside(s: &[u8], at: usize, values: Values) -> Result<Reached, u32>
    ensures { result ≡ ended (audited_items (or_none_at true (items_at 7 s.now) s.now at).tree false values) (or_none_at true (items_at 7 s.now) s.now at).end }
{
    if text::is_at(s, at, b'}') {
        return Ok(Reached { values, end: at });
    }
    audited_items(s, at, values)
}

// ---- at the top of AuditValue

fn audit_item(s: &[u8], p: ItemPlaces, seen: bool, values: Values) -> Result<Reached, u32>
    requires { InMessage s.now p }
    ensures { result ≡ ended (audit_by seen values s.now p) (closed_end (λ i. (or_none_at true (items_at 7 s.now) s.now i).end) s.now p.inside p.end) }
{
    let known = item_called(s, p, Token::AuditToken);
    check_item(447, known, seen, p.value.is_none())?;
    let inside = p.inside.ok_or(442u32)?;
    closed(s, audit_inside(s, inside, values))
}

fn audit_items(s: &[u8], at: usize, values: Values) -> Result<Reached, u32>
    ensures { result ≡ ended (audit_items (top_at s.now at).tree false values) (top_at s.now at).end }
{
    let one = |i: usize, seen: bool, vs: Values| -> Result<(Reached, bool), u32>
        ensures { result ≡ ended_next (audit_items ((top_item_at s.entry.now i).tree ∷ []) seen vs) (top_item_at s.entry.now i).end true }
    {
        let p = command_places::item_places(s, i);
        let x = audit_item(s, p, seen, vs)?;
        Ok((x, true))
    };
    judge_list(s, at, false, values, one)
}

// ---- a command

// No value is given, and none audited.
fn unchanged() -> Values
    ensures { result ≡ unchanged }
{
    Values {
        mode: None,
        state: None,
        audited: false,
        local: Speech::Kept,
        remote: Speech::Kept,
    }
}

// The items of Add, Modify and Move.
fn judge_media(s: &[u8], p: CommandPlaces) -> Result<Reached, u32>
    ensures { result ≡ ended (media_given (items_from s.now p)) (command_end_from s.now p) }
{
    match p.inside {
        Some(inside) => closed(s, top_items(s, inside, unchanged())),
        None => Ok(Reached {
            values: unchanged(),
            end: p.end,
        }),
    }
}

// The items of Subtract.
fn judge_none(s: &[u8], p: CommandPlaces) -> Result<Reached, u32>
    ensures { result ≡ ended (no_items (items_from s.now p)) (command_end_from s.now p) }
{
    match p.inside {
        Some(_) => Err(447),
        None => Ok(Reached {
            values: unchanged(),
            end: p.end,
        }),
    }
}

// The items of AuditValue.
fn judge_audit(s: &[u8], p: CommandPlaces) -> Result<Reached, u32>
    ensures { result ≡ ended (audit_given (items_in (items_from s.now p))) (command_end_from s.now p) }
{
    match p.inside {
        Some(inside) => closed(s, audit_items(s, inside, unchanged())),
        None => Err(442),
    }
}

// A command's items by themselves.
#[tactic(auto, unfolding(megaco::specs::Items::judge_items))]
fn judge_inside(s: &[u8], p: CommandPlaces, op: Op) -> Result<Reached, u32>
    ensures { result ≡ ended (judge_items op (items_from s.now p)) (command_end_from s.now p) }
{
    match op {
        Op::Add | Op::Modify | Op::Move => judge_media(s, p),
        Op::Subtract => judge_none(s, p),
        Op::AuditValue => judge_audit(s, p),
    }
}

// A command's items, and where it ends.
pub fn judge_items(s: &[u8], p: CommandPlaces, op: Op) -> JudgedItems
    ensures { (result.judged ≡ judge_items op (items_from s.now p)) × (result.end ≡ command_end_from s.now p) }
{
    match judge_inside(s, p, op) {
        Ok(x) => JudgedItems {
            judged: Ok(x.values),
            end: x.end,
        },
        Err(code) => JudgedItems {
            judged: Err(code),
            end: command_places::command_end(s, p),
        },
    }
}
