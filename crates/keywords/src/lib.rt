// The table of keywords, and words compared with its forms, in any letter case. rows.rt, derived from the table, finds a word's row.
#![tactic(auto)]

ghost use Rattle.std.specs.Prelude.{◌≡◌, ◌<◌, ◌≤◌, ◌+◌, length};
ghost use Rattle.std.specs.Int.Bits.{bit_and};
ghost use Rattle.base.specs.Lists.{same};
ghost use Rattle.megaco.specs.Bytes.{capitals};
ghost use Rattle.keywords.specs.Page.{Packs, mask, front_key, middle_key, back_key, alike, Formed};

mod rows;

use megaco::Token;
pub use rows::{meaning_of, spells};

// A keyword: its meaning, then its long and its short form in capital letters, with blanks behind them.
#[derive(Clone, Copy)]
pub struct Row(pub Token, pub [u8; 24], pub [u8; 2]);

// Annex B.2's tokens in its order. Error, Reply and Statistics are written only: no reader asks for them.
pub const KEYWORDS: [Row; 34] = [
    Row(Token::AddToken, *b"ADD                     ", *b"A "),
    Row(Token::AuditToken, *b"AUDIT                   ", *b"AT"),
    Row(Token::AuditValueToken, *b"AUDITVALUE              ", *b"AV"),
    Row(Token::BothwayToken, *b"BOTHWAY                 ", *b"BW"),
    Row(Token::CtxToken, *b"CONTEXT                 ", *b"C "),
    Row(Token::EmergencyToken, *b"EMERGENCY               ", *b"EG"),
    Row(Token::ErrorToken, *b"ERROR                   ", *b"ER"),
    Row(Token::InactiveToken, *b"INACTIVE                ", *b"IN"),
    Row(Token::IsolateToken, *b"ISOLATE                 ", *b"IS"),
    Row(Token::InSvcToken, *b"INSERVICE               ", *b"IV"),
    Row(Token::LocalToken, *b"LOCAL                   ", *b"L "),
    Row(
        Token::LocalControlToken,
        *b"LOCALCONTROL            ",
        *b"O ",
    ),
    Row(Token::LoopbackToken, *b"LOOPBACK                ", *b"LB"),
    Row(Token::MediaToken, *b"MEDIA                   ", *b"M "),
    Row(Token::MegacopToken, *b"MEGACO                  ", *b"! "),
    Row(Token::ModeToken, *b"MODE                    ", *b"MO"),
    Row(Token::ModifyToken, *b"MODIFY                  ", *b"MF"),
    Row(Token::MoveToken, *b"MOVE                    ", *b"MV"),
    Row(Token::OnewayToken, *b"ONEWAY                  ", *b"OW"),
    Row(Token::OutOfSvcToken, *b"OUTOFSERVICE            ", *b"OS"),
    Row(Token::PriorityToken, *b"PRIORITY                ", *b"PR"),
    Row(Token::RecvonlyToken, *b"RECEIVEONLY             ", *b"RC"),
    Row(Token::RemoteToken, *b"REMOTE                  ", *b"R "),
    Row(Token::ReplyToken, *b"REPLY                   ", *b"P "),
    Row(Token::SendonlyToken, *b"SENDONLY                ", *b"SO"),
    Row(Token::SendrecvToken, *b"SENDRECEIVE             ", *b"SR"),
    Row(
        Token::ServiceStatesToken,
        *b"SERVICESTATES           ",
        *b"SI",
    ),
    Row(Token::StatsToken, *b"STATISTICS              ", *b"SA"),
    Row(Token::SubtractToken, *b"SUBTRACT                ", *b"S "),
    Row(
        Token::TerminationStateToken,
        *b"TERMINATIONSTATE        ",
        *b"TS",
    ),
    Row(Token::TestToken, *b"TEST                    ", *b"TE"),
    Row(Token::TopologyToken, *b"TOPOLOGY                ", *b"TP"),
    Row(Token::TransToken, *b"TRANSACTION             ", *b"T "),
    Row(
        Token::ResponseAckToken,
        *b"TRANSACTIONRESPONSEACK  ",
        *b"K ",
    ),
];

// ---- bytes as one number, lowest first

fn wide(b: u8) -> u64
    ensures { (result ≡ b) × (result < 256) }
{
    b as u64
}

fn pair(w: &[u8], at: usize) -> u64
    requires { at + 2 ≤ length w.now }
    ensures { Packs 2 w.now at result }
{
    wide(w[at]) + wide(w[at + 1]) * 0x100
}

fn quad(w: &[u8], at: usize) -> u64
    requires { at + 4 ≤ length w.now }
    ensures { Packs 4 w.now at result }
{
    pair(w, at) + pair(w, at + 2) * 0x1_0000
}

fn octet(w: &[u8], at: usize) -> u64
    requires { at + 8 ≤ length w.now }
    ensures { Packs 8 w.now at result }
{
    quad(w, at) + quad(w, at + 4) * 0x1_0000_0000
}

// Letter case aside, where the bytes are letters.
fn folded(x: u64) -> u64
    ensures { result ≡ bit_and x mask }
{
    x & 0xdfdf_dfdf_dfdf_dfdf
}

// The first 2, 4 or 8 bytes of a word.
fn front(w: &[u8]) -> u64
    requires { 1 < length w.now }
    ensures { result ≡ front_key w.now }
{
    if w.len() < 4 {
        return folded(pair(w, 0));
    }
    if w.len() < 8 {
        return folded(quad(w, 0));
    }
    folded(octet(w, 0))
}

// Bytes 8 to 15 of a word that the first and the last do not cover.
fn middle(w: &[u8]) -> u64
    ensures { result ≡ middle_key w.now }
{
    if w.len() < 17 {
        return 0;
    }
    folded(octet(w, 8))
}

// The last 2, 4 or 8 bytes of a word.
fn back(w: &[u8]) -> u64
    requires { 1 < length w.now }
    ensures { result ≡ back_key w.now }
{
    if w.len() < 4 {
        return folded(pair(w, w.len() - 2));
    }
    if w.len() < 8 {
        return folded(quad(w, w.len() - 4));
    }
    folded(octet(w, w.len() - 8))
}

// The numbers of words of one length.
fn is_alike(w: &[u8], f: &[u8]) -> bool
    requires { (1 < length f.now) × (length w.now ≡ length f.now) }
    ensures { result ≡ alike w.now f.now }
{
    (front(w) == front(f)) & (middle(w) == middle(f)) & (back(w) == back(f))
}

// Whether a word, in any letter case, is this form of a keyword.
pub fn is_form(w: &[u8], f: &[u8]) -> bool
    requires { Formed f.now }
    ensures { result ≡ same (capitals w.now) f.now }
{
    if w.len() != f.len() {
        return false;
    }
    if f.len() < 2 {
        return text::same_letter(w[0], f[0]);
    }
    is_alike(w, f)
}
