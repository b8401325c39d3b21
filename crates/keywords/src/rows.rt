// A word's row and its meaning. Derived from the table in lib.rt: tools/keywords.py --write.
ghost use Rattle.std.specs.Prelude.{◌≡◌, length};
ghost use Rattle.std.proofs.Math.Option.{some};
ghost use Rattle.base.specs.Lists.{same};
ghost use Rattle.megaco.specs.Bytes.{capitals};
ghost use Rattle.megaco.specs.Keywords.{page, forms_of, spells, meaning_of};
ghost use Rattle.keywords.specs.Page.{row_of, rows_of, token_at, long_of, short_of, token_of, meaning_later};

use crate::{KEYWORDS, Row};
use megaco::Token;

// ---- rows

// The table, laid down by itself: where its rows are also told apart the check is far dearer.
fn table() -> [Row; 34]
    ensures { result ≡ rows_of page }
{
    KEYWORDS
}

// The row at a place, past the end the last one. Places and lengths are numbers that stand in the code where a form is asked for, so that
// the compiler makes constants of the table; a table that is read at a variable place is laid down first.
fn row_at(i: usize) -> Row
    ensures { result ≡ row_of (token_at i) }
{
    let t = table();
    match i {
        0 => t[0],
        1 => t[1],
        2 => t[2],
        3 => t[3],
        4 => t[4],
        5 => t[5],
        6 => t[6],
        7 => t[7],
        8 => t[8],
        9 => t[9],
        10 => t[10],
        11 => t[11],
        12 => t[12],
        13 => t[13],
        14 => t[14],
        15 => t[15],
        16 => t[16],
        17 => t[17],
        18 => t[18],
        19 => t[19],
        20 => t[20],
        21 => t[21],
        22 => t[22],
        23 => t[23],
        24 => t[24],
        25 => t[25],
        26 => t[26],
        27 => t[27],
        28 => t[28],
        29 => t[29],
        30 => t[30],
        31 => t[31],
        32 => t[32],
        _ => t[33],
    }
}

fn is_long(w: &[u8], i: usize, n: usize) -> bool
    requires { n ≡ length (long_of (forms_of (token_at i))) }
    ensures { result ≡ same (capitals w.now) (long_of (forms_of (token_at i))) }
{
    let r = row_at(i);
    let f = r.1;
    crate::is_form(w, &f[0..n])
}

fn is_short(w: &[u8], i: usize, n: usize) -> bool
    requires { n ≡ length (short_of (forms_of (token_at i))) }
    ensures { result ≡ same (capitals w.now) (short_of (forms_of (token_at i))) }
{
    let r = row_at(i);
    let f = r.2;
    crate::is_form(w, &f[0..n])
}

fn is_either(w: &[u8], i: usize, long: usize, short: usize) -> bool
    requires { (long ≡ length (long_of (forms_of (token_at i)))) × (short ≡ length (short_of (forms_of (token_at i)))) }
    ensures { result ≡ spells (token_at i) w.now }
{
    is_long(w, i, long) | is_short(w, i, short)
}

// Whether a word is the keyword, in either form and any letter case: each row by itself, so that it is a constant.
pub fn spells(k: Token, w: &[u8]) -> bool
    ensures { result ≡ spells k w.now }
{
    match k {
        Token::AddToken => is_either(w, 0, 3, 1),
        Token::AuditToken => is_either(w, 1, 5, 2),
        Token::AuditValueToken => is_either(w, 2, 10, 2),
        Token::BothwayToken => is_either(w, 3, 7, 2),
        Token::CtxToken => is_either(w, 4, 7, 1),
        Token::EmergencyToken => is_either(w, 5, 9, 2),
        Token::ErrorToken => is_either(w, 6, 5, 2),
        Token::InactiveToken => is_either(w, 7, 8, 2),
        Token::IsolateToken => is_either(w, 8, 7, 2),
        Token::InSvcToken => is_either(w, 9, 9, 2),
        Token::LocalToken => is_either(w, 10, 5, 1),
        Token::LocalControlToken => is_either(w, 11, 12, 1),
        Token::LoopbackToken => is_either(w, 12, 8, 2),
        Token::MediaToken => is_either(w, 13, 5, 1),
        Token::MegacopToken => is_either(w, 14, 6, 1),
        Token::ModeToken => is_either(w, 15, 4, 2),
        Token::ModifyToken => is_either(w, 16, 6, 2),
        Token::MoveToken => is_either(w, 17, 4, 2),
        Token::OnewayToken => is_either(w, 18, 6, 2),
        Token::OutOfSvcToken => is_either(w, 19, 12, 2),
        Token::PriorityToken => is_either(w, 20, 8, 2),
        Token::RecvonlyToken => is_either(w, 21, 11, 2),
        Token::RemoteToken => is_either(w, 22, 6, 1),
        Token::ReplyToken => is_either(w, 23, 5, 1),
        Token::SendonlyToken => is_either(w, 24, 8, 2),
        Token::SendrecvToken => is_either(w, 25, 11, 2),
        Token::ServiceStatesToken => is_either(w, 26, 13, 2),
        Token::StatsToken => is_either(w, 27, 10, 2),
        Token::SubtractToken => is_either(w, 28, 8, 1),
        Token::TerminationStateToken => is_either(w, 29, 16, 2),
        Token::TestToken => is_either(w, 30, 4, 2),
        Token::TopologyToken => is_either(w, 31, 8, 2),
        Token::TransToken => is_either(w, 32, 11, 1),
        Token::ResponseAckToken => is_either(w, 33, 22, 1),
    }
}

// What a row's keyword means.
fn of(i: usize) -> Option<Token>
    ensures { token_of result ≡ some (token_at i) }
{
    let r = row_at(i);
    let m = r.0;
    Some(m)
}

// ---- words by their length

fn letters_22(w: &[u8]) -> Option<Token>
    ensures { token_of result ≡ meaning_later 22 0 w.now }
{
    if is_long(w, 33, 22) {
        return of(33);
    }
    None
}

fn letters_16(w: &[u8]) -> Option<Token>
    ensures { token_of result ≡ meaning_later 16 0 w.now }
{
    if is_long(w, 29, 16) {
        return of(29);
    }
    None
}

fn letters_13(w: &[u8]) -> Option<Token>
    ensures { token_of result ≡ meaning_later 13 0 w.now }
{
    if is_long(w, 26, 13) {
        return of(26);
    }
    None
}

fn letters_12(w: &[u8]) -> Option<Token>
    ensures { token_of result ≡ meaning_later 12 0 w.now }
{
    if is_long(w, 11, 12) {
        return of(11);
    }
    if is_long(w, 19, 12) {
        return of(19);
    }
    None
}

fn letters_11(w: &[u8]) -> Option<Token>
    ensures { token_of result ≡ meaning_later 11 0 w.now }
{
    if is_long(w, 21, 11) {
        return of(21);
    }
    if is_long(w, 25, 11) {
        return of(25);
    }
    if is_long(w, 32, 11) {
        return of(32);
    }
    None
}

fn letters_10(w: &[u8]) -> Option<Token>
    ensures { token_of result ≡ meaning_later 10 0 w.now }
{
    if is_long(w, 2, 10) {
        return of(2);
    }
    if is_long(w, 27, 10) {
        return of(27);
    }
    None
}

fn letters_9(w: &[u8]) -> Option<Token>
    ensures { token_of result ≡ meaning_later 9 0 w.now }
{
    if is_long(w, 5, 9) {
        return of(5);
    }
    if is_long(w, 9, 9) {
        return of(9);
    }
    None
}

fn letters_8_from_5(w: &[u8]) -> Option<Token>
    ensures { token_of result ≡ meaning_later 8 5 w.now }
{
    if is_long(w, 31, 8) {
        return of(31);
    }
    None
}

fn letters_8(w: &[u8]) -> Option<Token>
    ensures { token_of result ≡ meaning_later 8 0 w.now }
{
    if is_long(w, 7, 8) {
        return of(7);
    }
    if is_long(w, 12, 8) {
        return of(12);
    }
    if is_long(w, 20, 8) {
        return of(20);
    }
    if is_long(w, 24, 8) {
        return of(24);
    }
    if is_long(w, 28, 8) {
        return of(28);
    }
    letters_8_from_5(w)
}

fn letters_7(w: &[u8]) -> Option<Token>
    ensures { token_of result ≡ meaning_later 7 0 w.now }
{
    if is_long(w, 3, 7) {
        return of(3);
    }
    if is_long(w, 4, 7) {
        return of(4);
    }
    if is_long(w, 8, 7) {
        return of(8);
    }
    None
}

fn letters_6(w: &[u8]) -> Option<Token>
    ensures { token_of result ≡ meaning_later 6 0 w.now }
{
    if is_long(w, 14, 6) {
        return of(14);
    }
    if is_long(w, 16, 6) {
        return of(16);
    }
    if is_long(w, 18, 6) {
        return of(18);
    }
    if is_long(w, 22, 6) {
        return of(22);
    }
    None
}

fn letters_5(w: &[u8]) -> Option<Token>
    ensures { token_of result ≡ meaning_later 5 0 w.now }
{
    if is_long(w, 1, 5) {
        return of(1);
    }
    if is_long(w, 6, 5) {
        return of(6);
    }
    if is_long(w, 10, 5) {
        return of(10);
    }
    if is_long(w, 13, 5) {
        return of(13);
    }
    if is_long(w, 23, 5) {
        return of(23);
    }
    None
}

fn letters_4(w: &[u8]) -> Option<Token>
    ensures { token_of result ≡ meaning_later 4 0 w.now }
{
    if is_long(w, 15, 4) {
        return of(15);
    }
    if is_long(w, 17, 4) {
        return of(17);
    }
    if is_long(w, 30, 4) {
        return of(30);
    }
    None
}

fn letters_3(w: &[u8]) -> Option<Token>
    ensures { token_of result ≡ meaning_later 3 0 w.now }
{
    if is_long(w, 0, 3) {
        return of(0);
    }
    None
}

fn letters_2_from_20(w: &[u8]) -> Option<Token>
    ensures { token_of result ≡ meaning_later 2 20 w.now }
{
    if is_short(w, 29, 2) {
        return of(29);
    }
    if is_short(w, 30, 2) {
        return of(30);
    }
    if is_short(w, 31, 2) {
        return of(31);
    }
    None
}

fn letters_2_from_15(w: &[u8]) -> Option<Token>
    ensures { token_of result ≡ meaning_later 2 15 w.now }
{
    if is_short(w, 21, 2) {
        return of(21);
    }
    if is_short(w, 24, 2) {
        return of(24);
    }
    if is_short(w, 25, 2) {
        return of(25);
    }
    if is_short(w, 26, 2) {
        return of(26);
    }
    if is_short(w, 27, 2) {
        return of(27);
    }
    letters_2_from_20(w)
}

fn letters_2_from_10(w: &[u8]) -> Option<Token>
    ensures { token_of result ≡ meaning_later 2 10 w.now }
{
    if is_short(w, 16, 2) {
        return of(16);
    }
    if is_short(w, 17, 2) {
        return of(17);
    }
    if is_short(w, 18, 2) {
        return of(18);
    }
    if is_short(w, 19, 2) {
        return of(19);
    }
    if is_short(w, 20, 2) {
        return of(20);
    }
    letters_2_from_15(w)
}

fn letters_2_from_5(w: &[u8]) -> Option<Token>
    ensures { token_of result ≡ meaning_later 2 5 w.now }
{
    if is_short(w, 7, 2) {
        return of(7);
    }
    if is_short(w, 8, 2) {
        return of(8);
    }
    if is_short(w, 9, 2) {
        return of(9);
    }
    if is_short(w, 12, 2) {
        return of(12);
    }
    if is_short(w, 15, 2) {
        return of(15);
    }
    letters_2_from_10(w)
}

fn letters_2(w: &[u8]) -> Option<Token>
    ensures { token_of result ≡ meaning_later 2 0 w.now }
{
    if is_short(w, 1, 2) {
        return of(1);
    }
    if is_short(w, 2, 2) {
        return of(2);
    }
    if is_short(w, 3, 2) {
        return of(3);
    }
    if is_short(w, 5, 2) {
        return of(5);
    }
    if is_short(w, 6, 2) {
        return of(6);
    }
    letters_2_from_5(w)
}

fn letters_1_from_10(w: &[u8]) -> Option<Token>
    ensures { token_of result ≡ meaning_later 1 10 w.now }
{
    if is_short(w, 33, 1) {
        return of(33);
    }
    None
}

fn letters_1_from_5(w: &[u8]) -> Option<Token>
    ensures { token_of result ≡ meaning_later 1 5 w.now }
{
    if is_short(w, 14, 1) {
        return of(14);
    }
    if is_short(w, 22, 1) {
        return of(22);
    }
    if is_short(w, 23, 1) {
        return of(23);
    }
    if is_short(w, 28, 1) {
        return of(28);
    }
    if is_short(w, 32, 1) {
        return of(32);
    }
    letters_1_from_10(w)
}

fn letters_1(w: &[u8]) -> Option<Token>
    ensures { token_of result ≡ meaning_later 1 0 w.now }
{
    if is_short(w, 0, 1) {
        return of(0);
    }
    if is_short(w, 4, 1) {
        return of(4);
    }
    if is_short(w, 10, 1) {
        return of(10);
    }
    if is_short(w, 11, 1) {
        return of(11);
    }
    if is_short(w, 13, 1) {
        return of(13);
    }
    letters_1_from_5(w)
}

// The meaning of the row that spells the word, letter case aside, or none.
pub fn meaning_of(w: &[u8]) -> Option<Token>
    ensures { token_of result ≡ meaning_of w.now }
{
    let n = w.len();
    if n == 1 {
        return letters_1(w);
    }
    if n == 2 {
        return letters_2(w);
    }
    if n == 3 {
        return letters_3(w);
    }
    if n == 4 {
        return letters_4(w);
    }
    if n == 5 {
        return letters_5(w);
    }
    if n == 6 {
        return letters_6(w);
    }
    if n == 7 {
        return letters_7(w);
    }
    if n == 8 {
        return letters_8(w);
    }
    if n == 9 {
        return letters_9(w);
    }
    if n == 10 {
        return letters_10(w);
    }
    if n == 11 {
        return letters_11(w);
    }
    if n == 12 {
        return letters_12(w);
    }
    if n == 13 {
        return letters_13(w);
    }
    if n == 16 {
        return letters_16(w);
    }
    if n == 22 {
        return letters_22(w);
    }
    None
}
