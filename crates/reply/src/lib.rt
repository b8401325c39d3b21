// A reply around its reports, written into a lent buffer: header, transactions, actions, faults.
#![tactic(auto)]

ghost use Rattle.std.specs.Prelude.{◌≡◌};
ghost use Rattle.base.specs.Out.{Appended};
ghost use Rattle.megaco.specs.Reply.{error_text, context_text, reply_text, header_text};
ghost use Rattle.reply.specs.Texts.{reply_open, action_open, limited_from};

use megaco::Context;

// The room for the reply to a transaction: one byte more than document 01's 2,048, so that a longer one shows.
pub const TRANSACTION_ROOM: usize = 2049;

// An action's context.
#[tactic(auto, unfolding(megaco::specs::Reply::context_text))]
fn put_context(out: &mut [u8], at: usize, c: Context) -> usize
    ensures { Appended out.old at (context_text c) out.new result }
{
    match c {
        Context::Null => writer::put_byte(out, at, b'-'),
        Context::Numbered(n) => writer::put_decimal(out, at, n as usize),
        Context::Choose => writer::put_byte(out, at, b'$'),
        Context::All => writer::put_byte(out, at, b'*'),
    }
}

// `P=id{`
pub fn put_reply_open(out: &mut [u8], at: usize, id: u32) -> usize
    ensures { Appended out.old at (reply_open id) out.new result }
{
    let p = writer::put_bytes(out, at, b"P=");
    let q = writer::put_decimal(out, p, id as usize);
    writer::put_byte(out, q, b'{')
}

// `C=id{`
pub fn put_action_open(out: &mut [u8], at: usize, c: Context) -> usize
    ensures { Appended out.old at (action_open c) out.new result }
{
    let p = writer::put_bytes(out, at, b"C=");
    let q = put_context(out, p, c);
    writer::put_byte(out, q, b'{')
}

// `!/1 `, the own mId, one space.
pub fn put_header(out: &mut [u8], at: usize, own: &[u8]) -> usize
    ensures { Appended out.old at (header_text own.now) out.new result }
{
    let p = writer::put_bytes(out, at, b"!/1 ");
    let q = writer::put_bytes(out, p, own);
    writer::put_byte(out, q, b' ')
}

// `P=id{ER=code{}}`
fn put_fault(out: &mut [u8], at: usize, id: u32, code: u32) -> usize
    ensures { Appended out.old at (reply_text id (error_text code)) out.new result }
{
    let p = put_reply_open(out, at, id);
    let q = report::put_error(out, p, code);
    writer::put_byte(out, q, b'}')
}

// The reply to a fault inside a transaction.
pub fn put_fault403(out: &mut [u8], at: usize, id: u32) -> usize
    ensures { Appended out.old at (reply_text id (error_text 403)) out.new result }
{
    put_fault(out, at, id, 403)
}

// A transaction's `P=id{..}` of n bytes from a scratch buffer: copied, or 533 where it is over 2,048 bytes. The definition `limited_from` has n beside the bytes,
// for it may be more than they are.
pub fn put_limited(out: &mut [u8], at: usize, id: u32, scratch: &[u8], n: usize) -> usize
    ensures { Appended out.old at (limited_from id scratch.now n) out.new result }
{
    if n < TRANSACTION_ROOM {
        let e = n.min(scratch.len());
        return writer::put_bytes(out, at, &scratch[0..e]);
    }
    put_fault(out, at, id, 533)
}
