// The reports of a reply, written into a lent buffer: what was tried and how it went.
#![tactic(auto)]

ghost use Rattle.std.specs.Prelude.{◌≡◌, ◌<◌};
ghost use Rattle.base.specs.Out.{Appended};
ghost use Rattle.megaco.specs.Names.{name_text};
ghost use Rattle.megaco.specs.Reply.{media, statistics, failed, standing, op_text, error_text, tried_text, code_text, report_text, state_text, mode_text, service_states, local_control, descriptors, packets_text, jitter_text, figures, detail_text, separator};
ghost use Rattle.megaco.specs.Attempt.{detail_of};
ghost use Rattle.report.specs.Rows.{emergency_text};

use megaco::Op;
use table::CHANNELS;

// `ER=code{}`
pub fn put_error(out: &mut [u8], at: usize, code: u32) -> usize
    ensures { Appended out.old at (error_text code) out.new result }
{
    let p = writer::put_bytes(out, at, b"ER=");
    let q = writer::put_decimal(out, p, code as usize);
    writer::put_bytes(out, q, b"{}")
}

// `{ER=code{}}` after a failed attempt.
pub fn put_code(out: &mut [u8], at: usize, code: u32) -> usize
    ensures { Appended out.old at (code_text code) out.new result }
{
    let p = writer::put_byte(out, at, b'{');
    let q = put_error(out, p, code);
    writer::put_byte(out, q, b'}')
}

// A command's short keyword.
fn put_op(out: &mut [u8], at: usize, op: Op) -> usize
    ensures { Appended out.old at (op_text op) out.new result }
{
    match op {
        Op::Add => writer::put_byte(out, at, b'A'),
        Op::Modify => writer::put_bytes(out, at, b"MF"),
        Op::Subtract => writer::put_byte(out, at, b'S'),
        Op::Move => writer::put_bytes(out, at, b"MV"),
        Op::AuditValue => writer::put_bytes(out, at, b"AV"),
    }
}

// A termination's full name.
pub fn put_name(out: &mut [u8], at: usize, lines: u32, i: usize) -> usize
    requires { 0 < lines }
    ensures { Appended out.old at (name_text lines i) out.new result }
{
    let first = CHANNELS * lines as usize;
    if first <= i {
        let p = writer::put_bytes(out, at, b"R/");
        return writer::put_decimal(out, p, i - first + 1);
    }
    let p = writer::put_bytes(out, at, b"L/");
    let q = writer::put_decimal(out, p, i / CHANNELS + 1);
    let u = writer::put_byte(out, q, b'/');
    writer::put_decimal(out, u, i % CHANNELS + 1)
}

// The short keyword and the bytes received.
pub fn put_tried(out: &mut [u8], at: usize, op: Op, name: &[u8]) -> usize
    ensures { Appended out.old at (tried_text op name.now) out.new result }
{
    let p = put_op(out, at, op);
    let q = writer::put_byte(out, p, b'=');
    writer::put_bytes(out, q, name)
}

// The short keyword and the termination's full name.
pub fn put_named(out: &mut [u8], at: usize, op: Op, lines: u32, i: usize) -> usize
    requires { 0 < lines }
    ensures { Appended out.old at (tried_text op (name_text lines i)) out.new result }
{
    let p = put_op(out, at, op);
    let q = writer::put_byte(out, p, b'=');
    put_name(out, q, lines, i)
}

// A state's short keyword. State and mode are the numbers that a property word holds, as in the definitions `state_text` and `mode_text`.
fn put_state(out: &mut [u8], at: usize, state: u32) -> usize
    ensures { Appended out.old at (state_text state) out.new result }
{
    if state == 0 {
        return writer::put_bytes(out, at, b"IV");
    }
    if state == 1 {
        return writer::put_bytes(out, at, b"OS");
    }
    writer::put_bytes(out, at, b"TE")
}

// A mode's short keyword.
fn put_mode(out: &mut [u8], at: usize, mode: u32) -> usize
    ensures { Appended out.old at (mode_text mode) out.new result }
{
    if mode == 0 {
        return writer::put_bytes(out, at, b"IN");
    }
    if mode == 1 {
        return writer::put_bytes(out, at, b"SO");
    }
    if mode == 2 {
        return writer::put_bytes(out, at, b"RC");
    }
    if mode == 3 {
        return writer::put_bytes(out, at, b"SR");
    }
    writer::put_bytes(out, at, b"LB")
}

// TerminationState with a state.
fn put_service_states(out: &mut [u8], at: usize, state: u32) -> usize
    ensures { Appended out.old at (service_states state) out.new result }
{
    let p = writer::put_bytes(out, at, b"TS{SI=");
    let q = put_state(out, p, state);
    writer::put_byte(out, q, b'}')
}

// LocalControl with a mode.
fn put_local_control(out: &mut [u8], at: usize, mode: u32) -> usize
    ensures { Appended out.old at (local_control mode) out.new result }
{
    let p = writer::put_bytes(out, at, b"O{MO=");
    let q = put_mode(out, p, mode);
    writer::put_byte(out, q, b'}')
}

fn put_descriptors(out: &mut [u8], at: usize, state: u32, mode: u32) -> usize
    ensures { Appended out.old at (descriptors state mode) out.new result }
{
    let p = put_service_states(out, at, state);
    let q = writer::put_byte(out, p, b',');
    put_local_control(out, q, mode)
}

// The state and the mode of a termination.
fn put_media(out: &mut [u8], at: usize, state: u32, mode: u32) -> usize
    ensures { Appended out.old at (detail_text (media state mode)) out.new result }
{
    let p = writer::put_bytes(out, at, b"{M{");
    let q = put_descriptors(out, p, state, mode);
    writer::put_bytes(out, q, b"}}")
}

// The packets received.
fn put_packets(out: &mut [u8], at: usize, packets: u32) -> usize
    ensures { Appended out.old at (packets_text packets) out.new result }
{
    let p = writer::put_bytes(out, at, b"rtp/pr=");
    writer::put_decimal(out, p, packets as usize)
}

// The jitter.
fn put_jitter(out: &mut [u8], at: usize, jitter: u64) -> usize
    ensures { Appended out.old at (jitter_text jitter) out.new result }
{
    let p = writer::put_bytes(out, at, b"rtp/jit=");
    writer::put_decimal(out, p, jitter as usize)
}

fn put_figures(out: &mut [u8], at: usize, packets: u32, jitter: u64) -> usize
    ensures { Appended out.old at (figures packets jitter) out.new result }
{
    let p = put_packets(out, at, packets);
    let q = writer::put_byte(out, p, b',');
    put_jitter(out, q, jitter)
}

// Statistics: the figures of an ephemeral.
pub fn put_statistics(out: &mut [u8], at: usize, packets: u32, jitter: u64) -> usize
    ensures { Appended out.old at (detail_text (statistics packets jitter)) out.new result }
{
    let p = writer::put_bytes(out, at, b"{SA{");
    let q = put_figures(out, p, packets, jitter);
    writer::put_bytes(out, q, b"}}")
}

// What a success tells behind the name.
pub fn put_detail(out: &mut [u8], at: usize, audited: bool, word: u32) -> usize
    ensures { Appended out.old at (detail_text (detail_of audited word)) out.new result }
{
    if audited {
        return put_media(out, at, word / 8, word % 8);
    }
    at
}

// An action error.
#[tactic(auto, unfolding(megaco::specs::Reply::report_text))]
pub fn put_failed(out: &mut [u8], at: usize, code: u32) -> usize
    ensures { Appended out.old at (report_text (failed code)) out.new result }
{
    put_error(out, at, code)
}

// `,EG` if set.
fn put_emergency(out: &mut [u8], at: usize, held: u32) -> usize
    ensures { Appended out.old at (emergency_text held) out.new result }
{
    if held < 17 {
        return at;
    }
    writer::put_bytes(out, at, b",EG")
}

// The properties of a context, from its record.
pub fn put_standing(out: &mut [u8], at: usize, held: u32) -> usize
    ensures { Appended out.old at (report_text (standing held)) out.new result }
{
    let p = writer::put_bytes(out, at, b"PR=");
    let q = writer::put_decimal(out, p, numbers::priority(held) as usize);
    put_emergency(out, q, held)
}

// A comma, unless nothing stands before.
pub fn put_separator(out: &mut [u8], at: usize, first: bool) -> usize
    ensures { Appended out.old at (separator first) out.new result }
{
    if first {
        return at;
    }
    writer::put_byte(out, at, b',')
}
