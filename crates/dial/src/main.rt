// A program for support. The first line of standard input is a map, the second a start timer and `waits` or `runs out`, each further line a
// dialled string. For each string it prints the answer and the timer, or the refusal. Where the second line ends in ` plain` the plain matcher answers.
#![tactic(auto)]

ghost use Rattle.std.specs.Prelude.{◌≡◌, [], ◌∷◌};
ghost use Rattle.base.specs.Bytes.{◌then◌};
ghost use Rattle.base.specs.Out.{Appended};
ghost use Rattle.digits.specs.Words.{progress_text, timer_text, shown_text};
ghost use Rattle.digits.specs.Dialling.{load, dial};
ghost use Rattle.dialling.specs.Cells.{plan_in};
ghost use Rattle.dial.specs.Words.{rule_of, settings_of, answer_text};

use dialling::{CELLS, Loaded};
use digits::{Answer, DialError, Progress, Timer, ZeroStart};

// What the second line says.
#[derive(Clone, Copy)]
struct Settings {
    start: u32,
    rule: ZeroStart,
    plain: bool,
}

// LF.
const LINE_END: u8 = b'\n';

// ---- lines taken

#[tactic(auto, unfolding(crate::specs::Words::rule_of, base::specs::Pick::pick), using(crate::proofs::LineLaws::same_is))]
fn rule_of(start: u32, w: &[u8]) -> Option<Settings>
    ensures { result ≡ rule_of start w.now }
{
    let (rule, plain) = if w == b" waits".as_slice() {
        (ZeroStart::Waits, false)
    } else if w == b" runs out".as_slice() {
        (ZeroStart::RunsOut, false)
    } else if w == b" waits plain".as_slice() {
        (ZeroStart::Waits, true)
    } else if w == b" runs out plain".as_slice() {
        (ZeroStart::RunsOut, true)
    } else {
        return None;
    };
    Some(Settings { start, rule, plain })
}

// The second line: a number of up to 10 digits, a space, and the rule for zero.
#[tactic(auto, unfolding(crate::specs::Words::settings_of, crate::specs::Words::settings_after))]
fn read_settings(s: &[u8]) -> Option<Settings>
    ensures { result ≡ settings_of s.now }
{
    let (value, next) = tokens::number(s, 0, 10, 4294967295)?;
    rule_of(value, map_text::rest(s, next))
}

// ---- lines printed

#[tactic(auto, unfolding(digits::specs::Words::progress_text))]
fn put_progress(out: &mut [u8], at: usize, progress: Progress) -> usize
    ensures { Appended out.old at (progress_text progress) out.new result }
{
    match progress {
        Progress::NoMatch => writer::put_bytes(out, at, b"nothing can match"),
        Progress::MoreNeeded => writer::put_bytes(out, at, b"more needed"),
        Progress::MorePossible => writer::put_bytes(out, at, b"matched with more possible"),
        Progress::Closed => writer::put_bytes(out, at, b"matched and closed"),
    }
}

#[tactic(auto, unfolding(digits::specs::Words::timer_text))]
fn put_timer(out: &mut [u8], at: usize, timer: Timer) -> usize
    ensures { Appended out.old at (timer_text timer) out.new result }
{
    match timer {
        Timer::NoTimer => writer::put_bytes(out, at, b"none"),
        Timer::StartTimer => writer::put_bytes(out, at, b"start"),
        Timer::LongTimer => writer::put_bytes(out, at, b"long"),
        Timer::ShortTimer => writer::put_bytes(out, at, b"short"),
        Timer::RunOut => writer::put_bytes(out, at, b"run out"),
    }
}

fn put_shown(out: &mut [u8], at: usize, answer: Answer) -> usize
    ensures { Appended out.old at (shown_text answer.progress answer.timer) out.new result }
{
    let p = put_progress(out, at, answer.progress);
    let q = writer::put_bytes(out, p, b", timer ");
    put_timer(out, q, answer.timer)
}

#[tactic(auto, unfolding(crate::specs::Words::answer_text, digits::specs::Words::refusal_text))]
fn put_answer(out: &mut [u8], at: usize, answered: Result<Answer, DialError>) -> usize
    ensures { Appended out.old at (answer_text answered) out.new result }
{
    match answered {
        Ok(answer) => put_shown(out, at, answer),
        Err(DialError::BadMap) => writer::put_bytes(out, at, b"refused 6"),
        Err(DialError::BadString) => writer::put_bytes(out, at, b"refused 7"),
    }
}

// The line for an answer or a refusal. (No `Display`: its law says nothing where the writing fails.)
fn put_line(out: &mut [u8], answered: Result<Answer, DialError>) -> usize
    ensures { Appended out.old 0 (answer_text answered then (10 ∷ [])) out.new result }
{
    let n = put_answer(out, 0, answered);
    writer::put_byte(out, n, LINE_END)
}

// ---- the program

// What is asked of every string: the map as text and as it was loaded, and which matcher answers.
#[derive(Clone, Copy)]
struct Asked<'a> {
    map: &'a [u8],
    settings: Settings,
    loaded: Option<Loaded>,
    cells: &'a [u32; CELLS],
    ghost kept: { plan_in loaded cells.now ≡ load map.now settings.start settings.rule },
}

impl Asked<'_> {
    // The answer to one dialled string, by either matcher.
    fn answer(&self, w: &[u8]) -> Result<Answer, DialError>
        ensures { result ≡ dial (load self.now.map.now self.now.settings.start self.now.settings.rule) w.now }
    {
        if self.settings.plain {
            return plain_digits::dial_plain(self.map, self.settings.start, self.settings.rule, w);
        }
        dialling::dial(self.loaded, self.cells, w)
    }
}

// Tells the answers to the lines of a text.
fn tell(rt: &impl Print, s: &[u8], out: &mut [u8; 64], asked: &Asked) {
    for piece in s.split_inclusive(|b| *b == LINE_END) {
        let w = piece.strip_suffix(b"\n").unwrap_or(piece);
        let n = put_line(out, asked.answer(w));
        program_io::print(rt, &out[..n]);
    }
}

fn run(rt: &impl Print, s: &[u8], cells: &mut [u32; CELLS]) {
    let n = program_io::line_length(s);
    let map = &s[..n];
    let t = map_text::rest(s, n + 1);
    let m = program_io::line_length(t);
    let Some(settings) = read_settings(&t[..m]) else {
        program_io::print(
            rt,
            b"the second line is a start timer and 'waits' or 'runs out'\n",
        );
        return;
    };
    let loaded = dialling::load(map, settings.start, settings.rule, cells);
    let asked = Asked {
        map,
        settings,
        loaded,
        cells,
    };
    tell(rt, map_text::rest(t, m + 1), &mut [0; 64], &asked);
}

fn main(rt: HostRuntime) {
    let mut room = [0u8; 65536];
    let mut cells = [0u32; CELLS];
    let n = program_io::read_full(&mut rt.stdin(), &mut room);
    if n < 65536 {
        run(&rt, &room[0..n], &mut cells);
    } else {
        program_io::print(&rt, b"over 65535 bytes\n");
    }
}
