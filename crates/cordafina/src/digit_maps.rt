// Digit maps (CR 8, CR 9). An answer is one number (digits/specs/Codes).
ghost use Rattle.std.specs.Prelude.{◌≡◌, ◌≤◌, IfSome};
ghost use Rattle.digits.specs.Dialling.{load, dial};
ghost use Rattle.digits.specs.Codes.{zero_at, packed};
ghost use Rattle.dialling.specs.Cells.{plan_in};
ghost use Rattle.cordafina.specs.Heads.{head_of, loaded_at};

use dialling::{CELLS, Loaded};
use digits::{Answer, DialError, Timer, ZeroStart};

// ---- numbers

// No From: for C any number but 0 says that a start timer of zero runs out.
#[tactic(auto, unfolding(digits::specs::Codes::zero_at, base::specs::Pick::pick))]
fn zero_at(n: u32) -> ZeroStart
    ensures { result ≡ zero_at n }
{
    if n == 0 {
        ZeroStart::Waits
    } else {
        ZeroStart::RunsOut
    }
}

// An answer or a refusal as one number.
#[tactic(auto, unfolding(digits::specs::Codes::packed, digits::specs::Codes::answer_code, digits::specs::Codes::refusal_of))]
fn packed(d: Result<Answer, DialError>) -> u32
    ensures { result ≡ packed d }
{
    match d {
        Ok(a) => u32::from(a.progress) + 256 * u32::from(a.timer),
        Err(DialError::BadMap) => 65536 * 6,
        Err(DialError::BadString) => 65536 * 7,
    }
}

// ---- one call

// A map is loaded and a string dialled on it. `zero`: 0 where a start timer of zero waits without end, else it runs out at once.
#[unsafe(no_mangle)]
pub extern "C" fn cordafina_dial(map: &[u8], start: u32, zero: u32, dialled: &[u8]) -> u32
    ensures { result ≡ packed (dial (load map.now start (zero_at zero)) dialled.now) }
{
    let mut cells = [0u32; CELLS];
    let l = dialling::load(map, start, zero_at(zero), &mut cells);
    packed(dialling::dial(l, &cells, dialled))
}

// ---- loading and dialling apart

#[tactic(auto, unfolding(crate::specs::Heads::head_of))]
fn head_of(l: Option<Loaded>) -> u32
    requires { IfSome l (λ x. x.count ≤ 1040) }
    ensures { result ≡ head_of l }
{
    match l {
        Some(map) => 1 + 2 * u32::from(map.first) + 16 * (map.count as u32),
        None => 0,
    }
}

#[tactic(auto, unfolding(crate::specs::Heads::loaded_at, base::specs::Pick::pick), using(crate::proofs::HeadLaws::timer_decoded))]
fn loaded_at(n: u32) -> Option<Loaded>
    ensures { result ≡ loaded_at n }
{
    if n % 2 == 0 {
        return None;
    }
    Some(Loaded {
        first: Timer::try_from(n / 2 % 8).unwrap_or(Timer::NoTimer),
        count: (n / 16) as usize,
    })
}

// A map is loaded into lent cells. The number goes with them to each string that is dialled; 0 for a refused map.
#[unsafe(no_mangle)]
pub extern "C" fn cordafina_load_map(
    map: &[u8],
    start: u32,
    zero: u32,
    cells: &mut [u32; CELLS],
) -> u32
    ensures { plan_in (loaded_at result) cells.new ≡ load map.now start (zero_at zero) }
{
    head_of(dialling::load(map, start, zero_at(zero), cells))
}

// A string is dialled on a map that was loaded.
#[unsafe(no_mangle)]
pub extern "C" fn cordafina_dial_map(head: u32, cells: &[u32; CELLS], dialled: &[u8]) -> u32
    ensures { result ≡ packed (dial (plan_in (loaded_at head) cells.now) dialled.now) }
{
    packed(dialling::dial(loaded_at(head), cells, dialled))
}

// ---- the plain matcher (CR 9)

// As cordafina_dial, by the plain matcher. Not for calls: see crate plain_digits for what it does not come back on.
#[unsafe(no_mangle)]
pub extern "C" fn cordafina_dial_plain(map: &[u8], start: u32, zero: u32, dialled: &[u8]) -> u32
    ensures { result ≡ packed (dial (load map.now start (zero_at zero)) dialled.now) }
{
    packed(plain_digits::dial_plain(map, start, zero_at(zero), dialled))
}
