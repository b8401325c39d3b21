// A row of numbers as bytes: each number below 2^32 in groups of seven bits, low group first, the top bit set on all but the last, in the
// shortest form only.
#![tactic(auto)]

ghost use Rattle.std.specs.Prelude.{◌≡◌, ◌≤◌, ◌<◌, drop, [], ◌∷◌};
ghost use Rattle.base.specs.Out.{Appended};
ghost use Rattle.groups.specs.Groups.{groups_f, number, most, take_f, take_at};

// The groups of a number, with at most `left` after the first.
fn put_groups(out: &mut [u8], at: usize, n: u32, left: u32) -> usize
    requires { n < most left }
    ensures { Appended out.old at (groups_f left n) out.new result }
{
    if n < 128 {
        put_low(out, at, n)
    } else {
        let p = put_low(out, at, 128 + n % 128);
        put_groups(out, p, n / 128, left - 1)
    }
}

fn put_low(out: &mut [u8], at: usize, n: u32) -> usize
    requires { n < 256 }
    ensures { Appended out.old at (n ∷ []) out.new result }
{
    writer::put_byte(out, at, n as u8)
}

// One number.
pub fn put_number(out: &mut [u8], at: usize, n: u32) -> usize
    ensures { Appended out.old at (number n) out.new result }
{
    put_groups(out, at, n, 4)
}

fn wide(b: u8) -> u32
    ensures { result ≡ b }
{
    b as u32
}

// The number at a place, with at most `left` groups after the first.
#[tactic(auto, using(crate::proofs::TakeLaws::take_past, crate::proofs::TakeLaws::last_is, crate::proofs::TakeLaws::last_no, crate::proofs::TakeLaws::one_is, crate::proofs::TakeLaws::more_nothing, crate::proofs::TakeLaws::more_padded, crate::proofs::TakeLaws::more_is))]
fn take_groups(s: &[u8], at: usize, left: u32) -> Option<(u32, usize)>
    requires { left ≤ 4 }
    ensures { result ≡ take_f left (drop at s.now) at }
{
    if s.len() <= at {
        return None;
    }
    let b = wide(s[at]);
    if left == 0 {
        if b < 16 {
            return Some((b, at + 1));
        }
        return None;
    }
    if b < 128 {
        return Some((b, at + 1));
    }
    let (v, q) = take_groups(s, at + 1, left - 1)?;
    if v == 0 {
        return None;
    }
    Some((b - 128 + 128 * v, q))
}

// The number at a place, on any bytes.
#[tactic(auto, unfolding(crate::specs::Groups::take_at))]
pub fn take_number(s: &[u8], at: usize) -> Option<(u32, usize)>
    ensures { result ≡ take_at s.now at }
{
    take_groups(s, at, 4)
}
