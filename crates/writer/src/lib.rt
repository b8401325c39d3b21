// Writers into a lent buffer. None goes past the buffer's end: a position at the end says that the buffer is full.
#![tactic(auto)]

ghost use Rattle.std.specs.Prelude.{◌≡◌, [], ◌∷◌, ◌+◌, ◌<◌};
ghost use Rattle.base.specs.Bytes.{decimal};
ghost use Rattle.base.specs.Out.{Appended, Digits};

// One byte.
#[tactic(auto, using(base::proofs::OutLaws::byte, base::proofs::OutLaws::full))]
pub fn put_byte(out: &mut [u8], at: usize, b: u8) -> usize
    ensures { Appended out.old at (b ∷ []) out.new result }
{
    if at < out.len() {
        out[at] = b;
        return at + 1;
    }
    at
}

// The bytes of a slice.
#[tactic(auto, using(base::proofs::OutLaws::none, base::proofs::OutLaws::all))]
pub fn put_bytes(out: &mut [u8], at: usize, s: &[u8]) -> usize
    ensures { Appended out.old at s.now out.new result }
{
    let mut p = at;
    for b in s {
        p = put_byte(out, p, *b);
    }
    p
}

fn digit(n: usize) -> u8
    requires { n < 10 }
    ensures { result ≡ 48 + n }
{
    b'0' + n as u8
}

// The digits of a number, the last one after all the others.
#[tactic(auto, using(base::proofs::OutLaws::digits_one, base::proofs::OutLaws::digits_more))]
fn put_digits(out: &mut [u8], at: usize, n: usize) -> usize
    ensures { Digits n out.old at out.new result }
{
    if n < 10 {
        put_byte(out, at, digit(n))
    } else {
        let p = put_digits(out, at, n / 10);
        put_byte(out, p, digit(n % 10))
    }
}

// A number in decimal: "Numbers have no leading zeros".
#[tactic(auto, using(base::proofs::OutLaws::number))]
pub fn put_decimal(out: &mut [u8], at: usize, n: usize) -> usize
    ensures { Appended out.old at (decimal n) out.new result }
{
    put_digits(out, at, n)
}
