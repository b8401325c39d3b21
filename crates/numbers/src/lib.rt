// Small functions on numbers: the lower of two; what a context's record, 1 + priority + 16 for an emergency, tells.
#![tactic(auto)]

ghost use Rattle.std.specs.Prelude.{◌≡◌, min};
ghost use Rattle.megaco.specs.Table.{priority_of, emergency_of};

pub fn low(a: usize, b: usize) -> usize
    ensures { result ≡ min a b }
{
    a.min(b)
}

// The priority in a context's record.
pub fn priority(held: u32) -> u32
    ensures { result ≡ priority_of held }
{
    held.saturating_sub(1) % 16
}

// 1 where a context's record tells an emergency, else 0.
pub fn emergency(held: u32) -> u32
    ensures { result ≡ emergency_of held }
{
    held.saturating_sub(1) / 16
}
