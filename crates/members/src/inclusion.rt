// Whether one code includes another.
ghost use Rattle.std.specs.Prelude.{ℕ, ◌*◌, ◌^◌, ◌<◌, Decides};
ghost use Rattle.logic.specs.Codes.{Includes};
ghost use Rattle.store.specs.Masks.{Covers};

pub fn includes(c: usize, d: usize) -> bool
    ensures bits { Decides result (Covers 64 d c) }
    ensures codes { (actions variables : ℕ) → d < 2 ^ (actions * variables) → Decides result (Includes actions variables c d) }
{
    c & d == d
}
