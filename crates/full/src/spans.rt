// Passes that alter the bytes of a span.
ghost use Rattle.std.specs.Prelude.{◌≡◌, ℕ, ◌-◌, ◌*◌, ◌+◌, ◌%◌, ◌^◌, ◌/◌, ◌<◌, ◌≤◌, ◌&&◌, ◌==◌, length, slice_index};
ghost use Rattle.logic.specs.Codes.{bit};
ghost use Rattle.full.specs.Passes.{Merged};

// Merges the bytes of another span into those of a span. After a zip over `iter_mut` a proof knows the length alone.
pub(crate) fn merge<F: Fn(u8, u8) -> u8>(span: &mut [u8], source: &[u8], by: F)
    requires call { F.IsAlwaysCallable by }
    requires long { length span.old ≤ length source.now }
    ensures { (x : ℕ) → x < length span.old → F.post by (slice_index span.old x) (slice_index source.now x) (slice_index span.new x) }
{
    for (x, byte) in span.iter_mut().enumerate() {
        *byte = by(*byte, source[x]);
    }
}

// Clears the bits of each byte that the mask lacks. In a function of its own the mask stays in a register.
#[inline(never)]
fn keep_mask(span: &mut [u8], mask: u8)
    ensures { Merged ◌&&◌ span.old span.new (λ x m. bit mask m) }
{
    for byte in span.iter_mut() {
        *byte &= mask;
    }
}

// Clears the bytes whose number in the span lacks the bit k.
fn keep_bytes(span: &mut [u8], k: usize)
    requires few { length span.old ≤ 512 }
    requires small { k < 16 }
    ensures { Merged ◌&&◌ span.old span.new (λ x m. bit x k) }
{
    for (x, byte) in span.iter_mut().enumerate() {
        *byte &= ((x as u16 >> k) % 2) as u8 * 255;
    }
}

// Clears every other run of bytes, from the first on. After `chunks_exact_mut` a proof knows the length alone.
fn clear_runs(span: &mut [u8], run: usize, pairs: usize)
    requires whole { pairs * (2 * run) ≡ length span.old }
    requires some { (1 ≤ run) × (run ≤ 256) }
    ensures { Merged ◌&&◌ span.old span.new (λ x m. x / run % 2 == 1) }
{
    for q in 0..pairs {
        let start = q * (2 * run);
        span[start..start + run].fill(0);
    }
}

// The bits of a byte whose numbers have the bit b.
fn low_mask(b: usize) -> u8
    requires { b < 3 }
    ensures { (m : ℕ) → m < 8 → bit result m ≡ bit m b }
{
    match b {
        0 => 0xAA,
        1 => 0xCC,
        _ => 0xF0,
    }
}

// Clears the bits of a span whose numbers lack the bit b.
pub(crate) fn pick(span: &mut [u8], b: usize)
    requires few { length span.old ≤ 512 }
    requires small { b < 12 }
    requires whole { 3 ≤ b → length span.old % 2 ^ (b - 2) ≡ 0 }
    ensures { Merged ◌&&◌ span.old span.new (λ x m. bit (8 * x + m) b) }
{
    if b < 3 {
        keep_mask(span, low_mask(b));
    } else if b < 9 {
        keep_bytes(span, b - 3);
    } else {
        clear_runs(span, 1 << (b - 3), span.len() >> (b - 2));
    }
}
