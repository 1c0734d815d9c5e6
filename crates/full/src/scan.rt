// Passes that read the bytes of a span.
ghost use Rattle.std.specs.Prelude.{◌≡◌, ◌*◌, ◌/◌, ◌<◌, ◌≤◌, length};
ghost use Rattle.store.specs.Least.{Least};
ghost use Rattle.full.specs.Bytes.{bit_from};
ghost use Rattle.full.specs.Passes.{Differ};

// Whether the bit c is set.
pub(crate) fn test_bit(span: &[u8], c: usize) -> bool
    requires { c / 8 < length span.now }
    ensures { result ≡ bit_from span.now 0 c }
{
    (span[c / 8] >> (c % 8)) % 2 == 1
}

// The bits at which two spans differ in some byte. It reads to the end: a way out would cost the vectors.
pub(crate) fn differs(first: &[u8], second: &[u8]) -> u8
    requires { length first.now ≡ length second.now }
    ensures { Differ first.now second.now result }
{
    first
        .iter()
        .zip(second)
        .fold(0, |found, (one, other)| found | (one ^ other))
}

// The first bit that is set from the byte `first` of a span on.
fn seek(span: &[u8], first: usize) -> Option<usize>
    requires few { length span.now ≤ 512 }
    requires within { first ≤ length span.now }
    ensures { Least (bit_from span.now 0) (8 * first) result }
{
    let mut rest = &span[first..];
    while let Some((word, tail)) = rest.split_first_chunk::<8>() {
        let bits = u64::from_le_bytes(*word);
        if bits != 0 {
            return Some(8 * (span.len() - rest.len()) + bits.trailing_zeros() as usize);
        }
        rest = tail;
    }
    let x = span.len() - rest.len() + rest.iter().position(|byte| *byte != 0)?;
    Some(8 * x + span[x].trailing_zeros() as usize)
}

// The first bit from c on that is set in a span.
pub(crate) fn next_bit(span: &[u8], c: usize) -> Option<usize>
    requires { length span.now ≤ 512 }
    ensures { Least (bit_from span.now 0) c result }
{
    let first = c / 8;
    if first >= span.len() {
        return None;
    }
    let head = span[first] >> (c % 8);
    if head != 0 {
        return Some(c + head.trailing_zeros() as usize);
    }
    seek(span, first + 1)
}
