// Copying by blocks. A block goes through a local array, so that all of it is read before any of it is written: the compiler then moves it through a register,
// and need not look whether the two overlap.
#![tactic(auto, using(crate::proofs::Copying::same_start, crate::proofs::Copying::same_less, crate::proofs::Copying::same_more, crate::proofs::Copying::same_end, crate::proofs::Copying::whole))]

ghost use Rattle.std.specs.Prelude.{◌≡◌, ◌+◌, ◌*◌, ◌≤◌, length};
ghost use Rattle.lent.specs.inner.Same.{Same};

// Copies the N bytes of s from index i on to the same place.
// Asks: a buffer as long as s that agrees with it up to i, and N bytes left, which the caller has shown before.
fn block<const N: usize>(s: &[u8], i: usize, out: &mut [u8])
    requires { Same s.now i out.old × (i + N ≤ length s.now) }
    ensures { Same s.now (i + N) out.new }
{
    let mut block = [0u8; N];
    let end = i + N;
    block.copy_from_slice(&s[i..end]);
    out[i..end].copy_from_slice(&block);
}

// Copies the 16 bytes of s from index i on to the same place: both halves are read before any is written, so that they go at once. An array of 8 bytes is a
// number to the compiler, of 16 it is memory on a small processor, so this is no `block::<16>`.
// Asks: a buffer as long as s that agrees with it up to i, and 16 bytes left, which the caller has shown before.
fn block16(s: &[u8], i: usize, out: &mut [u8])
    requires { Same s.now i out.old × (i + 16 ≤ length s.now) }
    ensures { Same s.now (i + 16) out.new }
{
    let mut first = [0u8; 8];
    let mut second = [0u8; 8];
    let middle = i + 8;
    let end = middle + 8;
    first.copy_from_slice(&s[i..middle]);
    second.copy_from_slice(&s[middle..end]);
    out[i..middle].copy_from_slice(&first);
    out[middle..end].copy_from_slice(&second);
}

// Copies N times 16 bytes of s from index i on to the same place.
// Asks: a buffer as long as s that agrees with it up to i, and as many bytes left, which the caller has shown before.
fn run<const N: usize>(s: &[u8], i: usize, out: &mut [u8])
    requires { Same s.now i out.old × (i + N * 16 ≤ length s.now) }
    ensures { Same s.now (i + N * 16) out.new }
{
    for k in 0..N {
        block16(s, i + k * 16, out);
    }
}

// Copies the 64 bytes of s from index i on to the same place, with no loop as in `run`: where code is to be short the compiler leaves it one, and a long copy on a
// Cortex-M4 took half as many instructions more.
// Asks: a buffer as long as s that agrees with it up to i, and 64 bytes left, which the walk has shown before.
fn block64(s: &[u8], i: usize, out: &mut [u8])
    requires { Same s.now i out.old × (i + 64 ≤ length s.now) }
    ensures { Same s.now (i + 64) out.new }
{
    block16(s, i, out);
    block16(s, i + 16, out);
    block16(s, i + 32, out);
    block16(s, i + 48, out);
}

// Copies 4 bytes over a buffer of 4.
// Asks: 4 bytes, and a buffer of 4; `fill` and `place4` have looked at the length.
pub fn four(s: &[u8], out: &mut [u8])
    requires { (length out.old ≡ length s.now) × (length s.now ≡ 4) }
    ensures { out.new ≡ s.now }
{
    block::<4>(s, 0, out);
}

// Copies s over a buffer of its length: the first 8 bytes and the last 8. Some may be copied twice.
// Asks: a buffer of that length, and 8 to 16 bytes; `fill` has looked at the length.
fn by8(s: &[u8], out: &mut [u8])
    requires { (length out.old ≡ length s.now) × (8 ≤ length s.now) × (length s.now ≤ 16) }
    ensures { out.new ≡ s.now }
{
    block::<8>(s, 0, out);
    block::<8>(s, s.len() - 8, out);
}

// The same with N times 16 bytes at each end.
// Asks: a buffer of that length, and N to 2N times 16 bytes; `fill` has looked at the length.
fn by16<const N: usize>(s: &[u8], out: &mut [u8])
    requires { (length out.old ≡ length s.now) × (N * 16 ≤ length s.now) × (length s.now ≤ N * 32) }
    ensures { out.new ≡ s.now }
{
    run::<N>(s, 0, out);
    run::<N>(s, s.len() - N * 16, out);
}

// Copies s over a buffer of its length, 64 bytes at a time.
// Asks: a buffer of that length, and 64 bytes or more; `fill` has looked at the length.
fn by64(s: &[u8], out: &mut [u8])
    requires { (length out.old ≡ length s.now) × (64 ≤ length s.now) }
    ensures { out.new ≡ s.now }
{
    // an index: the last block overlaps the one before it, and no chunk does
    let mut i = 0;
    while 64 < s.len() - i {
        block64(s, i, out);
        i += 64;
    }
    block64(s, s.len() - 64, out);
}

// Copies s over a buffer of its length, by blocks as large as there are bytes for. Most bodies have no bytes or 4.
// Asks: a buffer of that length; `place` cuts it so.
pub fn fill(s: &[u8], out: &mut [u8])
    requires { length out.old ≡ length s.now }
    ensures { out.new ≡ s.now }
{
    if s.len() == 4 {
        four(s, out);
        return;
    }
    if s.len() < 8 {
        out.copy_from_slice(s);
        return;
    }
    if s.len() < 16 {
        by8(s, out);
        return;
    }
    if s.len() < 32 {
        by16::<1>(s, out);
        return;
    }
    if s.len() < 64 {
        by16::<2>(s, out);
        return;
    }
    by64(s, out);
}
