// Writing into lent memory. Every writer writes from an index on as far as the buffer has room, changes nothing else, and returns the
// index behind what it wrote.
#![tactic(auto)]

ghost use Rattle.std.specs.Prelude.{◌≡◌, [], ◌∷◌, ◌+◌, ◌≤◌, leb, length, take, drop, replicate};
ghost use Rattle.fields.specs.Field.{spell};
ghost use Rattle.lent.specs.Wrote.{Wrote};
ghost use Rattle.lent.specs.Maker.{refused, written};

mod blocks;

use refusal::Refusal;

// What a maker answers, a function that writes into lent memory or refuses: the refusal or none, and how many bytes it wrote.
#[derive(Clone, Copy)]
pub struct Made {
    pub refusal: Refusal,
    pub count: usize,
}

impl Made {
    // A refusal: nothing was written.
    pub fn refused(fault: Refusal) -> Made
        ensures { result ≡ refused fault }
    {
        Made {
            refusal: fault,
            count: 0,
        }
    }

    // So many bytes were written.
    pub fn written(count: usize) -> Made
        ensures { result ≡ written count }
    {
        Made {
            refusal: refusal::ACCEPTED,
            count: count,
        }
    }
}

// Stores one element, of whatever type, where there is room for it.
fn store<T: Copy>(out: &mut [T], at: usize, x: T) -> usize
    ensures { Wrote out.old at (x ∷ []) result out.new }
{
    if at < out.len() {
        out[at] = x;
        return at + 1;
    }
    at
}

// Puts a byte. The theorems `put_decided` and `note_decided` name this and `note`, the instances of `store`.
pub fn put(out: &mut [u8], at: usize, b: u8) -> usize
    ensures { Wrote out.old at (b ∷ []) result out.new }
{
    store(out, at, b)
}

// Puts a field of two bytes, store by store: a copy of `to_be_bytes` would be a call of `place`.
#[tactic(auto, using(crate::proofs::Laws::then), unfolding(fields::specs::Field::spell))]
pub fn put2(out: &mut [u8], at: usize, v: u16) -> usize
    ensures { Wrote out.old at (spell 2 v) result out.new }
{
    let a = put(out, at, (v / 256 % 256) as u8);
    put(out, a, (v % 256) as u8)
}

// Whether so many bytes have four at an index.
fn has4(len: usize, at: usize) -> bool
    ensures { result ≡ leb (at + 4) len }
{
    if len < 4 {
        return false;
    }
    at <= len - 4
}

// Puts a field of four bytes, all at once where there is room for them.
pub fn put4(out: &mut [u8], at: usize, v: u32) -> usize
    ensures { Wrote out.old at (spell 4 v) result out.new }
{
    if has4(out.len(), at) {
        return set4(out, at, v);
    }
    let a = put2(out, at, (v / 65536) as u16);
    put2(out, a, (v % 65536) as u16)
}

// Copies so many bytes of something else, from an index on, to where there is room for them. It is long, and so stays a function of its own for whoever calls
// it: what it is told goes in registers, where a part would go through memory.
// Asks: bytes that are there, and room for all of them; whoever copies has looked at both lengths.
pub fn place(out: &mut [u8], at: usize, s: &[u8], from: usize, count: usize) -> usize
    requires { (at + count ≤ length out.old) × (from + count ≤ length s.now) }
    ensures { Wrote out.old at (take count (drop from s.now)) result out.new }
{
    let end = at + count;
    let stop = from + count;
    blocks::fill(&s[from..stop], &mut out[at..end]);
    end
}

// Copies four bytes to where there is room for them, with no look at how many they are.
// Asks: four bytes, and room for them; whoever copies has looked at the buffer's length.
pub fn place4(out: &mut [u8], at: usize, part: &[u8]) -> usize
    requires { (length part.now ≡ 4) × (at + 4 ≤ length out.old) }
    ensures { Wrote out.old at part.now result out.new }
{
    let behind = at + 4;
    blocks::four(part, &mut out[at..behind]);
    behind
}

// Writes a field over four bytes, straight into them, with no array between: the compiler makes one store of it.
// Asks: four bytes; `set4` lends as many.
#[tactic(auto, using(crate::proofs::Laws::four_set), unfolding(fields::specs::Field::spell))]
fn fill4(out: &mut [u8], v: u32)
    requires { length out.old ≡ 4 }
    ensures { out.new ≡ spell 4 v }
{
    out[0] = (v / 256 / 256 / 256 % 256) as u8;
    out[1] = (v / 256 / 256 % 256) as u8;
    out[2] = (v / 256 % 256) as u8;
    out[3] = (v % 256) as u8;
}

// Puts a field of four bytes where there is room for it, all at once.
// Asks: room for four bytes; whoever writes has looked at the buffer's length.
pub fn set4(out: &mut [u8], at: usize, v: u32) -> usize
    requires { at + 4 ≤ length out.old }
    ensures { Wrote out.old at (spell 4 v) result out.new }
{
    let behind = at + 4;
    fill4(&mut out[at..behind], v);
    behind
}

// Copies a part of something else.
pub fn copy(out: &mut [u8], at: usize, part: &[u8]) -> usize
    ensures { Wrote out.old at part.now result out.new }
{
    if out.len() <= at {
        return at;
    }
    let room = out.len() - at;
    if part.len() <= room {
        return place(out, at, part, 0, part.len());
    }
    place(out, at, part, 0, room)
}

// Notes a sixteen-bit number in a list of them.
pub fn note(out: &mut [u16], at: usize, v: u16) -> usize
    ensures { Wrote out.old at (v ∷ []) result out.new }
{
    store(out, at, v)
}

// Sets the whole buffer to zero.
pub fn clear(out: &mut [u8])
    ensures { out.new ≡ replicate (length out.old) 0 }
{
    out.fill(0);
}

// The same for a list of sixteen-bit numbers, number by number.
#[tactic(auto, using(crate::proofs::Laws::nothing, crate::proofs::Laws::filled_whole))]
pub fn clear_list(out: &mut [u16])
    ensures { out.new ≡ replicate (length out.old) 0 }
{
    for at in 0..out.len() {
        out[at] = 0;
    }
}
