// Where a response has bits in its bodies that the check finds reserved, or a cue sheet length without SAO: what the mender changes, so that a copy that it has been over tells.
use text::Header;

// A response has no more bytes that can change: 50 is never given.
const MOST: usize = Header::RETURN_LIMIT;

// Puts a response at the front of a copy, mended where it can be: what is refused stands there as it is.
pub fn put_clean(s: &[u8], copy: &mut [u8]) {
    let mut list = [0u32; MOST];
    let mended = mend::mend(s, copy, &mut list);
    let refusal = mended.refusal;
    if refusal.number != 0 {
        lent::copy(copy, 0, s);
    }
}

// The first byte of a body, counted from the start of its descriptor, in which the descriptor and its copy differ, the end if there is none.
pub fn first_in(descriptor: &[u8], clean: &[u8]) -> usize {
    let mut k = 4;
    while k < descriptor.len() {
        if descriptor[k] != fields::byte(clean, k) {
            return k;
        }
        k += 1;
    }
    k
}

// The highest bit of a byte, as it is counted.
fn highest(byte: u8) -> u8 {
    match byte {
        128..=255 => 7,
        64..=127 => 6,
        32..=63 => 5,
        16..=31 => 4,
        8..=15 => 3,
        4..=7 => 2,
        2..=3 => 1,
        _ => 0,
    }
}

// The highest bit that a byte has and its copy has not: mending sets none in a body.
pub fn bit_in(descriptor: &[u8], clean: &[u8], k: usize) -> u8 {
    let old = fields::byte(descriptor, k);
    let new = fields::byte(clean, k);
    if old < new {
        return 0;
    }
    highest(old - new)
}
