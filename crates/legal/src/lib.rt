// What may stand in a body: the table of legal lengths and body bits, and the rules that check and mender share.
#![tactic(auto)]

ghost use Rattle.std.specs.Prelude.{◌≡◌, ◌||◌, ◌+◌, ◌≤◌, length, get_or};
ghost use Rattle.fields.specs.Field.{field};
ghost use Rattle.refusal.specs.First.{first_of};
ghost use Rattle.legal.specs.Legal.{mask_bytes, row_of};
ghost use Rattle.legal.specs.Bodies.{is_too_short, is_too_long, wrong_length, mask_at, reserved_rule, reserved_at, cue_rule};
ghost use Rattle.legal.specs.inner.Periodic.{words_rule, words_at, periodic_at, pad_at, counted_fault};

use refusal::Refusal;
use text::{Feature, Flags};

// ---- the table

// How long a body may be: any length, exactly so many bytes, or 4 and the N bytes that byte 7 counts and up to 3 pad bytes.
#[derive(Clone, Copy)]
pub enum Length {
    Any,
    Exactly(u8),
    Counted,
}

// The bits that may be 1 in twelve bytes of a body, four bytes to a word, the first in its highest bits.
#[derive(Clone, Copy)]
pub struct Masks(pub u32, pub u32, pub u32);

// A row: the feature, its length, the bits that may be 1 in its body by place, over again every twelve bytes (of Counted only in the first four), and
// whether it may not be Persistent where feature 0003h is reported. All of it is numbers, so that the compiler makes a jump of the walk over the table and
// lays no table out.
#[derive(Clone, Copy)]
pub struct Row(pub Feature, pub Length, pub Masks, pub bool);

// The features that the table names; a row keeps one line.
const LIST: Feature = Feature(0x0000);

const CORE: Feature = Feature(0x0001);

const MORPH: Feature = Feature(0x0002);

const MEDIUM: Feature = Feature(0x0003);

const DVD: Feature = Feature(0x001F);

const RANDOM: Feature = Feature(0x0020);

const STREAM: Feature = Feature(0x0021);

const OVER: Feature = Feature(0x0026);

const TRACK: Feature = Feature(0x002D);

const MASTER: Feature = Feature(0x002E);

const DVD_R: Feature = Feature(0x002F);

// In the row of a feature that the table does not name.
pub const OTHER: Feature = Feature(0xFFFF);

const ANY: Length = Length::Any;

const NONE: Length = Length::Exactly(0);

const FOUR: Length = Length::Exactly(4);

const TWELVE: Length = Length::Exactly(12);

const COUNTED: Length = Length::Counted;

// Every bit of four bytes may be 1.
const ALL: u32 = 0xFFFFFFFF;

// A profile's number, and its bit CurrentP.
const PROFILE: u32 = 0xFFFF0100;

const LEGAL: [Row; 11] = [
    Row(LIST, ANY, Masks(PROFILE, PROFILE, PROFILE), false),
    Row(CORE, FOUR, Masks(ALL, 0, 0), false),
    Row(MORPH, FOUR, Masks(0x01000000, 0, 0), false),
    Row(MEDIUM, FOUR, Masks(0xED000000, 0, 0), false),
    Row(DVD, NONE, Masks(0, 0, 0), true),
    Row(RANDOM, TWELVE, Masks(ALL, ALL, 0xFFFF0100), true),
    Row(STREAM, COUNTED, Masks(0x000000FF, 0, 0), true),
    Row(OVER, FOUR, Masks(ALL, 0, 0), true),
    Row(TRACK, FOUR, Masks(0x07000000, 0, 0), true),
    Row(MASTER, FOUR, Masks(0x3FFFFFFF, 0, 0), true),
    Row(DVD_R, FOUR, Masks(0x04000000, 0, 0), true),
];

// The highest feature that the table names: most features of a drive are above it and need no look at the table.
const LAST_LISTED: Feature = DVD_R;

// A feature that the table does not name.
const UNLISTED: Row = Row(OTHER, ANY, Masks(ALL, ALL, ALL), false);

// The row of a feature, looked for in the table.
fn listed(f: Feature) -> Row
    ensures { result ≡ row_of f.0 }
{
    let table = LEGAL;
    let mut i = 0;
    while i < table.len() {
        let row = table[i];
        if row.0.0 == f.0 {
            return row;
        }
        i += 1;
    }
    UNLISTED
}

// The row of a feature.
pub fn row_of(f: Feature) -> Row
    ensures { result ≡ row_of f.0 }
{
    if LAST_LISTED.0 < f.0 {
        return UNLISTED;
    }
    listed(f)
}

// ---- how long a body may be

// Whether a body of len bytes is shorter than its row says; n is byte 7.
fn too_short(wanted: Length, n: u8, len: usize) -> bool
    ensures { result ≡ is_too_short wanted n len }
{
    match wanted {
        Length::Any => false,
        Length::Exactly(k) => len < k as usize,
        Length::Counted => len < 4 + n as usize,
    }
}

// Whether a body of len bytes is longer than its row says; n is byte 7.
fn too_long(wanted: Length, n: u8, len: usize) -> bool
    ensures { result ≡ is_too_long wanted n len }
{
    match wanted {
        Length::Any => false,
        Length::Exactly(k) => (k as usize) < len,
        Length::Counted => 4 + n as usize + 3 < len,
    }
}

// Whether a body of len bytes is not as long as its row says; n is byte 7.
fn other_length(wanted: Length, n: u8, len: usize) -> bool
    ensures { result ≡ (is_too_short wanted n len || is_too_long wanted n len) }
{
    if too_short(wanted, n, len) {
        return true;
    }
    too_long(wanted, n, len)
}

// Whether a body may not have len bytes: with a Version above 0 it may be longer than its row says; n is byte 7.
pub fn wrong_length(wanted: Length, flags: Flags, n: u8, len: usize) -> bool
    ensures { result ≡ wrong_length wanted flags.0 n len }
{
    if flags.version() == 0 {
        return other_length(wanted, n, len);
    }
    too_short(wanted, n, len)
}

// ---- which of its bits may be 1

// The bits of the row's twelve bytes that may be 1 at a place.
fn mask_byte(masks: Masks, j: usize) -> u8
    ensures { result ≡ get_or (mask_bytes masks) j 0 }
{
    match j {
        0 => (masks.0 / 256 / 256 / 256 % 256) as u8,
        1 => (masks.0 / 256 / 256 % 256) as u8,
        2 => (masks.0 / 256 % 256) as u8,
        3 => (masks.0 % 256) as u8,
        4 => (masks.1 / 256 / 256 / 256 % 256) as u8,
        5 => (masks.1 / 256 / 256 % 256) as u8,
        6 => (masks.1 / 256 % 256) as u8,
        7 => (masks.1 % 256) as u8,
        8 => (masks.2 / 256 / 256 / 256 % 256) as u8,
        9 => (masks.2 / 256 / 256 % 256) as u8,
        10 => (masks.2 / 256 % 256) as u8,
        11 => (masks.2 % 256) as u8,
        _ => 0,
    }
}

// The same where byte 7 counts.
fn counted_mask(masks: Masks, n: u8, k: usize) -> u8
    ensures { result ≡ mask_at Length.Counted masks n k }
{
    if k < 4 {
        return mask_byte(masks, k);
    }
    if k < 4 + n as usize {
        return 255;
    }
    0
}

// The bits of body byte k that may be 1; n is byte 7.
pub fn mask_at(row: Row, n: u8, k: usize) -> u8
    ensures { result ≡ mask_at row.1 row.2 n k }
{
    let length = row.1;
    let masks = row.2;
    match length {
        Length::Any => mask_byte(masks, k % 12),
        Length::Exactly(_) => mask_byte(masks, k % 12),
        Length::Counted => counted_mask(masks, n, k),
    }
}

// ---- 36 in a body, by words

// 36: a bit that may not be 1, in four bytes.
fn reserved_rule(word: u32, mask: u32) -> Refusal
    ensures { result ≡ reserved_rule word mask }
{
    let kept = word & mask;
    if kept != word {
        return refusal::BITS_RESERVED;
    }
    refusal::ACCEPTED
}

// 36 in twelve bytes.
fn words_fault(masks: Masks, a: u32, b: u32, c: u32) -> Refusal
    ensures { result ≡ words_rule masks a b c }
{
    let fault = reserved_rule(a, masks.0);
    if fault.number != 0 {
        return fault;
    }
    let fault = reserved_rule(b, masks.1);
    if fault.number != 0 {
        return fault;
    }
    reserved_rule(c, masks.2)
}

// 36: a pad byte that is not 0.
fn pad_rule(byte: u8) -> Refusal
    ensures { result ≡ reserved_rule byte 0 }
{
    if byte != 0 {
        return refusal::BITS_RESERVED;
    }
    refusal::ACCEPTED
}

// 36 in the twelve bytes at a place.
// Asks: a body that has them; the walk over it has looked.
fn twelve_fault(masks: Masks, body: &[u8], k: usize) -> Refusal
    requires { k + 12 ≤ length body.now }
    ensures { result ≡ words_at masks body.now k }
{
    let a = fields::inside4(body, k);
    let b = fields::inside4(body, k + 4);
    let c = fields::inside4(body, k + 8);
    words_fault(masks, a, b, c)
}

// 36 in the bytes from a place on, twelve of them or fewer: what lies behind the end reads as 0, and breaks no rule. Most bodies have four bytes or none.
// Asks: a place in the body or at its end; the walk over it ends there.
fn last_fault(masks: Masks, body: &[u8], k: usize) -> Refusal
    requires { k ≤ length body.now }
    ensures { result ≡ words_at masks body.now k }
{
    if body.len() <= k {
        return refusal::ACCEPTED;
    }
    if body.len() <= k + 4 {
        return reserved_rule(fields::get4(body, k), masks.0);
    }
    let a = fields::get4(body, k);
    let b = fields::get4(body, k + 4);
    let c = fields::get4(body, k + 8);
    words_fault(masks, a, b, c)
}

// 36 anywhere in a body whose bits the row's bytes tell over and over.
fn periodic_fault(masks: Masks, body: &[u8]) -> Refusal
    ensures { result ≡ first_of (periodic_at masks body.now) 0 (length body.now) }
{
    let mut k = 0;
    while k + 12 <= body.len() {
        let fault = twelve_fault(masks, body, k);
        if fault.number != 0 {
            return fault;
        }
        k += 12;
    }
    last_fault(masks, body, k)
}

// 36 anywhere in the pad bytes.
fn pad_fault(pad: &[u8]) -> Refusal
    ensures { result ≡ first_of (pad_at pad.now) 0 (length pad.now) }
{
    let mut k = 0;
    while k < pad.len() {
        let fault = pad_rule(pad[k]);
        if fault.number != 0 {
            return fault;
        }
        k += 1;
    }
    refusal::ACCEPTED
}

// 36 anywhere in a body whose bits byte 7 counts: in its first four bytes, then in what follows the bytes that are counted.
fn counted_fault(mask: u32, body: &[u8]) -> Refusal
    ensures { result ≡ counted_fault mask body.now }
{
    let fault = reserved_rule(fields::get4(body, 0), mask);
    if fault.number != 0 {
        return fault;
    }
    let n = fields::byte(body, 3);
    pad_fault(fields::part(body, 4 + n as usize, body.len()))
}

// 36 anywhere in a body. Most have four bytes or none, and every row has one word for these.
pub fn reserved_fault(row: Row, body: &[u8]) -> Refusal
    ensures { result ≡ first_of (reserved_at row body.now) 0 (length body.now) }
{
    let view = &body[..];
    let length = row.1;
    let masks = row.2;
    if view.len() <= 4 {
        return reserved_rule(fields::get4(view, 0), masks.0);
    }
    match length {
        Length::Any => periodic_fault(masks, view),
        Length::Exactly(_) => periodic_fault(masks, view),
        Length::Counted => counted_fault(masks.0, view),
    }
}

// ---- 37

// 37 of a body: a cue sheet length without SAO.
pub fn cue_fault(f: Feature, body: &[u8]) -> Refusal
    ensures { result ≡ cue_rule f.0 (get_or body.now 0 0) (field 3 body.now 1) }
{
    if f.0 != 0x002E {
        return refusal::ACCEPTED;
    }
    let byte4 = fields::byte(body, 0);
    if byte4 / 32 % 2 != 0 {
        return refusal::ACCEPTED;
    }
    if fields::get3(body, 1) != 0 {
        return refusal::CUE_LENGTH;
    }
    refusal::ACCEPTED
}
