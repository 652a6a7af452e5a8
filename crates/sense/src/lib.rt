// Sense data in fixed format: what the box tells a host that asks after a command, and what the driver makes of it.
#![tactic(auto)]

ghost use Rattle.std.specs.Prelude.{◌≡◌, [], ◌∷◌, ◌<◌, length, get_or};
ghost use Rattle.refusal.specs.First.{accept};
ghost use Rattle.lent.specs.Maker.{outcome, makes};
ghost use Rattle.sense.specs.Sense.{given, no_sense, kind_of, fixed, sense_of, same, made, form_fault, heard, meant, sensed};

use lent::Made;
use refusal::Refusal;

// What a number that a command gives means to a host: nothing is wrong, the operation code is not ours, a field of the command is wrong, or the box
// has trouble of its own.
#[derive(Clone, Copy)]
pub enum Kind {
    Nothing,
    Operation,
    Field,
    Trouble,
}

// What sense bytes mean, or why they were refused.
#[derive(Clone, Copy)]
pub enum Sense {
    Means(Kind),
    Refused(Refusal),
}

// A line of the table: a number that a command gives, and its kind.
#[derive(Clone, Copy)]
struct Line(u8, Kind);

const NOTHING: Kind = Kind::Nothing;

const OPERATION: Kind = Kind::Operation;

const FIELD: Kind = Kind::Field;

const TROUBLE: Kind = Kind::Trouble;

// Each number that a command gives.
const GIVEN: [Line; 22] = [
    Line(0, NOTHING),
    Line(1, TROUBLE),
    Line(2, TROUBLE),
    Line(3, TROUBLE),
    Line(4, TROUBLE),
    Line(5, TROUBLE),
    Line(6, TROUBLE),
    Line(7, TROUBLE),
    Line(8, TROUBLE),
    Line(9, OPERATION),
    Line(10, OPERATION),
    Line(11, FIELD),
    Line(12, TROUBLE),
    Line(14, TROUBLE),
    Line(15, TROUBLE),
    Line(16, TROUBLE),
    Line(17, TROUBLE),
    Line(18, TROUBLE),
    Line(20, TROUBLE),
    Line(29, TROUBLE),
    Line(41, TROUBLE),
    Line(44, TROUBLE),
];

// How many bytes of sense data there are.
pub const LENGTH: usize = 18;

// Bits 6-0 of byte 0: a current error, in fixed format.
const RESPONSE_CODE: u8 = 0x70;

// ---- the table

// Line i.
// Asks: an index inside the table; the walk stops at its end.
fn line_at(i: usize) -> Line
    requires { i < length given }
    ensures { result ≡ get_or given i no_sense }
{
    GIVEN[i]
}

// The kind of a number, looked for in the table; a number that is not there is refused.
fn kind_of(number: u8) -> Sense
    ensures { heard result ≡ kind_of number }
{
    let mut i = 0;
    while i < GIVEN.len() {
        let line = line_at(i);
        let kind = line.1;
        if line.0 == number {
            return Sense::Means(kind);
        }
        i += 1;
    }
    Sense::Refused(refusal::NOT_GIVEN)
}

// ---- the bytes

// Sense data with the sense key k and the additional sense code c; of the field pointer, bytes 15 to 17, the first is b and the last f.
fn fixed(k: u8, c: u8, b: u8, f: u8) -> [u8; 18]
    ensures { result ≡ fixed k c (b ∷ 0 ∷ f ∷ []) }
{
    [0x70, 0, k, 0, 0, 0, 0, 0x0A, 0, 0, 0, 0, c, 0, 0, b, 0, f]
}

// The bytes of a kind.
fn bytes_of(kind: Kind) -> [u8; 18]
    ensures { result ≡ sense_of kind }
{
    match kind {
        Kind::Nothing => fixed(0, 0, 0, 0),
        Kind::Operation => fixed(5, 0x20, 0, 0),
        Kind::Field => fixed(5, 0x24, 0xC9, 1),
        Kind::Trouble => fixed(4, 0x44, 0, 0),
    }
}

// Whether two byte strings are the same.
fn is_same(a: &[u8], b: &[u8]) -> bool
    ensures { result ≡ same a.now b.now }
{
    if a.len() != b.len() {
        return false;
    }
    let mut i = 0;
    while i < a.len() {
        let x = fields::byte(a, i);
        let y = fields::byte(b, i);
        if x != y {
            return false;
        }
        i += 1;
    }
    true
}

// Whether they are the bytes of a kind.
fn is_kind(kind: Kind, s: &[u8]) -> bool
    ensures { result ≡ same (sense_of kind) s.now }
{
    let bytes = bytes_of(kind);
    is_same(&bytes, s)
}

// ---- the maker and the reader

// Writes the bytes of a kind to a lent buffer.
fn write(kind: Kind, out: &mut [u8]) -> Made
    ensures { outcome result out.new ≡ makes accept 55 (sense_of kind) out.old }
{
    if out.len() < LENGTH {
        return Made::refused(refusal::SENSE_BUFFER_SHORT);
    }
    let bytes = bytes_of(kind);
    Made::written(lent::copy(out, 0, &bytes))
}

// The sense data for a number that a command gave, written to a lent buffer.
pub fn make(number: u8, out: &mut [u8]) -> Made
    ensures { outcome result out.new ≡ made number out.old }
{
    match kind_of(number) {
        Sense::Refused(fault) => Made::refused(fault),
        Sense::Means(kind) => write(kind, out),
    }
}

// What is wrong with the form of sense data.
fn form_fault(s: &[u8]) -> Refusal
    ensures { result ≡ form_fault s.now }
{
    if s.len() != LENGTH {
        return refusal::SENSE_LENGTH;
    }
    if fields::byte(s, 0) % 128 != RESPONSE_CODE {
        return refusal::SENSE_CODE;
    }
    refusal::ACCEPTED
}

// The kind whose bytes they are.
fn meaning(s: &[u8]) -> Sense
    ensures { heard result ≡ meant s.now }
{
    if is_kind(Kind::Nothing, s) {
        return Sense::Means(Kind::Nothing);
    }
    if is_kind(Kind::Operation, s) {
        return Sense::Means(Kind::Operation);
    }
    if is_kind(Kind::Field, s) {
        return Sense::Means(Kind::Field);
    }
    if is_kind(Kind::Trouble, s) {
        return Sense::Means(Kind::Trouble);
    }
    Sense::Refused(refusal::SENSE_OTHER)
}

// What received sense data means.
pub fn read(s: &[u8]) -> Sense
    ensures { heard result ≡ sensed s.now }
{
    let fault = form_fault(s);
    if fault.number != 0 {
        return Sense::Refused(fault);
    }
    meaning(s)
}
