// The rules for one descriptor.
ghost use Rattle.std.specs.Prelude.{◌≡◌, ◌/◌, ◌<◌, length};
ghost use Rattle.checks.specs.Rules.{flags_fault, flags_short, flags_barred, row_rule, profile_at, profiles_fault, body_fault, desc_fault};

use legal::Row;
use refusal::Refusal;
use text::{Feature, Flags, Profile};

// ---- the rules, on numbers

// 33 and 34: the flags alone.
fn flags_fault(flags: Flags) -> Refusal
    ensures { result ≡ flags_fault flags.0 }
{
    flags.fault(refusal::FLAGS_RESERVED, refusal::PERSISTENT_ALONE)
}

// Whether a feature up to 0003h lacks one of its flags.
fn flags_short(f: Feature, flags: Flags) -> bool
    ensures { result ≡ flags_short f.0 flags.0 }
{
    if 0x0003 < f.0 {
        return false;
    }
    if !flags.persistent() {
        return true;
    }
    !flags.current()
}

// Whether Persistent is set where the row and a removable medium bar it.
fn flags_barred(barred: bool, removable: bool, flags: Flags) -> bool
    ensures { result ≡ flags_barred barred removable flags.0 }
{
    if !barred {
        return false;
    }
    if !removable {
        return false;
    }
    flags.persistent()
}

// 31, 32 and 35: what a row says of length and flags.
fn row_rule(row: Row, removable: bool, f: Feature, flags: Flags, n: u8, len: usize) -> Refusal
    ensures { result ≡ row_rule row removable f.0 flags.0 n len }
{
    let length = row.1;
    if legal::wrong_length(length, flags, n, len) {
        return refusal::BODY_LENGTH_BAD;
    }
    if flags_short(f, flags) {
        return refusal::FLAGS_NOT_BOTH;
    }
    if flags_barred(row.3, removable, flags) {
        return refusal::PERSISTENT_BARRED;
    }
    refusal::ACCEPTED
}

// ---- the rules, over a body

// 39 at profile i.
// Asks: an index inside the profile list; the walk stops at its end.
fn profile_at(body: &[u8], i: usize) -> Refusal
    requires { i < length body.now / 4 }
    ensures { result ≡ profile_at body.now i }
{
    let number = Profile(fields::inside2(body, 4 * i));
    if number.0 == 0 {
        return refusal::PROFILE_ZERO;
    }
    refusal::ACCEPTED
}

// 39 anywhere in the profile list.
fn profiles_fault(f: Feature, body: &[u8]) -> Refusal
    ensures { result ≡ profiles_fault f.0 body.now }
{
    if f.0 != 0x0000 {
        return refusal::ACCEPTED;
    }
    let n = body.len() / 4;
    let mut i = 0;
    while i < n {
        let fault = profile_at(body, i);
        if fault.number != 0 {
            return fault;
        }
        i += 1;
    }
    refusal::ACCEPTED
}

// 36, then 37, then 39 of a body; with a Version above 0 it is not looked at.
fn body_fault(row: Row, f: Feature, flags: Flags, body: &[u8]) -> Refusal
    ensures { result ≡ body_fault row f.0 flags.0 body.now }
{
    if flags.version() != 0 {
        return refusal::ACCEPTED;
    }
    let reserved = legal::reserved_fault(row, body);
    if reserved.number != 0 {
        return reserved;
    }
    let cue = legal::cue_fault(f, body);
    if cue.number != 0 {
        return cue;
    }
    profiles_fault(f, body)
}

// ---- all of them

// The first fault of a descriptor; removable says whether feature 0003h is reported.
pub fn desc_fault(removable: bool, f: Feature, flags: Flags, body: &[u8]) -> Refusal
    ensures { result ≡ desc_fault removable (record { number = f.0; flags = flags.0; body = body.now }) }
{
    let fault = flags_fault(flags);
    if fault.number != 0 {
        return fault;
    }
    let row = legal::row_of(f);
    if row.0.0 == legal::OTHER.0 {
        return refusal::ACCEPTED;
    }
    let fault = row_rule(row, removable, f, flags, fields::byte(body, 3), body.len());
    if fault.number != 0 {
        return fault;
    }
    body_fault(row, f, flags, body)
}
