// The driver's sweep: one response at a time.
#![tactic(auto)]

ghost use Rattle.std.specs.Prelude.{◌≡◌, false, not, ◌-◌, ◌<◌};
ghost use Rattle.text.specs.Response.{header_length};
ghost use Rattle.sweep.specs.Sweep.{step, start_rule, started, ends_sweep, left_by, held_profile, advanced, turn, stepped};
ghost use Rattle.sweep.specs.inner.Numbers.{closed_rule, short_rule, profile_rule, cut_rule, space_rule, scan_rule};

use reading::Scanned;
use refusal::Refusal;
use text::{Feature, Header, Profile};

// A sweep so far. Any record may be handed in, one that no sweep reaches too.
#[repr(C)]
#[derive(Clone, Copy)]
pub struct Sweep {
    pub rt: u8,
    pub allocation: u16,
    pub next: Feature,
    pub commands: u32,
    pub collected: usize,
    pub ended: bool,
    pub profile: Profile,
}

// What starting a sweep, or taking a response, answers: the refusal or none, and the record from then on.
#[repr(C)]
#[derive(Clone, Copy)]
pub struct Step {
    pub refusal: Refusal,
    pub sweep: Sweep,
}

// The highest feature number: no start comes behind it.
const LAST_FEATURE: Feature = Feature(0xFFFF);

// ---- the rules, on numbers

fn start_rule(rt: u8, allocation: u16) -> Refusal
    ensures { result ≡ start_rule rt allocation }
{
    if rt > 1 {
        return refusal::SWEEP_RT_BAD;
    }
    if (allocation as usize) < Header::LENGTH {
        return refusal::ALLOCATION_SHORT;
    }
    refusal::ACCEPTED
}

// What is refused of a cut response of so many bytes.
fn short_rule(complete: bool, received: usize, most: usize) -> Refusal
    ensures { result ≡ short_rule complete received most }
{
    if complete {
        return refusal::ACCEPTED;
    }
    if received < most {
        return refusal::CUT_SHORT;
    }
    refusal::ACCEPTED
}

// With so many commands so far, a response has the profile that is held.
fn profile_rule(commands: u32, held: Profile, profile: Profile) -> Refusal
    ensures { result ≡ profile_rule commands held.0 profile.0 }
{
    if commands == 0 {
        return refusal::ACCEPTED;
    }
    if profile.0 == held.0 {
        return refusal::ACCEPTED;
    }
    refusal::PROFILE_CHANGED
}

// What is refused of a cut response with so many whole descriptors, the last numbered last.
fn cut_rule(complete: bool, count: u32, last: Feature) -> Refusal
    ensures { result ≡ cut_rule complete count last.0 }
{
    if complete {
        return refusal::ACCEPTED;
    }
    if count == 0 {
        return refusal::NONE_WHOLE;
    }
    if last.0 == LAST_FEATURE.0 {
        return refusal::CUT_AT_LAST;
    }
    refusal::ACCEPTED
}

// Size bytes behind those collected need room.
fn space_rule(collected: usize, size: usize, room: usize) -> Refusal
    ensures { result ≡ space_rule collected size room }
{
    if room < collected {
        return refusal::COLLECTED_FULL;
    }
    if room - collected < size {
        return refusal::COLLECTED_FULL;
    }
    refusal::ACCEPTED
}

// How many bytes stand behind the header, up to end.
fn behind_header(end: usize) -> usize
    ensures { result ≡ end - header_length }
{
    if end < Header::LENGTH {
        return 0;
    }
    end - Header::LENGTH
}

// Whether a refusal ends the sweep: a cut response with no whole descriptor, and one with another profile.
fn ends_sweep(fault: Refusal) -> bool
    ensures { result ≡ ends_sweep fault }
{
    if fault.number == refusal::NONE_WHOLE.number {
        return true;
    }
    if fault.number == refusal::PROFILE_CHANGED.number {
        return true;
    }
    false
}

impl Sweep {
    // The most responses that a started sweep accepts.
    pub const MOST_COMMANDS: u32 = 65536;

    // What a record refuses whatever the response.
    fn closed_rule(self) -> Refusal
        ensures { result ≡ closed_rule self }
    {
        let fault = start_rule(self.rt, self.allocation);
        if fault.number != 0 {
            return fault;
        }
        if self.ended {
            return refusal::SWEEP_ENDED;
        }
        if self.commands >= Sweep::MOST_COMMANDS {
            return refusal::SWEEP_ENDED;
        }
        refusal::ACCEPTED
    }

    // What an open record refuses of a scan.
    fn scan_rule(self, scan: Scanned, received: usize, room: usize) -> Refusal
        ensures { result ≡ scan_rule self scan received room }
    {
        let reading = scan.reading;
        let last = scan.last;
        let fault = reading.refusal;
        if fault.number != 0 {
            return fault;
        }
        let fault = short_rule(reading.complete, received, text::most(self.allocation));
        if fault.number != 0 {
            return fault;
        }
        let fault = profile_rule(self.commands, self.profile, reading.profile);
        if fault.number != 0 {
            return fault;
        }
        let fault = cut_rule(reading.complete, reading.count, last);
        if fault.number != 0 {
            return fault;
        }
        space_rule(self.collected, behind_header(reading.end), room)
    }

    // A refusal. One that ends the sweep sets the mark and nothing else, any other leaves the record as it was.
    fn refused(self, fault: Refusal) -> Step
        ensures { result ≡ step fault (left_by fault self) }
    {
        let mut sweep = self;
        if ends_sweep(fault) {
            sweep.ended = true;
            return Step {
                refusal: fault,
                sweep: sweep,
            };
        }
        Step {
            refusal: fault,
            sweep: sweep,
        }
    }

    // The profile that the record holds with an accepted response: that of the first.
    fn held_profile(self, profile: Profile) -> Profile
        ensures { result ≡ held_profile self profile }
    {
        if self.commands == 0 {
            return profile;
        }
        self.profile
    }

    // The record that an accepted scan gives, with so many bytes collected.
    // Asks: fewer than 65,536 commands, and a cut response that does not end at FFFFh, which 26 and 27 have shown before.
    fn moved_on(self, scan: Scanned, collected: usize) -> Sweep
        requires { (self.commands < 65536) × (scan.reading.complete ≡ false → scan.last.0 ≡ 65535 → ⊥) }
        ensures { result ≡ advanced self scan.reading.profile (not scan.reading.complete) scan.last.0 collected }
    {
        let reading = scan.reading;
        let last = scan.last;
        let profile = self.held_profile(reading.profile);
        let mut sweep = self;
        sweep.profile = profile;
        sweep.commands += 1;
        sweep.collected = collected;
        sweep.ended = reading.complete;
        if reading.complete {
            return sweep;
        }
        let next = Feature(last.0 + 1);
        sweep.next = next;
        sweep
    }

    // Starts a sweep.
    pub fn start(rt: u8, allocation: u16) -> Step
        ensures { result ≡ started rt allocation }
    {
        let fault = start_rule(rt, allocation);
        if fault.number != 0 {
            return Step {
                refusal: fault,
                sweep: Sweep {
                    rt: 0,
                    allocation: 0,
                    next: Feature(0),
                    commands: 0,
                    collected: 0,
                    ended: true,
                    profile: Profile(0),
                },
            };
        }
        Step {
            refusal: fault,
            sweep: Sweep {
                rt: rt,
                allocation: allocation,
                next: Feature(0),
                commands: 0,
                collected: 0,
                ended: false,
                profile: Profile(0),
            },
        }
    }

    // Takes the response to the sweep's next command: its whole descriptors are added behind those collected.
    pub fn take(self, response: &[u8], out: &mut [u8]) -> Step
        ensures { turn result out.new ≡ stepped self response.now out.old }
    {
        let view = &response[..];
        let fault = self.closed_rule();
        if fault.number != 0 {
            return self.refused(fault);
        }
        let scan = reading::scan(text::most(self.allocation), self.rt, self.next, view);
        let fault = self.scan_rule(scan, view.len(), out.len());
        if fault.number != 0 {
            return self.refused(fault);
        }
        let reading = scan.reading;
        let whole = fields::part(view, Header::LENGTH, behind_header(reading.end));
        let collected = lent::copy(out, self.collected, whole);
        Step {
            refusal: fault,
            sweep: self.moved_on(scan, collected),
        }
    }
}

// The driver's entry with the record lent: the step on what it holds, and the record from then on put back.
pub fn take_response(record: &mut Sweep, response: &[u8], out: &mut [u8]) -> Refusal
    ensures { turn (step result «record».new) out.new ≡ stepped «record».old response.now out.old }
{
    let step = (*record).take(response, out);
    *record = step.sweep;
    step.refusal
}
