// The driver's check of the descriptors of a response to RT 0 from 0.
#![tactic(auto)]

ghost use Rattle.std.specs.Prelude.{◌≡◌};
ghost use Rattle.text.specs.Reading.{desc_at};
ghost use Rattle.reading.specs.Places.{descs};
ghost use Rattle.reading.specs.Completed.{complete_fault};
ghost use Rattle.checks.specs.Rules.{desc_fault};
ghost use Rattle.checks.specs.Check.{first_finding, checked_all, checked};

mod rules;

use refusal::Refusal;
use text::{Feature, Header};

// What a check finds: the number, 0 where there is no fault, and the feature at fault.
#[derive(Clone, Copy)]
pub struct Finding {
    pub refusal: Refusal,
    pub feature: Feature,
}

// The first fault of the descriptor at a place, whatever the others have; removable says whether feature 0003h is reported.
pub fn fault_at(removable: bool, s: &[u8], at: usize) -> Refusal
    ensures { result ≡ desc_fault removable (desc_at s.now at) }
{
    let f = reading::number_at(s, at);
    let flags = reading::flags_at(s, at);
    rules::desc_fault(removable, f, flags, reading::body_at(s, at))
}

// The first descriptor of a complete response that has a fault.
// Asks: a response that is accepted and complete, which the reading's numbers and 29 have shown before.
fn first_fault(removable: bool, s: &[u8]) -> Finding
    requires { (complete_fault s.now).number ≡ 0 }
    ensures { result ≡ first_finding removable (descs s.now) }
{
    let mut at = Header::LENGTH;
    while at + 4 <= s.len() {
        let broken = fault_at(removable, s, at);
        if broken.number != 0 {
            return Finding {
                refusal: broken,
                feature: reading::number_in(s, at),
            };
        }
        at = reading::next_at(s, at);
    }
    Finding {
        refusal: refusal::ACCEPTED,
        feature: Feature(0),
    }
}

// The check of the descriptors of a complete response.
// Asks: a response that is accepted and complete, which the reading's numbers and 29 have shown before.
fn check_all(s: &[u8]) -> Finding
    requires { (complete_fault s.now).number ≡ 0 }
    ensures { result ≡ checked_all (descs s.now) }
{
    if !reading::reports(Feature(0), s) {
        return Finding {
            refusal: refusal::CORE_MISSING,
            feature: Feature(0),
        };
    }
    if !reading::reports(Feature(1), s) {
        return Finding {
            refusal: refusal::CORE_MISSING,
            feature: Feature(1),
        };
    }
    first_fault(reading::reports(Feature(3), s), s)
}

// The check of the descriptors of a response: the first number, and the feature at fault.
pub fn check_descriptors(s: &[u8]) -> Finding
    ensures { result ≡ checked s.now }
{
    let number = reading::complete_number(s);
    if number != 0 {
        return Finding {
            refusal: Refusal { number, place: 0 },
            feature: Feature(0),
        };
    }
    check_all(s)
}
