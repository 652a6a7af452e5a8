// What a profile requires of a response to RT 0 from 0: one rule over one table.
#![tactic(auto)]

ghost use Rattle.std.specs.Prelude.{◌≡◌};
ghost use Rattle.needs.specs.Judge.{wrong_number, said, judged};
ghost use Rattle.needs.specs.Alone.{judged_of};
ghost use Rattle.needs.specs.inner.Refused.{column_fault};

mod one;
mod table;
mod walk;

use refusal::Refusal;
use text::{Feature, Profile};

// What is wrong with a feature that breaks a profile, the first of these: no descriptor has its number; the body is shorter than the profile asks; a bit that it
// asks for is not set; Current is not set, where it is asked for; the descriptor is longer than the profile lets any be.
#[derive(Clone, Copy)]
pub enum Wrong {
    Absent,
    TooShort,
    BitClear,
    NotCurrent,
    TooLong,
}

impl Wrong {
    // The number that tells it, from 1 on.
    pub fn number(self) -> u8
        ensures { result ≡ wrong_number self }
    {
        match self {
            Wrong::Absent => 1,
            Wrong::TooShort => 2,
            Wrong::BitClear => 3,
            Wrong::NotCurrent => 4,
            Wrong::TooLong => 5,
        }
    }
}

// Whether a response has what a profile requires: it does, or this feature is the lowest that breaks the profile, and what is wrong with it, or this is why it was
// not judged.
#[derive(Clone, Copy)]
pub enum Judgement {
    Conforms,
    Broken(Feature, Wrong),
    Refused(Refusal),
}

// What refuses a judgement: the reading's numbers and 29, then 40, where a profile has no column with a mark.
fn judge_fault(column: table::Column, s: &[u8]) -> Refusal
    ensures { result ≡ column_fault column s.now }
{
    let number = reading::complete_number(s);
    if number != 0 {
        return Refusal { number, place: 0 };
    }
    if column.1 == 0 {
        return refusal::NO_TABLE;
    }
    refusal::ACCEPTED
}

// Whether a response has what a profile requires.
pub fn check_profile(profile: Profile, s: &[u8]) -> Judgement
    ensures { said result ≡ judged profile.0 s.now }
{
    let column = table::column_of(profile);
    let fault = judge_fault(column, s);
    if fault.number != 0 {
        return Judgement::Refused(fault);
    }
    table::lowest_broken(column, s)
}

// Whether one feature of a response is as a profile requires, whatever the others are.
pub fn check_feature(profile: Profile, feature: Feature, s: &[u8]) -> Judgement
    ensures { said result ≡ judged_of profile.0 feature.0 s.now }
{
    let column = table::column_of(profile);
    let fault = judge_fault(column, s);
    if fault.number != 0 {
        return Judgement::Refused(fault);
    }
    table::judged_one(column, feature, s)
}
