// Why something is refused: the number and the place, and a name for each of the numbers. Definitions use the numbers, code uses the names.
#![tactic(auto)]

ghost use Rattle.std.specs.Prelude.{◌≡◌};
ghost use Rattle.refusal.specs.First.{placed};

// Why something was refused: the paper's number, 0 where nothing was, and the place of the profile or entry at fault, counted from 1, 0 where the
// number has none.
#[repr(C)]
#[derive(Clone, Copy)]
pub struct Refusal {
    pub number: u8,
    pub place: u16,
}

impl Refusal {
    // The same at a place; what refuses nothing has none.
    pub fn placed(self, place: u16) -> Refusal
        ensures { result ≡ placed self place }
    {
        if self.number == 0 {
            return ACCEPTED;
        }
        Refusal {
            number: self.number,
            place: place,
        }
    }
}

pub const ACCEPTED: Refusal = Refusal {
    number: 0,
    place: 0,
};

// The sheet's refusals.
pub const SHEET_SHORT: Refusal = Refusal {
    number: 1,
    place: 0,
};

pub const PROFILES_MANY: Refusal = Refusal {
    number: 2,
    place: 0,
};

pub const PROFILE_BAD: Refusal = Refusal {
    number: 3,
    place: 0,
};

pub const ORDER_BAD: Refusal = Refusal {
    number: 4,
    place: 0,
};

pub const FLAGS_BAD: Refusal = Refusal {
    number: 5,
    place: 0,
};

pub const LENGTH_BAD: Refusal = Refusal {
    number: 6,
    place: 0,
};

pub const OFFSET_BAD: Refusal = Refusal {
    number: 7,
    place: 0,
};

pub const SHEET_LONG: Refusal = Refusal {
    number: 8,
    place: 0,
};

// The command's refusals.
pub const COMMAND_LENGTH: Refusal = Refusal {
    number: 9,
    place: 0,
};

pub const OPCODE_OTHER: Refusal = Refusal {
    number: 10,
    place: 0,
};

pub const RT_RESERVED: Refusal = Refusal {
    number: 11,
    place: 0,
};

pub const BUFFER_SHORT: Refusal = Refusal {
    number: 12,
    place: 0,
};

// A reading's refusals.
pub const READING_RT_BAD: Refusal = Refusal {
    number: 13,
    place: 0,
};

pub const RECEIVED_BAD: Refusal = Refusal {
    number: 14,
    place: 0,
};

pub const STATED_BAD: Refusal = Refusal {
    number: 15,
    place: 0,
};

pub const RECEIVED_MORE: Refusal = Refusal {
    number: 16,
    place: 0,
};

pub const ADDITIONAL_BAD: Refusal = Refusal {
    number: 17,
    place: 0,
};

pub const FEATURE_BAD: Refusal = Refusal {
    number: 18,
    place: 0,
};

pub const NOT_CURRENT: Refusal = Refusal {
    number: 19,
    place: 0,
};

pub const ENDS_BEYOND: Refusal = Refusal {
    number: 20,
    place: 0,
};

// A sweep's refusals.
pub const SWEEP_RT_BAD: Refusal = Refusal {
    number: 21,
    place: 0,
};

pub const ALLOCATION_SHORT: Refusal = Refusal {
    number: 22,
    place: 0,
};

pub const NONE_WHOLE: Refusal = Refusal {
    number: 23,
    place: 0,
};

pub const COLLECTED_FULL: Refusal = Refusal {
    number: 24,
    place: 0,
};

pub const STARTS_FULL: Refusal = Refusal {
    number: 25,
    place: 0,
};

pub const SWEEP_ENDED: Refusal = Refusal {
    number: 26,
    place: 0,
};

pub const CUT_AT_LAST: Refusal = Refusal {
    number: 27,
    place: 0,
};

pub const CUT_SHORT: Refusal = Refusal {
    number: 28,
    place: 0,
};

// The checks' refusals and findings.
pub const RESPONSE_CUT: Refusal = Refusal {
    number: 29,
    place: 0,
};

pub const CORE_MISSING: Refusal = Refusal {
    number: 30,
    place: 0,
};

pub const BODY_LENGTH_BAD: Refusal = Refusal {
    number: 31,
    place: 0,
};

pub const FLAGS_NOT_BOTH: Refusal = Refusal {
    number: 32,
    place: 0,
};

pub const FLAGS_RESERVED: Refusal = Refusal {
    number: 33,
    place: 0,
};

pub const PERSISTENT_ALONE: Refusal = Refusal {
    number: 34,
    place: 0,
};

pub const PERSISTENT_BARRED: Refusal = Refusal {
    number: 35,
    place: 0,
};

pub const BITS_RESERVED: Refusal = Refusal {
    number: 36,
    place: 0,
};

pub const CUE_LENGTH: Refusal = Refusal {
    number: 37,
    place: 0,
};

pub const PROFILE_ZERO: Refusal = Refusal {
    number: 39,
    place: 0,
};

pub const NO_TABLE: Refusal = Refusal {
    number: 40,
    place: 0,
};

// The import's refusals.
pub const NOT_OWN: Refusal = Refusal {
    number: 41,
    place: 0,
};

pub const SHEET_BUFFER_SHORT: Refusal = Refusal {
    number: 42,
    place: 0,
};

// The sheet's refusal of flags beside FLAGS_BAD; 43, a Version, is withdrawn.
pub const PERSISTENT_UNCURRENT: Refusal = Refusal {
    number: 44,
    place: 0,
};

// The sweep's refusal of another Current Profile.
pub const PROFILE_CHANGED: Refusal = Refusal {
    number: 45,
    place: 0,
};

// The refusals of reading sense bytes, and of making them.
pub const SENSE_LENGTH: Refusal = Refusal {
    number: 46,
    place: 0,
};

pub const SENSE_CODE: Refusal = Refusal {
    number: 47,
    place: 0,
};

pub const SENSE_OTHER: Refusal = Refusal {
    number: 48,
    place: 0,
};

// The mender's refusals.
pub const COPY_SHORT: Refusal = Refusal {
    number: 49,
    place: 0,
};

pub const CHANGES_SHORT: Refusal = Refusal {
    number: 50,
    place: 0,
};

// The refusals of loading a medium.
pub const LIST_ORDER: Refusal = Refusal {
    number: 51,
    place: 0,
};

pub const SHEET_LACKS: Refusal = Refusal {
    number: 52,
    place: 0,
};

pub const LOADED_SHORT: Refusal = Refusal {
    number: 53,
    place: 0,
};

pub const NOT_GIVEN: Refusal = Refusal {
    number: 54,
    place: 0,
};

pub const SENSE_BUFFER_SHORT: Refusal = Refusal {
    number: 55,
    place: 0,
};
