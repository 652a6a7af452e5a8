// The words of the T10 text that the code of every layer above shares.
#![tactic(auto)]

ghost use Rattle.std.specs.Prelude.{◌≡◌, not, eqb};
ghost use Rattle.refusal.specs.First.{accept, ◌if◌else◌};
ghost use Rattle.text.specs.Flags.{reserved, version, persistent, current, alone, odd, flags_giving};
ghost use Rattle.text.specs.Response.{header_of, most};

use refusal::Refusal;

// A feature number. C takes it as a struct of one number (include/gcf.h).
#[repr(C)]
#[derive(Clone, Copy)]
pub struct Feature(pub u16);

// A profile number. No function takes one for the other.
#[repr(C)]
#[derive(Clone, Copy)]
pub struct Profile(pub u16);

// The flags byte of a descriptor.
#[derive(Clone, Copy)]
pub struct Flags(pub u8);

impl Flags {
    // Bits 7-6, as a number.
    pub fn reserved(self) -> u8
        ensures { result ≡ reserved self.0 }
    {
        self.0 / 64
    }

    // Bits 5-2, as a number.
    pub fn version(self) -> u8
        ensures { result ≡ version self.0 }
    {
        self.0 / 4 % 16
    }

    pub fn persistent(self) -> bool
        ensures { result ≡ eqb (persistent self.0) 1 }
    {
        self.0 / 2 % 2 == 1
    }

    pub fn current(self) -> bool
        ensures { result ≡ eqb (current self.0) 1 }
    {
        self.0 % 2 == 1
    }

    // Persistent without Current.
    fn alone(self) -> bool
        ensures { result ≡ alone self.0 }
    {
        if !self.persistent() {
            return false;
        }
        !self.current()
    }

    // Reserved bits that are not 0, or Persistent without Current: flags that a rule refuses.
    pub fn odd(self) -> bool
        ensures { result ≡ odd self.0 }
    {
        if self.reserved() != 0 {
            return true;
        }
        self.alone()
    }

    fn reserved_fault(self, given: Refusal) -> Refusal
        ensures { result ≡ (given if not (eqb (reserved self.0) 0) else accept) }
    {
        if self.reserved() != 0 {
            return given;
        }
        refusal::ACCEPTED
    }

    fn alone_fault(self, given: Refusal) -> Refusal
        ensures { result ≡ (given if alone self.0 else accept) }
    {
        if self.alone() {
            return given;
        }
        refusal::ACCEPTED
    }

    // The first refusal of the flags. The Version may be any.
    pub fn fault(self, bits: Refusal, lone: Refusal) -> Refusal
        ensures { result ≡ flags_giving bits lone self.0 }
    {
        let fault = self.reserved_fault(bits);
        if fault.number != 0 {
            return fault;
        }
        self.alone_fault(lone)
    }
}

// What a driver reads off a response: all 0 but the refusal where it is refused.
#[derive(Clone, Copy)]
pub struct Reading {
    pub refusal: Refusal,
    pub profile: Profile,
    pub data_length: u32,
    pub count: u32,
    pub end: usize,
    pub complete: bool,
}

// The header of a response.
#[derive(Clone, Copy)]
pub struct Header {
    pub data_length: u32,
    pub profile: Profile,
}

impl Header {
    pub const LENGTH: usize = 8;
    // The most bytes that are sent, whatever the allocation length.
    pub const RETURN_LIMIT: usize = 65534;

    pub fn new(data_length: u32, profile: Profile) -> Header
        ensures { result ≡ header_of data_length profile.0 }
    {
        Header {
            data_length: data_length,
            profile: profile,
        }
    }
}

// C: the most bytes that a response to an allocation length has.
pub fn most(allocation: u16) -> usize
    ensures { result ≡ most allocation }
{
    if (allocation as usize) < Header::RETURN_LIMIT {
        return allocation as usize;
    }
    Header::RETURN_LIMIT
}
