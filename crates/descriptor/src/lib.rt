// One descriptor of received bytes: whether it stands whole at a place, its fields, and where the next one stands.
#![tactic(auto)]

ghost use Rattle.std.specs.Prelude.{◌≡◌};
ghost use Rattle.descriptor.specs.Standing.{nothing_stands, stands_at};

use text::{Feature, Flags};

// What stands at a place: a whole descriptor, its fields, and the places of its body and of the next one; or none, and all else 0.
#[derive(Clone, Copy)]
pub struct Standing {
    pub whole: bool,
    pub number: Feature,
    pub flags: Flags,
    pub body: usize,
    pub len: u8,
    pub next: usize,
}

fn nothing_stands() -> Standing
    ensures { result ≡ nothing_stands }
{
    Standing {
        whole: false,
        number: Feature(0),
        flags: Flags(0),
        body: 0,
        len: 0,
        next: 0,
    }
}

// The descriptor at a place, if its four header bytes and its body were received.
pub fn stands(s: &[u8], at: usize) -> Standing
    ensures { result ≡ stands_at s.now at }
{
    if s.len() < 4 {
        return nothing_stands();
    }
    if s.len() - 4 < at {
        return nothing_stands();
    }
    let len = fields::inside(s, at + 3);
    let next = at + 4 + len as usize;
    if s.len() < next {
        return nothing_stands();
    }
    let number = Feature(fields::inside2(s, at));
    let flags = Flags(fields::inside(s, at + 2));
    Standing {
        whole: true,
        number: number,
        flags: flags,
        body: at + 4,
        len: len,
        next: next,
    }
}
