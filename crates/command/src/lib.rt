// GET CONFIGURATION as bytes, 10 of them, or 12 in an ATAPI packet: what is refused of it, what it asks for, and how a driver makes one.
#![tactic(auto)]

ghost use Rattle.std.specs.Prelude.{◌≡◌};
ghost use Rattle.lent.specs.Maker.{outcome};
ghost use Rattle.lent.specs.Wrote.{Wrote};
ghost use Rattle.command.specs.Command.{command_length, command_fault, command_of, packet, built};

use lent::Made;
use refusal::Refusal;
use text::Feature;

// What a host asks for.
#[derive(Clone, Copy)]
pub struct Command {
    pub rt: u8,
    pub sfn: Feature,
    pub allocation: u16,
}

impl Command {
    pub const OPCODE: u8 = 0x46;

    pub const LENGTH: usize = 10;
    // With the two pads that stand behind it in an ATAPI packet.
    pub const PACKET: usize = 12;

    // Whether a command may have so many bytes.
    fn admits(length: usize) -> bool
        ensures { result ≡ command_length length }
    {
        if length == Command::LENGTH {
            return true;
        }
        length == Command::PACKET
    }

    // The first refusal of a command's bytes.
    pub fn fault(bytes: &[u8]) -> Refusal
        ensures { result ≡ command_fault bytes.now }
    {
        if !Command::admits(bytes.len()) {
            return refusal::COMMAND_LENGTH;
        }
        if fields::byte(bytes, 0) != Command::OPCODE {
            return refusal::OPCODE_OTHER;
        }
        if fields::byte(bytes, 1) % 4 == 3 {
            return refusal::RT_RESERVED;
        }
        refusal::ACCEPTED
    }

    // The command that its bytes spell. All other bits are reserved or control, or pads, and are ignored.
    pub fn read(bytes: &[u8]) -> Command
        ensures { result ≡ command_of bytes.now }
    {
        Command {
            rt: fields::byte(bytes, 1) % 4,
            sfn: Feature(fields::get2(bytes, 2)),
            allocation: fields::get2(bytes, 7),
        }
    }

    // Writes the packet that asks for these, every other bit 0, word by word, as far as the buffer has room. A command of ten bytes is its front.
    fn put_packet(out: &mut [u8], rt: u8, sfn: Feature, allocation: u16) -> usize
        ensures { Wrote out.old 0 (packet rt sfn.0 allocation) result out.new }
    {
        let start = sfn.0;
        let first = Command::OPCODE as u32 * 16777216 + rt as u32 * 65536 + start as u32;
        let second = (allocation / 256) as u32;
        let third = (allocation % 256) as u32 * 16777216;
        let a = lent::put4(out, 0, first);
        let b = lent::put4(out, a, second);
        lent::put4(out, b, third)
    }

    // Writes the command of so many bytes that asks for these to the front of a lent buffer.
    pub fn build(length: usize, rt: u8, sfn: Feature, allocation: u16, out: &mut [u8]) -> Made
        ensures { outcome result out.new ≡ built length rt sfn.0 allocation out.old }
    {
        if !Command::admits(length) {
            return Made::refused(refusal::COMMAND_LENGTH);
        }
        if rt > 2 {
            return Made::refused(refusal::RT_RESERVED);
        }
        if out.len() < length {
            return Made::refused(refusal::BUFFER_SHORT);
        }
        let count = Command::put_packet(&mut out[..length], rt, sfn, allocation);
        Made::written(count)
    }
}
