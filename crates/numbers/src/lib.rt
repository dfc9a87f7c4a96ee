// The document's numbers of traps, refusals and stops. Functions with the definitions' names, and no `From`: a trap has two numbers.
#![tactic(auto)]

ghost use Rattle.std.specs.Prelude.{◌≡◌};
ghost use Rattle.machine.specs.Questions.{refusal_number};
ghost use Rattle.machine.specs.Access.{trap_number, trap_fault};
ghost use Rattle.machine.specs.Stream.{stop_number};

use machine::{Refusal, Stop, Trap};

pub fn trap_number(trap: Trap) -> u64
    ensures { result ≡ trap_number trap }
{
    match trap {
        Trap::InstructionAccessException(_) => 0x08,
        Trap::DataAccessException(_) => 0x30,
        Trap::AddressNotAligned => 0x34,
        Trap::PrivilegedAction => 0x37,
        Trap::InstructionRealMiss => 0x3E,
        Trap::DataRealMiss => 0x3F,
        Trap::InstructionMiss => 0x64,
        Trap::DataMiss => 0x68,
        Trap::DataProtection => 0x6C,
    }
}

// The fault type, 0 where a trap has none.
pub fn trap_fault(trap: Trap) -> u64
    ensures { result ≡ trap_fault trap }
{
    match trap {
        Trap::InstructionAccessException(fault) => fault,
        Trap::DataAccessException(fault) => fault,
        Trap::AddressNotAligned => 0,
        Trap::PrivilegedAction => 0,
        Trap::InstructionRealMiss => 0,
        Trap::DataRealMiss => 0,
        Trap::InstructionMiss => 0,
        Trap::DataMiss => 0,
        Trap::DataProtection => 0,
    }
}

pub fn refusal_number(refusal: Refusal) -> u64
    ensures { result ≡ refusal_number refusal }
{
    match refusal {
        Refusal::Strand => 5,
        Refusal::Side => 6,
        Refusal::Selector => 7,
        Refusal::Operand => 8,
        Refusal::Register => 9,
        Refusal::Value => 10,
        Refusal::Address => 11,
        Refusal::Word => 12,
        Refusal::NoSlot => 13,
        Refusal::Table => 14,
        Refusal::NoLookup => 15,
        Refusal::Permission => 16,
    }
}

pub fn stop_number(stop: Stop) -> u8
    ensures { result ≡ stop_number stop }
{
    match stop {
        Stop::Unsound => 1,
        Stop::NoCommand => 2,
        Stop::Truncated => 3,
        Stop::NoRoom => 4,
    }
}
