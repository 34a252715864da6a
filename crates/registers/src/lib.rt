// What a register is for, whatever unit has it, and what follows from that for a write.
#![tactic(auto)]

ghost use Rattle.std.specs.Prelude.{◌≡◌, Some};
ghost use Rattle.registers.specs.Roles.{answer_to, is_setting, named_bits};

use control::Range;
use fault::{Cause, Fault};

pub mod store;

#[derive(Clone, Copy, PartialEq, Eq, Debug)]
pub enum Role {
    // a setting, with the mask of its named bits
    Setting(u8),
    // a setting with a range code in its low nibble, likewise
    Code(u8),
    // marks of sources: it takes writes, and has no setting
    Status,
    // a last reading, read only
    Reading,
}

impl Role {
    // The named bits of a byte that is written.
    pub fn named(self, byte: u8) -> u8
        ensures { result ≡ named_bits (Some self) byte }
    {
        match self {
            Role::Setting(mask) | Role::Code(mask) => byte & mask,
            Role::Status | Role::Reading => 0,
        }
    }
}

pub fn is_setting(register: Option<Role>) -> bool
    ensures { result ≡ is_setting register }
{
    matches!(register, Some(Role::Setting(_) | Role::Code(_)))
}

// What a write of the byte answers, at a register with this role or at none.
pub fn check_write(register: Option<Role>, byte: u8) -> Result<(), Fault>
    ensures { result ≡ answer_to register byte }
{
    match register.ok_or(Cause::NoRegister.unplaced())? {
        Role::Reading => Err(Cause::ReadOnly.unplaced()),
        Role::Code(_) => Range::try_from(byte % 16).map(|_| ()),
        Role::Setting(_) | Role::Status => Ok(()),
    }
}
