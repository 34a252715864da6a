// The registers of a single unit, as one table. `rows` in specs/Registers.antt is the same table with the power-on bytes.
ghost use Rattle.std.specs.Prelude.{◌≡◌};
ghost use Rattle.single.specs.Registers.{role_at};

use registers::Role;

pub fn role_at(number: u8) -> Option<Role>
    ensures { result ≡ role_at number }
{
    match number {
        0x00 => Some(Role::Setting(0x10)),
        0x10 => Some(Role::Setting(0x0f)),
        0x18..=0x19 | 0x1c..=0x1e => Some(Role::Setting(0xff)),
        0x1a..=0x1b => Some(Role::Code(0x0f)),
        0x20..=0x22 => Some(Role::Reading),
        _ => None,
    }
}
