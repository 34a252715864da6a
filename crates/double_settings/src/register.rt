// The registers of a double unit, as one table. `rows` in specs/Registers.antt is the same table with the power-on bytes.
ghost use Rattle.std.specs.Prelude.{◌≡◌};
ghost use Rattle.double_settings.specs.Registers.{role_at};

use registers::Role;

pub fn role_at(number: u8) -> Option<Role>
    ensures { result ≡ role_at number }
{
    match number {
        0x01 => Some(Role::Setting(0xf2)),
        0x10..=0x11 => Some(Role::Status),
        0x18..=0x19 => Some(Role::Setting(0xff)),
        0x20..=0x21 => Some(Role::Setting(0x0f)),
        0x40..=0x42 => Some(Role::Setting(0x07)),
        0x48..=0x4a => Some(Role::Setting(0x03)),
        0x60..=0x61 | 0x68..=0x69 => Some(Role::Setting(0xff)),
        0x70..=0x71 => Some(Role::Reading),
        0x78..=0x79 | 0x80..=0x82 => Some(Role::Setting(0xff)),
        0x88..=0x8a => Some(Role::Code(0xff)),
        0x90..=0x92 => Some(Role::Setting(0xff)),
        0xa0..=0xa2 => Some(Role::Reading),
        0xf0 => Some(Role::Setting(0x03)),
        _ => None,
    }
}
