// The settings of a single unit. Its two range codes stand at 1Ah and 1Bh, alone in their bytes. Like a store, they have no model.
ghost use Rattle.registers.specs.Settings.{settings_in};
ghost use Rattle.single.specs.Registers.{LoneCodes};

use registers::store::Store;

pub mod bytes;

#[derive(Drop)]
pub struct Settings {
    store: Store<2, 0x1a>,
    ghost lone: { LoneCodes (settings_in store) },
}
