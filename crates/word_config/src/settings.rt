// The thread settings: ThreadConfig.
ghost use Rattle.std.specs.Prelude.{◌≡◌};
ghost use Rattle.word_rules.specs.ConfigWords.{bank_of};

use bits::word::field;
use machine::places::setting_place;
use machine::sizes::SETTINGS;
use machine::units::ThreadNumber;

// A thread's Config bank.
pub fn bank_of(settings: &[u16; SETTINGS], t: ThreadNumber) -> usize
    ensures { result ≡ bank_of settings.now t }
{
    field::<0, 1>(settings[setting_place(t, 0)] as u32) as usize
}
