// The words of the config unit, offered: each is refused, stalled by its thread's wait, or moves words between GPRs, Config
// and the thread settings.
#![tactic(auto)]

pub mod fields;
mod merge;
pub mod settings;

ghost use Rattle.std.specs.Prelude.{ℕ, ◌≡◌, ◌<◌, cond, List, set, get_or};
ghost use Rattle.bits.specs.Field.{down_to_four};
ghost use Rattle.bits.specs.Copies.{copied};
ghost use Rattle.machine.specs.Sizes.{config_count, gpr_count};
ghost use Rattle.machine.specs.Outcomes.{told_outcome};
ghost use Rattle.word_rules.specs.ConfigWords.{wr_cfg_of, rd_cfg_of, set_c16_of, rmw_cib_of};
ghost use Rattle.word_rules.specs.Offered.{ConfigOffered};

use crate::fields::{
    byte_index, byte_mask, copies_four, entry, entry_value, index, index_fine, new_bits, source,
    target, target_and_index_fine,
};
use crate::merge::with_merged;
use crate::settings::bank_of;
use bits::copy::copy_words;
use machine::places::{config_place, setting_place};
use machine::refusal::Outcome;
use machine::sizes::{CONFIG_WORDS, GPRS, SETTINGS};
use machine::units::{ThreadNumber, gpr_place};
use word_rules::verdict::held_up;

// WRCFG's move: the Config word at place `to` takes the GPR at place `from`, or four take four, from both rounded down to a multiple of 4.
// Internal: the places are in range.
fn write_config(
    gprs: &[u32; GPRS],
    config: &mut [u32; CONFIG_WORDS],
    from: usize,
    to: usize,
    four: bool,
)
    requires { (from < gpr_count) × (to < config_count) }
    ensures { config.new ≡ cond four (copied 4 (down_to_four from) (down_to_four to) gprs.now config.old) (set config.old to (get_or gprs.now from 0)) }
{
    if four {
        copy_words(gprs, config, from / 4 * 4, to / 4 * 4, 4);
    } else {
        config[to] = gprs[from];
    }
}

// WRCFG, where the wait of the thread stalls these block bits now.
pub fn wr_cfg(
    settings: &[u16; SETTINGS],
    gprs: &[u32; GPRS],
    config: &mut [u32; CONFIG_WORDS],
    t: ThreadNumber,
    word: u32,
    blocks: u16,
) -> Outcome
    ensures { ConfigOffered blocks t (wr_cfg_of word) settings.now gprs.now config.old (told_outcome result) settings.now gprs.now config.new }
{
    if let Some(outcome) = held_up::<7>(true, index_fine(word), blocks) {
        return outcome;
    }
    let from = gpr_place(t, source(word));
    let to = config_place(bank_of(settings, t), index(word) as usize);
    write_config(gprs, config, from, to, copies_four(word));
    Outcome::Passed
}

// RDCFG.
pub fn rd_cfg(
    settings: &[u16; SETTINGS],
    gprs: &mut [u32; GPRS],
    config: &[u32; CONFIG_WORDS],
    t: ThreadNumber,
    word: u32,
    blocks: u16,
) -> Outcome
    ensures { ConfigOffered blocks t (rd_cfg_of word) settings.now gprs.old config.now (told_outcome result) settings.now gprs.new config.now }
{
    if let Some(outcome) = held_up::<7>(true, target_and_index_fine(word), blocks) {
        return outcome;
    }
    let from = config_place(bank_of(settings, t), index(word) as usize);
    gprs[gpr_place(t, target(word))] = config[from];
    Outcome::Passed
}

// SETC16.
pub fn set_c16(settings: &mut [u16; SETTINGS], t: ThreadNumber, word: u32, blocks: u16) -> Outcome
    ensures { (gprs config : List ℕ) → ConfigOffered blocks t (set_c16_of word) settings.old gprs config (told_outcome result) settings.new gprs config }
{
    if let Some(outcome) = held_up::<7>(true, true, blocks) {
        return outcome;
    }
    settings[setting_place(t, entry(word) as usize)] = entry_value(word);
    Outcome::Passed
}

// RMWCIB0 to RMWCIB3. Internal: the byte is one of a word.
pub fn rmw_cib(
    settings: &[u16; SETTINGS],
    config: &mut [u32; CONFIG_WORDS],
    t: ThreadNumber,
    word: u32,
    byte: u8,
    blocks: u16,
) -> Outcome
    requires { byte < 4 }
    ensures { (gprs : List ℕ) → ConfigOffered blocks t (rmw_cib_of byte word) settings.now gprs config.old (told_outcome result) settings.now gprs config.new }
{
    if let Some(outcome) = held_up::<7>(true, true, blocks) {
        return outcome;
    }
    let place = config_place(bank_of(settings, t), byte_index(word) as usize);
    config[place] = with_merged(byte, byte_mask(word), new_bits(word), config[place]);
    Outcome::Passed
}
