// The flags of the Config bank that a call names.
ghost use Rattle.std.specs.Prelude.{◌≡◌, length, IfOk};
ghost use Rattle.machine.specs.Answers.{accepted, told};
ghost use Rattle.machine.specs.Sizes.{dest_count, mark_count};
ghost use Rattle.word_rules.specs.CellWords.{flags_in};
ghost use Rattle.bench_dest.specs.DestRows.{bank_check};

use dest::flags::{FLAG_WORD, Flags, flags_of};
use machine::refusal::Refusal;
use machine::sizes::{BANK_WORDS, CONFIG_BANKS, CONFIG_WORDS, DEST_CELLS, DEST_ROWS};

// The flags that set the maps, or why the call is refused. `cells` and `marks` are how many of them are lent.
#[tactic(auto, unfolding(crate::specs::DestRows::bank_check))]
pub(crate) fn find_flags(
    config: &[u32],
    cells: usize,
    marks: usize,
    bank: u32,
) -> Result<Flags, Refusal>
    ensures within { IfOk result (λ _. (cells ≡ dest_count) × (marks ≡ mark_count)) }
    ensures answer { told result ≡ bank_check (length config.now) cells marks bank (accepted (flags_in bank config.now)) }
{
    if config.len() != CONFIG_WORDS || cells != DEST_CELLS || marks != DEST_ROWS {
        return Err(Refusal::BadLength);
    }
    if bank as usize >= CONFIG_BANKS {
        return Err(Refusal::BadPlace);
    }
    Ok(flags_of(config[bank as usize * BANK_WORDS + FLAG_WORD]))
}
