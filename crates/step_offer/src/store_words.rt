// The words that leave the control part alone, on the stores: each is refused, stalled or done. The opcode is looked for unit by
// unit, and what one unit has not goes on to the next: all in one match take more instructions a turn (docs/COSTS.md).
ghost use Rattle.std.specs.Prelude.{◌≡◌, ◌<◌, ◌++◌, List, ℕ};
ghost use Rattle.machine.specs.Lent.{SameLoans};
ghost use Rattle.machine.specs.Outcomes.{told_outcome};
ghost use Rattle.machine.specs.Sizes.{source_banks};
ghost use Rattle.word_rules.specs.Table.{config_rows, cell_rows, store_rows};

use machine::lent::SizedStores;
use machine::refusal::{Outcome, Refusal};
use machine::units::ThreadNumber;
use word_cell::{mov_b2a, trnsp_src_b, zero_acc};
use word_config::{rd_cfg, rmw_cib, set_c16, wr_cfg};
use word_scalar::{arithmetic, dma_nop, set_dma_reg};

// A word that thread `t` offers, with its opcode: the block bits that the thread's wait stalls now, whether Matrix owns SrcB's bank at the
// matrix pointer, and the banks at the matrix pointers.
#[derive(Clone, Copy)]
pub(crate) struct StoreWord {
    pub(crate) t: ThreadNumber,
    pub(crate) op: u32,
    pub(crate) word: u32,
    pub(crate) blocks: u16,
    pub(crate) owned: bool,
    pub(crate) bank_a: usize,
    pub(crate) bank_b: usize,
    pub(crate) ghost banks: { (bank_a < source_banks) × (bank_b < source_banks) },
}

impl StoreWord {
    ghost use Rattle.step_offer.specs.StoreWords.{left_in, offered_in};

    // TRNSPSRCB, MOVB2A and ZEROACC.
    #[tactic(auto, unfolding(word_rules::specs::Table::said, word_rules::specs::Offered::store_offer))]
    fn cell_word(self, s: &mut SizedStores<'_>) -> Outcome
        ensures same { SameLoans s.new s.old }
        ensures answer { (dest : List ℕ) → left_in (told_outcome result) s.new dest ≡ offered_in self cell_rows s.old dest }
    {
        let StoreWord {
            t,
            op,
            word,
            blocks,
            owned,
            bank_a,
            bank_b,
        } = self;
        match op {
            0x16 => trnsp_src_b(s.src_b, bank_b, owned, word, blocks),
            0x0B => mov_b2a(s.src_a, s.src_b, bank_a, bank_b, owned, word, blocks),
            0x10 => zero_acc(s.settings, s.config, s.marks, t, word, blocks),
            _ => Outcome::Refused(Refusal::BadWord),
        }
    }

    // The words of the config unit, or else those above.
    #[tactic(auto, unfolding(word_rules::specs::Table::said))]
    fn config_word(self, s: &mut SizedStores<'_>) -> Outcome
        ensures same { SameLoans s.new s.old }
        ensures answer { (dest : List ℕ) → left_in (told_outcome result) s.new dest ≡ offered_in self (config_rows ++ cell_rows) s.old dest }
    {
        let StoreWord {
            t,
            word,
            blocks,
            ..
        } = self;
        match self.op {
            0xB0 => wr_cfg(s.settings, s.gprs, s.config, t, word, blocks),
            0xB1 => rd_cfg(s.settings, s.gprs, s.config, t, word, blocks),
            0xB2 => set_c16(s.settings, t, word, blocks),
            0xB3 => rmw_cib(s.settings, s.config, t, word, 0, blocks),
            0xB4 => rmw_cib(s.settings, s.config, t, word, 1, blocks),
            0xB5 => rmw_cib(s.settings, s.config, t, word, 2, blocks),
            0xB6 => rmw_cib(s.settings, s.config, t, word, 3, blocks),
            _ => self.cell_word(s),
        }
    }

    // NOP and the words of the scalar unit, or else those above.
    #[tactic(auto, unfolding(word_rules::specs::Table::said, word_rules::specs::Offered::store_offer))]
    pub(crate) fn store_word(self, s: &mut SizedStores<'_>) -> Outcome
        ensures same { SameLoans s.new s.old }
        ensures answer { (dest : List ℕ) → left_in (told_outcome result) s.new dest ≡ offered_in self store_rows s.old dest }
    {
        let StoreWord {
            t,
            word,
            blocks,
            ..
        } = self;
        match self.op {
            0x02 => Outcome::Passed,
            0x45 => set_dma_reg(s.gprs, t, word, blocks),
            0x58 => arithmetic(s.gprs, t, word, blocks, false),
            0x5A => arithmetic(s.gprs, t, word, blocks, true),
            0x60 => dma_nop(s.gprs, t.index(), word, blocks),
            _ => self.config_word(s),
        }
    }
}
