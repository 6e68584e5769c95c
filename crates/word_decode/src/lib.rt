// From a word to its instruction, by the opcode (document 01, "Words of the base"). The rows of the table stand in its order; what one
// part of it has not goes on to the next.
#![tactic(auto)]

ghost use Rattle.std.specs.Prelude.{◌≡◌, ◌++◌};
ghost use Rattle.machine.specs.Answers.{accepted, told};
ghost use Rattle.word_rules.specs.ConfigWords.{rmw_cib_of};
ghost use Rattle.word_rules.specs.Table.{cell_rows, bank_rows, scalar_rows, sync_rows, config_rows, said, decode_of};

use bits::word::field;
use machine::refusal::Refusal;
use word_cell::fields as cell;
use word_config::fields as config;
use word_control::fields as control;
use word_rules::instruction::{BankWord, CellWord, ConfigWord, Instruction, ScalarWord, SyncWord};
use word_scalar::fields as scalar;

// RMWCIB0 to RMWCIB3: the opcode says which byte.
fn decode_rmw_cib(word: u32, byte: u8) -> Instruction
    ensures { accepted result ≡ rmw_cib_of byte word }
{
    Instruction::Config(ConfigWord::RmwCib {
        byte,
        mask: config::byte_mask(word),
        value: config::new_bits(word),
        index: config::byte_index(word),
    })
}

// B7; any other opcode is 2.
#[tactic(auto, unfolding(word_rules::specs::Table::said))]
fn decode_config(op: u32, word: u32) -> Result<Instruction, Refusal>
    ensures { told result ≡ said config_rows op word }
{
    match op {
        0xB0 => {
            if !config::index_fine(word) {
                return Err(Refusal::BadField);
            }
            Ok(Instruction::Config(ConfigWord::WrCfg {
                gpr: config::source(word),
                wide: config::copies_four(word),
                index: config::index(word),
            }))
        }
        0xB1 => {
            if !config::target_and_index_fine(word) {
                return Err(Refusal::BadField);
            }
            Ok(Instruction::Config(ConfigWord::RdCfg {
                gpr: config::target(word),
                index: config::index(word),
            }))
        }
        0xB2 => Ok(Instruction::Config(ConfigWord::SetC16 {
            entry: config::entry(word),
            value: config::entry_value(word),
        })),
        0xB3..=0xB6 => Ok(decode_rmw_cib(word, (op - 0xB3) as u8)),
        _ => Err(Refusal::BadWord),
    }
}

// B1.
#[tactic(auto, unfolding(word_rules::specs::Table::said))]
fn decode_sync(op: u32, word: u32) -> Result<Instruction, Refusal>
    ensures { told result ≡ said (sync_rows ++ config_rows) op word }
{
    let mutex = control::mutex(word);
    let mask = control::mask(word);
    let block = control::block(word);
    match op {
        0xA0 | 0xA1 if !control::mutex_fine(word) => Err(Refusal::BadField),
        0xA0 => Ok(Instruction::Sync(SyncWord::AtGetM { mutex })),
        0xA1 => Ok(Instruction::Sync(SyncWord::AtRelM { mutex })),
        0xA2 => Ok(Instruction::Sync(SyncWord::StallWait {
            block,
            conditions: control::conditions(word),
        })),
        0xA3 => Ok(Instruction::Sync(SyncWord::SemInit {
            maximum: control::maximum(word),
            value: control::init_value(word),
            mask,
        })),
        0xA4 => Ok(Instruction::Sync(SyncWord::SemPost { mask })),
        0xA5 => Ok(Instruction::Sync(SyncWord::SemGet { mask })),
        0xA6 => Ok(Instruction::Sync(SyncWord::SemWait {
            block,
            mask,
            condition: control::condition(word),
        })),
        _ => decode_config(op, word),
    }
}

// B5.
#[tactic(auto, unfolding(word_rules::specs::Table::said))]
fn decode_scalar(op: u32, word: u32) -> Result<Instruction, Refusal>
    ensures { told result ≡ said (scalar_rows ++ (sync_rows ++ config_rows)) op word }
{
    let result = scalar::result(word);
    let a = scalar::operand_a(word);
    let b = scalar::operand_b(word);
    match op {
        0x45 if !scalar::is_plain(word) => Err(Refusal::BadWord),
        0x45 => Ok(Instruction::Scalar(ScalarWord::SetDmaReg {
            half: scalar::half(word),
            value: scalar::value(word),
        })),
        0x58 => Ok(Instruction::Scalar(ScalarWord::AddDmaReg { result, a, b })),
        0x5A => Ok(Instruction::Scalar(ScalarWord::MulDmaReg { result, a, b })),
        0x60 => Ok(Instruction::Scalar(ScalarWord::DmaNop)),
        _ => decode_sync(op, word),
    }
}

// B6: bank owners and pointers.
#[tactic(auto, unfolding(word_rules::specs::Table::said))]
fn decode_bank(op: u32, word: u32) -> Result<Instruction, Refusal>
    ensures { told result ≡ said (bank_rows ++ (scalar_rows ++ (sync_rows ++ config_rows))) op word }
{
    match op {
        0x36 => Ok(Instruction::Bank(BankWord::ClearDValid {
            a: control::clears_a(word),
            b: control::clears_b(word),
            keep: control::keeps(word),
            reset: control::resets(word),
        })),
        0x57 => Ok(Instruction::Bank(BankWord::SetDValid {
            a: control::sets_a(word),
            b: control::sets_b(word),
        })),
        _ => decode_scalar(op, word),
    }
}

// B6: source cells and marks.
#[tactic(auto, unfolding(word_rules::specs::Table::said))]
fn decode_cell(op: u32, word: u32) -> Result<Instruction, Refusal>
    ensures { told result ≡ said (cell_rows ++ (bank_rows ++ (scalar_rows ++ (sync_rows ++ config_rows)))) op word }
{
    match op {
        0x16 => Ok(Instruction::Cell(CellWord::TrnspSrcB)),
        0x0B | 0x10 if !cell::no_addr_mod(word) => Err(Refusal::BadWord),
        0x0B => Ok(Instruction::Cell(CellWord::MovB2A {
            row_a: cell::row_a(word),
            four: cell::four(word),
            row_b: cell::row_b(word),
        })),
        0x10 if !cell::place_fine(word) => Err(Refusal::BadField),
        0x10 => Ok(Instruction::Cell(CellWord::ZeroAcc {
            mode: cell::mode(word),
            wide: cell::wide(word),
            place: cell::place(word),
        })),
        _ => decode_bank(op, word),
    }
}

// What any 32-bit word says: its instruction, or refusal 2 or 3.
#[tactic(auto, unfolding(word_rules::specs::Table::said, word_rules::specs::Table::decode_of))]
pub fn decode(word: u32) -> Result<Instruction, Refusal>
    ensures { told result ≡ decode_of word }
{
    match field::<24, 8>(word) {
        0x02 => Ok(Instruction::Nop),
        op => decode_cell(op, word),
    }
}
