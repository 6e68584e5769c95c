// What is printed of an instruction: its published name, then its fields; of a flag 0 or 1.
use std::fmt::{Display, Formatter, Result, Write};
use word_rules::instruction::{
    BankWord, CellWord, ConfigWord, Instruction, Operand, ScalarWord, SyncWord,
};

// An instruction or a part of one, as it is printed here.
#[derive(Drop)]
pub(crate) struct Named<T>(pub T);

impl Display for Named<Operand> {
    fn fmt<W: Write>(&self, f: &mut Formatter<W>) -> Result {
        match self.0 {
            Operand::Constant(n) => write!(f, "constant {n}"),
            Operand::Register(g) => write!(f, "register {}", g.0),
        }
    }
}

impl Display for Named<ScalarWord> {
    fn fmt<W: Write>(&self, f: &mut Formatter<W>) -> Result {
        match self.0 {
            ScalarWord::SetDmaReg { half, value } => write!(f, "SETDMAREG {value} {}", half.0),
            ScalarWord::AddDmaReg { result, a, b } => {
                write!(f, "ADDDMAREG {} {} {}", result.0, Named(b), a.0)
            }
            ScalarWord::MulDmaReg { result, a, b } => {
                write!(f, "MULDMAREG {} {} {}", result.0, Named(b), a.0)
            }
            ScalarWord::DmaNop => write!(f, "DMANOP"),
        }
    }
}

impl Display for Named<SyncWord> {
    fn fmt<W: Write>(&self, f: &mut Formatter<W>) -> Result {
        match self.0 {
            SyncWord::AtGetM { mutex } => write!(f, "ATGETM {mutex}"),
            SyncWord::AtRelM { mutex } => write!(f, "ATRELM {mutex}"),
            SyncWord::StallWait { block, conditions } => {
                write!(f, "STALLWAIT {block} {conditions}")
            }
            SyncWord::SemInit {
                maximum,
                value,
                mask,
            } => write!(f, "SEMINIT {maximum} {value} {mask}"),
            SyncWord::SemPost { mask } => write!(f, "SEMPOST {mask}"),
            SyncWord::SemGet { mask } => write!(f, "SEMGET {mask}"),
            SyncWord::SemWait {
                block,
                mask,
                condition,
            } => write!(f, "SEMWAIT {block} {mask} {condition}"),
        }
    }
}

impl Display for Named<ConfigWord> {
    fn fmt<W: Write>(&self, f: &mut Formatter<W>) -> Result {
        match self.0 {
            ConfigWord::WrCfg { gpr, wide, index } => {
                write!(f, "WRCFG {} {} {index}", gpr.0, wide as u8)
            }
            ConfigWord::RdCfg { gpr, index } => write!(f, "RDCFG {} {index}", gpr.0),
            ConfigWord::SetC16 { entry, value } => write!(f, "SETC16 {entry} {value}"),
            ConfigWord::RmwCib {
                byte,
                mask,
                value,
                index,
            } => write!(f, "RMWCIB{byte} {mask} {value} {index}"),
        }
    }
}

impl Display for Named<CellWord> {
    fn fmt<W: Write>(&self, f: &mut Formatter<W>) -> Result {
        match self.0 {
            CellWord::TrnspSrcB => write!(f, "TRNSPSRCB"),
            CellWord::MovB2A { row_a, four, row_b } => {
                write!(f, "MOVB2A {row_a} {} {row_b}", four as u8)
            }
            CellWord::ZeroAcc { mode, wide, place } => {
                write!(f, "ZEROACC {mode} {} {place}", wide as u8)
            }
        }
    }
}

impl Display for Named<BankWord> {
    fn fmt<W: Write>(&self, f: &mut Formatter<W>) -> Result {
        match self.0 {
            BankWord::ClearDValid { a, b, keep, reset } => {
                let (a, b, keep, reset) = (a as u8, b as u8, keep as u8, reset as u8);
                write!(f, "CLEARDVALID {b} {a} {keep} {reset}")
            }
            BankWord::SetDValid { a, b } => write!(f, "SETDVALID {} {}", b as u8, a as u8),
        }
    }
}

impl Display for Named<Instruction> {
    fn fmt<W: Write>(&self, f: &mut Formatter<W>) -> Result {
        match self.0 {
            Instruction::Nop => write!(f, "NOP"),
            Instruction::Cell(word) => Named(word).fmt(f),
            Instruction::Bank(word) => Named(word).fmt(f),
            Instruction::Scalar(word) => Named(word).fmt(f),
            Instruction::Sync(word) => Named(word).fmt(f),
            Instruction::Config(word) => Named(word).fmt(f),
        }
    }
}
