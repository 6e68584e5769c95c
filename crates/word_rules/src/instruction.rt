// The instructions, grouped by the unit that a block bit names. Names are the published ones.
use machine::units::{GprNumber, HalfRegister};

// The second operand of ADDDMAREG and MULDMAREG.
#[derive(Clone, Copy)]
pub enum Operand {
    Constant(u8),
    Register(GprNumber),
}

// A word of the scalar unit, block bit B5.
#[derive(Clone, Copy)]
pub enum ScalarWord {
    SetDmaReg {
        half: HalfRegister,
        value: u16,
    },
    AddDmaReg {
        result: GprNumber,
        a: GprNumber,
        b: Operand,
    },
    MulDmaReg {
        result: GprNumber,
        a: GprNumber,
        b: Operand,
    },
    DmaNop,
}

// A word of the sync unit, block bit B1.
#[derive(Clone, Copy)]
pub enum SyncWord {
    AtGetM { mutex: u16 },
    AtRelM { mutex: u16 },
    StallWait { block: u16, conditions: u32 },
    SemInit { maximum: u8, value: u8, mask: u8 },
    SemPost { mask: u8 },
    SemGet { mask: u8 },
    SemWait { block: u16, mask: u8, condition: u8 },
}

// A word of the config unit, block bit B7.
#[derive(Clone, Copy)]
pub enum ConfigWord {
    WrCfg {
        gpr: GprNumber,
        wide: bool,
        index: u16,
    },
    RdCfg {
        gpr: GprNumber,
        index: u16,
    },
    SetC16 {
        entry: u8,
        value: u16,
    },
    RmwCib {
        byte: u8,
        mask: u8,
        value: u8,
        index: u16,
    },
}

// A word of the matrix unit, block bit B6, that works on source cells and Dest's marks.
#[derive(Clone, Copy)]
pub enum CellWord {
    TrnspSrcB,
    MovB2A { row_a: u8, four: bool, row_b: u8 },
    ZeroAcc { mode: u8, wide: bool, place: u16 },
}

// A word of the matrix unit, block bit B6, that works on bank owners and pointers.
#[derive(Clone, Copy)]
pub enum BankWord {
    ClearDValid {
        a: bool,
        b: bool,
        keep: bool,
        reset: bool,
    },
    SetDValid {
        a: bool,
        b: bool,
    },
}

// In the order of the table.
#[derive(Clone, Copy)]
pub enum Instruction {
    Nop,
    Cell(CellWord),
    Bank(BankWord),
    Scalar(ScalarWord),
    Sync(SyncWord),
    Config(ConfigWord),
}
