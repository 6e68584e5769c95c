// A machine's parts as they are lent: all of them to be read, or the stores that a word may write, each as long as it has to be.
use crate::control::Control;
use crate::sizes::{CONFIG_WORDS, DEST_ROWS, GPRS, SETTINGS, SOURCE_CELLS};

// All parts, of any length; the control part comes along by value.
#[derive(Clone, Copy)]
pub struct MachineView<'a> {
    pub control: Control,
    pub settings: &'a [u16],
    pub gprs: &'a [u32],
    pub config: &'a [u32],
    pub dest: &'a [u16],
    pub marks: &'a [bool],
    pub src_a: &'a [u32],
    pub src_b: &'a [u32],
}

// The thread settings and the stores, all but Dest's cells, which no word reads or writes.
#[derive(Drop)]
pub struct SizedStores<'a> {
    pub settings: &'a mut [u16; SETTINGS],
    pub gprs: &'a mut [u32; GPRS],
    pub config: &'a mut [u32; CONFIG_WORDS],
    pub marks: &'a mut [bool; DEST_ROWS],
    pub src_a: &'a mut [u32; SOURCE_CELLS],
    pub src_b: &'a mut [u32; SOURCE_CELLS],
}
