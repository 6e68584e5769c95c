// A case: eleven words of 4 bytes, the lowest byte first.
use format::run::read_run;
use test_machines::number::{Kind, Number};

const WORDS: usize = 11;

pub(crate) const BYTES: usize = 4 * WORDS;

#[derive(Clone, Copy)]
pub(crate) struct Case {
    pub(crate) call: u32,
    // how long each lent part is, two bits each: see `lengths::lent`
    pub(crate) lengths: u32,
    // thread, bank or file
    pub(crate) first: u32,
    // register, row, or the bank of a shown row
    pub(crate) second: u32,
    // value, or the row that is shown
    pub(crate) third: u32,
    pub(crate) seed: u32,
    // flag words of Config's banks; of a source call the seed of the control part, and where a number out of range stands
    pub(crate) left: u32,
    pub(crate) right: u32,
    // of a source call the number of the control part that is set
    pub(crate) number: Number,
}

pub(crate) fn read(record: &[u8; BYTES]) -> Case {
    let mut words = [0u32; WORDS];
    read_run::<u32, 4>(record, 0, &mut words);
    let number = Number {
        kind: Kind::from(words[8]),
        place: words[9],
        value: words[10],
    };
    Case {
        call: words[0],
        lengths: words[1],
        first: words[2],
        second: words[3],
        third: words[4],
        seed: words[5],
        left: words[6],
        right: words[7],
        number,
    }
}
