// How rules lie in the words of a chip: in blocks of 48 headers, 48 words A and 48 words B.
ghost use Rattle.std.specs.Prelude.{◌≡◌, ◌<◌};
ghost use Rattle.chip_image.specs.Layout.{address_count, address, header_place, packed, unpacked};

use rules::Rule;

// The rows of a block, and how far a row's word A lies behind its header, and its word B behind its word A.
pub(crate) const ROWS: usize = 48;

const BLOCK_WORDS: usize = 144;

const MOST_BLOCKS: usize = 10;

const NUMBER_UNIT: u64 = 0x1_0000_0000_0000;

const PRIORITY_UNIT: u64 = 0x1_0000_0000;

// How many addresses so many words have.
pub(crate) fn address_count(words: usize) -> u16
    ensures { result ≡ address_count words }
{
    (ROWS * (words / BLOCK_WORDS).min(MOST_BLOCKS)) as u16
}

// Slot 0 has the last address.
pub(crate) fn slot_address(count: u16, slot: u16) -> u16
    requires { slot < count }
    ensures { result ≡ address count slot }
{
    count - 1 - slot
}

pub(crate) fn header_place(address: u16) -> usize
    ensures { result ≡ header_place address }
{
    let address = usize::from(address);
    BLOCK_WORDS * (address / ROWS) + address % ROWS
}

// The three words of an address.
#[derive(Clone, Copy)]
pub(crate) struct Row {
    pub(crate) header: u64,
    pub(crate) word_a: u64,
    pub(crate) word_b: u64,
}

impl Row {
    // The words of an empty slot.
    pub(crate) const ZERO: Row = Row {
        header: 0,
        word_a: 0,
        word_b: 0,
    };
}

impl From<Rule> for Row {
    ghost from_gives = { λ rule row. row ≡ packed rule };

    fn from(rule: Rule) -> Row {
        Row {
            header: u64::from(rule.number) * NUMBER_UNIT
                + u64::from(rule.priority) * PRIORITY_UNIT
                + u64::from(rule.action),
            word_a: rule.word_a,
            word_b: rule.word_b,
        }
    }
}

impl From<Row> for Rule {
    ghost from_gives = { λ row rule. rule ≡ unpacked row.header row.word_a row.word_b };

    fn from(row: Row) -> Rule {
        Rule {
            number: (row.header / NUMBER_UNIT) as u16,
            priority: (row.header / PRIORITY_UNIT % 0x1_0000) as u16,
            action: (row.header % PRIORITY_UNIT) as u32,
            word_a: row.word_a,
            word_b: row.word_b,
        }
    }
}
