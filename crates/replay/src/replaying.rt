// One file of the corpus, on one board.
use crate::telling::{Replayed, orders_told};
use anyhow::anyhow;
use chip_image::ChipImage;
use dial_run::printed;
use order_run::run_orders;
use rules::SlotDevice;
use std::alloc::{AllocError, Global};
use std::fs;

const WORDS_FOR_A_SLOT: usize = 3;

// The most that a chip image can have.
const MOST_SLOTS: usize = 480;

// The start and the factor of the FNV-1a hash of 64 bits.
const START: u64 = 0xcbf2_9ce4_8422_2325;

const FACTOR: u64 = 0x0000_0100_0000_01b3;

// As the program runs it: on a dial board of six slots.
pub(crate) fn replay_dial(rt: &HostRuntime, name: &str) -> anyhow::Result<Replayed> {
    let heap = rt.alloc();
    let input = fs::read(rt, format!(in heap; "{name}.orders")?)?;
    let expected = fs::read_to_string(rt, format!(in heap; "{name}.lines")?)?;
    let text = printed(heap, input.as_slice())?;
    Ok(Replayed {
        orders: orders_told(text.as_str()),
        same: text.as_str() == expected.as_str(),
    })
}

// On a packet board of so many slots. The lines are the same, and so are the chip's words at the end.
pub(crate) fn replay_packet(
    rt: &HostRuntime,
    name: &str,
    slots: usize,
) -> anyhow::Result<Replayed> {
    if slots > MOST_SLOTS {
        return Err(anyhow!("a chip image has at most 480 slots"));
    }
    let heap = rt.alloc();
    let input = fs::read(rt, format!(in heap; "{name}.orders")?)?;
    let expected = fs::read_to_string(rt, format!(in heap; "{name}.words")?)?;
    let mut words = vec![in heap; 0u64; slots * WORDS_FOR_A_SLOT]?;
    let mut chip = ChipImage::over(words.as_mut_slice());
    let text = run_orders(heap, &mut chip, 1, input.as_slice())?;
    let lines = without_words(heap, expected.as_str())?;
    let last = words_line(heap, words.as_slice())?;
    Ok(Replayed {
        orders: orders_told(text.as_str()),
        same: text.as_str() == lines.as_str() && expected.ends_with(last.as_str()),
    })
}

// The lines of a run, without those that tell the chip's words between them.
fn without_words(heap: Global, text: &str) -> Result<String, AllocError> {
    let mut lines = String::new(heap);
    for line in text.lines().filter(|line| !line.starts_with("words ")) {
        lines.push_str(line)?;
        lines.push('\n')?;
    }
    Ok(lines)
}

// All words in order, the high byte of each first, in one number.
fn hash(words: &[u64]) -> u64 {
    words.iter().flat_map(|word| word.to_be_bytes()).fold(
        START,
        |hash, byte| (hash ^ u64::from(byte)).wrapping_mul(FACTOR),
    )
}

fn words_line(heap: Global, words: &[u64]) -> Result<String, AllocError> {
    let hash = hash(words);
    format!(in heap; "words {hash:016x}\n")
}
