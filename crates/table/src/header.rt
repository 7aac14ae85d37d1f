// Rules 1 to 6: the header.
ghost use Rattle.std.specs.Prelude.{◌≡◌, ◌≤◌};
ghost use Rattle.model.specs.Rules.{check};
ghost use Rattle.model.specs.Header.{header_check};
ghost use Rattle.model.specs.Answers.{stage_tells};
ghost use Rattle.table.specs.Groups.{laid_out_by, word_rules, layout_rules};

use super::{is_within, reject};
use model::Rejection;
use records::{Header, Record};

const HEADER_SIZE: u64 = Header::SIZE as u64;

const RECORD_SIZE: u64 = Record::SIZE as u64;

const WORD_SIZE: u64 = 8;

const MAX_LENGTH: u64 = 16777216;

const MAX_NODES: u64 = 4096;

const MAX_WORDS: u64 = 49152;

// Whether the offsets and the data length are those of an image with so many nodes and words.
fn laid_out(h: Header) -> bool
    requires { (h.node_count ≤ 4096) × (h.word_count ≤ 49152) }
    ensures { result ≡ laid_out_by h }
{
    let nodes = h.node_count;
    let words = h.word_count;
    let total = h.total_length;
    let record_at = h.record_offset;
    let words_at = h.dimension_offset;
    let data_at = h.data_offset;
    let size = h.data_length;
    if record_at != HEADER_SIZE {
        return false;
    }
    if words_at != HEADER_SIZE + RECORD_SIZE * nodes {
        return false;
    }
    if data_at != HEADER_SIZE + RECORD_SIZE * nodes + WORD_SIZE * words {
        return false;
    }
    if total < data_at {
        return false;
    }
    size == total - data_at
}

// Rules 2 and 3 of the header of an image with so many bytes.
fn word_stage(h: Header, length: u64) -> Result<(), Rejection>
    ensures { stage_tells result ≡ check 0 (word_rules h length) }
{
    if h.form != 1 {
        return reject(2, 0);
    }
    if h.total_length != length {
        return reject(3, 0);
    }
    Ok(())
}

// Rules 4 to 6.
fn layout_stage(h: Header) -> Result<(), Rejection>
    ensures { stage_tells result ≡ check 0 (layout_rules h) }
{
    if !is_within(h.node_count, 1, MAX_NODES) {
        return reject(4, 0);
    }
    if MAX_WORDS < h.word_count {
        return reject(5, 0);
    }
    if !laid_out(h) {
        return reject(6, 0);
    }
    Ok(())
}

// Rules 1 to 6.
pub fn header_stage(image: &[u8]) -> Result<(), Rejection>
    ensures { stage_tells result ≡ header_check image.now }
{
    let length = image.len() as u64;
    if !is_within(length, HEADER_SIZE, MAX_LENGTH) {
        return reject(1, 0);
    }
    let h = Header::read(image);
    word_stage(h, length)?;
    layout_stage(h)
}
