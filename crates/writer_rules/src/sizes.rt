// Rules 12 to 17 of a node that is added: its data type, its dimensions and its data, after the words and bytes of the nodes before it.
ghost use Rattle.std.specs.Prelude.{◌≡◌, not, ◌&&◌, [], ◌∷◌, ◌+◌, ◌*◌, ◌/◌, ◌%◌, ◌≤◌, ◌<◌, eqb, leb, length};
ghost use Rattle.model.specs.Lists.{among};
ghost use Rattle.model.specs.Bytes.{same, text, place_from};
ghost use Rattle.model.specs.Rules.{check};
ghost use Rattle.model.specs.Image.{data_types};
ghost use Rattle.model.specs.Records.{product};
ghost use Rattle.model.specs.Answers.{stage_tells};
ghost use Rattle.table.specs.Groups.{type_rules};
ghost use Rattle.writer_model.specs.Writer.{Addition, type_field, tree_with};
ghost use Rattle.writer_rules.specs.Groups.{sizes_after};

use model::Rejection;
use records::data_types;
use table::reject;
use writer_model::Writer;

const TYPE_SIZE: usize = 2;

// The two bytes of a data type as one number; 0, which no type is, for a text of another length.
fn type_code(data_type: &[u8]) -> u64
    ensures { ((place_from 1 (type_field data_type.now) data_types ≡ place_from 1 (result % 256 ∷ result / 256 ∷ []) data_types)
        × (same (type_field data_type.now) (text "LK") ≡ same (result % 256 ∷ result / 256 ∷ []) (text "LK"))) × (result < 65536) }
{
    if data_type.len() != TYPE_SIZE {
        return 0;
    }
    words::byte_at(data_type, 0) + 256 * words::byte_at(data_type, 1)
}

// The data type: its place among the eleven, from 1, and 0 for any other.
fn data_type_of(data_type: &[u8]) -> u64
    ensures { (result ≡ place_from 1 (type_field data_type.now) data_types) × (result ≤ 11) }
{
    data_types::by_code(type_code(data_type))
}

// Rules 12 to 14 at the next node, which has so many dimensions.
pub fn type_stage(state: Writer, data_type: &[u8], rank: u64, room: &[u8]) -> Result<(), Rejection>
    ensures { (a : Addition) → a.data_type ≡ data_type.now → length a.dimensions ≡ rank
        → stage_tells result ≡ check state.node (type_rules (tree_with state a room.now) state.node) }
{
    let node = state.node as usize;
    if type_code(data_type) == data_types::LINK {
        return reject(12, node);
    }
    let known = data_type_of(data_type);
    if known == 0 {
        return reject(13, node);
    }
    if !table::rank_lawful(known, rank) {
        return reject(14, node);
    }
    Ok(())
}

// Rules 15 and 17: whether a part that starts at the sum of those before it ends within the total.
fn fits(sum: u64, size: u64, total: u64) -> bool
    ensures { result ≡ leb (sum + size) total }
{
    if total < sum {
        return false;
    }
    size <= total - sum
}

// Rule 16: whether no dimension is 0 and their product in elements of a width is the data length in bytes.
fn data_size_lawful(dimensions: &[u64], width: u64, size: u64) -> bool
    ensures { result ≡ (not (among 0 dimensions.now) && eqb (product dimensions.now * width) size) }
{
    let mut m = width;
    for d in dimensions {
        if !table::product_fits(m, *d, size) {
            return false;
        }
        m *= *d;
    }
    m == size
}

// Rules 15 to 17 at the next node.
pub fn size_stage(
    state: Writer,
    data_type: &[u8],
    dimensions: &[u64],
    size: u64,
    room: &[u8],
) -> Result<(), Rejection>
    ensures { (a : Addition) → a.data_type ≡ data_type.now → a.dimensions ≡ dimensions.now → length a.bytes ≡ size
        → stage_tells result ≡ check state.node (sizes_after (tree_with state a room.now) state.word state.byte state.node) }
{
    let node = state.node as usize;
    if !fits(
        state.word as u64,
        dimensions.len() as u64,
        state.words as u64,
    ) {
        return reject(15, node);
    }
    let width = data_types::width_of(data_type_of(data_type));
    if !data_size_lawful(dimensions, width, size) {
        return reject(16, node);
    }
    if !fits(state.byte as u64, size, state.bytes as u64) {
        return reject(17, node);
    }
    Ok(())
}
