// The DataSize of a coordinate or flow array.
ghost use Rattle.std.specs.Prelude.{◌≡◌, true, ◌<◌, get_or};
ghost use Rattle.model.specs.Rules.{answer};
ghost use Rattle.model.specs.Image.{tree_of, node_count, parent, dimensions};
ghost use Rattle.model.specs.Containment.{validated};
ghost use Rattle.model.specs.Values.{sized_array, data_sizes};
ghost use Rattle.model.specs.DataSize.{is_sized_array, sizes_of, data_size_answer};
ghost use Rattle.model.specs.Given.{Sound, Accepted};
ghost use Rattle.index.specs.Index.{Index};
ghost use Rattle.model.specs.Answers.{data_size_tells};

use model::{DataSize, Rejection};
use records::RecordNumbers;

// Whether a number is that of a validated coordinate or flow array.
fn is_sized_array(image: &[u8], index: &[u16], node: u64) -> bool
    requires { Index image.now index.now }
    ensures { result ≡ is_sized_array (tree_of image.now) node }
{
    let n = labels::node_count(image) as u64;
    if n <= node {
        return false;
    }
    let i = node as usize;
    if !index::is_validated(image, index, i) {
        return false;
    }
    sids::sized_array(image, index, i)
}

// The size of node i in direction k; 0 where it lacks it.
fn size_in(image: &[u8], i: usize, k: usize) -> u64
    requires { Sound image.now × (i < node_count image.now) }
    ensures { result ≡ get_or (dimensions (tree_of image.now) i) k 0 }
{
    if k as u64 >= RecordNumbers::read(image, i).rank {
        return 0;
    }
    records::dimension(image, i, k)
}

// The sizes of a coordinate or flow array of an accepted image: its own dimensions, by rule 26.
fn array_sizes(image: &[u8], i: usize) -> DataSize
    requires accepted { Accepted image.now × (i < node_count image.now) }
    requires i_value { (sized_array (tree_of image.now) i ≡ true) × (validated (tree_of image.now) i ≡ true) }
    ensures { data_size_tells (Ok result) ≡ answer (sizes_of (data_sizes (tree_of image.now) (parent (tree_of image.now) i))) }
{
    DataSize {
        directions: RecordNumbers::read(image, i).rank,
        i: size_in(image, i, 0),
        j: size_in(image, i, 1),
        k: size_in(image, i, 2),
    }
}

// The DataSize of a coordinate or flow array in each direction: validation's rejection, then 40. A direction that the array lacks is 0.
pub fn data_size(image: &[u8], node: u64) -> Result<DataSize, Rejection>
    ensures { data_size_tells result ≡ data_size_answer image.now node }
{
    let mut index: [u16; 16384] = [0; 16384];
    crate::image_stage(image, &mut index)?;
    if !is_sized_array(image, &index, node) {
        return Err(Rejection::at(40, 0));
    }
    Ok(array_sizes(image, node as usize))
}
