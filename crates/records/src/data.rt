// Dimension words and stored numbers of a node.
ghost use Rattle.std.specs.Prelude.{◌≡◌, ◌+◌, ◌*◌, ◌^◌, ◌≤◌, ◌<◌, T, length, get_or};
ghost use Rattle.model.specs.Image.{tree_of, node_count, word_count, node, dimensions, width};
ghost use Rattle.model.specs.Image.{number as number_of};
ghost use Rattle.model.specs.Bounds.{Laid};
ghost use Rattle.model.specs.Given.{Sound};
ghost use Rattle.words.specs.Width.{is_width};

use super::{Header, Record, node_table, nodes};

// Dimension k of node i, whose words lie within the image's.
pub fn dimension(image: &[u8], i: usize, k: usize) -> u64
    requires laid { Laid image.now × (i < node_count image.now) }
    requires k_bound { (k < (node (tree_of image.now) i).rank)
        × ((node (tree_of image.now) i).first_word + (node (tree_of image.now) i).rank ≤ word_count image.now) }
    ensures { result ≡ get_or (dimensions (tree_of image.now) i) k 0 }
{
    let count = words::u32_at(image, Header::NODE_COUNT) as usize;
    nodes::dimension(node_table(image), count, i, k)
}

// Where the data of node i start, counted from the image's start.
pub fn data_start(image: &[u8], i: usize) -> usize
    requires { Sound image.now × (i < node_count image.now) }
    ensures { (result ≡ (tree_of image.now).area_at + (node (tree_of image.now) i).data_at)
        × (result + (node (tree_of image.now) i).data_size ≤ length image.now) }
{
    let area = words::u32_at(image, Header::DATA_OFFSET) as usize;
    area + words::u32_at(image, Record::at(i) + Record::DATA_AT) as usize
}

// Stored number k of node i, counted from 0, as its bits; `wide` is the node's width, 4 or 8.
pub fn number(image: &[u8], i: usize, k: usize, wide: usize) -> u64
    requires sound { Sound image.now × (i < node_count image.now) }
    requires t { (T (is_width wide)) × (wide ≡ width (tree_of image.now) i) }
    requires wide_bound { wide * k + wide ≤ (node (tree_of image.now) i).data_size }
    ensures { (result ≡ number_of (tree_of image.now) i k) × (result < 256 ^ wide) }
{
    let at = data_start(image, i) + wide * k;
    if wide == 4 {
        words::word_at(image, at, 4)
    } else {
        words::word_at(image, at, 8)
    }
}
