// The numbers that a node stores in one dimension.
ghost use Rattle.std.specs.Prelude.{◌≡◌, ℕ, Some};
ghost use Rattle.std.specs.Option.{unwrap_or};
ghost use Rattle.model.specs.Image.{tree_of, node_count};
ghost use Rattle.model.specs.Given.{Sound};
ghost use Rattle.model.specs.Values.{size};
ghost use Rattle.section_data.specs.Given.{Indexed, RowOf};

use rows::Row;

// How many numbers a node stores in its one dimension; 0 where there is none.
pub fn size_of(image: &[u8], node: Option<usize>) -> u64
    requires sound { Sound image.now }
    requires indexed { (j : ℕ) → node ≡ Some j → Indexed image.now j }
    ensures { result ≡ size (tree_of image.now) (unwrap_or node (node_count image.now)) }
{
    match node {
        Some(j) => records::dimension(image, j, 0),
        None => 0,
    }
}

// The numbers that node j stores in its one dimension.
pub fn row_of(image: &[u8], j: usize) -> Row
    requires { Sound image.now × Indexed image.now j }
    ensures { RowOf image.now j result }
{
    let at = records::data_start(image, j);
    let width = records::width_at(image, j);
    let n = size_of(image, Some(j)) as usize;
    Row { at, width, n }
}
