// The entry of one section of an accepted image. What is looked up under it conforms (rules 24 and 25 hold at every validated node).
ghost use Rattle.std.specs.Prelude.{◌≡◌, ◌<◌, true, ℕ, Some};
ghost use Rattle.std.specs.Option.{unwrap_or};
ghost use Rattle.model.specs.Image.{tree_of, node_count, width};
ghost use Rattle.model.specs.Values.{flat, size};
ghost use Rattle.model.specs.Given.{Sound};
ghost use Rattle.index.specs.Index.{Index};
ghost use Rattle.model.specs.Sections.{data_start, entry};
ghost use Rattle.zone_sections.specs.After.{AcceptedSection};

use model::Section;

// Where the data of a node start, counted from the image's start; 0 for a missing node.
fn start_of(image: &[u8], node: Option<usize>) -> u64
    requires { Sound image.now × ((j : ℕ) → node ≡ Some j → j < node_count image.now) }
    ensures { result ≡ data_start (tree_of image.now) (unwrap_or node (node_count image.now)) }
{
    match node {
        Some(j) => records::data_start(image, j) as u64,
        None => 0,
    }
}

// The width of what a node stores; 0 for a missing node.
fn width_at(image: &[u8], node: Option<usize>) -> u64
    requires { Sound image.now × ((j : ℕ) → node ≡ Some j → j < node_count image.now) }
    ensures { result ≡ width (tree_of image.now) (unwrap_or node (node_count image.now)) }
{
    match node {
        Some(j) => records::width_at(image, j) as u64,
        None => 0,
    }
}

// How many numbers node j stores, which has one dimension.
fn size_of(image: &[u8], j: usize) -> u64
    requires { (Sound image.now × (j < node_count image.now)) × (flat (tree_of image.now) j ≡ true) }
    ensures { result ≡ size (tree_of image.now) j }
{
    records::dimension(image, j, 0)
}

// The entry of section s: its type, its range, and where its start offsets, its connectivity and the parents of its faces stand.
pub fn entry_of(image: &[u8], index: &[u16], s: usize) -> Section
    requires { AcceptedSection image.now s × Index image.now index.now }
    ensures { result ≡ entry (tree_of image.now) s }
{
    let range = index::range(image, index, s).unwrap();
    let offsets = index::offsets(image, index, s);
    let connectivity = index::connectivity(image, index, s);
    let element_type = types::whole(image, s, 0);
    let parents = sids::parents_of(image, index, s, element_type);
    Section {
        node: s as u64,
        element_type,
        first: types::whole(image, range, 0),
        last: types::whole(image, range, 1),
        offsets_at: start_of(image, offsets),
        offsets_width: width_at(image, offsets),
        connectivity_at: start_of(image, connectivity),
        connectivity_width: width_at(image, connectivity),
        connectivity_length: size_of(image, connectivity.unwrap()),
        parents_at: start_of(image, parents),
        parents_width: width_at(image, parents),
    }
}
