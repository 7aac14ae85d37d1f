// Conforming children: looked up in the index, and lawful by 24 and 25. Each function promises another child of the model, by one call of `conforming`.
ghost use Rattle.std.specs.Prelude.{◌≡◌, ◌&&◌, ◌<◌, ℕ, Some};
ghost use Rattle.std.specs.Option.{unwrap_or};
ghost use Rattle.model.specs.Image.{tree_of, node_count};
ghost use Rattle.model.specs.Found.{if_below};
ghost use Rattle.model.specs.Containment.{or_missing, Elements, FlowSolution};
ghost use Rattle.model.specs.Values.{type_lawful, value_lawful, range_of, offsets_of, connectivity_of, point_range_of, point_list_of};
ghost use Rattle.model.specs.Elements.{element_type_of, parents_of};
ghost use Rattle.index.specs.Index.{kind, Index};
ghost use Rattle.types.specs.Given.{NodeContext};
ghost use Rattle.sids.specs.Given.{UnderZone};

use super::permitted::value_lawful;
use element_types::NGON;

// A child that was looked up, where it conforms.
pub fn conforming(image: &[u8], index: &[u16], child: Option<usize>) -> Option<usize>
    requires index { Index image.now index.now }
    requires node_context { (j : ℕ) → child ≡ Some j → NodeContext image.now j }
    ensures { let j = unwrap_or child (node_count image.now) in
        result ≡ if_below (node_count image.now) (or_missing (tree_of image.now) (type_lawful (tree_of image.now) j && value_lawful (tree_of image.now) j) j) }
{
    let j = child?;
    if !types::type_lawful(image, index, j) {
        return None;
    }
    if !value_lawful(image, index, j) {
        return None;
    }
    Some(j)
}

// The section's ElementRange.
pub fn range_of(image: &[u8], index: &[u16], s: usize) -> Option<usize>
    requires index { Index image.now index.now × (s < node_count image.now) }
    requires s_value { kind (tree_of image.now) s ≡ Elements }
    ensures { result ≡ if_below (node_count image.now) (range_of (tree_of image.now) s) }
{
    conforming(image, index, index::range(image, index, s))
}

// Its ElementStartOffset.
pub fn offsets_of(image: &[u8], index: &[u16], s: usize) -> Option<usize>
    requires index { Index image.now index.now × (s < node_count image.now) }
    requires s_value { kind (tree_of image.now) s ≡ Elements }
    ensures { result ≡ if_below (node_count image.now) (offsets_of (tree_of image.now) s) }
{
    conforming(image, index, index::offsets(image, index, s))
}

// Its ElementConnectivity.
pub fn connectivity_of(image: &[u8], index: &[u16], s: usize) -> Option<usize>
    requires index { Index image.now index.now × (s < node_count image.now) }
    requires s_value { kind (tree_of image.now) s ≡ Elements }
    ensures { result ≡ if_below (node_count image.now) (connectivity_of (tree_of image.now) s) }
{
    conforming(image, index, index::connectivity(image, index, s))
}

// The ParentElements of a section of this type, conforming or not.
pub fn parents_of(image: &[u8], index: &[u16], s: usize, element_type: u64) -> Option<usize>
    requires index { Index image.now index.now × (s < node_count image.now) }
    requires s_value { kind (tree_of image.now) s ≡ Elements }
    requires element_type_value { element_type ≡ element_type_of (tree_of image.now) s }
    ensures { result ≡ if_below (node_count image.now) (parents_of (tree_of image.now) s) }
{
    if element_type != NGON {
        return None;
    }
    index::parents(image, index, s)
}

// The PointRange of a flow solution.
pub fn point_range_of(image: &[u8], index: &[u16], p: usize) -> Option<usize>
    requires index { Index image.now index.now × UnderZone image.now p }
    requires p_value { kind (tree_of image.now) p ≡ FlowSolution }
    ensures { result ≡ if_below (node_count image.now) (point_range_of (tree_of image.now) p) }
{
    conforming(image, index, index::point_range(image, index, p))
}

// Its PointList.
pub fn point_list_of(image: &[u8], index: &[u16], p: usize) -> Option<usize>
    requires index { Index image.now index.now × UnderZone image.now p }
    requires p_value { kind (tree_of image.now) p ≡ FlowSolution }
    ensures { result ≡ if_below (node_count image.now) (point_list_of (tree_of image.now) p) }
{
    conforming(image, index, index::point_list(image, index, p))
}
