// Rule 25: the stored values are permitted.
ghost use Rattle.std.specs.Prelude.{◌≡◌, true};
ghost use Rattle.model.specs.Image.{tree_of};
ghost use Rattle.model.specs.Values.{type_lawful, value_lawful};
ghost use Rattle.index.specs.Index.{Index};
ghost use Rattle.types.specs.Given.{NodeContext};

use super::zone::zone_value;
use labels::Role;

// Rule 25 at a node that meets 24.
pub fn value_lawful(image: &[u8], index: &[u16], i: usize) -> bool
    requires { (Index image.now index.now × NodeContext image.now i) × (type_lawful (tree_of image.now) i ≡ true) }
    ensures { result ≡ value_lawful (tree_of image.now) i }
{
    let role = index::role_of(image, index, i);
    match role {
        Role::Base => types::pair_within(image, i, 3),
        Role::Zone => zone_value(image, index, i),
        Role::ZoneType => types::zone_type_value(image, i),
        Role::FlowSolution => points::not_both(image, index, i),
        Role::Elements => types::not_negative(image, i, 1),
        Role::IndexRange => points::index_range_value(image, index, i),
        Role::Rind => types::rind_value(image, i),
        Role::GridLocation => types::location_value(image, i),
        _ => true,
    }
}
