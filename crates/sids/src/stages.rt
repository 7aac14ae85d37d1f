// Rules 20 to 26 at a node, the lowest first.
ghost use Rattle.std.specs.Prelude.{◌≡◌, true, ◌&&◌, ◌-◌, ◌<◌, eqb};
ghost use Rattle.model.specs.Rules.{check};
ghost use Rattle.model.specs.Image.{tree_of, node_count, parent};
ghost use Rattle.model.specs.Given.{NodesTo};
ghost use Rattle.model.specs.Containment.{validated, validated_as, DataArray};
ghost use Rattle.model.specs.Values.{sids_rules, sized_array, sizes_lawful};
ghost use Rattle.model.specs.Answers.{stage_tells};
ghost use Rattle.index.specs.Index.{Index};
ghost use Rattle.types.specs.Given.{NodeContext};
ghost use Rattle.sids.specs.Given.{Sized};
ghost use Rattle.sids.specs.Groups.{place_rules, content_rules};

use super::data_size::has_data_size;
use super::permitted::value_lawful;
use super::required::{complete, is_required, placed};
use labels::Role;
use model::{Rejection, reject};

// Rules 20 and 21.
fn place_stage(image: &[u8], index: &[u16], i: usize) -> Result<(), Rejection>
    requires index { Index image.now index.now × (i < node_count image.now) }
    requires i_value { validated (tree_of image.now) i ≡ true }
    ensures { stage_tells result ≡ check i (place_rules (tree_of image.now) i) }
{
    if i == 0 {
        return Ok(());
    }
    let up = records::parent_of(image, i);
    let above = index::role_of(image, index, up);
    let below = index::role_of(image, index, i);
    if !placed(image, index, up, above, below) {
        return reject(20, i);
    }
    if !labels::named(image, Some(above), Some(below), i) {
        return reject(21, i);
    }
    Ok(())
}

// Rules 23 to 25. A child that rule 23 requires of its parent meets them.
fn content_stage(image: &[u8], index: &[u16], i: usize) -> Result<(), Rejection>
    requires index { Index image.now index.now × NodeContext image.now i }
    requires nodes_to { NodesTo image.now i }
    ensures { stage_tells result ≡ check i (content_rules (tree_of image.now) i) }
{
    if is_required(image, index, i) {
        return Ok(());
    }
    if !complete(image, index, i) {
        return reject(23, i);
    }
    if !types::type_lawful(image, index, i) {
        return reject(24, i);
    }
    if !value_lawful(image, index, i) {
        return reject(25, i);
    }
    Ok(())
}

// Node i is a coordinate or flow array.
pub fn sized_array(image: &[u8], index: &[u16], i: usize) -> bool
    requires index { Index image.now index.now × (i < node_count image.now) }
    requires i_value { validated (tree_of image.now) i ≡ true }
    ensures { result ≡ sized_array (tree_of image.now) i }
{
    if index::role_of(image, index, i) != Role::DataArray {
        return false;
    }
    let above = index::role_of(image, index, records::parent_of(image, i));
    above == Role::GridCoordinates || above == Role::FlowSolution
}

// The node before node i, whose parent is `up`, is an array with the same parent.
fn follows_array(image: &[u8], index: &[u16], i: usize, up: usize) -> bool
    requires { Index image.now index.now × ((0 < i) × (i < node_count image.now)) }
    ensures { result ≡ (eqb (parent (tree_of image.now) (i - 1)) up && validated_as (tree_of image.now) DataArray (i - 1)) }
{
    records::parent_of(image, i - 1) == up
        && index::validated_as(image, index, Role::DataArray, i - 1)
}

// Rule 26: a coordinate or flow array has exactly the dimensions of DataSize. An array before it under the same node has them.
fn sizes_lawful(image: &[u8], index: &[u16], i: usize) -> bool
    requires nodes_to { NodesTo image.now i × Index image.now index.now }
    requires i_value { validated (tree_of image.now) i ≡ true }
    requires sized { sized_array (tree_of image.now) i ≡ true → Sized image.now (parent (tree_of image.now) i) }
    ensures { result ≡ sizes_lawful (tree_of image.now) i }
{
    if !sized_array(image, index, i) {
        return true;
    }
    let up = records::parent_of(image, i);
    if follows_array(image, index, i, up) {
        return types::same_shape(image, i, i - 1);
    }
    has_data_size(image, index, up, i)
}

// Rules 20 to 26 at a validated node that validation has come to.
pub fn sids_stage(image: &[u8], index: &[u16], i: usize) -> Result<(), Rejection>
    requires nodes_to { NodesTo image.now i × (validated (tree_of image.now) i ≡ true) }
    requires index { Index image.now index.now }
    ensures { stage_tells result ≡ check i (sids_rules (tree_of image.now) i) }
{
    place_stage(image, index, i)?;
    content_stage(image, index, i)?;
    if !sizes_lawful(image, index, i) {
        return reject(26, i);
    }
    Ok(())
}
