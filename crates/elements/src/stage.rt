// Rules 27 to 39 at a section, in the order of the model: 38 between 33 and 34.
ghost use Rattle.std.specs.Prelude.{◌≡◌, true, ◌≤◌, length};
ghost use Rattle.model.specs.Image.{tree_of, node_count};
ghost use Rattle.model.specs.Given.{NodesTo};
ghost use Rattle.model.specs.Containment.{role, validated, Elements};
ghost use Rattle.model.specs.Values.{sids_rules};
ghost use Rattle.model.specs.Elements.{element_type_of, element_count, element_rules, reference_check, parent_rules};
ghost use Rattle.model.specs.Rules.{check, passed, ◌then◌};
ghost use Rattle.model.specs.Answers.{stage_tells};
ghost use Rattle.model.specs.Found.{if_below};
ghost use Rattle.model.specs.Lists.{seek_from};
ghost use Rattle.index.specs.Index.{Index};
ghost use Rattle.section_data.specs.Ranges.{overlap_at, Faces};
ghost use Rattle.section_data.specs.Given.{SectionContext};
ghost use Rattle.references.specs.Groups.{shape_rules, connectivity_check};
ghost use Rattle.parents.specs.Parents.{parents_broken};

use super::lengths::shape_stage;
use element_types::is_supported;
use model::Rejection;
use references::reference_stage;
use section_data::{element_count, row_of};
use sids::{connectivity_of, range_of};

// Rules 29 to 38 at section s, with n elements.
fn array_stage(
    image: &[u8],
    index: &[u16],
    s: usize,
    element_type: u64,
    n: u64,
    firsts: &[u64],
    reach: &[u64],
    faces: usize,
    levels: &mut [u32],
) -> Result<(), Rejection>
    requires index { Index image.now index.now × SectionContext image.now s }
    requires element_type_value { (element_type ≡ element_type_of (tree_of image.now) s) × (n ≡ element_count (tree_of image.now) s) }
    requires faces { Faces (tree_of image.now) firsts.now reach.now faces × (2048 ≤ length levels.old) }
    ensures { stage_tells result ≡ (check s (shape_rules (tree_of image.now) s) then connectivity_check (tree_of image.now) s) }
{
    let row = row_of(image, connectivity_of(image, index, s).unwrap());
    shape_stage(image, index, s, element_type, n, row.n as u64)?;
    reference_stage(
        image,
        index,
        s,
        element_type,
        row,
        firsts,
        reach,
        faces,
        levels,
    )
}

// Rules 27 to 39 at section s, to which validation has come, and where rules 20 to 26 hold. `overlap` is the first node that breaks rule 28, `parents` the
// first that breaks rule 39; the tables hold the faces of all zones.
pub fn element_stage(
    image: &[u8],
    index: &[u16],
    s: usize,
    overlap: Option<usize>,
    parents: Option<usize>,
    firsts: &[u64],
    reach: &[u64],
    faces: usize,
    levels: &mut [u32],
) -> Result<(), Rejection>
    requires nodes_to { NodesTo image.now s × Index image.now index.now }
    requires s_value { (validated (tree_of image.now) s ≡ true) × (role (tree_of image.now) s ≡ Elements) }
    requires s_value_2 { check s (sids_rules (tree_of image.now) s) ≡ passed }
    requires overlap_value { (overlap ≡ if_below (node_count image.now) (seek_from (overlap_at (tree_of image.now)) (node_count image.now) 0))
        × (parents ≡ if_below (node_count image.now) (seek_from (parents_broken (tree_of image.now)) (node_count image.now) 0)) }
    requires faces { Faces (tree_of image.now) firsts.now reach.now faces × (2048 ≤ length levels.old) }
    ensures { stage_tells result ≡ (check s (element_rules (tree_of image.now) s) then reference_check (tree_of image.now) s
        then check s (parent_rules (tree_of image.now) s)) }
{
    let element_type = types::whole(image, s, 0);
    if !is_supported(element_type) {
        return Err(Rejection::at(27, s as u64));
    }
    if overlap == Some(s) {
        return Err(Rejection::at(28, s as u64));
    }
    let n = element_count(image, range_of(image, index, s).unwrap(), s);
    array_stage(
        image,
        index,
        s,
        element_type,
        n,
        firsts,
        reach,
        faces,
        levels,
    )?;
    if parents == Some(s) {
        return Err(Rejection::at(39, s as u64));
    }
    Ok(())
}
