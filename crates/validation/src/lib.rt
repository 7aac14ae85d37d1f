// Validation of an image: every rule in the stated order, and the four counts of an acceptance. The DataSize of an array.
#![tactic(auto)]

ghost use Rattle.std.specs.Prelude.{◌≡◌, true, ◌≤◌, length, Ok};
ghost use Rattle.model.specs.Found.{if_below};
ghost use Rattle.model.specs.Lists.{seek_from};
ghost use Rattle.model.specs.Rules.{answer, check, passed};
ghost use Rattle.model.specs.Image.{tree_of, node_count};
ghost use Rattle.model.specs.Containment.{validated};
ghost use Rattle.model.specs.Values.{sids_rules};
ghost use Rattle.model.specs.Validation.{section_check, node_check_at, node_check, image_check, counts, validation};
ghost use Rattle.model.specs.Given.{NodesTo};
ghost use Rattle.model.specs.Answers.{stage_tells, validation_tells};
ghost use Rattle.index.specs.Index.{Index};
ghost use Rattle.section_data.specs.Ranges.{overlap_at, Faces};
ghost use Rattle.parents.specs.Parents.{parents_broken};

mod sizes; // sizes.rt: the DataSize of an array

use labels::Role;
use model::{Rejection, Validation};
pub use sizes::data_size;

// Rules 27 to 39 where node i is a section.
fn section_stage(
    image: &[u8],
    index: &[u16],
    i: usize,
    overlap: Option<usize>,
    parents: Option<usize>,
    firsts: &[u64],
    reach: &[u64],
    faces: usize,
    levels: &mut [u32],
) -> Result<(), Rejection>
    requires nodes_to { NodesTo image.now i × Index image.now index.now }
    requires i_value { validated (tree_of image.now) i ≡ true }
    requires i_value_2 { check i (sids_rules (tree_of image.now) i) ≡ passed }
    requires overlap_value { (overlap ≡ if_below (node_count image.now) (seek_from (overlap_at (tree_of image.now)) (node_count image.now) 0))
        × (parents ≡ if_below (node_count image.now) (seek_from (parents_broken (tree_of image.now)) (node_count image.now) 0)) }
    requires faces { Faces (tree_of image.now) firsts.now reach.now faces × (2048 ≤ length levels.old) }
    ensures { stage_tells result ≡ section_check (tree_of image.now) i }
{
    if index::role_of(image, index, i) == Role::Elements {
        return elements::element_stage(
            image, index, i, overlap, parents, firsts, reach, faces, levels,
        );
    }
    Ok(())
}

// Rules 20 to 39 at node i, to which validation has come; a node that is not validated is skipped.
fn node_stage(
    image: &[u8],
    index: &[u16],
    i: usize,
    overlap: Option<usize>,
    parents: Option<usize>,
    firsts: &[u64],
    reach: &[u64],
    faces: usize,
    levels: &mut [u32],
) -> Result<(), Rejection>
    requires nodes_to { NodesTo image.now i × Index image.now index.now }
    requires overlap_value { (overlap ≡ if_below (node_count image.now) (seek_from (overlap_at (tree_of image.now)) (node_count image.now) 0))
        × (parents ≡ if_below (node_count image.now) (seek_from (parents_broken (tree_of image.now)) (node_count image.now) 0)) }
    requires faces { Faces (tree_of image.now) firsts.now reach.now faces × (2048 ≤ length levels.old) }
    ensures { stage_tells result ≡ node_check_at (tree_of image.now) i }
{
    if !index::is_validated(image, index, i) {
        return Ok(());
    }
    sids::sids_stage(image, index, i)?;
    section_stage(
        image, index, i, overlap, parents, firsts, reach, faces, levels,
    )
}

// Rules 20 to 39 at every node, the lowest node first. `overlap` is the first node that breaks rule 28, `parents` the first that breaks rule 39; the tables
// hold the faces of all zones.
fn every_node(
    image: &[u8],
    index: &[u16],
    overlap: Option<usize>,
    parents: Option<usize>,
    firsts: &[u64],
    reach: &[u64],
    faces: usize,
    levels: &mut [u32],
) -> Result<(), Rejection>
    requires index { Index image.now index.now }
    requires overlap_value { (overlap ≡ if_below (node_count image.now) (seek_from (overlap_at (tree_of image.now)) (node_count image.now) 0))
        × (parents ≡ if_below (node_count image.now) (seek_from (parents_broken (tree_of image.now)) (node_count image.now) 0)) }
    requires faces { Faces (tree_of image.now) firsts.now reach.now faces × (2048 ≤ length levels.old) }
    ensures { stage_tells result ≡ node_check (tree_of image.now) }
{
    for i in 0..labels::node_count(image) {
        node_stage(
            image, index, i, overlap, parents, firsts, reach, faces, levels,
        )?;
    }
    Ok(())
}

// The same, where the element ranges are not gathered yet.
fn nodes_stage(
    image: &[u8],
    index: &[u16],
    firsts: &mut [u64],
    reach: &mut [u64],
    levels: &mut [u32],
) -> Result<(), Rejection>
    requires index { Index image.now index.now × (2048 ≤ length levels.old) }
    requires in_bounds { (2048 ≤ length firsts.old) × (2048 ≤ length reach.old) }
    ensures { stage_tells result ≡ node_check (tree_of image.now) }
{
    let overlap = section_data::first_overlap(image, index, firsts, reach);
    let parents = parents::first_broken(image, index, firsts, reach);
    let faces = section_data::gather_faces(image, index, firsts, reach);
    every_node(image, index, overlap, parents, firsts, reach, faces, levels)
}

// Every rule, 1 to 39, as one stage, in lent tables. The index is that of the image where rules 1 to 18 hold.
pub fn image_stage_with(
    image: &[u8],
    index: &mut [u16],
    firsts: &mut [u64],
    reach: &mut [u64],
    levels: &mut [u32],
) -> Result<(), Rejection>
    requires in_bounds { (16384 ≤ length index.old) × (2048 ≤ length levels.old) }
    requires in_bounds_2 { (2048 ≤ length firsts.old) × (2048 ≤ length reach.old) }
    ensures { (stage_tells result ≡ image_check image.now) × (stage_tells result ≡ passed → Index image.now index.new) }
{
    table::table_stage_with(image, index)?;
    index::build(image, index);
    nodes_stage(image, index, firsts, reach, levels)
}

// The same, where the index alone is lent.
pub fn image_stage(image: &[u8], index: &mut [u16]) -> Result<(), Rejection>
    requires { 16384 ≤ length index.old }
    ensures { (stage_tells result ≡ image_check image.now) × (stage_tells result ≡ passed → Index image.now index.new) }
{
    let mut firsts: [u64; 2048] = [0; 2048];
    let mut reach: [u64; 2048] = [0; 2048];
    let mut levels: [u32; 2048] = [0; 2048];
    image_stage_with(image, index, &mut firsts, &mut reach, &mut levels)
}

// The four counts of an image in which rules 1 to 18 hold.
fn counted(image: &[u8], index: &[u16]) -> Validation
    requires { Index image.now index.now }
    ensures { validation_tells (Ok result) ≡ answer (counts (tree_of image.now)) }
{
    let n = labels::node_count(image);
    let mut validated: u64 = 0;
    let mut zones: u64 = 0;
    let mut sections: u64 = 0;
    for i in 0..n {
        let kind = index::kind_of(image, index, i);
        validated += u64::from(kind.is_some());
        zones += u64::from(kind == Some(Role::Zone));
        sections += u64::from(kind == Some(Role::Elements));
    }
    Validation {
        validated,
        skipped: n as u64 - validated,
        zones,
        sections,
    }
}

// Whether the image meets every rule: the counts of validated nodes, skipped nodes, zones and sections; otherwise the first broken rule and its node, and of rules 34 to 37 the
// entry that breaks it.
pub fn validate(image: &[u8]) -> Result<Validation, Rejection>
    ensures { validation_tells result ≡ validation image.now }
{
    let mut index: [u16; 16384] = [0; 16384];
    image_stage(image, &mut index)?;
    Ok(counted(image, &index))
}
