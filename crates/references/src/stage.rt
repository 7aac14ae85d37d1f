// Rules 38 and 34 to 37 of a section, by its type.
ghost use Rattle.std.specs.Prelude.{◌≡◌, ◌≤◌, length};
ghost use Rattle.model.specs.Image.{tree_of};
ghost use Rattle.model.specs.Values.{connectivity_of};
ghost use Rattle.model.specs.Elements.{element_type_of};
ghost use Rattle.model.specs.Rules.{check, passed};
ghost use Rattle.model.specs.Answers.{stage_tells};
ghost use Rattle.index.specs.Index.{Index};
ghost use Rattle.section_data.specs.Given.{RowOf, SectionContext};
ghost use Rattle.section_data.specs.Ranges.{Faces};
ghost use Rattle.references.specs.Groups.{shape_rules, connectivity_check};

use super::face_references::face_stage;
use super::mixed::mixed_stage;
use super::nodes::node_stage;
use element_types::{MIXED, NFACE};
use model::Rejection;
use rows::Row;

// Rules 38 and 34 to 37 at section s, where rules 29 to 33 hold; its connectivity is the row.
pub fn reference_stage(
    image: &[u8],
    index: &[u16],
    s: usize,
    element_type: u64,
    row: Row,
    firsts: &[u64],
    reach: &[u64],
    faces: usize,
    levels: &mut [u32],
) -> Result<(), Rejection>
    requires index { Index image.now index.now × SectionContext image.now s }
    requires row_of { RowOf image.now (connectivity_of (tree_of image.now) s) row × (element_type ≡ element_type_of (tree_of image.now) s) }
    requires faces { Faces (tree_of image.now) firsts.now reach.now faces × (2048 ≤ length levels.old) }
    requires s_value { check s (shape_rules (tree_of image.now) s) ≡ passed }
    ensures { stage_tells result ≡ connectivity_check (tree_of image.now) s }
{
    if element_type == MIXED {
        return mixed_stage(image, index, s, row);
    }
    if element_type == NFACE {
        return face_stage(image, index, s, row, firsts, reach, faces, levels);
    }
    node_stage(image, s, row)
}
