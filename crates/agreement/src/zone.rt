// Whether the parents of a zone's faces agree with its cells.
ghost use Rattle.std.specs.Prelude.{◌≡◌, ℕ, ◌≤◌, ◌<◌, length, get_or};
ghost use Rattle.model.specs.Image.{tree_of, node_count};
ghost use Rattle.model.specs.FaceUsage.{face_count};
ghost use Rattle.model.specs.ParentElements.{all_agree};
ghost use Rattle.index.specs.Index.{Index};
ghost use Rattle.face_uses.specs.Uses.{Tables};
ghost use Rattle.agreement.specs.Arrays.{Arrays};
ghost use Rattle.agreement.specs.Matching.{Signs};

use super::arrays::gather_arrays;
use super::complete::zone_complete;
use super::matching::match_nodes;
use face_uses::uses::Faces;
use usage_bytes::parent_marks::clear_marks;

// The answer, with marks left in the bytes.
fn all_agree(
    image: &[u8],
    index: &[u16],
    faces: Faces,
    firsts: &[u64],
    reach: &[u64],
    places: &[u64],
    levels: &[u32],
    arrays: &[u16],
    out: &mut [u8],
) -> bool
    requires index { Index image.now index.now × (2048 ≤ length levels.now) }
    requires tables { Tables image.now faces firsts.now reach.now places.now (length out.old) }
    requires arrays { Arrays (tree_of image.now) faces.zone (node_count image.now) faces.count firsts.now arrays.now }
    requires by_index { (p : ℕ) → p < face_count (tree_of image.now) faces.zone → get_or out.old p 0 < 4 }
    ensures { (result ≡ all_agree (tree_of image.now) faces.zone)
        × Signs (face_count (tree_of image.now) faces.zone) out.old out.new }
{
    if !match_nodes(
        image, index, faces, firsts, reach, places, levels, arrays, out,
    ) {
        return false;
    }
    zone_complete(image, index, faces.zone, out)
}

// Do the parents of the zone's faces agree with its cells? The first F bytes are their usage, which is as it was afterwards.
pub fn zone_agrees(
    image: &[u8],
    index: &[u16],
    faces: Faces,
    firsts: &[u64],
    reach: &[u64],
    places: &[u64],
    levels: &[u32],
    out: &mut [u8],
) -> bool
    requires index { Index image.now index.now × (2048 ≤ length levels.now) }
    requires tables { Tables image.now faces firsts.now reach.now places.now (length out.old) }
    requires by_index { (p : ℕ) → p < face_count (tree_of image.now) faces.zone → get_or out.old p 0 < 4 }
    ensures { (result ≡ all_agree (tree_of image.now) faces.zone) × (out.new ≡ out.old) }
{
    let count = faces.count;
    let mut arrays: [u16; 2048] = [0; 2048];
    gather_arrays(image, index, faces.zone, firsts, reach, count, &mut arrays);
    let agrees = all_agree(
        image, index, faces, firsts, reach, places, levels, &arrays, out,
    );
    clear_marks(out, places[count] as usize);
    agrees
}
