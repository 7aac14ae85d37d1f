// One face of a zone of an accepted image: the section that brings it, and the parents that it has there.
ghost use Rattle.std.specs.Prelude.{◌≡◌, true, [], ◌∷◌, ◌≤◌, ◌<◌};
ghost use Rattle.model.specs.Found.{if_below};
ghost use Rattle.model.specs.Lists.{some_from};
ghost use Rattle.model.specs.Rules.{◌unless◌, answer, check, ◌gives◌};
ghost use Rattle.model.specs.Answers.{parents_tells};
ghost use Rattle.model.specs.Image.{tree_of, node_count};
ghost use Rattle.model.specs.Given.{Accepted};
ghost use Rattle.model.specs.Containment.{found};
ghost use Rattle.model.specs.Elements.{element_count, in_range, has_face, face_of, section_with_face, parents_of};
ghost use Rattle.model.specs.ParentElements.{stored_parents, has_parents};
ghost use Rattle.index.specs.Index.{Index};
ghost use Rattle.face_places.specs.ZoneSections.{Section};
ghost use Rattle.face_parents.specs.Parents.{Columns};

use super::rows_of::{has_parents, parents_row};
use element_types::NGON;
use face_places::zone_sections::{has_type, span_of};
use model::{ParentPair, Rejection};
use rows::number_at;

// Does node s bring face f to zone z?
fn has_face(image: &[u8], index: &[u16], z: usize, f: u64, s: usize) -> bool
    requires { Accepted image.now × (Index image.now index.now × (s < node_count image.now)) }
    ensures { result ≡ has_face (tree_of image.now) z f s }
{
    if !has_type(image, index, z, s, NGON) {
        return false;
    }
    let span = span_of(image, index, s);
    if f < span.first {
        return false;
    }
    f <= span.last
}

// The section that brings face f to zone z.
pub fn section_with_face(image: &[u8], index: &[u16], z: usize, f: u64) -> Option<usize>
    requires { Accepted image.now × Index image.now index.now }
    ensures { result ≡ if_below (node_count image.now) (section_with_face (tree_of image.now) z f) }
{
    (0..labels::node_count(image)).find(|s| has_face(image, index, z, f, *s))
}

// Does a face section of zone z have the parents of its faces?
pub fn any_parents(image: &[u8], index: &[u16], z: usize) -> bool
    requires { Accepted image.now × Index image.now index.now }
    ensures { result ≡ some_from (has_parents (tree_of image.now) z) (node_count image.now) 0 }
{
    (0..labels::node_count(image)).any(|s| has_parents(image, index, z, s))
}

// The parents of face f, which section s stores in node a.
fn stored_parents(image: &[u8], index: &[u16], s: usize, a: usize, f: u64) -> ParentPair
    requires section { Section image.now index.now s × (in_range (tree_of image.now) s f ≡ true) }
    requires a_value { (a ≡ parents_of (tree_of image.now) s) × Columns image.now a (element_count (tree_of image.now) s) }
    ensures { parents_tells (Ok result) ≡ answer (stored_parents (tree_of image.now) s f) }
{
    let span = span_of(image, index, s);
    let row = parents_row(image, Some(a));
    let k = (f - span.first) as usize;
    let n = (span.last - span.first + 1) as usize;
    let first = number_at(image, row, k);
    let second = number_at(image, row, n + k);
    ParentPair { first, second }
}

// The parents of face f of zone z, as its section stores them: 41 where f is no face of the zone, 54 where its section has no parents.
pub fn parents_of_face(
    image: &[u8],
    index: &[u16],
    z: usize,
    f: u64,
) -> Result<ParentPair, Rejection>
    requires { Accepted image.now × Index image.now index.now }
    ensures { parents_tells result
        ≡ (check 0 (41 unless face_of (tree_of image.now) z f
        ∷ 54 unless found (tree_of image.now) (parents_of (tree_of image.now) (section_with_face (tree_of image.now) z f))
        ∷ [])
        gives stored_parents (tree_of image.now) (section_with_face (tree_of image.now) z f) f) }
{
    let Some(s) = section_with_face(image, index, z, f) else {
        return Err(Rejection::at(41, 0));
    };
    let Some(a) = sids::parents_of(image, index, s, NGON) else {
        return Err(Rejection::at(54, 0));
    };
    Ok(stored_parents(image, index, s, a, f))
}
