// The parents of a face, as its section stores them, and whether a zone's agree with its cells (document 02, §7).
ghost use Rattle.std.specs.Prelude.{◌≡◌, length};
ghost use Rattle.model.specs.Answers.{parents_tells, agreement_tells};
ghost use Rattle.model.specs.ParentElements.{parents_answer, agreement_answer, agreement_memory};

use super::workspace::Workspace;
use agreement::zone_agrees;
use face_parents::{any_parents, parents_of_face};
use model::{ParentPair, Rejection};

// The parents of a face, as its section stores them: validation's rejection, then 40, 41 for a number that is no face of the zone, 54 where its section
// stores no parents.
pub fn parents(image: &[u8], zone: u64, face: u64) -> Result<ParentPair, Rejection>
    ensures { parents_tells result ≡ parents_answer image.now zone face }
{
    let mut work = Workspace::new();
    let z = work.check_zone(image, zone)?;
    parents_of_face(image, &work.index, z, face)
}

// Whether the parents that the zone's face sections store agree with its cells: validation's rejection, then 40, 54 where no section stores any, 44, 45.
// `out` is lent and left as by `face_usage`, after yes and after no; 54 leaves it as it was.
pub fn parents_agree(image: &[u8], zone: u64, out: &mut [u8]) -> Result<bool, Rejection>
    ensures { (agreement_tells result ≡ agreement_answer image.now zone (length out.old))
        × (out.new ≡ agreement_memory image.now zone out.old) }
{
    let mut work = Workspace::new();
    let z = work.check_zone(image, zone)?;
    if !any_parents(image, &work.index, z) {
        return Err(Rejection::at(54, 0));
    }
    let mut places: [u64; 2049] = [0; 2049];
    let faces = work.gather_faces(image, z, &mut places, out.len())?;
    work.fill(image, faces, &places, out)?;
    Ok(zone_agrees(
        image,
        &work.index,
        faces,
        &work.firsts,
        &work.reach,
        &places,
        &work.levels,
        out,
    ))
}
