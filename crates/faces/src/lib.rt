// The faces of a zone. Face usage (document 01: the face ledger): how often, and with which sign, cells refer to each face. The parents of a face, as its
// section stores them, and whether they agree with the cells.
#![tactic(auto)]

ghost use Rattle.std.specs.Prelude.{◌≡◌, length};
ghost use Rattle.model.specs.Answers.{usage_tells};
ghost use Rattle.model.specs.FaceUsage.{usage_answer, usage_memory};

mod parent_calls; // parent_calls.rt: the parents of a face, and whether they agree with the cells
mod workspace; // workspace.rt: what a call works in, and the steps that the calls share

use model::Rejection;
pub use parent_calls::{parents, parents_agree};
use workspace::Workspace;

// The usage of a zone's faces: validation's rejection, then 40, 44, 45, or how many faces the zone has, a byte for each written in front of `out`. On 45
// those bytes are 0; every other rejection leaves `out` as it was, and bytes after them never change.
pub fn face_usage(image: &[u8], zone: u64, out: &mut [u8]) -> Result<u64, Rejection>
    ensures { (usage_tells result ≡ usage_answer image.now zone (length out.old))
        × (out.new ≡ usage_memory image.now zone out.old) }
{
    let mut work = Workspace::new();
    let z = work.check_zone(image, zone)?;
    let mut places: [u64; 2049] = [0; 2049];
    let faces = work.gather_faces(image, z, &mut places, out.len())?;
    work.fill(image, faces, &places, out)
}
