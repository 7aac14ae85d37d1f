// What a call works in, and the steps that the calls share: the image and the zone are checked, the zone's faces are gathered, their usage is filled in.
ghost use Rattle.std.specs.Prelude.{◌≡◌, [], ◌∷◌, ◌≤◌, length, leb};
ghost use Rattle.model.specs.Lists.{over};
ghost use Rattle.model.specs.Rules.{◌unless◌, answer, passed, check, ◌then◌, ◌gives◌, ◌into◌};
ghost use Rattle.model.specs.Answers.{tells, count_tells, usage_tells};
ghost use Rattle.model.specs.Image.{tree_of};
ghost use Rattle.model.specs.Given.{Accepted};
ghost use Rattle.model.specs.Containment.{is_zone};
ghost use Rattle.model.specs.FaceUsage.{face_count, usage, usage_bytes};
ghost use Rattle.model.specs.Validation.{image_check};
ghost use Rattle.index.specs.Index.{Index};
ghost use Rattle.face_uses.specs.Uses.{Tables};

use face_places::places::gather;
use face_uses::uses::{Faces, use_nodes};
use model::Rejection;
use ranges::search_tree;
use ranges::search_tree::SearchTree;
use usage_bytes::clear;

// The image's index, the first faces of ranges and how far they reach, and the levels of a search tree over them.
#[derive(Drop)]
pub struct Workspace {
    pub index: [u16; 16384],
    pub firsts: [u64; 2048],
    pub reach: [u64; 2048],
    pub levels: [u32; 2048],
}

impl Workspace {
    // An empty one.
    pub fn new() -> Workspace {
        Workspace {
            index: [0; 16384],
            firsts: [0; 2048],
            reach: [0; 2048],
            levels: [0; 2048],
        }
    }

    // The zone that a call asks about: the rejection of the image's check, then 40. The index is that of an accepted image.
    pub fn check_zone(&mut self, image: &[u8], zone: u64) -> Result<usize, Rejection>
        ensures answer { count_tells result
            ≡ (image_check image.now then check 0 (40 unless is_zone (tree_of image.now) zone ∷ []) gives zone) }
        ensures index { image_check image.now ≡ passed → Index image.now self.new.index }
    {
        let verdict = validation::image_stage_with(
            image,
            &mut self.index,
            &mut self.firsts,
            &mut self.reach,
            &mut self.levels,
        );
        verdict?;
        if !index::is_zone(image, &self.index, zone) {
            return Err(Rejection::at(40, 0));
        }
        Ok(zone as usize)
    }

    // Gathers the faces of zone z, and their places: 44 where there is no room for a byte a face. A tree is made where there are two face sections or more.
    pub fn gather_faces(
        &mut self,
        image: &[u8],
        z: usize,
        places: &mut [u64],
        room: usize,
    ) -> Result<Faces, Rejection>
        requires accepted { (Accepted image.now × Index image.now self.old.index) × (2049 ≤ length places.old) }
        ensures answer { tells (λ f. f.zone) result
            ≡ (check 0 (44 unless leb (face_count (tree_of image.now) z) room ∷ []) gives z) }
        ensures tables { (f : Faces) → result ≡ Ok f → Tables image.now f self.new.firsts self.new.reach places.new room }
        ensures index { Index image.now self.new.index }
    {
        let count = gather(
            image,
            &self.index,
            z,
            &mut self.firsts,
            &mut self.reach,
            places,
        );
        if (room as u64) < places[count] {
            return Err(Rejection::at(44, 0));
        }
        if count < 2 {
            let tree = SearchTree { from: 0, lowest: 0 };
            return Ok(Faces {
                zone: z,
                count,
                tree,
            });
        }
        let tree = search_tree::build(&self.firsts, count, 0, &mut self.levels);
        Ok(Faces {
            zone: z,
            count,
            tree,
        })
    }

    // Writes the usage of the gathered faces into the first F bytes: 45, and F zeros, where one is used twice with one sign.
    pub fn fill(
        &self,
        image: &[u8],
        faces: Faces,
        places: &[u64],
        out: &mut [u8],
    ) -> Result<u64, Rejection>
        requires index { Index image.now self.now.index }
        requires tables { Tables image.now faces self.now.firsts self.now.reach places.now (length out.old) }
        ensures result_value { usage_tells result
            ≡ (usage (tree_of image.now) faces.zone into λ bytes. answer (face_count (tree_of image.now) faces.zone)) }
        ensures out_after { out.new
            ≡ over out.old (usage_bytes (face_count (tree_of image.now) faces.zone) (usage (tree_of image.now) faces.zone)) }
    {
        let count = faces.count;
        let n = places[count];
        clear(out, n as usize);
        if let Err(r) = use_nodes(
            image,
            &self.index,
            faces,
            &self.firsts,
            &self.reach,
            places,
            &self.levels,
            out,
        ) {
            clear(out, n as usize);
            return Err(r);
        }
        Ok(n)
    }
}
