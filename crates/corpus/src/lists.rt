// Section entries as structs.
use super::print;
use super::print::Entry;
use model::Section;
use std::io;
use std::io::Print;

// An entry whose numbers are all 170.
fn blank() -> Section {
    Section {
        node: 170,
        element_type: 170,
        first: 170,
        last: 170,
        offsets_at: 170,
        offsets_width: 170,
        connectivity_at: 170,
        connectivity_width: 170,
        connectivity_length: 170,
        parents_at: 170,
        parents_width: 170,
    }
}

// The section entries with room for so many structs, each number 170 before; the list afterwards.
pub fn list_into<P: Print>(to: &P, image: &[u8], zone: u64, room: usize) -> io::Result<()> {
    if 16 < room {
        return Ok(());
    }
    let mut list = [blank(); 16];
    let answer = sections::list_sections(&mut list[..room], image, zone);
    print::answer(to, "entries", answer)?;
    print!(to; " room")?;
    for s in &list[..room] {
        print!(to; " {}", Entry(*s))?;
    }
    Ok(())
}
