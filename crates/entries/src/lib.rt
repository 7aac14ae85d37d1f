// Section entries as numbers and as bytes: written to a list of numbers, read from one, read from bytes.
#![tactic(auto)]

ghost use Rattle.std.specs.Prelude.{◌≡◌, ◌+◌, ◌≤◌, ◌<◌, length};
ghost use Rattle.std.proofs.lemmas.List.Edits.{sets};
ghost use Rattle.model.specs.Sections.{entry_length, entry_numbers};
ghost use Rattle.model.specs.Reads.{entries_in, section_at};
ghost use Rattle.model.specs.Exports.{section_size, section_in};

use model::Section;

// How many numbers an entry has, and how many bytes as 64-bit words.
pub const ENTRY_LENGTH: usize = 11;

pub const ENTRY_BYTES: usize = 88;

// Writes the numbers of an entry to `out` from k on; the rest stays.
pub fn put_entry(out: &mut [u64], k: usize, e: Section)
    requires { k + entry_length ≤ length out.old }
    ensures { out.new ≡ sets out.old k (entry_numbers e) }
{
    out[k] = e.node;
    out[k + 1] = e.element_type;
    out[k + 2] = e.first;
    out[k + 3] = e.last;
    out[k + 4] = e.offsets_at;
    out[k + 5] = e.offsets_width;
    out[k + 6] = e.connectivity_at;
    out[k + 7] = e.connectivity_width;
    out[k + 8] = e.connectivity_length;
    out[k + 9] = e.parents_at;
    out[k + 10] = e.parents_width;
}

// The k-th entry of a list.
pub fn section_at(entries: &[u64], k: usize) -> Section
    requires { k < entries_in entries.now }
    ensures { result ≡ section_at entries.now k }
{
    let i = ENTRY_LENGTH * k;
    Section {
        node: entries[i],
        element_type: entries[i + 1],
        first: entries[i + 2],
        last: entries[i + 3],
        offsets_at: entries[i + 4],
        offsets_width: entries[i + 5],
        connectivity_at: entries[i + 6],
        connectivity_width: entries[i + 7],
        connectivity_length: entries[i + 8],
        parents_at: entries[i + 9],
        parents_width: entries[i + 10],
    }
}

// The entry in the first bytes, as 64-bit words.
pub fn section_in(s: &[u8]) -> Section
    requires { section_size ≤ length s.now }
    ensures { result ≡ section_in s.now }
{
    Section {
        node: words::u64_at(s, 0),
        element_type: words::u64_at(s, 8),
        first: words::u64_at(s, 16),
        last: words::u64_at(s, 24),
        offsets_at: words::u64_at(s, 32),
        offsets_width: words::u64_at(s, 40),
        connectivity_at: words::u64_at(s, 48),
        connectivity_width: words::u64_at(s, 56),
        connectivity_length: words::u64_at(s, 64),
        parents_at: words::u64_at(s, 72),
        parents_width: words::u64_at(s, 80),
    }
}
