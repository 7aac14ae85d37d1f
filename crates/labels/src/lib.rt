// Labels and containment: the role of a node, which node holds which, the fixed names.
#![tactic(auto)]

ghost use Rattle.std.specs.Prelude.{◌≡◌, ◌≤◌};
ghost use Rattle.model.specs.Image.{node_count};
ghost use Rattle.model.specs.Bounds.{Laid};

mod containment; // containment.rt: the placing table, the fixed names
mod digits; // digits.rt: small numbers as digits of one number
mod known; // known.rt: the known labels and names as words
mod names; // names.rt: the known names
mod roles; // roles.rt: the roles, that of a label
mod texts; // texts.rt: texts compared in place

pub use containment::{may_hold, named};
pub use digits::digit;
pub use names::{Name, name_is, numbered_name};
use records::Header;
pub use roles::{Role, kind_number, numbered_role, role_of};
pub use texts::same_at;

// The node count.
pub fn node_count(image: &[u8]) -> usize
    requires { Laid image.now }
    ensures { (result ≡ node_count image.now) × (result ≤ 4096) }
{
    words::u32_at(image, Header::NODE_COUNT) as usize
}
