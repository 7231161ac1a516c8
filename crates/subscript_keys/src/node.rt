use crate::name::Name;
use crate::subs::Subs;

/// A node of a global: the global's name, and subscripts from the left. None of them: the global itself.
#[derive(Debug, Drop)]
pub struct Node {
    pub name: Name,
    pub subs: Subs,
}
