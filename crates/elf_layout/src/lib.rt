// How a file that passes 25 and all of 26 but its names lies in its bytes.
#![tactic(auto)]

use object_view::{Strings, View};

// The view of it, where its two string tables end, and the number of its symbol table, 0 where it has none.
#[derive(Clone, Copy)]
pub struct Layout {
    pub view: View,
    pub ends: Strings,
    pub table: u32,
}
