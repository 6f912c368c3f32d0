use crate::scope::Scope;
use crate::tables::Tables;

// What an expression is read under: the bytes, the tables of what stands before it, the names in scope, and how many
// more records may be opened.
#[derive(Clone, Copy)]
pub struct Scene<'a> {
    pub bytes: &'a [u8],
    pub tables: &'a Tables,
    pub scope: &'a Scope,
    pub room: usize,
}
