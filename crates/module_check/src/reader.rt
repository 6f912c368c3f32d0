use language::Node;

// A place in the bytes, and the records of bodies that were read so far. The bytes stay a parameter: held here, each contract
// would have to say that they stay the same. Six contracts say `kept` beside a `reads` of their own shape: a record for each
// shape, as `Taken` is for one, would be as long.
#[derive(Drop)]
pub struct Reader {
    pub at: usize,
    pub nodes: Vec<Node>,
}

mod bytes;
mod functions;
pub mod heads;
mod parts;
mod rows;
