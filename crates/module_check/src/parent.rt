use crate::scene::Scene;

// A record whose parts are read: what they are read under, and where it begins.
#[derive(Clone, Copy)]
pub struct Parent<'a> {
    pub scene: Scene<'a>,
    pub start: usize,
}

pub mod judging;
