use merging::{BooleanMerge, IntegerMerge};

// What a forall makes of its parts: an array, whose row is named by its type number, or what an operator on integers
// or on booleans makes of them.
#[derive(Clone, Copy)]
pub enum Merge {
    Collect(u8),
    Integers(IntegerMerge),
    Booleans(BooleanMerge),
}
