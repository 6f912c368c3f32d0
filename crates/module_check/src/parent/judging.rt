ghost use Rattle.std.specs.Prelude.{◌≡◌, [], ◌∷◌, true, false, length, slice_index, MatchResult};
ghost use Rattle.values.specs.declared.refusal.Refusal.TheVariants.{Clash};
ghost use Rattle.std.specs.List.{slice_get};
ghost use Rattle.values.specs.Rows.{used};
ghost use Rattle.values.specs.Tables.{rows_of};
ghost use Rattle.language.specs.Sorts.{same, present, takes, gives, operand, result_of, merged_type};
ghost use Rattle.language.specs.declared.node.One.TheVariants.{Unary as unary, Call as call, Record as record_of, Field as field_of, Union as union_of};
ghost use Rattle.language.specs.declared.node.Two.TheVariants.{Binary as binary, Array as array_of, Element as element_at};
ghost use Rattle.verdict.specs.Judging.{single as the_one, judge_one, judge_two, bound, arms_of};
ghost use Rattle.module_check.specs.Views.{names_in, context_in, kind_of, end_kind_of};
ghost use Rattle.module_check.specs.Reading.{Judged, Extended};

use crate::lists::{all_are, single};
use crate::parent::Parent;
use crate::reader::heads::{element_of, fields_of, has_fault, tags_of};
use crate::scope::Scope;
use language::{Binary, Block, End, Kind, Merge, One, Two, Unary};
use values::{Members, Refusal, Types};
use verdict::Head;

// The type of a single value.
fn only(types: Members) -> Option<u8>
    ensures { result ≡ the_one (used types) }
{
    match types.as_slice() {
        [number] => Some(*number),
        _ => None,
    }
}

// Whether there is one value, of this type.
pub(crate) fn is_one(number: u8, types: Members) -> bool
    ensures { result ≡ same (number ∷ []) (used types) }
{
    single(number) == types
}

// Whether there is one value.
pub(crate) fn is_single(types: Members) -> bool
    ensures { result ≡ present (the_one (used types)) }
{
    only(types).is_some()
}

// The first type.
pub(crate) fn lead(types: Members) -> u8
    ensures { result ≡ slice_index (used types) 0 }
{
    types.as_slice()[0]
}

// Whether an operation takes an operand of a type.
fn takes_operand(types: &Types, operation: Unary, number: u8) -> bool
    ensures { result ≡ takes (rows_of types.now) operation number }
{
    match operation {
        Unary::Negate | Unary::Abs => number == 1,
        Unary::Not => number == 0,
        Unary::IsFault(fault) => has_fault(number, fault),
        Unary::IsError => true,
        Unary::Lowest | Unary::Highest | Unary::Size => element_of(types, number).is_some(),
    }
}

// The type of an operation's result.
fn gives_type(operation: Unary) -> u8
    ensures { result ≡ gives operation }
{
    match operation {
        Unary::Negate | Unary::Abs => 1,
        Unary::Not | Unary::IsFault(_) | Unary::IsError => 0,
        Unary::Lowest | Unary::Highest | Unary::Size => 1,
    }
}

// The type of both operands of an operation.
fn operand_type(operation: Binary) -> u8
    ensures { result ≡ operand operation }
{
    match operation {
        Binary::And | Binary::Or => 0,
        _ => 1,
    }
}

fn result_type(operation: Binary) -> u8
    ensures { result ≡ result_of operation }
{
    match operation {
        Binary::Plus
        | Binary::Minus
        | Binary::Times
        | Binary::Divide
        | Binary::Modulo
        | Binary::Max
        | Binary::Min => 1,
        _ => 0,
    }
}

// The type of what a merge makes.
pub(crate) fn merge_type(merge: Merge) -> u8
    ensures { result ≡ merged_type merge }
{
    match merge {
        Merge::Collect(row) => row,
        Merge::Integers(_) => 1,
        Merge::Booleans(_) => 0,
    }
}

// What a record is noted as, by its head and the types of its values.
pub(crate) fn noted(head: Head, types: Members) -> Kind
    ensures { result ≡ kind_of head (used types) }
{
    match head {
        Head::Leaf(leaf, _) => Kind::Leaf(leaf),
        Head::One(one) => Kind::One(one),
        Head::Two(two) => Kind::Two(two),
        Head::List(members) => Kind::Block(Block::List(members)),
        Head::If => Kind::Block(Block::If(types.count())),
        Head::Let => Kind::Block(Block::Let),
        Head::Tagcase(arms) => Kind::Block(Block::Tagcase(arms, types.count())),
        Head::For(results) => Kind::Block(Block::For(results.count())),
        Head::Forall(merge, _) => Kind::Block(Block::Forall(merge)),
        Head::Iter => Kind::End(End::Iter),
    }
}

// The same at the end of a loop with these results.
pub(crate) fn end_noted(head: Head, results: Members) -> Kind
    ensures { result ≡ end_kind_of head (used results) }
{
    match head {
        Head::If => Kind::End(End::If(results.count())),
        Head::Let => Kind::End(End::Let),
        Head::Tagcase(arms) => Kind::End(End::Tagcase(arms, results.count())),
        _ => Kind::End(End::Iter),
    }
}

impl Parent<'_> {
    // Refuses the record unless this holds.
    pub(crate) fn clash_unless(&self, holds: bool) -> Result<(), Refusal>
        ensures { MatchResult result (λ _. holds ≡ true) (λ e. (holds ≡ false) × (e ≡ Clash self.now.start)) }
    {
        if holds {
            Ok(())
        } else {
            Err(Refusal::Clash(self.start))
        }
    }

    fn unary(&self, operation: Unary, part: Members) -> Result<Members, Refusal>
        ensures { Judged (judge_one (context_in self.now.scene) (unary operation) (used part) self.now.start) result }
    {
        let number = only(part).ok_or(Refusal::Clash(self.start))?;
        self.clash_unless(takes_operand(&self.scene.tables.types, operation, number))?;
        Ok(single(gives_type(operation)))
    }

    fn call(&self, function: u8, part: Members) -> Result<Members, Refusal>
        ensures { Judged (judge_one (context_in self.now.scene) (call function) (used part) self.now.start) result }
    {
        let functions = &self.scene.tables.functions;
        let callee = functions
            .get(function as usize)
            .ok_or(Refusal::Clash(self.start))?;
        self.clash_unless(callee.parameters == part)?;
        Ok(callee.results)
    }

    fn record(&self, number: u8, part: Members) -> Result<Members, Refusal>
        ensures { Judged (judge_one (context_in self.now.scene) (record_of number) (used part) self.now.start) result }
    {
        let fields = fields_of(&self.scene.tables.types, number).ok_or(Refusal::Clash(self.start))?;
        self.clash_unless(fields == part)?;
        Ok(single(number))
    }

    fn field(&self, field: u8, part: Members) -> Result<Members, Refusal>
        ensures { Judged (judge_one (context_in self.now.scene) (field_of field) (used part) self.now.start) result }
    {
        let number = only(part).ok_or(Refusal::Clash(self.start))?;
        let fields = fields_of(&self.scene.tables.types, number).ok_or(Refusal::Clash(self.start))?;
        let member = fields.get(field).ok_or(Refusal::Undeclared(self.start))?;
        Ok(single(member))
    }

    fn union(&self, number: u8, tag: u8, part: Members) -> Result<Members, Refusal>
        ensures { Judged (judge_one (context_in self.now.scene) (union_of number tag) (used part) self.now.start) result }
    {
        let types = &self.scene.tables.types;
        let constituents = tags_of(types, number).ok_or(Refusal::Clash(self.start))?;
        let constituent = constituents.get(tag).ok_or(Refusal::Clash(self.start))?;
        self.clash_unless(is_one(constituent, part))?;
        Ok(single(number))
    }

    // The types of a record with one part, whose values have these types.
    pub(crate) fn judge_one(&self, one: One, part: Members) -> Result<Members, Refusal>
        ensures { Judged (judge_one (context_in self.now.scene) one (used part) self.now.start) result }
    {
        match one {
            One::Unary(operation) => self.unary(operation, part),
            One::Call(function) => self.call(function, part),
            One::Record(number) => self.record(number, part),
            One::Field(field) => self.field(field, part),
            One::Union(number, tag) => self.union(number, tag, part),
        }
    }

    fn binary(&self, operation: Binary, first: Members, second: Members) -> Result<Members, Refusal>
        ensures { Judged (judge_two (context_in self.now.scene) (binary operation) (used first) (used second) self.now.start) result }
    {
        let number = operand_type(operation);
        self.clash_unless(is_one(number, first) && is_one(number, second))?;
        Ok(single(result_type(operation)))
    }

    fn array(&self, number: u8, low: Members, elements: Members) -> Result<Members, Refusal>
        ensures { Judged (judge_two (context_in self.now.scene) (array_of number) (used low) (used elements) self.now.start) result }
    {
        let types = &self.scene.tables.types;
        let element = element_of(types, number).ok_or(Refusal::Clash(self.start))?;
        self.clash_unless(is_one(1, low) && all_are(element, elements))?;
        Ok(single(number))
    }

    fn element(&self, array: Members, index: Members) -> Result<Members, Refusal>
        ensures { Judged (judge_two (context_in self.now.scene) element_at (used array) (used index) self.now.start) result }
    {
        let number = only(array).ok_or(Refusal::Clash(self.start))?;
        let types = &self.scene.tables.types;
        let element = element_of(types, number).ok_or(Refusal::Clash(self.start))?;
        self.clash_unless(is_one(1, index))?;
        Ok(single(element))
    }

    // The types of a record with two parts, whose values have these types.
    pub(crate) fn judge_two(
        &self,
        two: Two,
        first: Members,
        second: Members,
    ) -> Result<Members, Refusal>
        ensures { Judged (judge_two (context_in self.now.scene) two (used first) (used second) self.now.start) result }
    {
        match two {
            Two::Binary(operation) => self.binary(operation, first, second),
            Two::Array(number) => self.array(number, first, second),
            Two::Element => self.element(first, second),
        }
    }

    // The types of the constituents of the union that a tagcase with so many arms tests.
    pub(crate) fn arms_of(&self, arms: u8, test: Members) -> Result<Members, Refusal>
        ensures { Judged (arms_of (context_in self.now.scene) arms (used test) self.now.start) result }
    {
        let number = only(test).ok_or(Refusal::Clash(self.start))?;
        let types = &self.scene.tables.types;
        let constituents = tags_of(types, number).ok_or(Refusal::Clash(self.start))?;
        self.clash_unless(arms == constituents.count())?;
        Ok(constituents)
    }

    // The scope with the names that the record at start binds.
    pub(crate) fn extend(&self, more: Members) -> Result<Scope, Refusal>
        ensures { Extended (bound (names_in self.now.scene) (used more) self.now.start) result }
    {
        self.scene
            .scope
            .with_all(more)
            .ok_or(Refusal::Deep(self.start))
    }
}
