ghost use Rattle.std.specs.Prelude.{◌≡◌, ◌+◌, ◌<◌, true, false, length, slice_index, MatchResult};
ghost use Rattle.values.specs.Tables.{rows_of};
ghost use Rattle.values.specs.declared.refusal.Refusal.TheVariants.{Undeclared};
ghost use Rattle.verdict.specs.Outcomes.{lookup};
ghost use Rattle.verdict.specs.Bodies.{operations, operators, number_from, fault_if, list_head, integer_head, boolean_head, error_head, name_head, operation_head, tagcase_head, for_head, forall_head, call_head, record_head, field_head, union_head, array_head, head_at};
ghost use Rattle.language.specs.Sorts.{declared, has_fault, element_of, fields_of, tags_of, element_in, fields_in, tags_in};
ghost use Rattle.numbers.specs.Faults.{of_code};
ghost use Rattle.module_check.specs.Views.{rows_in, context_in, names_in};
ghost use Rattle.module_check.specs.Reading.{Taken, Listed};

use crate::lists::is_declared;
use crate::reader::Reader;
use crate::scene::Scene;
use language::{Binary, Leaf, Merge, One, Two, Unary};
use merging::{BooleanMerge, IntegerMerge};
use numbers::{BasicFault, Fault, Number};
use values::{Members, Refusal, Row, Types};
use verdict::{Head, Sort};

// What an operation code says. It and the next read two tables into one type, which can have one TryFrom only.
fn operation_of(code: u8) -> Option<Head>
    ensures { result ≡ lookup operations code }
{
    match code {
        1 => Some(Head::Two(Two::Binary(Binary::Plus))),
        2 => Some(Head::Two(Two::Binary(Binary::Minus))),
        3 => Some(Head::Two(Two::Binary(Binary::Times))),
        4 => Some(Head::Two(Two::Binary(Binary::Divide))),
        5 => Some(Head::Two(Two::Binary(Binary::Modulo))),
        6 => Some(Head::Two(Two::Binary(Binary::Max))),
        7 => Some(Head::Two(Two::Binary(Binary::Min))),
        8 => Some(Head::One(One::Unary(Unary::Negate))),
        9 => Some(Head::One(One::Unary(Unary::Abs))),
        10 => Some(Head::Two(Two::Binary(Binary::Equal))),
        11 => Some(Head::Two(Two::Binary(Binary::Unequal))),
        12 => Some(Head::Two(Two::Binary(Binary::Less))),
        13 => Some(Head::Two(Two::Binary(Binary::AtMost))),
        14 => Some(Head::Two(Two::Binary(Binary::Greater))),
        15 => Some(Head::Two(Two::Binary(Binary::AtLeast))),
        16 => Some(Head::Two(Two::Binary(Binary::And))),
        17 => Some(Head::Two(Two::Binary(Binary::Or))),
        18 => Some(Head::One(One::Unary(Unary::Not))),
        19 => Some(Head::One(One::Unary(Unary::IsFault(Fault::Undef)))),
        20 => Some(Head::One(One::Unary(Unary::IsFault(Fault::MissElt)))),
        21 => Some(Head::One(One::Unary(Unary::IsFault(Fault::PosOver)))),
        22 => Some(Head::One(One::Unary(Unary::IsFault(Fault::NegOver)))),
        23 => Some(Head::One(One::Unary(Unary::IsFault(Fault::Unknown)))),
        24 => Some(Head::One(One::Unary(Unary::IsFault(Fault::ZeroDivide)))),
        25 => Some(Head::One(One::Unary(Unary::IsError))),
        26 => Some(Head::One(One::Unary(Unary::Lowest))),
        27 => Some(Head::One(One::Unary(Unary::Highest))),
        28 => Some(Head::One(One::Unary(Unary::Size))),
        _ => None,
    }
}

// What the number of a merge with an operator says.
fn operator_of(code: u8) -> Option<Head>
    ensures { result ≡ lookup operators code }
{
    match code {
        1 => Some(Head::Forall(Merge::Integers(IntegerMerge::Plus), 1)),
        2 => Some(Head::Forall(Merge::Integers(IntegerMerge::Times), 1)),
        3 => Some(Head::Forall(Merge::Integers(IntegerMerge::Max), 1)),
        4 => Some(Head::Forall(Merge::Integers(IntegerMerge::Min), 1)),
        5 => Some(Head::Forall(Merge::Booleans(BooleanMerge::And), 0)),
        6 => Some(Head::Forall(Merge::Booleans(BooleanMerge::Or), 0)),
        _ => None,
    }
}

// The number that four bytes say, if it is a proper one.
fn number_from(bytes: [u8; 4]) -> Option<Number>
    ensures { result ≡ number_from (slice_index bytes 0) (slice_index bytes 1) (slice_index bytes 2) (slice_index bytes 3) }
{
    Number::new(i32::from_be_bytes(bytes))
}

// Whether an error value is one of a type.
pub(crate) fn has_fault(number: u8, fault: Fault) -> bool
    ensures { result ≡ has_fault number fault }
{
    number == 1 || BasicFault::try_from(fault).is_ok()
}

// The error value with a code, if it is one of the type.
fn fault_of(number: u8, code: u8) -> Option<Fault>
    ensures { result ≡ fault_if number (of_code code) }
{
    Fault::try_from(code)
        .ok()
        .filter(|fault| has_fault(number, *fault))
}

// The type of an array row's elements. It and the next two differ in the variant that they match, which cannot be passed
// but as a closure around the same match.
pub(crate) fn element_of(types: &Types, number: u8) -> Option<u8>
    ensures { result ≡ element_of (rows_of types.now) number }
{
    match types.row(number)? {
        Row::Array(element) => Some(element),
        _ => None,
    }
}

// The types of a record row's fields.
pub(crate) fn fields_of(types: &Types, number: u8) -> Option<Members>
    ensures { Listed (fields_of (rows_of types.now) number) result }
{
    match types.row(number)? {
        Row::Record(members) => Some(members),
        _ => None,
    }
}

// The types of a union row's constituents.
pub(crate) fn tags_of(types: &Types, number: u8) -> Option<Members>
    ensures { Listed (tags_of (rows_of types.now) number) result }
{
    match types.row(number)? {
        Row::Union(members) => Some(members),
        _ => None,
    }
}

// A type that the record at start names must be there.
fn declared(scene: &Scene, number: u8, start: usize) -> Result<(), Refusal>
    ensures { MatchResult result (λ _. declared (rows_in scene.now) number ≡ true) (λ e. (declared (rows_in scene.now) number ≡ false) × (e ≡ Undeclared start)) }
{
    if is_declared(number, scene.tables.types.len()) {
        Ok(())
    } else {
        Err(Refusal::Undeclared(start))
    }
}

impl Reader {
    fn list_head(&mut self, bytes: &[u8]) -> Result<Head, Refusal>
        ensures { Taken (list_head bytes.now self.old.at) self.old self.new result }
    {
        self.count(bytes, 2).map(Head::List)
    }

    fn tagcase_head(&mut self, bytes: &[u8]) -> Result<Head, Refusal>
        ensures { Taken (tagcase_head bytes.now self.old.at) self.old self.new result }
    {
        self.count(bytes, 1).map(Head::Tagcase)
    }

    fn integer_head(&mut self, bytes: &[u8]) -> Result<Head, Refusal>
        ensures { Taken (integer_head bytes.now self.old.at) self.old self.new result }
    {
        let start = self.at;
        let number = number_from(self.body(bytes)?).ok_or(Refusal::Strange(start))?;
        Ok(Head::Leaf(Leaf::Integer(number), 1))
    }

    fn boolean_head(&mut self, bytes: &[u8]) -> Result<Head, Refusal>
        ensures { Taken (boolean_head bytes.now self.old.at) self.old self.new result }
    {
        let start = self.at;
        let [value] = self.body::<1>(bytes)?;
        if value < 2 {
            Ok(Head::Leaf(Leaf::Boolean(value == 1), 0))
        } else {
            Err(Refusal::Strange(start))
        }
    }

    fn error_head(&mut self, scene: &Scene) -> Result<Head, Refusal>
        ensures { Taken (error_head (rows_in scene.now) scene.now.bytes.now self.old.at) self.old self.new result }
    {
        let start = self.at;
        let [code, number] = self.body::<2>(scene.bytes)?;
        declared(scene, number, start)?;
        let fault = fault_of(number, code).ok_or(Refusal::Clash(start))?;
        Ok(Head::Leaf(Leaf::Error(fault, number), number))
    }

    fn name_head(&mut self, scene: &Scene) -> Result<Head, Refusal>
        ensures { Taken (name_head scene.now.bytes.now (names_in scene.now) self.old.at) self.old self.new result }
    {
        let start = self.at;
        let [name] = self.body::<1>(scene.bytes)?;
        let number = scene.scope.find(name).ok_or(Refusal::Undeclared(start))?;
        Ok(Head::Leaf(Leaf::Name(name), number))
    }

    fn operation_head(&mut self, bytes: &[u8]) -> Result<Head, Refusal>
        ensures { Taken (operation_head bytes.now self.old.at) self.old self.new result }
    {
        let start = self.at;
        let [code] = self.body::<1>(bytes)?;
        operation_of(code).ok_or(Refusal::Strange(start))
    }

    fn for_head(&mut self, scene: &Scene) -> Result<Head, Refusal>
        ensures { Taken (for_head (rows_in scene.now) scene.now.bytes.now self.old.at) self.old self.new result }
    {
        let results = self.count(scene.bytes, 1)?;
        let members = self.uses(scene.bytes, results, scene.tables.types.len())?;
        Ok(Head::For(members))
    }

    fn forall_head(&mut self, scene: &Scene) -> Result<Head, Refusal>
        ensures { Taken (forall_head (rows_in scene.now) scene.now.bytes.now self.old.at) self.old self.new result }
    {
        let start = self.at;
        let [operator, number] = self.body::<2>(scene.bytes)?;
        if operator == 0 {
            declared(scene, number, start)?;
            let element = element_of(&scene.tables.types, number).ok_or(Refusal::Clash(start))?;
            return Ok(Head::Forall(Merge::Collect(number), element));
        }
        match operator_of(operator) {
            Some(head) if number == 0 => Ok(head),
            _ => Err(Refusal::Strange(start)),
        }
    }

    fn call_head(&mut self, scene: &Scene) -> Result<Head, Refusal>
        ensures { Taken (call_head (context_in scene.now) scene.now.bytes.now self.old.at) self.old self.new result }
    {
        let start = self.at;
        let [function] = self.body::<1>(scene.bytes)?;
        if (function as usize) < scene.tables.functions.len() {
            Ok(Head::One(One::Call(function)))
        } else {
            Err(Refusal::Undeclared(start))
        }
    }

    // As array_head, but for what it asks of the row and what it makes: both passed in would be as long.
    fn record_head(&mut self, scene: &Scene) -> Result<Head, Refusal>
        ensures { Taken (record_head (rows_in scene.now) scene.now.bytes.now self.old.at) self.old self.new result }
    {
        let start = self.at;
        let [number] = self.body::<1>(scene.bytes)?;
        declared(scene, number, start)?;
        fields_of(&scene.tables.types, number).ok_or(Refusal::Clash(start))?;
        Ok(Head::One(One::Record(number)))
    }

    fn field_head(&mut self, bytes: &[u8]) -> Result<Head, Refusal>
        ensures { Taken (field_head bytes.now self.old.at) self.old self.new result }
    {
        let [field] = self.body::<1>(bytes)?;
        Ok(Head::One(One::Field(field)))
    }

    fn union_head(&mut self, scene: &Scene) -> Result<Head, Refusal>
        ensures { Taken (union_head (rows_in scene.now) scene.now.bytes.now self.old.at) self.old self.new result }
    {
        let start = self.at;
        let [number, tag] = self.body::<2>(scene.bytes)?;
        declared(scene, number, start)?;
        let constituents = tags_of(&scene.tables.types, number).ok_or(Refusal::Clash(start))?;
        constituents.get(tag).ok_or(Refusal::Undeclared(start))?;
        Ok(Head::One(One::Union(number, tag)))
    }

    fn array_head(&mut self, scene: &Scene) -> Result<Head, Refusal>
        ensures { Taken (array_head (rows_in scene.now) scene.now.bytes.now self.old.at) self.old self.new result }
    {
        let start = self.at;
        let [number] = self.body::<1>(scene.bytes)?;
        declared(scene, number, start)?;
        element_of(&scene.tables.types, number).ok_or(Refusal::Clash(start))?;
        Ok(Head::Two(Two::Array(number)))
    }

    // The head of a record without a body.
    fn bare(&mut self, bytes: &[u8], head: Head) -> Head
        requires { self.old.at < length bytes.now }
        ensures kept { self.new.nodes ≡ self.old.nodes }
        ensures behind { self.new.at ≡ self.old.at + 1 }
        ensures head { result ≡ head }
    {
        self.at += 1;
        head
    }

    // What the record that begins here says before its parts.
    pub(crate) fn head(&mut self, scene: &Scene, sort: Sort) -> Result<Head, Refusal>
        requires { self.old.at < length scene.now.bytes.now }
        ensures { Taken (head_at (context_in scene.now) scene.now.bytes.now (names_in scene.now) sort self.old.at) self.old self.new result }
    {
        match sort {
            Sort::List => self.list_head(scene.bytes),
            Sort::Integer => self.integer_head(scene.bytes),
            Sort::Boolean => self.boolean_head(scene.bytes),
            Sort::Error => self.error_head(scene),
            Sort::Name => self.name_head(scene),
            Sort::Operation => self.operation_head(scene.bytes),
            Sort::If => Ok(self.bare(scene.bytes, Head::If)),
            Sort::Let => Ok(self.bare(scene.bytes, Head::Let)),
            Sort::Tagcase => self.tagcase_head(scene.bytes),
            Sort::For => self.for_head(scene),
            Sort::Iter => Ok(self.bare(scene.bytes, Head::Iter)),
            Sort::Forall => self.forall_head(scene),
            Sort::Call => self.call_head(scene),
            Sort::Record => self.record_head(scene),
            Sort::Field => self.field_head(scene.bytes),
            Sort::Union => self.union_head(scene),
            Sort::Array => self.array_head(scene),
            Sort::Element => Ok(self.bare(scene.bytes, Head::Two(Two::Element))),
        }
    }
}
