ghost use Rattle.std.specs.Prelude.{◌≡◌, ◌+◌, ◌-◌, ◌<◌, ◌≤◌, [], ◌∷◌, ◌++◌, length, vec_len, slice_index, slice_set};
ghost use Rattle.values.specs.Rows.{used};
ghost use Rattle.verdict.specs.declared.kinds.Head.TheVariants.{One as one_head, Two as two_head, List as list_head, If as if_head, Let as let_head, Tagcase as tagcase_head, For as for_head, Forall as forall_head};
ghost use Rattle.verdict.specs.Expressions.{one_at, two_at, list_at, if_at, let_at, tagcase_at, arms_at, for_at, forall_at, parts_at, if_end_at, let_end_at, tagcase_end_at, ends_at, end_parts_at, goes_on};
ghost use Rattle.module_check.specs.Views.{context_in, counts_in, names_in, expr_in, end_in};
ghost use Rattle.module_check.specs.Reading.{Fit, Opened, GoesOn, ExprRead, PartsRead, ArmsRead, AskedRead, EndRead, EndPartsRead, EndsRead};

use crate::enclosing::Enclosing;
use crate::lists::single;
use crate::parent::Parent;
use crate::parent::judging::{end_noted, is_one, is_single, lead, merge_type, noted};
use crate::reader::Reader;
use crate::scene::Scene;
use language::{Block, Kind, Merge, Node, One, Two};
use values::{Members, Refusal};
use verdict::{Head, Sort};

// Whether a record of this kind at the end of a loop is no expression.
fn is_end(sort: Sort) -> bool
    ensures { result ≡ goes_on sort }
{
    matches!(sort, Sort::If | Sort::Let | Sort::Tagcase | Sort::Iter)
}

impl Reader {
    // Notes a record whose kind and span are not known yet.
    fn open(&mut self) -> Result<usize, Refusal>
        ensures still { self.new.at ≡ self.old.at }
        ensures opened { Opened self.old.nodes.items self.new.nodes.items result }
    {
        let here = self.nodes.len();
        self.nodes.push(Node {
            kind: Kind::Block(Block::Let),
            span: 0,
        })?;
        Ok(here)
    }

    // Completes it after its last part.
    fn close(&mut self, here: usize, kind: Kind)
        requires { here < vec_len self.old.nodes }
        ensures still { self.new.at ≡ self.old.at }
        ensures closed { self.new.nodes.items ≡ slice_set self.old.nodes.items here (record { kind = kind; span = vec_len self.old.nodes - here }) }
    {
        let span = self.nodes.len() - here;
        self.nodes[here] = Node { kind, span };
    }

    // An expression: the types of its values. The end of a loop is told its results and names, and answers nothing: one
    // function for an expression and for an end would take these as an Option and answer one, so that each kind of record
    // that may stand at either has a function for each.
    #[cycle(expressions)]
    pub(crate) fn expr(&mut self, scene: &Scene) -> Result<Members, Refusal>
        ensures { GoesOn (ExprRead (counts_in scene.now) (expr_in scene.now (names_in scene.now) self.old.at)) self.old self.new result }
    {
        let start = self.at;
        let sort = self.kind(scene.bytes)?;
        if scene.room == 0 {
            return Err(Refusal::Deep(start));
        }
        let here = self.open()?;
        let head = self.head(scene, sort)?;
        let parent = Parent {
            scene: Scene {
                room: scene.room - 1,
                ..*scene
            },
            start,
        };
        let types = self.parts(&parent, head)?;
        self.close(here, noted(head, types));
        Ok(types)
    }

    // The parts of a record.
    #[cycle(expressions)]
    fn parts(&mut self, parent: &Parent, head: Head) -> Result<Members, Refusal>
        requires { Fit head }
        ensures { GoesOn (PartsRead (counts_in parent.now.scene) head (parts_at (context_in parent.now.scene) (expr_in parent.now.scene) (end_in parent.now.scene) head (names_in parent.now.scene) parent.now.start self.old.at)) self.old self.new result }
    {
        match head {
            Head::Leaf(_, number) => Ok(single(number)),
            Head::One(one) => self.one(parent, one),
            Head::Two(two) => self.two(parent, two),
            Head::List(members) => self.list(parent, members),
            Head::If => self.branch(parent),
            Head::Let => self.binding(parent),
            Head::Tagcase(arms) => self.tagcase(parent, arms),
            Head::For(results) => self.cycle(parent, results),
            Head::Forall(merge, part) => self.forall(parent, merge, part),
            Head::Iter => Err(Refusal::Strange(parent.start)),
        }
    }

    #[cycle(expressions)]
    fn one(&mut self, parent: &Parent, one: One) -> Result<Members, Refusal>
        ensures { GoesOn (PartsRead (counts_in parent.now.scene) (one_head one) (one_at (context_in parent.now.scene) (expr_in parent.now.scene) one (names_in parent.now.scene) parent.now.start self.old.at)) self.old self.new result }
    {
        let part = self.expr(&parent.scene)?;
        parent.judge_one(one, part)
    }

    #[cycle(expressions)]
    fn two(&mut self, parent: &Parent, two: Two) -> Result<Members, Refusal>
        ensures { GoesOn (PartsRead (counts_in parent.now.scene) (two_head two) (two_at (context_in parent.now.scene) (expr_in parent.now.scene) two (names_in parent.now.scene) parent.now.start self.old.at)) self.old self.new result }
    {
        let first = self.expr(&parent.scene)?;
        let second = self.expr(&parent.scene)?;
        parent.judge_two(two, first, second)
    }

    // The members have one value each; all are read before that is judged. Members are made of eight places and a count.
    #[cycle(expressions)]
    fn list(&mut self, parent: &Parent, members: u8) -> Result<Members, Refusal>
        requires { (2 ≤ members) × (members ≤ 8) }
        ensures { GoesOn (PartsRead (counts_in parent.now.scene) (list_head members) (list_at (expr_in parent.now.scene) members (names_in parent.now.scene) parent.now.start self.old.at)) self.old self.new result }
    {
        let mut numbers = [0; 8];
        let mut singles = true;
        for number in &mut numbers[..members as usize] {
            let part = self.expr(&parent.scene)?;
            singles &= is_single(part);
            *number = lead(part);
        }
        if !singles {
            return Err(Refusal::Clash(parent.start));
        }
        let Some(types) = Members::new(numbers, members) else {
            unreachable()
        };
        Ok(types)
    }

    // Tests that are joined, here and in `forall`, are asked by an `if`: as an argument of `clash_unless` their branches meet
    // before the call, and the proof loses which of them failed.
    #[cycle(expressions)]
    fn branch(&mut self, parent: &Parent) -> Result<Members, Refusal>
        ensures { GoesOn (PartsRead (counts_in parent.now.scene) if_head (if_at (expr_in parent.now.scene) (names_in parent.now.scene) parent.now.start self.old.at)) self.old self.new result }
    {
        let test = self.expr(&parent.scene)?;
        let taken = self.expr(&parent.scene)?;
        let other = self.expr(&parent.scene)?;
        if is_one(0, test) && taken == other {
            Ok(taken)
        } else {
            Err(Refusal::Clash(parent.start))
        }
    }

    #[cycle(expressions)]
    fn binding(&mut self, parent: &Parent) -> Result<Members, Refusal>
        ensures { GoesOn (PartsRead (counts_in parent.now.scene) let_head (let_at (expr_in parent.now.scene) (names_in parent.now.scene) parent.now.start self.old.at)) self.old self.new result }
    {
        let definition = self.expr(&parent.scene)?;
        let scope = &parent.extend(definition)?;
        self.expr(&Scene {
            scope,
            ..parent.scene
        })
    }

    #[cycle(expressions)]
    fn tagcase(&mut self, parent: &Parent, arms: u8) -> Result<Members, Refusal>
        ensures { GoesOn (PartsRead (counts_in parent.now.scene) (tagcase_head arms) (tagcase_at (context_in parent.now.scene) (expr_in parent.now.scene) arms (names_in parent.now.scene) parent.now.start self.old.at)) self.old self.new result }
    {
        let test = self.expr(&parent.scene)?;
        let constituents = parent.arms_of(arms, test)?;
        if parent.scene.scope.is_full() {
            return Err(Refusal::Deep(parent.start));
        }
        self.arms(parent, constituents)
    }

    // An arm for each constituent; all have the types of the first, and all are read before that is judged.
    #[cycle(expressions)]
    fn arms(&mut self, parent: &Parent, constituents: Members) -> Result<Members, Refusal>
        requires { length (names_in parent.now.scene) < 96 }
        ensures { GoesOn (ArmsRead (counts_in parent.now.scene) parent.now.start (length (used constituents)) (arms_at (expr_in parent.now.scene) (used constituents) (names_in parent.now.scene) self.old.at)) self.old self.new result }
    {
        let mut first = None;
        let mut agree = true;
        for constituent in constituents.as_slice() {
            let scope = &parent.scene.scope.with(*constituent);
            let types = self.expr(&Scene {
                scope,
                ..parent.scene
            })?;
            let shared = first.unwrap_or(types);
            agree &= shared == types;
            first = Some(shared);
        }
        let Some(types) = first else { unreachable() };
        parent.clash_unless(agree)?;
        Ok(types)
    }

    #[cycle(expressions)]
    fn cycle(&mut self, parent: &Parent, results: Members) -> Result<Members, Refusal>
        ensures { GoesOn (PartsRead (counts_in parent.now.scene) (for_head results) (for_at (expr_in parent.now.scene) (end_in parent.now.scene) (used results) (names_in parent.now.scene) parent.now.start self.old.at)) self.old self.new result }
    {
        let names = self.expr(&parent.scene)?;
        let scope = &parent.extend(names)?;
        self.end(
            &Scene {
                scope,
                ..parent.scene
            },
            Enclosing { results, names },
        )?;
        Ok(results)
    }

    #[cycle(expressions)]
    fn forall(&mut self, parent: &Parent, merge: Merge, part: u8) -> Result<Members, Refusal>
        ensures { GoesOn (PartsRead (counts_in parent.now.scene) (forall_head merge part) (forall_at (expr_in parent.now.scene) merge part (names_in parent.now.scene) parent.now.start self.old.at)) self.old self.new result }
    {
        let low = self.expr(&parent.scene)?;
        let high = self.expr(&parent.scene)?;
        let scope = &parent.extend(single(1))?;
        let types = self.expr(&Scene {
            scope,
            ..parent.scene
        })?;
        if is_one(1, low) && is_one(1, high) && is_one(part, types) {
            Ok(single(merge_type(merge)))
        } else {
            Err(Refusal::Clash(parent.start))
        }
    }

    // An expression of these types; the parent is at fault where it has others.
    #[cycle(expressions)]
    pub(crate) fn asked(&mut self, parent: &Parent, types: Members) -> Result<(), Refusal>
        ensures { GoesOn (AskedRead (counts_in parent.now.scene) (used types) parent.now.start (expr_in parent.now.scene (names_in parent.now.scene) self.old.at)) self.old self.new result }
    {
        let found = self.expr(&parent.scene)?;
        parent.clash_unless(types == found)?;
        Ok(())
    }

    // The end of a loop. An expression there has the loop's results, and is judged at its own record.
    #[cycle(expressions)]
    fn end(&mut self, scene: &Scene, enclosing: Enclosing) -> Result<(), Refusal>
        ensures { GoesOn (EndRead (counts_in scene.now) (length (used enclosing.results)) (end_in scene.now (used enclosing.results) (used enclosing.names) (names_in scene.now) self.old.at)) self.old self.new result }
    {
        let start = self.at;
        let sort = self.end_kind(scene.bytes)?;
        if !is_end(sort) {
            let scene = *scene;
            return self.asked(&Parent { scene, start }, enclosing.results);
        }
        if scene.room == 0 {
            return Err(Refusal::Deep(start));
        }
        let here = self.open()?;
        let head = self.head(scene, sort)?;
        let parent = Parent {
            scene: Scene {
                room: scene.room - 1,
                ..*scene
            },
            start,
        };
        self.end_parts(&parent, head, enclosing)?;
        self.close(here, end_noted(head, enclosing.results));
        Ok(())
    }

    // The parts of a record there; an iter carries the types of the loop's names.
    #[cycle(expressions)]
    fn end_parts(
        &mut self,
        parent: &Parent,
        head: Head,
        enclosing: Enclosing,
    ) -> Result<(), Refusal>
        ensures { GoesOn (EndPartsRead (counts_in parent.now.scene) (used enclosing.results) head (end_parts_at (context_in parent.now.scene) (expr_in parent.now.scene) (end_in parent.now.scene) head (used enclosing.results) (used enclosing.names) (names_in parent.now.scene) parent.now.start self.old.at)) self.old self.new result }
    {
        match head {
            Head::If => self.end_if(parent, enclosing),
            Head::Let => self.end_let(parent, enclosing),
            Head::Tagcase(arms) => self.end_tag(parent, arms, enclosing),
            Head::Iter => self.asked(parent, enclosing.names),
            _ => Err(Refusal::Strange(parent.start)),
        }
    }

    #[cycle(expressions)]
    fn end_if(&mut self, parent: &Parent, enclosing: Enclosing) -> Result<(), Refusal>
        ensures { GoesOn (EndPartsRead (counts_in parent.now.scene) (used enclosing.results) if_head (if_end_at (expr_in parent.now.scene) (end_in parent.now.scene) (used enclosing.results) (used enclosing.names) (names_in parent.now.scene) parent.now.start self.old.at)) self.old self.new result }
    {
        let test = self.expr(&parent.scene)?;
        self.end(&parent.scene, enclosing)?;
        self.end(&parent.scene, enclosing)?;
        parent.clash_unless(is_one(0, test))?;
        Ok(())
    }

    #[cycle(expressions)]
    fn end_let(&mut self, parent: &Parent, enclosing: Enclosing) -> Result<(), Refusal>
        ensures { GoesOn (EndPartsRead (counts_in parent.now.scene) (used enclosing.results) let_head (let_end_at (expr_in parent.now.scene) (end_in parent.now.scene) (used enclosing.results) (used enclosing.names) (names_in parent.now.scene) parent.now.start self.old.at)) self.old self.new result }
    {
        let definition = self.expr(&parent.scene)?;
        let scope = &parent.extend(definition)?;
        self.end(
            &Scene {
                scope,
                ..parent.scene
            },
            enclosing,
        )
    }

    #[cycle(expressions)]
    fn end_tag(&mut self, parent: &Parent, arms: u8, enclosing: Enclosing) -> Result<(), Refusal>
        ensures { GoesOn (EndPartsRead (counts_in parent.now.scene) (used enclosing.results) (tagcase_head arms) (tagcase_end_at (context_in parent.now.scene) (expr_in parent.now.scene) (end_in parent.now.scene) arms (used enclosing.results) (used enclosing.names) (names_in parent.now.scene) parent.now.start self.old.at)) self.old self.new result }
    {
        let test = self.expr(&parent.scene)?;
        let constituents = parent.arms_of(arms, test)?;
        if parent.scene.scope.is_full() {
            return Err(Refusal::Deep(parent.start));
        }
        self.ends(&parent.scene, constituents, enclosing)
    }

    #[cycle(expressions)]
    fn ends(
        &mut self,
        scene: &Scene,
        constituents: Members,
        enclosing: Enclosing,
    ) -> Result<(), Refusal>
        requires { length (names_in scene.now) < 96 }
        ensures { GoesOn (EndsRead (counts_in scene.now) (length (used enclosing.results)) (length (used constituents)) (ends_at (end_in scene.now) (used enclosing.results) (used enclosing.names) (used constituents) (names_in scene.now) self.old.at)) self.old self.new result }
    {
        for constituent in constituents.as_slice() {
            let scope = &scene.scope.with(*constituent);
            self.end(&Scene { scope, ..*scene }, enclosing)?;
        }
        Ok(())
    }
}
